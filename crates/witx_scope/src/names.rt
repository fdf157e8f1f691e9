//! Names that are introduced once, and what they denote.
#![tactic(auto, using(crate::proofs::Introducing::introduce_rules))]

ghost use Rattle.std.specs.Prelude.{◌≡◌, ◌||◌, ◌++◌, ◌∷◌, [], IfOk, IfErr, OnOk, OnErr, Some, None, true, option_map};
ghost use Rattle.std.specs.Option.{is_some};
ghost use Rattle.witx_base.specs.Found.{found};
ghost use Rattle.witx_scope.specs.Names.{FindsOnOk, new_mark, new_name};
ghost use Rattle.witx_scope.specs.{Introduced.{AreIntroduced, is_unfinished}, Positions.{is_same_name}};
ghost use Rattle.witx_scope.specs.{Blame.{Blames, BlamesOnErr}, Senses.{here_of}};
ghost use Rattle.witx_scope.specs.SyntaxChecks.{used_check, denoted_tree};
ghost use Rattle.witx_ast.specs.Views.{tree_of, named_tree};

use crate::error::CheckError;
use crate::faults::{known, known_mark, recursive, unknown, wrong_kind};
use crate::marks::Marks;
use crate::place::SharedPlace;
use crate::scope::{Names, Scope};
use crate::steps_left::StepsLeft;
use crate::unfinished::Unfinished;
use std::alloc::Global;
use std::rc::Rc;
use witx_ast::{Entries, Entry, NamedType, TypeRef};
use witx_base::{Duplicate, Id, OutOfMemory};
use witx_syntax_tree::IdSyntax;

/// Takes a name into a scope inside the declaration.
pub fn introduce_mark(
    marks: &mut Marks,
    scope: &Scope<'_>,
    name: &str,
    at: usize,
) -> Result<Id, CheckError>
    ensures ok { OnOk result (new_mark (here_of scope.now) marks.old name.now at ≡ None) }
    ensures id { IfOk result (λ id. id ≡ name.now) }
    ensures kept { FindsOnOk result marks.new ((name.now, at) ∷ marks.old) }
    ensures fault { BlamesOnErr result (new_mark (here_of scope.now) marks.old name.now at) }
{
    let id = Id::new(scope.alloc, name)?;
    match marks.take(id.copy()?, at)? {
        Some(before) => Err(known_mark(scope, &id, at, before)),
        None => Ok(id),
    }
}

/// Takes a name that may stand there into a scope inside the declaration.
#[tactic(auto, using(crate::proofs::Steps::step_rules))]
pub fn mark(marks: &mut Marks, name: Id, at: usize) -> Result<(), OutOfMemory>
    ensures { FindsOnOk result marks.new ((name, at) ∷ marks.old) }
{
    marks.insert(name, at)?;
    Ok(())
}

/// The place at which a name stands first.
pub(crate) fn place_of<'a, P>(names: &'a [(Id, P)], name: &Id) -> Option<&'a P>
    ensures { option_map (λ place. place.now) result ≡ found names.now name.now }
{
    for introduced in names {
        if introduced.0 == *name {
            return Some(&introduced.1);
        }
    }
    None
}

/// The fault of a name that is introduced already. Only here are the introduced names gone through.
fn repeated(names: &Names, alloc: Global, name: &Id, at: &SharedPlace) -> CheckError
    requires { is_some (found names.now name.now) ≡ true }
    ensures { Blames result (new_name names.now name.now at.now) }
{
    match place_of(names.as_slice(), name) {
        Some(before) => known(alloc, name, at, before),
        None => unreachable!(),
    }
}

/// Whether a name has an entry or is not finished.
fn is_introduced(unfinished: &Unfinished, entries: &Entries, name: &Id) -> bool
    ensures { result ≡ (is_some (found entries.now name.now) || is_unfinished unfinished.now name.now) }
{
    entries.get_new(name).is_some() || unfinished.has(name)
}

/// Puts a new name behind the others, as the one that is being declared.
fn begin(
    names: &mut Names,
    unfinished: &mut Unfinished,
    name: Id,
    at: SharedPlace,
) -> Result<(), OutOfMemory>
    ensures names { OnOk result (names.new ≡ names.old ++ (name, at) ∷ []) }
    ensures unfinished { (n : _) → OnOk result (is_unfinished unfinished.new n
        ≡ (is_same_name n name || is_unfinished unfinished.old n)) }
    ensures current { OnOk result (unfinished.new.current ≡ Some name) }
    ensures names_unchanged { OnErr result (names.new ≡ names.old) }
    ensures unfinished_unchanged { (n : _) → OnErr result (is_unfinished unfinished.new n
        ≡ is_unfinished unfinished.old n) }
{
    unfinished.settle()?;
    names.push((name.copy()?, at))?;
    unfinished.declare(name);
    Ok(())
}

/// Takes a name into the scope of the document, as the one that is being declared. Where it stands already, the
/// search for its place takes a step for each name.
#[tactic(auto, using(crate::proofs::Earlier::behind_rules))]
pub fn introduce(
    names: &mut Names,
    unfinished: &mut Unfinished,
    entries: &Entries,
    steps: &StepsLeft,
    name: &str,
    at: SharedPlace,
) -> Result<Id, CheckError>
    requires { AreIntroduced names.old unfinished.old entries.now }
    ensures ok { OnOk result (new_name names.old name.now at ≡ None) }
    ensures id { IfOk result (λ id. id ≡ name.now) }
    ensures kept { FindsOnOk result names.new ((name.now, at) ∷ names.old) }
    ensures fault { BlamesOnErr result (new_name names.old name.now at) }
    ensures err { IfErr result (λ _. names.new ≡ names.old) }
    ensures introduced { AreIntroduced names.new unfinished.new entries.now }
    ensures current { OnOk result (unfinished.new.current ≡ Some name.now) }
{
    let alloc = names.allocator();
    let id = Id::new(alloc, name)?;
    if is_introduced(unfinished, entries, &id) {
        steps.take(names.len())?;
        return Err(repeated(names, alloc, &id, &at));
    }
    begin(names, unfinished, id.copy()?, at)?;
    Ok(id)
}

/// The named type that a name denotes.
#[tactic(auto, using(crate::proofs::Introducing::used_rules), unfolding(crate::specs::Senses::here_of))]
pub fn denoted<'a>(scope: &Scope<'a>, name: &IdSyntax<'_>) -> Result<&'a Rc<NamedType>, CheckError>
    ensures ok { OnOk result (used_check (here_of scope.now) name.now ≡ None) }
    ensures tree { IfOk result (λ named. named_tree named.now.value ≡ denoted_tree (here_of scope.now) name.now) }
    ensures fault { BlamesOnErr result (used_check (here_of scope.now) name.now) }
{
    let at = name.span.start;
    let id = Id::new(scope.alloc, name.name)?;
    match scope.entries.get(&id) {
        Some(Entry::Typename(named)) => Ok(named),
        Some(Entry::Module(_)) => Err(wrong_kind(scope, name.name, "datatype", "module", at)),
        None => {
            if scope.unfinished.has(&id) {
                return Err(recursive(scope, name.name, at));
            }
            Err(unknown(scope, name.name, at))
        }
    }
}

/// The type that a name denotes.
#[tactic(auto, using(crate::proofs::Steps::step_rules))]
pub fn used(scope: &Scope<'_>, name: &IdSyntax<'_>) -> Result<TypeRef, CheckError>
    ensures ok { OnOk result (used_check (here_of scope.now) name.now ≡ None) }
    ensures tree { IfOk result (λ t. tree_of t ≡ denoted_tree (here_of scope.now) name.now) }
    ensures fault { BlamesOnErr result (used_check (here_of scope.now) name.now) }
{
    Ok(TypeRef::Name(denoted(scope, name)?.clone()?))
}
