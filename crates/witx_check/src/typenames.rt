//! Typenames.

ghost use Rattle.std.specs.Prelude.{◌≡◌, IfOk, IfErr, OnOk, Some, None};
ghost use Rattle.witx_ast.specs.Views.{named_tree};
ghost use Rattle.witx_scope.specs.{Faults.{first_fault}, Blame.{Blames}, Introduced.{AreIntroduced}};
ghost use Rattle.witx_scope.specs.{Names.{FindsOnOk}, Sites.{place_at, checks_typename, makes_typename}};
ghost use Rattle.witx_check.specs.Declaring.{with_declared, RefusesName, LeavesName};

use crate::types::checked_type;
use witx_ast::{Entries, NamedType};
use witx_scope::{CheckError, Names, Scope, Site, StepsLeft, Unfinished, introduce, named};
use witx_syntax_tree::TypenameSyntax;

/// The named type of a declaration whose name stands at `place`, and is taken in before the type
/// is checked.
#[tactic(auto, using(crate::proofs::Within::takes_rules))]
pub fn checked_typename(
    names: &mut Names,
    unfinished: &mut Unfinished,
    entries: &Entries,
    steps: &StepsLeft,
    site: Site<'_>,
    decl: &TypenameSyntax<'_>,
) -> Result<NamedType, CheckError>
    requires place { site.place ≡ place_at site decl.now.ident }
    requires introduced { AreIntroduced names.old unfinished.old entries.now }
    ensures ok { OnOk result (first_fault (checks_typename names.old entries.now site.entry decl.now) ≡ None) }
    ensures tree { IfOk result (λ n. named_tree n ≡ makes_typename names.old entries.now site.entry decl.now) }
    ensures name { IfOk result (λ n. n.name ≡ decl.now.ident.name.now) }
    ensures fault { IfErr result (λ e. Blames e (first_fault (checks_typename names.old entries.now site.entry decl.now))) }
    ensures kept { FindsOnOk result names.new (with_declared site.entry decl.now.ident names.old) }
    ensures refused { RefusesName result names.old names.new site.entry decl.now.ident }
    ensures left { LeavesName result names.old names.new site.entry decl.now.ident }
    ensures introduced_after { AreIntroduced names.new unfinished.new entries.now }
    ensures current { OnOk result (unfinished.new.current ≡ Some decl.now.ident.name.now) }
{
    let Site {
        text,
        path,
        place,
        comments,
    } = site;
    let at = decl.ident.span.start;
    let alloc = names.allocator();
    let name = introduce(names, unfinished, entries, steps, decl.ident.name, place)?;
    let scope = Scope {
        names,
        unfinished,
        entries,
        text,
        path,
        steps,
        alloc,
    };
    let tref = checked_type(&decl.def, &scope, true, at)?;
    Ok(named(name, tref, comments, alloc)?)
}
