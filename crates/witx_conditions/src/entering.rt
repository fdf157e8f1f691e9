//! Entries by name: of a document's definitions, and of a module's items, in the same way.

ghost use Rattle.std.specs.Prelude.{◌≡◌, ℕ, None, Some, IfOk, IfSome, List, Option, cond, false, is_none, map, true};
ghost use Rattle.std.specs.{Ordering.{is_eq, nat_cmp}, Cmp.Lexicographic.{slice_cmp}};
ghost use Rattle.witx_base.specs.Found.{found};
ghost use Rattle.witx_ast.specs.Entries.{Fits};
ghost use Rattle.witx_conditions.specs.{Making.{IsEntry, PutsOne, StandsTwice}, OwnNames.{HaveOwnNames}};

use std::alloc::Global;
use witx_base::{Id, NameMap, OutOfMemory};

/// What is defined, under its name if it has one.
pub(crate) trait Defined {
    /// What stands under the name.
    type Entry: Drop;

    ghost Tree: { Type 0 };

    ghost view: { Self → Tree };

    ghost name_of: { Tree → Option (List ℕ) };

    ghost tree: { Self.Entry → Tree };

    /// Its name, and what stands under the name; none where it has no name.
    fn entry(&self) -> Result<Option<(Id, Self::Entry)>, OutOfMemory>
        ensures { IfOk result (IsEntry name_of tree (view self.now)) };
}

/// The entries by name, none where two have one name.
#[tactic(auto, using(crate::proofs::Making::made_rules))]
pub(crate) fn entries_of<D: Defined>(
    alloc: Global,
    definitions: &[D],
) -> Result<Option<NameMap<D::Entry>>, OutOfMemory>
    ensures fits { IfOk result (λ o. IfSome o (Fits D.name_of D.tree (map D.view definitions.now))) }
    ensures twice { IfOk result (λ o. o ≡ None → HaveOwnNames D.name_of (map D.view definitions.now) → ⊥) }
{
    let mut entries = NameMap::new(alloc);
    for definition in definitions {
        if !put(&mut entries, definition)? {
            return Ok(None);
        }
    }
    Ok(Some(entries))
}

/// Puts the entry of a definition that has a name, and tells whether there was none of that name.
#[tactic(auto, using(crate::proofs::Making::put_rules))]
fn put<D: Defined>(entries: &mut NameMap<D::Entry>, definition: &D) -> Result<bool, OutOfMemory>
    ensures put { IfOk result (λ lacked. lacked ≡ true
        → PutsOne D.name_of D.tree (D.view definition.now) entries.old entries.new) }
    ensures twice { IfOk result (λ lacked. lacked ≡ false
        → StandsTwice D.name_of D.tree (D.view definition.now) entries.old) }
{
    match definition.entry()? {
        Some((name, entry)) => put_new(entries, name, entry),
        None => Ok(true),
    }
}

/// Puts an entry at a name, and tells whether there was none.
fn put_new<E: Drop>(entries: &mut NameMap<E>, name: Id, entry: E) -> Result<bool, OutOfMemory>
    ensures lacked { IfOk result (λ lacked. lacked ≡ true → found entries.old name ≡ None) }
    ensures put { IfOk result (λ lacked. lacked ≡ true →
        (q : _) → found entries.new q ≡ cond (is_eq (slice_cmp nat_cmp name q)) (Some entry) (found entries.old q)) }
    ensures held { IfOk result (λ lacked. lacked ≡ false → is_none (found entries.old name) ≡ false) }
{
    if entries.get(&name).is_some() {
        return Ok(false);
    }
    entries.insert(name, entry)?;
    Ok(true)
}
