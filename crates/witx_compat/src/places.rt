//! Whether cases stand where the last case of each name stands.
#![tactic(auto, using(crate::proofs::Steps::place_rules))]

ghost use Rattle.std.specs.Prelude.{◌≡◌, ℕ, List, IfOk, IfSome};
ghost use Rattle.witx_ast.specs.Views.{cases_plain};
ghost use Rattle.witx_base.specs.Found.{found};
ghost use Rattle.witx_compat.specs.Heads.{all_placed, is_place};
ghost use Rattle.witx_compat.specs.Represents.{last_place, later_of, number_if};

use std::alloc::Global;
use witx_ast::{Case, Cases};
use witx_base::{Duplicate, Id, NameMap, OutOfMemory};

/// A table of the places, where cases are many and memory lasts.
type Places = Option<NameMap<usize>>;

/// From how many cases on a table is quicker than a search.
const MANY: usize = 16;

/// Whether each case stands where the last case of its name stands in `by`. Called at each level of types that are compared,
/// and so not inlined, which would take the room that it needs at each of them.
#[inline(never)]
pub fn are_placed(cases: &Cases, by: &Cases) -> bool
    ensures { result ≡ all_placed 0 (cases_plain cases.now) (cases_plain by.now) }
{
    let places = places_of(by.allocator(), by.as_slice());
    all_at_places(&places, cases.as_slice(), by.as_slice())
}

/// The same, by the places of the names in `by`; the first case that stands elsewhere ends the work.
fn all_at_places(places: &Places, cases: &[Case], by: &[Case]) -> bool
    requires { IfSome places.now (λ table. (name : List ℕ) → found table name ≡ last_place name (cases_plain by.now)) }
    ensures { result ≡ all_placed 0 (cases_plain cases.now) (cases_plain by.now) }
{
    for i in 0..cases.len() {
        if !is_at(i, place_of(places, by, &cases[i].name)) {
            return false;
        }
    }
    true
}

fn is_at(i: usize, place: Option<usize>) -> bool
    ensures { result ≡ is_place i place }
{
    match place {
        Some(j) => i == j,
        None => false,
    }
}

/// The last place of each name, where a table is worth its memory.
fn places_of(alloc: Global, cases: &[Case]) -> Places
    ensures { IfSome result (λ places. (name : List ℕ) → found places name ≡ last_place name (cases_plain cases.now)) }
{
    if cases.len() < MANY {
        return None;
    }
    last_places(alloc, cases).ok()
}

/// The last place of each name.
fn last_places(alloc: Global, cases: &[Case]) -> Result<NameMap<usize>, OutOfMemory>
    ensures { IfOk result (λ places. (name : List ℕ) → found places name ≡ last_place name (cases_plain cases.now)) }
{
    let mut places = NameMap::new(alloc);
    for i in 0..cases.len() {
        places.insert(cases[i].name.copy()?, i)?;
    }
    Ok(places)
}

/// The last place of a name, by the table; without one the cases are gone through.
fn place_of(places: &Places, cases: &[Case], name: &Id) -> Option<usize>
    requires { IfSome places.now (λ table. (name : List ℕ) → found table name ≡ last_place name (cases_plain cases.now)) }
    ensures { result ≡ last_place name.now (cases_plain cases.now) }
{
    match places {
        Some(table) => table.get(name).copied(),
        None => searched(cases, name),
    }
}

/// The last place of a name.
fn searched(cases: &[Case], name: &Id) -> Option<usize>
    ensures { result ≡ last_place name.now (cases_plain cases.now) }
{
    let mut last = None;
    for i in 0..cases.len() {
        last = later(last, i, *name == cases[i].name);
    }
    last
}

/// The later place, where the name is met there.
fn later(last: Option<usize>, i: usize, met: bool) -> Option<usize>
    ensures { result ≡ later_of last (number_if met i) }
{
    if met { Some(i) } else { last }
}
