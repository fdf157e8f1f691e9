//! The cases of a variant, and the names of a tag, in whose order they stand.
#![tactic(auto, using(crate::proofs::NamePlaces::place_rules))]

ghost use Rattle.std.specs.Prelude.{◌≡◌, length, map, option_map, slice_get, cond, IfOk, OnOk, Some, None};
ghost use Rattle.std.specs.{Option.{option_or}, Ordering.{is_eq, nat_cmp}, Cmp.Lexicographic.{slice_cmp}};
ghost use Rattle.witx_base.specs.Found.{found};
ghost use Rattle.witx_ast.specs.Views.{tree_of, case_arm};
ghost use Rattle.witx_scope.specs.{Tags.{has_name, names_of_cases}, NamePlaces.{place_in, case_placed}};
ghost use Rattle.witx_scope.specs.Trees.{arm_called, bare_arm, in_order};

use crate::room::with_room;
use std::alloc::Global;
use std::marker::Model;
use witx_ast::{Case, Cases, TypeRef};
use witx_base::{Duplicate, Id, Items, NameMap, OutOfMemory, Text};

/// Names, and the first place of each.
type Places = NameMap<usize>;

/// The names of a tag, in order, each of which is found without a search.
///
/// Contracts see the list of the names.
#[derive(Drop)]
pub struct TagNames {
    names: Items<Id>,
    places: Places,
}

impl Model for TagNames {
    ghost use Rattle.std.specs.{Prelude.{List, ℕ, ◌≡◌}, Option.{is_some}};
    ghost use Rattle.witx_base.specs.Found.{found};
    ghost use Rattle.witx_scope.specs.Tags.{has_name};

    ghost Value = { List (List ℕ) };

    ghost view = { λ t. t.names };

    ghost invariant = { λ t. (n : List ℕ) → is_some (found t.places n) ≡ has_name t.names n };
}

impl TagNames {
    /// The names in this order.
    pub fn new(alloc: Global, names: Items<Id>) -> Result<TagNames, OutOfMemory>
        ensures { IfOk result (λ t. t ≡ names) }
    {
        let places = places_of(alloc, names.as_slice())?;
        Ok(TagNames { names, places })
    }

    /// The number of names.
    pub fn len(&self) -> usize
        ensures { result ≡ length self.now }
    {
        self.names.len()
    }

    /// The name numbered `i`, from 0; none past the end.
    pub fn get(&self, i: usize) -> Option<&Id>
        ensures { option_map (λ m. m.now) result ≡ slice_get self.now i }
    {
        self.names.get(i)
    }

    /// The names, borrowed.
    pub fn as_slice(&self) -> &[Id]
        ensures { result.now ≡ self.now }
    {
        self.names.as_slice()
    }

    /// Whether it is one of the names.
    pub fn has(&self, name: &Id) -> bool
        ensures { result ≡ has_name self.now name.now }
    {
        self.places.get(name).is_some()
    }
}

/// Puts a name at its place, unless it has one.
#[tactic(auto, using(crate::proofs::NamePlaces::first_rules))]
fn put_first(places: &mut Places, name: &Id, place: usize) -> Result<(), OutOfMemory>
    ensures { (n : _) → OnOk result (found places.new n
        ≡ option_or (found places.old n) (cond (is_eq (slice_cmp nat_cmp name.now n)) (Some place) None)) }
{
    if places.get(name).is_some() {
        return Ok(());
    }
    places.insert(name.copy()?, place)?;
    Ok(())
}

/// The first place of each name.
fn places_of(alloc: Global, names: &[Id]) -> Result<Places, OutOfMemory>
    ensures { (n : _) → IfOk result (λ places. found places n ≡ place_in names.now n) }
{
    let mut places = Places::new(alloc);
    for i in 0..names.len() {
        put_first(&mut places, &names[i], i)?;
    }
    Ok(places)
}

/// The names of the cases, in order.
#[tactic(auto, using(crate::proofs::ArmNames::name_rules))]
pub fn case_names(alloc: Global, cases: &[Case]) -> Result<Items<Id>, OutOfMemory>
    ensures { IfOk result (λ ns. ns ≡ names_of_cases cases.now) }
{
    let mut names: Items<Id> = with_room(alloc, cases.len())?;
    for case in cases {
        names.push(case.name.copy()?)?;
    }
    Ok(names)
}

/// A case without documentation.
#[tactic(auto, using(crate::proofs::Steps::step_rules))]
pub fn case_with(alloc: Global, name: &str, tref: Option<TypeRef>) -> Result<Case, OutOfMemory>
    ensures { IfOk result (λ c. case_arm c ≡ bare_arm name.now (option_map tree_of tref)) }
{
    Ok(Case {
        name: Id::new(alloc, name)?,
        tref,
        docs: Text::new(alloc, "")?,
    })
}

/// The case at the name's place.
fn case_at(alloc: Global, places: &Places, cases: &[Case], name: &Id) -> Result<Case, OutOfMemory>
    ensures { IfOk result (λ c. case_arm c ≡ case_placed cases.now (found places.now name.now) name.now) }
{
    if let Some(place) = places.get(name) {
        if let Some(case) = cases.get(*place) {
            return case.copy();
        }
    }
    case_with(alloc, name.as_str(), None)
}

/// The case of each name.
#[tactic(auto, using(crate::proofs::NamePlaces::turn_rules))]
fn in_turn(alloc: Global, names: &[Id], cases: &[Case]) -> Result<Cases, OutOfMemory>
    ensures { IfOk result (λ cs. map case_arm cs ≡ map (arm_called (map case_arm cases.now)) names.now) }
{
    let called = case_names(alloc, cases)?;
    let places = places_of(alloc, called.as_slice())?;
    let mut made: Cases = with_room(alloc, names.len())?;
    for name in names {
        made.push(case_at(alloc, &places, cases, name)?)?;
    }
    Ok(made)
}

/// The cases in the order of the tag's names.
pub fn ordered(alloc: Global, names: &Option<TagNames>, cases: Cases) -> Result<Cases, OutOfMemory>
    ensures { IfOk result (λ cs. map case_arm cs ≡ in_order names.now (map case_arm cases)) }
{
    match names {
        Some(names) => in_turn(alloc, names.as_slice(), cases.as_slice()),
        None => Ok(cases),
    }
}
