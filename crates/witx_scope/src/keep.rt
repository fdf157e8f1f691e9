//! Constants that are accepted, and where they are kept.

ghost use Rattle.std.specs.Prelude.{◌≡◌, ◌∷◌, ◌++◌, [], IfOk, OnOk, OnErr, None, map};
ghost use Rattle.witx_ast.specs.Definitions.{definition_tree, constant_of};
ghost use Rattle.witx_scope.specs.{Blame.{BlamesOnErr}, Constants.{PlacesOnOk, made_constant}};
ghost use Rattle.witx_scope.specs.{Faults.{first_fault}, Sites.{kept_in, place_at, checks_constant}};

use crate::constants::{ConstantName, ConstantPlaces, checked_constant};
use crate::error::CheckError;
use crate::place::SharedPlace;
use crate::site::Site;
use crate::tables::Tables;
use witx_ast::{Constant, Definition, Definitions};
use witx_base::{Duplicate, OutOfMemory};
use witx_syntax_tree::{ConstSyntax, Documented};

/// The two names of a constant.
fn constant_name(constant: &Constant) -> Result<ConstantName, OutOfMemory>
    ensures { IfOk result (λ key. (key.ty ≡ constant.now.ty) × (key.name ≡ constant.now.name)) }
{
    Ok(ConstantName {
        ty: constant.ty.copy()?,
        name: constant.name.copy()?,
    })
}

/// Keeps a place under two names, or nothing.
fn keep_place(
    places: &mut ConstantPlaces,
    key: ConstantName,
    place: SharedPlace,
) -> Result<(), OutOfMemory>
    ensures places { PlacesOnOk result places.old places.new key.ty key.name place }
    ensures unchanged { OnErr result (places.new.entries ≡ places.old.entries) }
{
    places.insert(key, place)?;
    Ok(())
}

/// Puts a constant behind the definitions, and under its two names the place of its name, or
/// neither.
#[tactic(auto, using(crate::proofs::ConstantSteps::constant_rules))]
fn keep_constant(
    places: &mut ConstantPlaces,
    place: SharedPlace,
    constant: Constant,
    definitions: &mut Definitions,
) -> Result<(), OutOfMemory>
    ensures appended { OnOk result (map definition_tree definitions.new
        ≡ map definition_tree definitions.old ++ constant_of constant ∷ []) }
    ensures places { PlacesOnOk result places.old places.new constant.ty constant.name place }
    ensures unchanged { OnErr result (definitions.new ≡ definitions.old) }
    ensures places_unchanged { OnErr result (places.new.entries ≡ places.old.entries) }
{
    let key = constant_name(&constant)?;
    let len = definitions.len();
    definitions.push(Definition::Constant(constant))?;
    match keep_place(places, key, place) {
        Ok(()) => Ok(()),
        Err(error) => {
            definitions.truncate(len);
            Err(error)
        }
    }
}

/// Takes a constant in, whose name stands at the place of the site; a refused one leaves nothing.
pub fn take_constant(
    tables: &mut Tables,
    site: Site<'_>,
    decl: &Documented<'_, ConstSyntax<'_>>,
    definitions: &mut Definitions,
) -> Result<(), CheckError>
    requires { site.place ≡ place_at site decl.now.item.name }
    ensures ok { OnOk result (first_fault (checks_constant (kept_in tables.old) site.entry decl.now.item) ≡ None) }
    ensures appended { OnOk result (map definition_tree definitions.new
        ≡ map definition_tree definitions.old ++ constant_of (made_constant decl.now) ∷ []) }
    ensures places { PlacesOnOk result tables.old.constants tables.new.constants
        decl.now.item.ty.name.now decl.now.item.name.name.now (place_at site.entry decl.now.item.name) }
    ensures fault { BlamesOnErr result (first_fault (checks_constant (kept_in tables.old) site.entry decl.now.item)) }
    ensures unchanged { OnErr result (definitions.new ≡ definitions.old) }
    ensures places_unchanged { OnErr result (tables.new.constants.entries ≡ tables.old.constants.entries) }
    ensures names { tables.new.names ≡ tables.old.names }
    ensures entries { tables.new.entries ≡ tables.old.entries }
{
    match checked_constant(tables, &site, decl) {
        Ok(constant) => {
            Ok(keep_constant(&mut tables.constants, site.place, constant, definitions)?)
        }
        Err(error) => Err(error),
    }
}
