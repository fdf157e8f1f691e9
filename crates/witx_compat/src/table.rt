//! The first parameter of each name, so that a name is found without a walk through all.
#![tactic(auto, using(crate::proofs::Tables::table_rules))]

ghost use Rattle.std.specs.Prelude.{◌≡◌, ℕ, List, IfOk, OnOk, map, is_some, None};
ghost use Rattle.witx_ast.specs.Functions.{param_field};
ghost use Rattle.witx_base.specs.SameBytes.{same_bytes};
ghost use Rattle.witx_compat.specs.{Polyfills.{prefer}, Halves.{named, IsTable, earlier_field, target_of}};
ghost use Rattle.witx_compat.specs.Views.{mapped_view};

use crate::conversion::ParamPolyfill;
use crate::part::Part;
use std::alloc::Global;
use witx_ast::InterfaceFuncParam;
use witx_base::{Duplicate, Id, NameMap, OutOfMemory};

/// Parameters, or results, by name.
pub type Table<'a> = NameMap<&'a InterfaceFuncParam>;

/// The first of each name.
pub fn table_of<'a>(
    alloc: Global,
    params: &'a [InterfaceFuncParam],
) -> Result<Table<'a>, OutOfMemory>
    ensures { IfOk result (λ table. IsTable table (map param_field params.now)) }
{
    let mut table = NameMap::new(alloc);
    for param in params {
        put_first(&mut table, param)?;
    }
    Ok(table)
}

/// The first target of each name.
pub fn table_of_targets<'a>(
    alloc: Global,
    part: Part,
    mapped: &'a [ParamPolyfill],
) -> Result<Table<'a>, OutOfMemory>
    ensures { IfOk result (λ table. IsTable table (map (target_of part) (map mapped_view mapped.now))) }
{
    let mut table = NameMap::new(alloc);
    for one in mapped {
        put_first(&mut table, part.target(one))?;
    }
    Ok(table)
}

/// Puts a parameter under its name, unless an earlier one is there.
fn put_first<'a>(table: &mut Table<'a>, param: &'a InterfaceFuncParam) -> Result<(), OutOfMemory>
    ensures { (q : List ℕ) → OnOk result (named table.new q
        ≡ earlier_field (named table.old q) (prefer (same_bytes param.now.name q) (param_field param.now) None)) }
{
    if is_named(table, &param.name) {
        return Ok(());
    }
    table.insert(param.name.copy()?, param)?;
    Ok(())
}

/// Whether the table has that name.
pub fn is_named(table: &Table<'_>, name: &Id) -> bool
    ensures { result ≡ is_some (named table.now name.now) }
{
    table.get(name).is_some()
}
