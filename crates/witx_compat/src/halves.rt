//! The parameters, or the results, of two functions: those that are mapped, and those that are not.
#![tactic(auto, using(crate::proofs::Mapping::mapping_rules))]

ghost use Rattle.std.specs.Prelude.{◌≡◌, List, IfOk, OnOk, map, option_map, ◌++◌, ◌∷◌, []};
ghost use Rattle.std.specs.Option.{option_to_list};
ghost use Rattle.witx_ast.specs.{Functions.{param_field}, Tree.{Field}};
ghost use Rattle.witx_compat.specs.Polyfills.{paired, without, when_none};
ghost use Rattle.witx_compat.specs.Halves.{pair_of, target_of, unknown_source, unknown_target, named, IsTable};
ghost use Rattle.witx_compat.specs.Views.{mapped_view, unknown_view};

use crate::conversion::{ParamPolyfill, ParamPolyfills, ParamUnknowns};
use crate::part::Part;
use crate::table::{Table, is_named, table_of, table_of_targets};
use std::alloc::Global;
use witx_ast::InterfaceFuncParam;
use witx_base::{Items, OutOfMemory};

/// One part of two functions.
#[derive(Drop)]
pub struct Half {
    pub mapped: ParamPolyfills,
    pub unknown: ParamUnknowns,
}

/// Maps each source to the first target of its name. What is left is unknown: first the sources without
/// a target, then the targets whose name is not mapped.
pub fn half_of(
    alloc: Global,
    part: Part,
    sources: &[InterfaceFuncParam],
    targets: &[InterfaceFuncParam],
) -> Result<Half, OutOfMemory>
    ensures mapped { let pairs = paired (pair_of part) (map param_field sources.now) (map param_field targets.now) in
        IfOk result (λ half. map mapped_view half.mapped ≡ pairs) }
    ensures unknown { let pairs = paired (pair_of part) (map param_field sources.now) (map param_field targets.now) in
        IfOk result (λ half. map unknown_view half.unknown
        ≡ without (unknown_source part) (map param_field targets.now) (map param_field sources.now)
        ++ without (unknown_target part) (map (target_of part) pairs) (map param_field targets.now)) }
{
    let by_name = table_of(alloc, targets)?;
    let mapped = all_mapped(alloc, part, &by_name, sources)?;
    let unknown = all_unknown(alloc, part, &by_name, mapped.as_slice(), sources, targets)?;
    Ok(Half { mapped, unknown })
}

/// Each source with its target, by a table of the targets.
fn all_mapped(
    alloc: Global,
    part: Part,
    by_name: &Table<'_>,
    sources: &[InterfaceFuncParam],
) -> Result<ParamPolyfills, OutOfMemory>
    ensures { (targets : List Field) → IsTable by_name.now targets
        → IfOk result (λ made. map mapped_view made ≡ paired (pair_of part) (map param_field sources.now) targets) }
{
    let mut made = Items::new(alloc);
    for source in sources {
        put_mapped(&mut made, part, by_name, source)?;
    }
    Ok(made)
}

fn put_mapped(
    made: &mut ParamPolyfills,
    part: Part,
    by_name: &Table<'_>,
    source: &InterfaceFuncParam,
) -> Result<(), OutOfMemory>
    ensures { OnOk result (map mapped_view made.new ≡ map mapped_view made.old
        ++ option_to_list (option_map (pair_of part (param_field source.now)) (named by_name.now source.now.name))) }
{
    match by_name.get(&source.name) {
        Some(target) => put_pair(made, part.pair(source, target)?),
        None => Ok(()),
    }
}

fn put_pair(made: &mut ParamPolyfills, pair: ParamPolyfill) -> Result<(), OutOfMemory>
    ensures { OnOk result (map mapped_view made.new ≡ map mapped_view made.old ++ mapped_view pair ∷ []) }
{
    made.push(pair)?;
    Ok(())
}

/// Those that are not mapped, by the table of the targets and by what is mapped.
fn all_unknown(
    alloc: Global,
    part: Part,
    by_name: &Table<'_>,
    mapped: &[ParamPolyfill],
    sources: &[InterfaceFuncParam],
    targets: &[InterfaceFuncParam],
) -> Result<ParamUnknowns, OutOfMemory>
    requires { IsTable by_name.now (map param_field targets.now) }
    ensures { IfOk result (λ made. map unknown_view made
        ≡ without (unknown_source part) (map param_field targets.now) (map param_field sources.now)
        ++ without (unknown_target part) (map (target_of part) (map mapped_view mapped.now)) (map param_field targets.now)) }
{
    let taken = table_of_targets(alloc, part, mapped)?;
    let mut made = Items::new(alloc);
    put_unknown(&mut made, part, by_name, sources)?;
    put_unknown(&mut made, part.opposite(), &taken, targets)?;
    Ok(made)
}

/// Appends the sources whose name a table lacks.
fn put_unknown(
    made: &mut ParamUnknowns,
    part: Part,
    by_name: &Table<'_>,
    sources: &[InterfaceFuncParam],
) -> Result<(), OutOfMemory>
    ensures { (targets : List Field) → IsTable by_name.now targets → OnOk result (map unknown_view made.new
        ≡ map unknown_view made.old ++ without (unknown_source part) targets (map param_field sources.now)) }
{
    for source in sources {
        put_source(made, part, by_name, source)?;
    }
    Ok(())
}

/// Appends a source, unless it has a target.
fn put_source(
    made: &mut ParamUnknowns,
    part: Part,
    by_name: &Table<'_>,
    source: &InterfaceFuncParam,
) -> Result<(), OutOfMemory>
    ensures { OnOk result (map unknown_view made.new ≡ map unknown_view made.old
        ++ when_none (named by_name.now source.now.name) (unknown_source part (param_field source.now))) }
{
    if is_named(by_name, &source.name) {
        return Ok(());
    }
    made.push(part.without_target(source)?)?;
    Ok(())
}
