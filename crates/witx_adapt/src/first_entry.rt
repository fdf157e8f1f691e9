//! The first entry of an adapted document with given names.

ghost use Rattle.std.specs.Prelude.{◌≡◌, cond, position, Some, IfOk, OnOk};
ghost use Rattle.witx_adapt.specs.declared.first_entry.FunctionName as code;
ghost use Rattle.witx_adapt.specs.FirstEntries as spec;

use crate::adapted::AdaptedFunc;
use std::alloc::Global;
use std::collections::BTreeMap;
use witx_base::{Duplicate, Id, OutOfMemory};

/// A function goes by its module's name and its own.
#[derive(PartialEq, Eq, PartialOrd, Ord, Drop)]
pub struct FunctionName {
    pub module: Id,
    pub name: Id,
}

/// The names of entries, each with the number of the first entry that has them.
pub type FirstEntries = BTreeMap<FunctionName, usize>;

/// The two names; their texts are shared.
fn function_name(module: &Id, name: &Id) -> Result<FunctionName, OutOfMemory>
    ensures { IfOk result (λ made. made ≡ record { «module» = «module».now; name = name.now }) }
{
    Ok(FunctionName {
        module: module.copy()?,
        name: name.copy()?,
    })
}

/// Puts an entry at its names, in place of the one that is there.
fn put(first: &mut FirstEntries, entry: &AdaptedFunc, number: usize) -> Result<(), OutOfMemory>
    ensures { (wanted : code.FunctionName) → OnOk result (spec.first_at first.new.entries wanted
        ≡ cond (spec.has_names wanted (spec.names_of entry.now)) (Some number) (spec.first_at first.old.entries wanted)) }
{
    let name = function_name(&entry.module.name, &entry.func.name)?;
    first.insert(name, number)?;
    Ok(())
}

/// The first entry with each name. An entry takes the place of those behind it, since they are put
/// from the last to the first.
pub fn first_entries(alloc: Global, functions: &[AdaptedFunc]) -> Result<FirstEntries, OutOfMemory>
    ensures { (wanted : code.FunctionName) → IfOk result (λ first. spec.first_at first.entries wanted
        ≡ position (λ e. spec.has_names wanted (spec.names_of e)) functions.now) }
{
    let mut first = BTreeMap::new(alloc);
    for number in (0..functions.len()).rev() {
        put(&mut first, &functions[number], number)?;
    }
    Ok(first)
}

/// The number of the first entry with this name in a module of that name.
pub fn first_named(
    first: &FirstEntries,
    module: &Id,
    name: &Id,
) -> Result<Option<usize>, OutOfMemory>
    ensures { IfOk result (λ number. number
        ≡ spec.first_at first.now.entries (record { «module» = «module».now; name = name.now })) }
{
    let wanted = function_name(module, name)?;
    Ok(first.get(&wanted).copied())
}
