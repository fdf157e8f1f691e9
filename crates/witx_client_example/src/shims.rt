//! Shims of the functions of one document by those of another.

ghost use Rattle.std.specs.Prelude.{All};
ghost use Rattle.witx_tools.specs.MappedBy.{AreMapped, IsMapped};

use crate::error::{ClientError, refused};
use std::alloc::Global;
use witx_tools::{
    Document, FuncPolyfill, Items, ModuleMap, ModulePolyfill, OutOfMemory, Polyfill, Shim,
    ShimError, polyfill_meets_conditions, shim,
};

/// The shims of the functions of modules that are mapped by their names, of those functions that have one.
pub fn shims_of(
    alloc: Global,
    new: &Document,
    old: &Document,
    names: &ModuleMap,
) -> Result<Items<Shim>, ClientError> {
    match Polyfill::new(alloc, new, old, names) {
        Ok(made) => {
            polyfill_meets_conditions(new, old, names, &made);
            Ok(module_shims(alloc, made.modules.as_slice())?)
        }
        Err(error) => Err(refused(alloc, &error)),
    }
}

fn module_shims(alloc: Global, modules: &[ModulePolyfill]) -> Result<Items<Shim>, OutOfMemory>
    requires { All AreMapped modules.now }
{
    let mut shims = Items::new(alloc);
    for mapped in modules {
        put_shims(alloc, &mut shims, mapped.funcs.as_slice())?;
    }
    Ok(shims)
}

fn put_shims(
    alloc: Global,
    shims: &mut Items<Shim>,
    functions: &[FuncPolyfill],
) -> Result<(), OutOfMemory>
    requires { All IsMapped functions.now }
{
    for function in functions {
        put_shim(alloc, shims, function)?;
    }
    Ok(())
}

fn put_shim(
    alloc: Global,
    shims: &mut Items<Shim>,
    function: &FuncPolyfill,
) -> Result<(), OutOfMemory>
    requires { IsMapped function.now }
{
    match shim(alloc, function) {
        Ok(made) => shims.push(made),
        Err(ShimError::OutOfMemory) => Err(OutOfMemory),
        Err(_) => Ok(()),
    }
}
