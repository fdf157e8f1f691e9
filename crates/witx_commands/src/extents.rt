//! How much there may be to the types of mapped modules: what is told of them goes through each type once for each of
//! its mentions.

use std::alloc::Global;
use witx_ast::TypeRef;
use witx_base::OutOfMemory;
use witx_compat::{FuncPolyfill, ModulePolyfill, ParamPolyfill, TypePolyfill};
use witx_extent::Allowance;

/// What there may be to all types of mapped modules. So much is compared within a second.
const MOST: usize = 1 << 25;

/// How many bytes of names and documentation may be in them, at each of their mentions: conversions are compared with all that
/// their types say, so many bytes within a second.
const MOST_BYTES: usize = 1 << 34;

/// How many names may stand one for the other, and how many types lie one in the other. How one type is represented by
/// another takes at most 80 bytes of the stack for each type as LLVM builds it, and 211 as Rattle's own compiler does.
/// Where two conversions are equal, `==` takes at most 112 for each type by LLVM (in a program that only compares) and 256
/// by the other, and none for names.
const DEEPEST: usize = 30_100;

/// Want of memory where there is more than that to the types of mapped modules, or where they are too deep.
pub(crate) fn check_modules(alloc: Global, modules: &[ModulePolyfill]) -> Result<(), OutOfMemory> {
    let mut left = Left {
        types: Allowance::new(MOST, DEEPEST),
        bytes: Allowance::new(MOST_BYTES, 0),
    };
    for module in modules {
        left.take_functions(alloc, module.funcs.as_slice())?;
    }
    Ok(())
}

/// What may still be gone through.
#[derive(Drop)]
struct Left {
    types: Allowance,
    bytes: Allowance,
}

impl Left {
    fn take_functions(
        &mut self,
        alloc: Global,
        functions: &[FuncPolyfill],
    ) -> Result<(), OutOfMemory> {
        for function in functions {
            self.take_mapped(alloc, function.mapped_params.as_slice())?;
            self.take_mapped(alloc, function.mapped_results.as_slice())?;
        }
        Ok(())
    }

    fn take_mapped(&mut self, alloc: Global, mapped: &[ParamPolyfill]) -> Result<(), OutOfMemory> {
        for one in mapped {
            match &one.type_polyfill {
                TypePolyfill::NewToOld(from, to) | TypePolyfill::OldToNew(from, to) => {
                    self.take(alloc, from)?;
                    self.take(alloc, to)?;
                    continue;
                }
            }
        }
        Ok(())
    }

    fn take(&mut self, alloc: Global, tref: &TypeRef) -> Result<(), OutOfMemory> {
        self.types.take_with_texts(&mut self.bytes, alloc, tref)
    }
}
