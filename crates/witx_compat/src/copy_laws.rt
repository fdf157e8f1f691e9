//! A copy of a mapping, or of what it is made of, equals its original.

ghost use Rattle.std.specs.Prelude.{IsTrue};
ghost use Rattle.witx_ast.specs.EqualCopies.{EqualCopies};

use crate::conversion::{
    ParamPolyfill, ParamPolyfills, ParamUnknown, ParamUnknowns, TypePolyfill, TypePolyfills,
};
use crate::functions::{FuncPolyfill, FuncPolyfills};
use crate::modules::{ModulePolyfill, ModulePolyfills, Polyfill};
use witx_base::Duplicate;

/// A copied conversion equals its original.
pub fn copied_conversion_is_equal(original: &TypePolyfill, copy: &TypePolyfill)
    requires { ⟦<TypePolyfill as Duplicate>⟧.is_copy original.now copy.now }
    ensures { IsTrue (⟦<TypePolyfill as PartialEq>⟧.eq copy.now original.now) }
{}

/// A copied mapped parameter or result equals its original.
pub fn copied_mapped_param_is_equal(original: &ParamPolyfill, copy: &ParamPolyfill)
    requires { ⟦<ParamPolyfill as Duplicate>⟧.is_copy original.now copy.now }
    ensures { IsTrue (⟦<ParamPolyfill as PartialEq>⟧.eq copy.now original.now) }
{}

/// A copied parameter or result that is not mapped equals its original.
pub fn copied_unknown_param_is_equal(original: &ParamUnknown, copy: &ParamUnknown)
    requires { ⟦<ParamUnknown as Duplicate>⟧.is_copy original.now copy.now }
    ensures { IsTrue (⟦<ParamUnknown as PartialEq>⟧.eq copy.now original.now) }
{}

/// A copied mapped function equals its original.
pub fn copied_mapped_function_is_equal(original: &FuncPolyfill, copy: &FuncPolyfill)
    requires { ⟦<FuncPolyfill as Duplicate>⟧.is_copy original.now copy.now }
    ensures { IsTrue (⟦<FuncPolyfill as PartialEq>⟧.eq copy.now original.now) }
{}

/// A copied mapped module equals its original.
pub fn copied_mapped_module_is_equal(original: &ModulePolyfill, copy: &ModulePolyfill)
    requires { ⟦<ModulePolyfill as Duplicate>⟧.is_copy original.now copy.now }
    ensures { IsTrue (⟦<ModulePolyfill as PartialEq>⟧.eq copy.now original.now) }
{}

/// A copied mapping equals its original.
pub fn copied_polyfill_is_equal(original: &Polyfill, copy: &Polyfill)
    requires { ⟦<Polyfill as Duplicate>⟧.is_copy original.now copy.now }
    ensures { IsTrue (⟦<Polyfill as PartialEq>⟧.eq copy.now original.now) }
{}

/// A copied list of conversions, of mapped parameters or results, of those that are not mapped, of
/// mapped functions, or of mapped modules equals its original.
pub fn copied_mappings_are_equal()
    ensures conversions { EqualCopies ⟦<TypePolyfills as Duplicate>⟧.is_copy ⟦<TypePolyfills as PartialEq>⟧.eq }
    ensures params { EqualCopies ⟦<ParamPolyfills as Duplicate>⟧.is_copy ⟦<ParamPolyfills as PartialEq>⟧.eq }
    ensures unknown_params { EqualCopies ⟦<ParamUnknowns as Duplicate>⟧.is_copy ⟦<ParamUnknowns as PartialEq>⟧.eq }
    ensures functions { EqualCopies ⟦<FuncPolyfills as Duplicate>⟧.is_copy ⟦<FuncPolyfills as PartialEq>⟧.eq }
    ensures modules { EqualCopies ⟦<ModulePolyfills as Duplicate>⟧.is_copy ⟦<ModulePolyfills as PartialEq>⟧.eq }
{}
