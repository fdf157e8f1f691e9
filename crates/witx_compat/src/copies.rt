//! Copies of mappings and of what they are made of.
#![tactic(auto, using(crate::proofs::Copied::copy_rules))]

ghost use Rattle.std.specs.{Prelude.{◌≡◌}, List.{AllZip}};
ghost use Rattle.witx_compat.specs.Views.{conversion_view, mapped_view, unknown_view, function_view, IsModuleCopy};

use crate::conversion::{ParamPolyfill, ParamUnknown, TypePolyfill};
use crate::functions::FuncPolyfill;
use crate::modules::{ModulePolyfill, Polyfill};
use witx_base::{Duplicate, OutOfMemory};

impl Duplicate for TypePolyfill {
    ghost is_copy = { λ p c. conversion_view c ≡ conversion_view p };

    fn copy(&self) -> Result<TypePolyfill, OutOfMemory> {
        match self {
            TypePolyfill::NewToOld(new, old) => {
                Ok(TypePolyfill::NewToOld(new.clone()?, old.clone()?))
            }
            TypePolyfill::OldToNew(old, new) => {
                Ok(TypePolyfill::OldToNew(old.clone()?, new.clone()?))
            }
        }
    }
}

impl Duplicate for ParamPolyfill {
    ghost is_copy = { λ p c. mapped_view c ≡ mapped_view p };

    fn copy(&self) -> Result<ParamPolyfill, OutOfMemory> {
        Ok(ParamPolyfill {
            new: self.new.copy()?,
            old: self.old.copy()?,
            type_polyfill: self.type_polyfill.copy()?,
        })
    }
}

impl Duplicate for ParamUnknown {
    ghost is_copy = { λ p c. unknown_view c ≡ unknown_view p };

    fn copy(&self) -> Result<ParamUnknown, OutOfMemory> {
        match self {
            ParamUnknown::Old(param) => Ok(ParamUnknown::Old(param.copy()?)),
            ParamUnknown::New(param) => Ok(ParamUnknown::New(param.copy()?)),
        }
    }
}

impl Duplicate for FuncPolyfill {
    ghost is_copy = { λ p c. function_view c ≡ function_view p };

    fn copy(&self) -> Result<FuncPolyfill, OutOfMemory> {
        Ok(FuncPolyfill {
            new: self.new.clone()?,
            old: self.old.clone()?,
            mapped_params: self.mapped_params.copy()?,
            unknown_params: self.unknown_params.copy()?,
            mapped_results: self.mapped_results.copy()?,
            unknown_results: self.unknown_results.copy()?,
        })
    }
}

impl Duplicate for ModulePolyfill {
    ghost is_copy = { IsModuleCopy };

    fn copy(&self) -> Result<ModulePolyfill, OutOfMemory> {
        Ok(ModulePolyfill {
            new: self.new.clone()?,
            old: self.old.clone()?,
            funcs: self.funcs.copy()?,
        })
    }
}

impl Duplicate for Polyfill {
    ghost is_copy = { λ p c. AllZip IsModuleCopy p.modules c.modules };

    fn copy(&self) -> Result<Polyfill, OutOfMemory> {
        Ok(Polyfill {
            modules: self.modules.copy()?,
        })
    }
}
