//! An old function by the new one of its name.
#![tactic(auto, using(crate::proofs::Mapping::mapping_rules))]

ghost use Rattle.std.specs.{Prelude.{◌≡◌, IfOk, map}, List.{list_all}};
ghost use Rattle.witx_ast.specs.Functions.{func_tree};
ghost use Rattle.witx_compat.specs.Conversions.{is_compatible};
ghost use Rattle.witx_compat.specs.Polyfills.{function_mapped, is_fully_compatible};
ghost use Rattle.witx_compat.specs.Views.{function_view, mapped_view};

use crate::conversion::{ParamPolyfill, ParamPolyfills, ParamUnknowns};
use crate::halves::half_of;
use crate::part::Part;
use std::alloc::Global;
use std::rc::Rc;
use witx_ast::InterfaceFunc;
use witx_base::{Items, OutOfMemory};

/// An old function, the new one by which it is called, and how their parameters and results are
/// mapped to each other.
#[derive(PartialEq, Eq, Hash, Debug, Drop)]
pub struct FuncPolyfill {
    pub new: Rc<InterfaceFunc>,
    pub old: Rc<InterfaceFunc>,
    pub mapped_params: ParamPolyfills,
    pub unknown_params: ParamUnknowns,
    pub mapped_results: ParamPolyfills,
    pub unknown_results: ParamUnknowns,
}

/// Mapped functions, in the order of the old ones.
pub type FuncPolyfills = Items<FuncPolyfill>;

impl FuncPolyfill {
    /// Maps each old parameter to the first new one of its name, and each new result to the first old
    /// one of its name.
    pub fn new(
        alloc: Global,
        new: Rc<InterfaceFunc>,
        old: Rc<InterfaceFunc>,
    ) -> Result<FuncPolyfill, OutOfMemory>
        ensures functions { IfOk result (λ made. (made.new.value ≡ new.value) × (made.old.value ≡ old.value)) }
        ensures mapped { IfOk result (λ made. function_view made
            ≡ function_mapped (func_tree new.value) (func_tree old.value)) }
    {
        let params = half_of(
            alloc,
            Part::Params,
            old.params.as_slice(),
            new.params.as_slice(),
        )?;
        let results = half_of(
            alloc,
            Part::Results,
            new.results.as_slice(),
            old.results.as_slice(),
        )?;
        Ok(FuncPolyfill {
            new,
            old,
            mapped_params: params.mapped,
            unknown_params: params.unknown,
            mapped_results: results.mapped,
            unknown_results: results.unknown,
        })
    }

    /// Whether the names are equal, all that is mapped is fully compatible, and nothing is unknown.
    pub fn full_compat(&self) -> bool
        ensures { result ≡ is_fully_compatible (function_view self.now) }
    {
        self.new.name == self.old.name
            && all_compatible(self.mapped_params.as_slice())
            && self.unknown_params.is_empty()
            && all_compatible(self.mapped_results.as_slice())
            && self.unknown_results.is_empty()
    }
}

/// Whether all of them are fully compatible.
#[tactic(auto, using(crate::proofs::Mapping::compatible_rules))]
fn all_compatible(mapped: &[ParamPolyfill]) -> bool
    ensures { result ≡ list_all is_compatible (map mapped_view mapped.now) }
{
    for one in mapped {
        if !one.full_compat() {
            return false;
        }
    }
    true
}
