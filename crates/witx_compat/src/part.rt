//! Parameters, whose values go from the old function to the new one, and results, whose values come
//! back. What gives values is the source, what receives them the target.

ghost use Rattle.std.specs.Prelude.{◌≡◌, IfOk};
ghost use Rattle.witx_ast.specs.Functions.{param_field};
ghost use Rattle.witx_compat.specs.Halves.{pair_of, target_of, unknown_source, opposite};
ghost use Rattle.witx_compat.specs.Views.{mapped_view, unknown_view};

use crate::conversion::{ParamPolyfill, ParamUnknown};
use witx_ast::InterfaceFuncParam;
use witx_base::{Duplicate, OutOfMemory};

/// Which of a function's lists.
#[derive(Clone, Copy, Drop)]
pub enum Part {
    /// From the old function to the new one.
    Params,
    /// From the new function to the old one.
    Results,
}

impl Part {
    /// Maps a source to its target.
    pub fn pair(
        self,
        source: &InterfaceFuncParam,
        target: &InterfaceFuncParam,
    ) -> Result<ParamPolyfill, OutOfMemory>
        ensures { IfOk result (λ made. mapped_view made ≡ pair_of self (param_field source.now) (param_field target.now)) }
    {
        match self {
            Part::Params => ParamPolyfill::param(target.copy()?, source.copy()?),
            Part::Results => ParamPolyfill::result(source.copy()?, target.copy()?),
        }
    }

    /// The target of two that are mapped.
    pub fn target(self, mapped: &ParamPolyfill) -> &InterfaceFuncParam
        ensures { param_field result.now ≡ target_of self (mapped_view mapped.now) }
    {
        match self {
            Part::Params => &mapped.new,
            Part::Results => &mapped.old,
        }
    }

    /// A source that has no target.
    pub fn without_target(self, source: &InterfaceFuncParam) -> Result<ParamUnknown, OutOfMemory>
        ensures { IfOk result (λ made. unknown_view made ≡ unknown_source self (param_field source.now)) }
    {
        match self {
            Part::Params => Ok(ParamUnknown::Old(source.copy()?)),
            Part::Results => Ok(ParamUnknown::New(source.copy()?)),
        }
    }

    /// The part whose values go the other way: its sources are the targets here.
    pub fn opposite(self) -> Part
        ensures { result ≡ opposite self }
    {
        match self {
            Part::Params => Part::Results,
            Part::Results => Part::Params,
        }
    }
}
