//! What is kept of the declarations so far.

ghost use Rattle.witx_scope.specs.Introduced.{AreIntroduced};

use crate::constants::ConstantPlaces;
use crate::scope::Names;
use crate::steps_left::StepsLeft;
use crate::unfinished::Unfinished;
use std::alloc::Global;
use witx_ast::Entries;

/// What names denote: each introduced name with its place, those that are not finished, the finished
/// typenames and modules, and the accepted constants with their places. Beside it how far checks may
/// still go behind names.
#[derive(Drop)]
pub struct Tables {
    pub names: Names,
    pub unfinished: Unfinished,
    pub entries: Entries,
    pub constants: ConstantPlaces,
    pub steps: StepsLeft,
    pub alloc: Global,
    ghost introduced: { AreIntroduced names unfinished entries },
}
