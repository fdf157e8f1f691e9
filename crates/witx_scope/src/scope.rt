//! What the checks of a declaration read.

ghost use Rattle.witx_scope.specs.Introduced.{AreIntroduced};

use crate::place::SharedPlace;
use crate::steps_left::StepsLeft;
use crate::unfinished::Unfinished;
use std::alloc::Global;
use witx_ast::Entries;
use witx_base::{Id, Items, WitxPath};

/// Names of the document, in the order in which they are introduced, and where each stands.
pub type Names = Items<(Id, SharedPlace)>;

/// What the checks of a declaration read.
#[derive(Drop)]
pub struct Scope<'a> {
    pub names: &'a Names,
    pub unfinished: &'a Unfinished,
    pub entries: &'a Entries,
    pub text: &'a str,
    pub path: &'a WitxPath,
    pub steps: &'a StepsLeft,
    pub alloc: Global,
    ghost introduced: { AreIntroduced names.now unfinished.now entries.now },
}
