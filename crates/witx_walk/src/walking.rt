//! What a reading of files keeps while it goes.

ghost use Rattle.std.specs.Prelude.{◌≡◌, []};
ghost use Rattle.witx_walk.specs.Steps.{HasPaths};

use crate::path_set::PathSet;
use std::alloc::Global;
use witx_ast::Definitions;
use witx_check::{DocValidation, LineCursor};

/// What has been read so far: the checker, the definitions that passed, and the canonical paths of the
/// files that were taken in.
#[derive(Drop)]
pub struct Walking {
    pub validation: DocValidation,
    pub definitions: Definitions,
    pub taken: PathSet,
}

/// What is kept of a file while its items are taken in: where its text has been gone through, and the
/// paths that it has used, as they are seen from its folder.
#[derive(Drop)]
pub struct FileProgress<'a> {
    pub lines: LineCursor<'a>,
    pub uses: PathSet,
}

impl<'a> FileProgress<'a> {
    /// Before the first item of a file with this text; takes no memory.
    pub fn new(alloc: Global, text: &'a str) -> FileProgress<'a>
        ensures text { result.lines.text.now ≡ text.now }
        ensures uses { HasPaths result.uses.paths [] }
    {
        FileProgress {
            lines: LineCursor::new(text),
            uses: PathSet::new(alloc),
        }
    }
}
