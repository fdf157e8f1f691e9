//! What a reader of files by path has to give.

ghost use Rattle.std.specs.Prelude.{◌≡◌, ℕ, Option};
ghost use Rattle.witx_files.specs.{Answers.{IsText, IsLine, IsCanonical}, Files.{Files, Aliases}};

use crate::fault::IoError;
use std::alloc::Global;
use witx_base::{Text, WitxPath};

/// A reader of files by path. No call changes the files or the aliases that it tells.
///
/// A call answers what is told, or the cause why not: `NotFound` only where the told files lack the
/// path, `LineNotFound` only where the told file lacks the line, and `Failed` only where the count of
/// faults rose. Any other answer leaves the count as it was.
pub trait WitxIo {
    /// The files, where they are told.
    ghost files: { Self → Option Files };

    /// The aliases, where they are told.
    ghost aliases: { Self → Option Aliases };

    /// How often a call has failed; it never falls.
    ghost faults: { Self → ℕ };

    /// The text of the file at a path.
    fn fgets(&mut self, alloc: Global, path: &WitxPath) -> Result<Text, IoError>
        ensures files { files self.new ≡ files self.old }
        ensures aliases { aliases self.new ≡ aliases self.old }
        ensures answer { IsText (files self.old) path.now (faults self.old) (faults self.new) result };

    /// A line of the file at a path, counted from 1 and split off as by std's `lines`.
    fn fget_line(
        &mut self,
        alloc: Global,
        path: &WitxPath,
        line_num: usize,
    ) -> Result<Text, IoError>
        ensures files { files self.new ≡ files self.old }
        ensures aliases { aliases self.new ≡ aliases self.old }
        ensures answer { IsLine (files self.old) path.now line_num (faults self.old) (faults self.new) result };

    /// The path that a path stands for: that of its first alias, or itself.
    fn canonicalize(&mut self, alloc: Global, path: &WitxPath) -> Result<WitxPath, IoError>
        ensures files { files self.new ≡ files self.old }
        ensures aliases { aliases self.new ≡ aliases self.old }
        ensures answer { IsCanonical (aliases self.old) path.now (faults self.old) (faults self.new) result };
}
