//! One text by itself.

ghost use Rattle.std.specs.Prelude.{IfOk, IfErr};
ghost use Rattle.witx_walk.specs.Answers.{answer_of, IsOrderedDocument, IsClosedDocument};
ghost use Rattle.witx_walk.specs.OneFile.{IsOfOneFile, IsSourceAnswer, IsSourceVerdict};

use crate::error::WitxError;
use crate::laws::one_reading;
use crate::walk::parse_witx_with;
use std::alloc::Global;
use witx_ast::Document;
use witx_base::{Text, WitxPath};
use witx_files::MockFs;

/// The document of `source`, under the path `-`.
///
/// A use of `-` is skipped, since that file has started; any other use is `Io` with its path, not
/// found. `BadPath` and `TooManyFiles` never come.
pub fn parse(alloc: Global, source: &str) -> Result<Document, WitxError>
    ensures ordered { IfOk result IsOrderedDocument }
    ensures closed { IfOk result IsClosedDocument }
    ensures answer { IsSourceAnswer source.now (answer_of result) }
    ensures verdict { IsSourceVerdict source.now (answer_of result) }
    ensures one_file { IfErr result IsOfOneFile }
{
    one_reading();
    let mut files = MockFs::new(alloc);
    files.insert(WitxPath::new(alloc, "-")?, Text::new(alloc, source)?)?;
    let paths = [WitxPath::new(alloc, "-")?];
    parse_witx_with(alloc, &paths, &mut files)
}
