//! A document printed, and its text parsed.

ghost use Rattle.std.specs.Prelude.{IfErr, map};
ghost use Rattle.witx_ast.specs.Definitions.{definition_tree};
ghost use Rattle.witx_render.specs.DocumentTexts as printed;
ghost use Rattle.witx_walk.specs.Answers.{answer_of};
ghost use Rattle.witx_walk.specs.OneFile.{IsOfOneFile, IsSourceAnswer, IsSourceVerdict};
ghost use Rattle.witx_read_back.specs.{Plain.{IsPlain}, ReadBack.{IsMeant, IsReadBack}};

use crate::laws::printed_texts_mean_the_same;
use std::alloc::Global;
use witx_ast::Document;
use witx_render::document_text;
use witx_walk::{WitxError, parse};

/// What `parse` makes of the document's printed text: the answer and the verdict, as those of any text by
/// itself. Where some files mean the document and it is plain, that is a document with equal entries once
/// all documentation is emptied, or want of memory.
pub fn print_and_parse(alloc: Global, document: &Document) -> Result<Document, WitxError>
    ensures answer { IsSourceAnswer (printed.document_text (map definition_tree document.now.definitions))
        (answer_of result) }
    ensures verdict { IsSourceVerdict (printed.document_text (map definition_tree document.now.definitions))
        (answer_of result) }
    ensures one_file { IfErr result IsOfOneFile }
    ensures reads_back { IsMeant (map definition_tree document.now.definitions)
        → IsPlain (map definition_tree document.now.definitions)
        → IsReadBack (map definition_tree document.now.definitions) (answer_of result) }
{
    printed_texts_mean_the_same();
    let text = document_text(alloc, document)?;
    parse(alloc, text.as_str())
}
