//! What holds of every plain document, as functions that do nothing: each contract is a theorem.

ghost use Rattle.witx_read_back.specs.ReadBack.{ForPlain, HasPrintedTokens, MeansTheSame, ReadsAsPrinted};

use witx_syntax::a_document_or_a_fault;

/// The printed text of a plain document has exactly the tokens of its expressions.
pub fn printed_texts_have_the_tokens()
    ensures { ForPlain HasPrintedTokens }
{
    a_document_or_a_fault();
}

/// These tokens read as a syntax tree that says the document, whatever places and comments it has.
pub fn printed_texts_read_as_the_tree()
    ensures { ForPlain ReadsAsPrinted }
{
    a_document_or_a_fault();
}

/// The text means a document with equal entries once all documentation is emptied.
pub fn printed_texts_mean_the_same()
    ensures { ForPlain MeansTheSame }
{
    a_document_or_a_fault();
}
