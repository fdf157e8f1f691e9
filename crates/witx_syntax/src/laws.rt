//! What holds of every text, as functions that do nothing: each contract is a theorem.

ghost use Rattle.std.specs.Prelude.{◌≡◌, ◌⊎◌, ℕ, List};
ghost use Rattle.witx_syntax.specs.{Names.{AllNames, StandsInText}, Reads.{IsFaultOf, Reads}};
ghost use Rattle.witx_language.specs.FaultPlaces.{Told};
ghost use Rattle.witx_syntax_tree.specs.Trees.{Document};

use witx_grammar::{at_most_one_derivation, derivation_or_fault};
use witx_language::{Nonterminal, ProductionName, TokenKind, the_table};
use witx_lex::tokens_are_slices;

/// A text is at most one document.
pub fn at_most_one_document()
    ensures { (text : List ℕ) (d e : Document) → Reads text d → Reads text e → d ≡ e }
{
    at_most_one_derivation::<TokenKind, Nonterminal, ProductionName>();
    let _table = the_table();
}

/// A text that is a document has no fault.
pub fn no_fault_where_read()
    ensures { (text : List ℕ) (d : Document) (f : Told) → Reads text d → IsFaultOf text f → ⊥ }
{}

/// A text is a document or has a fault.
pub fn a_document_or_a_fault()
    ensures { (text : List ℕ) → ((d : Document) × Reads text d) ⊎ ((f : Told) × IsFaultOf text f) }
{
    derivation_or_fault::<TokenKind, Nonterminal, ProductionName>();
    let _table = the_table();
}

/// A text has at most one fault: one message, at one line and column.
pub fn at_most_one_parse_fault()
    ensures { (text : List ℕ) (f g : Told) → IsFaultOf text f → IsFaultOf text g → f ≡ g }
{}

/// Each identifier of a document is the bytes of the text at its place, behind their `$`.
pub fn identifiers_stand_in_the_text()
    ensures { (text : List ℕ) (d : Document) → Reads text d → AllNames (StandsInText text) (λ _. Unit {0}) d }
{
    tokens_are_slices();
}
