//! What is printed reads back: laws on the texts of plain documents, pass by pass, and the call that
//! prints a document and parses its text.
#![tactic(auto)]

mod laws;
mod round;

pub use laws::{
    printed_texts_have_the_tokens, printed_texts_mean_the_same, printed_texts_read_as_the_tree,
};
pub use round::print_and_parse;
