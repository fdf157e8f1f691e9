//! A text for each error of the library, told by the error alone: without the files, the document or the list
//! that it is of.
#![tactic(auto)]

mod documents;
mod error_text;
mod lowering;
mod numbers;
mod texts;
mod told;
mod tools;
mod words;

pub use error_text::ErrorText;
