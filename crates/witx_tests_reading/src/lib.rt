//! Tests of what is read of a text, and of what is written of a document: the checks of declarations, files that
//! use one another, printed text that reads back, the tree of a page, calls that find no memory, and the library
//! by its one crate.
//!
//! Rows were worked out by hand. docs/PROVING.md tells why tests stand apart, and the form of one.
#![tactic(auto)]

#[cfg(test)]
mod tests;
