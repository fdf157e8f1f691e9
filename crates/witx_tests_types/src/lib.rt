//! Tests of the types and functions of a document: layouts, words, bytes, types by types, shims, and functions
//! made by hand.
//!
//! Rows were worked out by hand. docs/PROVING.md tells why tests stand apart, and the form of one.
#![tactic(auto)]

#[cfg(test)]
mod tests;
