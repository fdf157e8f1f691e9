//! Tests of texts: devices, names and lists, tokens, grammar, syntax trees, files and bundles.
//!
//! Rows were worked out by hand. docs/PROVING.md tells why tests stand apart, and the form of one.
#![tactic(auto)]

#[cfg(test)]
mod tests;
