//! Tests of the program and its tools: devices that fail, by `run` and by `run_all`; the sample, the verdict on
//! traces, calls over bytes, lists of imports, and the tests of conditions.
//!
//! Rows were worked out by hand. docs/PROVING.md tells why tests stand apart, and the form of one.
#![tactic(auto)]

#[cfg(test)]
mod tests;
