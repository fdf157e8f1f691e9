//! What several crates of tests need that runs the program, or parses: a run over devices in memory, and
//! what is declared in a text.
#![tactic(auto)]

mod declared;
mod runs;

pub use declared::{func_of, typename_of};
pub use runs::{ADD, ADD_LISTING, Case, Gave, run_on, run_over, sink_of, source_of, words_of};
pub use witx_fixtures::Devices;
