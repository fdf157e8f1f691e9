//! Whether two traces are faithful to a function: the machine runs them over symbols.
#![tactic(auto)]

mod extents;
mod going_in;
mod judging;
mod spaces;
mod verifying;
mod worlds;

pub use extents::Allotment;
pub use verifying::{verify, verify_within};
pub use witx_symbols::{
    Doubt, Verdict, a_stuck_run_names_its_event, a_yes_is_faithful, own_traces_get_a_yes,
    tests_tell_what_passes, traces_of_an_adapted_get_a_yes,
};
pub use witx_traces::{TracePair, TracePairs, TracesError, read_traces};
