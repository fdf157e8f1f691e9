//! Shims: which words of an old function's call go where, so that a new function serves its callers.
#![tactic(auto)]

mod error;
mod passed;
mod passing;
mod serving;
mod spans;

pub use error::ShimError;
pub use passed::{Places, Shim};
pub use serving::shim;
