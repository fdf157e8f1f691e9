//! Files from one stream of bytes: texts that are handed over together, each behind a line with its path.
#![tactic(auto)]

mod bundle;
mod error;
mod lines;

pub use bundle::{Bundle, LONGEST_BUNDLE, longest_bundle};
pub use error::BundleError;
