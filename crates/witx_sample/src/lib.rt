//! Large inputs from a number: the bundle of a sample, and the summary of an adapted document.
#![tactic(auto)]

mod sample;
mod summaries;

pub use sample::{LARGEST_SAMPLE, largest_sample, sample_bundle, sample_files};
pub use summaries::summary;
