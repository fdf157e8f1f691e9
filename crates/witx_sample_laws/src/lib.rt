//! What holds of every sample, from its bundle to its summary: laws on the bundles of samples.
#![tactic(auto)]

mod laws;

pub use laws::{
    sample_words_have_a_size, samples_are_bundles, samples_are_not_refused, samples_are_summed_up,
    samples_are_valid,
};
