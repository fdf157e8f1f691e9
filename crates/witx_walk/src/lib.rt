//! Files read in order, with the files that they use, into the one document that they mean.
#![tactic(auto)]

mod error;
mod laws;
mod path_set;
mod report;
mod source;
mod steps;
mod walk;
mod walking;

pub use error::WitxError;
pub use laws::{one_answer, one_final_front, one_reading};
pub use source::parse;
pub use walk::parse_witx_with;
