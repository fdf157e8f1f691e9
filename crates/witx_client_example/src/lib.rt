//! A client of the library: it reads a text, adapts it, reads its own listing back and checks it, reads the traces
//! that a text gives for a document that anyone adapted, runs a function and makes shims. It names `witx_tools` alone;
//! each condition of a call is met by clauses of the calls before, by laws and by tests, and each contract here is in
//! the words that that crate gives on.
#![tactic(auto)]

mod calls;
mod documents;
mod error;
mod shims;
#[cfg(test)]
mod tests;
mod traces;

pub use calls::{called, first_call};
pub use documents::adapted_text;
pub use error::{ClientError, refused};
pub use shims::shims_of;
pub use traces::{given_traces, holds, own_traces_hold};
