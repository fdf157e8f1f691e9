//! Why the client has no answer, told as text.

use std::alloc::Global;
use witx_tools::{ErrorText, OutOfMemory, Text};

/// Why there is no answer.
#[derive(Drop)]
pub enum ClientError {
    /// A call refused, and this is what it tells.
    Refused(Text),
    OutOfMemory,
}

impl From<OutOfMemory> for ClientError {
    fn from(_: OutOfMemory) -> ClientError {
        ClientError::OutOfMemory
    }
}

/// What an error of any call tells.
pub fn refused<E: ErrorText>(alloc: Global, error: &E) -> ClientError {
    match error.error_text(alloc) {
        Ok(text) => ClientError::Refused(text),
        Err(_) => ClientError::OutOfMemory,
    }
}
