//! The function imports of a WebAssembly module as a list, and the text of a list, which `read_imports` reads.
#![tactic(auto)]

mod functions;
mod laws;
mod text;

pub use functions::{ListError, MOST_WORDS, function_imports};
pub use laws::lists_read_back;
pub use text::import_list_text;
