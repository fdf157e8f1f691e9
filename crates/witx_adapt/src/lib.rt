//! A checked document with what lowering makes of its functions, and its listing.
#![tactic(auto)]

mod adapted;
mod adapting;
mod error;
mod event_lines;
mod first_entry;
mod listings;
mod names;
mod numbers;

pub use adapted::{Adapted, AdaptedFunc, AdaptedFuncs};
pub use adapting::adapt_document;
pub use error::{DocumentError, RefusedDocument};
pub use event_lines::{put_event, step_name};
pub use first_entry::{FirstEntries, FunctionName, first_entries, first_named};
pub use listings::{
    listing, put_constant, put_func_line, put_import, put_module_line, put_typename,
};
pub use names::{put_more_words, put_quoted, put_signature, wasm_word};
pub use witx_layout::SizeAligns;
