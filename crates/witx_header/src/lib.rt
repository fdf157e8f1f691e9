//! A document as a header of C for 32-bit WebAssembly: its types with assertions on their layouts, its constants, and
//! the prototypes of its functions as imports.
#![tactic(auto)]

mod bodies;
mod body;
mod comments;
mod functions;
mod handed;
mod header;
mod layouts;
mod lines;
mod names;
mod telling;
mod typedefs;
mod types;
mod values;
mod variables;

pub use header::header_text;
