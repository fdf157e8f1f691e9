//! What a run of the program is made of: the words of a command line, the bundle that is read, the document
//! that its files mean, what each command writes of it, and why a run has no output, with what is told then.
#![tactic(auto)]

mod adapting;
mod commands;
mod error;
mod extents;
mod forms;
mod input;
mod laws;
mod output;
mod pages;
mod parsing;
mod polyfill;
mod refusal;
mod report;
mod status;
mod words;

pub use adapting::adapt;
pub use commands::{adapted_or_stop, layouts_of_files, listed, summary_of_files};
pub use error::AdaptError;
pub use forms::{Forms, command_lines, further_lines};
pub use input::{InputError, read_bundle};
pub use laws::{
    constants_have_typenames, output_or_refusal, valid_files_are_not_refused, valid_is_not_refused,
};
pub use output::{Output, kept, leave, let_document_go, let_go, no_notes, text_alone};
pub use pages::page_of_files;
pub use parsing::{parsed_or_stop, text_stop};
pub use polyfill::{mapped_modules, polyfill_files};
pub use refusal::{Refusal, Stop, stop_of, too_large};
pub use report::put_function_called;
pub use status::{DONE, NO_BUNDLE, NO_FORM, NO_MEMORY, REFUSED, UNREAD, UNWRITTEN};
pub use words::{Command, OwnFile, TwoFiles, command_of, has_form, paths_of};
