//! Tests of the conditions that calls ask for, for values made by hand: an `if` on one meets the condition.
#![tactic(auto)]

mod adapted;
mod documents;
mod entering;
mod functions;
mod items;
mod lookup;
mod made;
mod names;
mod traces;
mod values;

pub use adapted::has_each_entry;
pub use documents::{is_closed, is_ordered};
pub use functions::is_mapped;
pub use made::{document_of, module_of};
pub use traces::allocate_writable;
pub use values::{are_values, takes_values};
