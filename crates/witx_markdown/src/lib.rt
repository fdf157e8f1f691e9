//! The tree of a page in Markdown, the links of documentation, and the numbers that a page shows of a type.
#![tactic(auto)]

mod branch;
mod constant_types;
mod content;
mod content_text;
mod family;
mod heading;
mod kin;
mod known_layout;
mod links;
mod named_layouts;
mod tree;

pub use branch::Branch;
pub use constant_types::unknown_constant_type;
pub use content::{MdContent, MdFunc, MdInputs, MdNamedType, MdOutputs, MdSection};
pub use content_text::{put_content, put_func_line, put_named_line};
pub use heading::{MdHeading, put};
pub use known_layout::{placed, type_layout, variant_layout};
pub use links::{KnownIds, MissingLinks, known_ids, put_linked};
pub use named_layouts::NamedLayouts;
pub use tree::{MdTree, Numbers, allocator_of, graft, header_below};
