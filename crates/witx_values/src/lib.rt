//! The value of a derivation: what its tokens stand for, put together production by production.
//!
//! It is proved once, for every grammar whose actions meet the contract of `Actions`: the value is what
//! the derivation stands for. Neither nesting nor length costs the program's stack.
#![tactic(auto)]

mod actions;
mod builder;
mod filling;
mod holding;
mod lists;
mod marks;
mod reader;
mod rules;
mod words;

pub use actions::Actions;
pub use filling::text_tokens;
pub use lists::{appended, reversed};
pub use marks::{Mark, TextTokens};
pub use reader::{Reading, read};
pub use words::{Word, kind_numbered, kind_spelled};
