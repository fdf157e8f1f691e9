//! The words of the interface language, its grammar as a table, the trees that productions make of
//! their parts, and the message and place of each fault.
#![tactic(auto)]

mod comments;
pub mod constructors;
mod entries;
mod error;
mod fault;
mod grammar;
pub mod integer;
mod laws;
mod messages;
mod nonterminal;
mod production;
mod sort;
mod token_kind;
mod words;

pub use comments::{comments_at, comments_behind};
pub use entries::{Entries, Entry, add_entry};
pub use error::{ParseError, ParseFault, SyntaxError};
pub use fault::{fault_at, token_fault};
pub use grammar::the_table;
pub use laws::{held_comments_are_those_of_tokens, token_kinds_are_distinct};
pub use messages::lexical_message;
pub use nonterminal::Nonterminal;
pub use production::ProductionName;
pub use sort::Sort;
pub use token_kind::TokenKind;
pub use words::kind_of;
