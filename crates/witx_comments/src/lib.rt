//! The comments of each item of a text, and the documentation text that they give.
#![tactic(auto)]

mod comment;
mod documentation_text;
mod laws;

pub use comment::{CommentSyntax, Documented};
pub use documentation_text::documentation;
pub use laws::lines_are_cut_between_characters;
pub use witx_lex::Comments;
