//! The lexer: the tokens of a text, each with its place and the comments before it, or the first
//! place at which no token, comment or blank can stand.
#![tactic(auto)]

mod characters;
mod comment;
mod cut;
mod error;
mod escape;
mod handing;
mod laws;
mod lexer;
mod line_cursor;
mod listed;
mod piece;
mod place;
mod run;
mod sink;
mod string;
mod token;

pub use comment::block_scan_is_exact;
pub use cut::{MOST_OPEN, most_open_parentheses};
pub use error::{LexError, LexFault, LexKind};
pub use laws::{
    a_fault_is_unique, a_text_has_pieces_or_a_fault, no_piece_at_a_fault, pieces_are_unique,
    pieces_exclude_a_fault, tokens_are_slices, tokens_are_unique,
};
pub use lexer::lex_into;
pub use line_cursor::LineCursor;
pub use listed::lex;
pub use place::line_column;
pub use sink::TokenSink;
pub use string::string_spelled;
pub use token::{Comments, Lexed, Span, Token, Tokens};
