//! Tokens, with their places and the comments before them.

use witx_base::{Items, Text};

/// The bytes of a text from `start` up to `end`, without the byte at `end`.
#[derive(Clone, Copy, PartialEq, Eq, Debug)]
pub struct Span {
    pub start: usize,
    pub end: usize,
}

/// A token. All but `Quoted` borrow the text.
#[derive(PartialEq, Eq, Drop)]
pub enum Token<'a> {
    /// `(`.
    LParen,
    /// `)`.
    RParen,
    /// An identifier, without its `$`.
    Id(&'a str),
    /// A run of name characters that is none of the others.
    Word(&'a str),
    /// An annotation, without its `@`.
    Annot(&'a str),
    /// An integer as it is spelled, with its sign, its `0x` and each `_`.
    Int(&'a str),
    /// A string, decoded.
    Quoted(Text),
}

/// The texts of comments, without the marks that begin and end them.
pub type Comments<'a> = Items<&'a str>;

/// A token, where it stands, and the comments between it and the token before.
#[derive(PartialEq, Eq, Drop)]
pub struct Lexed<'a> {
    pub token: Token<'a>,
    pub span: Span,
    pub comments: Comments<'a>,
}

/// The tokens of a text, in order.
pub type Tokens<'a> = Items<Lexed<'a>>;
