//! The tokens of a text as a list.

ghost use Rattle.std.specs.Prelude.{◌≡◌, IfOk, IfErr};
ghost use Rattle.witx_lex.specs.{Faults.{HasFault, IfBad}, Views.{texts_view, tokens_view}};
ghost use Rattle.witx_lex.specs.Meaning as meaning;

use crate::error::LexError;
use crate::lexer::lex_into;
use crate::sink::TokenSink;
use crate::token::{Comments, Lexed, Span, Token, Tokens};
use std::alloc::Global;
use std::mem;
use witx_base::{Items, OutOfMemory};

/// The tokens that were taken, and the comments behind the last one.
#[derive(Drop)]
struct Listed<'a> {
    tokens: Tokens<'a>,
    comments: Comments<'a>,
}

impl<'a> TokenSink<'a> for Listed<'a> {
    ghost Took = { λ s ts cs. (tokens_view s.tokens ≡ ts) × (texts_view s.comments ≡ cs) };

    fn take_comment(&mut self, comment: &'a str) -> Result<(), OutOfMemory> {
        self.comments.push(comment)
    }

    fn take_token(&mut self, token: Token<'a>, span: Span) -> Result<(), OutOfMemory> {
        let none = Items::new(self.tokens.allocator());
        let comments = mem::replace(&mut self.comments, none);
        self.tokens.push(Lexed {
            token,
            span,
            comments,
        })
    }
}

/// The tokens of a text, each with its place and the comments before it; or the text's fault, the
/// first place at which no piece can stand. Exactly one of the two is there for each text.
pub fn lex<'a>(alloc: Global, text: &'a str) -> Result<Tokens<'a>, LexError>
    ensures tokens { IfOk result (λ ts. meaning.HasTokens text.now (tokens_view ts)) }
    ensures fault { IfErr result (λ e. IfBad e (λ f. HasFault text.now f)) }
{
    let mut listed = Listed {
        tokens: Items::new(alloc),
        comments: Items::new(alloc),
    };
    lex_into(alloc, text, &mut listed)?;
    Ok(listed.tokens)
}
