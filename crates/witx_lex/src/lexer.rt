//! From a text to its tokens.

ghost use Rattle.std.specs.Prelude.{[], OnOk, IfErr};
ghost use Rattle.witx_lex.specs.{Faults.{HasFault, IfBad}, Sinks.{TookTokens}};

use crate::characters::{byte_at, is_blank, is_name};
use crate::cut::{Cut, MOST_OPEN};
use crate::error::{LexError, LexKind};
use crate::handing::{fault_at, hand_other, hand_run, hand_token};
use crate::sink::TokenSink;
use crate::token::Token;
use std::alloc::Global;

/// Hands the tokens of a text to a sink, each with its place and behind the comments before it; or
/// tells the text's fault, the first place at which no piece can stand.
pub fn lex_into<'a, S: TokenSink<'a>>(
    alloc: Global,
    text: &'a str,
    sink: &mut S,
) -> Result<(), LexError>
    requires { S.Took sink.old [] [] }
    ensures tokens { OnOk result (TookTokens S.Took sink.new text.now) }
    ensures fault { IfErr result (λ e. IfBad e (λ f. HasFault text.now f)) }
{
    let mut cut = Cut { at: 0, depth: 0 };
    while cut.at < text.len() {
        let first = byte_at(text, cut.at);
        if is_blank(first) {
            cut.at += 1;
            continue;
        }
        if is_name(first) {
            cut = hand_run(text, cut, sink)?;
            continue;
        }
        if first == b')' {
            let depth = cut.depth.saturating_sub(1);
            cut = hand_token(Token::RParen, cut, cut.at + 1, depth, sink)?;
            continue;
        }
        if first == b'(' && byte_at(text, cut.at + 1) != b';' {
            if cut.depth == MOST_OPEN {
                return Err(fault_at(LexKind::TooDeep, cut.at));
            }
            cut = hand_token(Token::LParen, cut, cut.at + 1, cut.depth + 1, sink)?;
            continue;
        }
        cut = hand_other(alloc, text, cut, sink)?;
    }
    Ok(())
}
