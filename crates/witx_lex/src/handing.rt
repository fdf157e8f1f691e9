//! The pieces of a text, handed to what takes the tokens.

ghost use Rattle.std.specs.Prelude.{◌≡◌, ◌≢◌, ◌+◌, IsTrue, IfOk, IfErr, false, slice_index};
ghost use Rattle.witx_lex.specs.{declared.error.LexError.TheVariants.{Bad, OutOfMemory}, Faults.{IfBad}};
ghost use Rattle.witx_lex.specs.Sinks.{FaultFrom, HandsOnPiece, HasMoreBehind, TookToken};
ghost use Rattle.witx_lex.specs.Views.{token_view};
ghost use Rattle.witx_lex.specs.Characters as spec;

use crate::cut::Cut;
use crate::error::{LexError, LexFault, LexKind};
use crate::piece::{Seen, read_piece};
use crate::run::{name_end, run_token};
use crate::sink::TokenSink;
use crate::token::{Span, Token};
use std::alloc::Global;

/// The fault at the offset.
pub fn fault_at(kind: LexKind, at: usize) -> LexError
    ensures { result ≡ Bad (record { kind = kind; at = at }) }
{
    LexError::Bad(LexFault { kind, at })
}

/// Hands on a token that stands behind the cut and ends at `end`, where `depth` parentheses are open.
#[inline(always)]
pub fn hand_token<'a, S: TokenSink<'a>>(
    token: Token<'a>,
    from: Cut,
    end: usize,
    depth: usize,
    sink: &mut S,
) -> Result<Cut, LexError>
    ensures cut { IfOk result (λ to. (to.at ≡ end) × (to.depth ≡ depth)) }
    ensures taken { IfOk result (λ _. TookToken S.Took sink.old sink.new (token_view token.entry) from.at end) }
    ensures refused { IfErr result (λ e. e ≡ OutOfMemory) }
{
    let span = Span {
        start: from.at,
        end,
    };
    sink.take_token(token, span)?;
    Ok(Cut { at: end, depth })
}

/// Hands on the longest run of name characters behind the cut.
#[inline(always)]
pub fn hand_run<'a, S: TokenSink<'a>>(
    text: &'a str,
    from: Cut,
    sink: &mut S,
) -> Result<Cut, LexError>
    requires here { HasMoreBehind text.now from }
    requires name { IsTrue (spec.is_name_character (slice_index text.now from.at)) }
    ensures handed { HandsOnPiece S.Took text.now sink.old sink.new from result }
    ensures fault { IfErr result (λ e. IfBad e (λ f. FaultFrom text.now from f)) }
{
    let end = name_end(text.as_bytes(), from.at + 1);
    match run_token(&text[from.at..end]) {
        Some(token) => hand_token(token, from, end, from.depth, sink),
        None => Err(fault_at(LexKind::EmptyId, from.at)),
    }
}

/// Hands on the comment or the string behind the cut, or tells the fault there.
#[inline(never)]
pub fn hand_other<'a, S: TokenSink<'a>>(
    alloc: Global,
    text: &'a str,
    from: Cut,
    sink: &mut S,
) -> Result<Cut, LexError>
    requires here { HasMoreBehind text.now from }
    requires solid { spec.is_blank (slice_index text.now from.at) ≡ false }
    requires unnamed { spec.is_name_character (slice_index text.now from.at) ≡ false }
    requires no_opening { slice_index text.now from.at ≡ 40 → slice_index text.now (from.at + 1) ≡ 59 }
    requires no_closing { slice_index text.now from.at ≢ 41 }
    ensures handed { HandsOnPiece S.Took text.now sink.old sink.new from result }
    ensures fault { IfErr result (λ e. IfBad e (λ f. FaultFrom text.now from f)) }
{
    match read_piece(alloc, &text[from.at..]) {
        Ok(read) => {
            let end = from.at + read.len;
            let seen = read.seen;
            match seen {
                Seen::Quoted(value) => {
                    hand_token(Token::Quoted(value), from, end, from.depth, sink)
                }
                Seen::Comment(comment) => {
                    sink.take_comment(comment)?;
                    Ok(Cut {
                        at: end,
                        depth: from.depth,
                    })
                }
            }
        }
        Err(LexError::Bad(fault)) => Err(fault_at(fault.kind, from.at + fault.at)),
        Err(LexError::OutOfMemory) => Err(LexError::OutOfMemory),
    }
}
