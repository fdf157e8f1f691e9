//! From a text to the tokens that are held of it.

ghost use Rattle.std.specs.Prelude.{◌≡◌, IfOk, IfErr};
ghost use Rattle.witx_lex.specs.{Faults.{HasFault, IfBad}, Views.{texts_view}};
ghost use Rattle.witx_values.specs.TextTokens.{AreTold, HoldsText};

use crate::actions::Actions;
use crate::marks::{Mark, TextTokens};
use std::alloc::Global;
use witx_base::OutOfMemory;
use witx_lex::{LexError, Span, Token, TokenSink, lex_into};

/// The kinds, the marks and the comments of the tokens so far.
struct Filling<'t, 'a, A: Actions<'a>> {
    actions: &'t A,
    kinds: Vec<A::Kind>,
    marks: Vec<Mark>,
    comments: Vec<&'a str>,
}

impl<'t, 'a, A: Actions<'a>> TokenSink<'a> for Filling<'t, 'a, A> {
    ghost Took = { λ s. AreTold A.language s.kinds.items s.marks.items (texts_view s.comments.items) };

    fn take_comment(&mut self, comment: &'a str) -> Result<(), OutOfMemory> {
        self.comments.push(comment)?;
        Ok(())
    }

    #[inline(always)]
    fn take_token(&mut self, token: Token<'a>, span: Span) -> Result<(), OutOfMemory> {
        self.kinds.push(self.actions.kind(&token))?;
        let comments = self.comments.len();
        self.marks.push(Mark { span, comments })?;
        Ok(())
    }
}

/// Most texts have so many bytes to a token, or more. There is room for a token of each three at once, so that the lists of
/// a long text aren't copied while they grow.
const TOKEN_BYTES: usize = 3;

/// The tokens of a text, with their kinds in the language of the actions; or the text's fault.
pub fn text_tokens<'a, A: Actions<'a>>(
    alloc: Global,
    actions: &A,
    text: &'a str,
) -> Result<TextTokens<'a, A::Kind>, LexError>
    ensures tokens { IfOk result (λ t. HoldsText A.language t) }
    ensures text { IfOk result (λ t. t.text.now ≡ text.now) }
    ensures fault { IfErr result (λ e. IfBad e (λ f. HasFault text.now f)) }
{
    let room = text.len() / TOKEN_BYTES;
    let mut filling: Filling<'_, 'a, A> = Filling {
        actions,
        kinds: Vec::with_capacity(alloc, room)?,
        marks: Vec::with_capacity(alloc, room)?,
        comments: Vec::new(alloc),
    };
    let told = lex_into(alloc, text, &mut filling);
    let Filling {
        actions: _,
        mut kinds,
        marks,
        comments,
    } = filling;
    told?;
    kinds.push(actions.end())?;
    Ok(TextTokens {
        text,
        kinds,
        marks,
        comments,
    })
}
