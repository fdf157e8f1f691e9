//! The tokens of a text, held by their kinds and by where they stand.

ghost use Rattle.std.specs.Prelude.{◌≡◌, ◌<◌, ◌≤◌, List, length, slice_index_or, slice_range, take, IfOk};
ghost use Rattle.witx_lex.specs.{Slices.{SpellsToken}, Tokens.{Lexed}, Views.{texts_view}};
ghost use Rattle.witx_values.specs.TextTokens.{AreMarked, HoldsMarks, IsTokenSpan, comments_before, span_of};
ghost use Rattle.witx_values.specs.Texts.{start_of, token_at};

use std::alloc::Global;
use witx_base::{Items, OutOfMemory};
use witx_grammar::Kind;
use witx_lex::Span;

/// Where a token stands in its text, and how many comments stand before its end.
#[derive(Clone, Copy)]
pub struct Mark {
    /// Where the token stands.
    pub span: Span,
    /// How many comments stand before its end, from the start of the text.
    pub comments: usize,
}

/// The tokens of a text: what a token spells is read off the text where its mark says.
#[derive(Drop)]
pub struct TextTokens<'a, K> {
    /// The text.
    pub text: &'a str,
    /// The kind of each token, and behind the last one that of the end.
    pub kinds: Vec<K>,
    /// The mark of each token.
    pub marks: Vec<Mark>,
    /// The comments of the text, without what begins and ends them.
    pub comments: Vec<&'a str>,
}

/// The part of a text that one of its tokens takes.
fn slice_at<'a>(text: &'a str, span: Span) -> &'a str
    requires { IsTokenSpan text.now span }
    ensures { result.now ≡ slice_range text.now span.start span.end }
{
    &text[span.start..span.end]
}

impl<'a, K: Kind> TextTokens<'a, K> {
    /// The kinds of the tokens, and behind the last one that of the end.
    pub fn kinds(&self) -> &[K]
        ensures { result.now ≡ self.now.kinds.items }
    {
        self.kinds.as_slice()
    }

    /// The kind of the token with the number; behind the last one stands that of the end.
    pub fn kind(&self, at: usize) -> K
        requires { at < length self.now.kinds.items }
        ensures { result ≡ slice_index_or self.now.kinds.items at result }
    {
        self.kinds[at]
    }

    /// Where the token with the number stands.
    pub fn span(&self, at: usize) -> Span
        requires { at < length self.now.marks.items }
        ensures { (ls : List Lexed) → AreMarked self.now ls → result ≡ span_of (token_at ls at) }
    {
        self.marks[at].span
    }

    /// How the token with the number is spelled.
    pub fn spelling(&self, at: usize) -> &'a str
        requires inside { at < length self.now.marks.items }
        requires tokens { HoldsMarks self.now }
        ensures { (ls : List Lexed) → AreMarked self.now ls → SpellsToken result.now (token_at ls at).token }
    {
        slice_at(self.text, self.span(at))
    }

    /// Where the token with the number starts, in bytes; behind the last token it is the end of the text.
    pub fn start(&self, at: usize) -> usize
        ensures { (ls : List Lexed) → AreMarked self.now ls → result ≡ start_of self.now.text.now ls at }
    {
        if at < self.marks.len() {
            self.marks[at].span.start
        } else {
            self.text.len()
        }
    }

    /// How many comments stand before those of the token with the number.
    fn comments_until(&self, at: usize) -> usize
        requires { at ≤ length self.now.marks.items }
        ensures { (ls : List Lexed) → AreMarked self.now ls → result ≡ length (comments_before (take at ls)) }
    {
        if at == 0 {
            0
        } else {
            self.marks[at - 1].comments
        }
    }

    /// The comments from one number up to another, without it.
    fn comments_between(&self, from: usize, to: usize) -> &[&'a str]
        requires ordered { from ≤ to }
        requires inside { to ≤ length self.now.comments.items }
        ensures { result.now ≡ slice_range self.now.comments.items from to }
    {
        &self.comments[from..to]
    }

    /// The comments before the token with the number; behind the last token there are none.
    pub fn comments_at(&self, alloc: Global, at: usize) -> Result<Items<&'a str>, OutOfMemory>
        requires { HoldsMarks self.now }
        ensures { (ls : List Lexed) → AreMarked self.now ls
            → IfOk result (λ made. texts_view made ≡ (token_at ls at).comments) }
    {
        if at >= self.marks.len() {
            return Ok(Items::new(alloc));
        }
        let from = self.comments_until(at);
        let to = self.comments_until(at + 1);
        if from == to {
            return Ok(Items::new(alloc));
        }
        let comments = Vec::from_slice(alloc, self.comments_between(from, to))?;
        Ok(Items::from_vec(comments))
    }
}
