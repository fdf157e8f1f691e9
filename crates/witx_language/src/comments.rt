//! The comments of items.

ghost use Rattle.std.specs.Prelude.{◌≡◌, ◌+◌, IfOk};
ghost use Rattle.witx_comments.specs.Comments.{comments_view};
ghost use Rattle.witx_language.specs.CommentsHeld.{comments_held};
ghost use Rattle.witx_values.specs.TextTokens.{HoldsMarks};

use crate::token_kind::TokenKind;
use std::alloc::Global;
use witx_base::OutOfMemory;
use witx_syntax_tree::{CommentSyntax, Comments};
use witx_values::TextTokens;

/// The comments before the token at a place; behind the last token there are none.
pub fn comments_at<'a>(
    alloc: Global,
    tokens: &TextTokens<'a, TokenKind>,
    at: usize,
) -> Result<CommentSyntax<'a>, OutOfMemory>
    requires { HoldsMarks tokens.now }
    ensures { IfOk result (λ made. comments_view made ≡ comments_held tokens.now at) }
{
    let comments = tokens.comments_at(alloc, at)?;
    Ok(CommentSyntax { comments })
}

/// The comments before the token behind a place.
pub fn comments_behind<'a>(
    alloc: Global,
    tokens: &TextTokens<'a, TokenKind>,
    at: usize,
) -> Result<CommentSyntax<'a>, OutOfMemory>
    requires { HoldsMarks tokens.now }
    ensures { IfOk result (λ made. comments_view made ≡ comments_held tokens.now (at + 1)) }
{
    if at < tokens.marks.len() {
        comments_at(alloc, tokens, at + 1)
    } else {
        Ok(CommentSyntax {
            comments: Comments::new(alloc),
        })
    }
}
