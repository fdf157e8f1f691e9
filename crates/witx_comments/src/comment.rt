//! The comments of an item: what is kept of them, and copies of it.

ghost use Rattle.std.specs.Prelude.{◌≡◌, IfOk};
ghost use Rattle.witx_comments.specs.{Comments.{comments_view}, Copies.{IsCopyOfDocumented}};
ghost use Rattle.witx_comments.specs.Documentation.{documentation_of};

use crate::documentation_text::documentation;
use std::alloc::Global;
use witx_base::{Duplicate, OutOfMemory, Text};
use witx_lex::Comments;

/// The comments between the token before an item and the item's first token.
#[derive(PartialEq, Eq, Debug, Drop)]
pub struct CommentSyntax<'a> {
    pub comments: Comments<'a>,
}

/// An item and the comments before it.
#[derive(PartialEq, Eq, Debug, Drop)]
pub struct Documented<'a, T> {
    pub comments: CommentSyntax<'a>,
    pub item: T,
}

impl<'a> CommentSyntax<'a> {
    /// The documentation text of the comments.
    pub fn docs(&self, alloc: Global) -> Result<Text, OutOfMemory>
        ensures { IfOk result (λ text. text ≡ documentation_of (comments_view self.now)) }
    {
        if self.comments.is_empty() {
            return Ok(Text::from_string(String::new(alloc)));
        }
        documentation(alloc, self.comments.as_slice())
    }
}

impl<'a> Duplicate for CommentSyntax<'a> {
    ghost is_copy = { λ noted made. comments_view made ≡ comments_view noted };

    #[tactic(auto, using(crate::proofs::Copied::copied_texts))]
    fn copy(&self) -> Result<CommentSyntax<'a>, OutOfMemory> {
        let comments = self.comments.copy()?;
        Ok(CommentSyntax { comments })
    }
}

impl<'a, T: Duplicate + Drop> Duplicate for Documented<'a, T> {
    ghost is_copy = { IsCopyOfDocumented T.is_copy };

    fn copy(&self) -> Result<Documented<'a, T>, OutOfMemory> {
        Ok(Documented {
            comments: self.comments.copy()?,
            item: self.item.copy()?,
        })
    }
}
