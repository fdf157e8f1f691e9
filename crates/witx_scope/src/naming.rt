//! A type that is given a name.

ghost use Rattle.std.specs.Prelude.{◌≡◌, IfOk};
ghost use Rattle.witx_comments.specs.{Documentation.{documentation_of}, Comments.{comments_view}};

use std::alloc::Global;
use witx_ast::{NamedType, TypeRef};
use witx_base::{Id, OutOfMemory};
use witx_syntax_tree::CommentSyntax;

/// A named type, documented by the comments.
pub fn named(
    name: Id,
    tref: TypeRef,
    comments: &CommentSyntax<'_>,
    alloc: Global,
) -> Result<NamedType, OutOfMemory>
    ensures { IfOk result (λ made. made
        ≡ record { name = name; tref = tref; docs = documentation_of (comments_view comments.now) }) }
{
    let docs = comments.docs(alloc)?;
    Ok(NamedType { name, tref, docs })
}
