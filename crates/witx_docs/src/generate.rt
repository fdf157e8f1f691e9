//! What is shown at a node of a page and below it.

ghost use Rattle.std.specs.Prelude.{◌≡◌, ◌⊎◌, ◌<◌, ℕ, List, Option, Some, None, IfErr, OnErr, OnOk, length};
ghost use Rattle.witx_markdown.specs.declared.heading.MdHeading.{MdHeading};
ghost use Rattle.witx_markdown.specs.{declared.content.MdContent.{MdContent}, Contents.{content_id}};
ghost use Rattle.witx_markdown.specs.{Forests.{Forest}, Trees.{content_at, generated, heading_below}};
ghost use Rattle.witx_docs.specs.declared.error.DocsError.{DocsError};

use crate::error::DocsError;
use witx_markdown::MdTree;

/// What is shown at a node of a page and below it.
pub trait ToMarkdown {
    /// What the content of the node becomes.
    ghost shown: { Self → MdContent → MdContent };

    /// The nodes that it gets, under a header, where its content has that id or none.
    ghost parts: { Self → MdHeading → Option (List ℕ) → Forest };

    /// Why there are none.
    ghost refuses: { Self → Option DocsError };

    /// Shows it at `node`: parts become further nodes below it, as its last children, with the next numbers; a
    /// type, documentation, a title, inputs and outputs are set where the content has them. A refused call
    /// changes nothing.
    ///
    /// `UnknownConstantType` comes only from a document, for the first constant's type that is no typename;
    /// `TooLarge` exactly where else a size or an offset that the nodes need exceeds `usize::MAX`.
    fn generate(&self, tree: &mut MdTree, node: usize) -> Result<(), DocsError>
        requires { node < length tree.old.contents }
        ensures nodes { OnOk result (tree.new ≡ generated tree.old node (shown self.now (content_at tree.old.contents node))
            (parts self.now (heading_below tree.old node) (content_id (content_at tree.old.contents node)))) }
        ensures accepted { OnOk result (refuses self.now ≡ None) }
        ensures refusal { IfErr result (λ refused. (refused ≡ DocsError.OutOfMemory) ⊎ (refuses self.now ≡ Some refused)) }
        ensures unchanged { OnErr result (tree.new ≡ tree.old) };
}
