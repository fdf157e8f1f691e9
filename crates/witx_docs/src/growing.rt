//! Nodes that are added below a node of a tree.

ghost use Rattle.std.specs.Prelude.{◌≡◌, ◌⊎◌, ◌<◌, [], ℕ, List, Option, Some, None, IfErr, IfOk, OnErr, OnOk, length, option_map};
ghost use Rattle.witx_markdown.specs.{declared.heading.MdHeading.{MdHeading}, Contents.{content_id}};
ghost use Rattle.witx_markdown.specs.Forests.{Forest, sprouted};
ghost use Rattle.witx_markdown.specs.Trees.{content_at, generated, heading_below};
ghost use Rattle.witx_docs.specs.declared.error.DocsError.{DocsError};
ghost use Rattle.witx_docs.specs.LaidOut.{Judged, too_large, number_refusal};

use crate::error::DocsError;
use crate::place::Place;
use witx_layout::LayoutError;
use witx_markdown::{Branch, MdTree, allocator_of, graft, header_below};

/// What adds parts below a node.
pub trait Parts {
    /// The parts, under a header, of a node that has that id or none.
    ghost nodes_of: { Self → MdHeading → Option (List ℕ) → Forest };

    /// The numbers that they need, each of which has to fit.
    ghost numbers_of: { Self → List ℕ };

    fn put_parts(&self, branch: &mut Branch, at: &Place) -> Result<(), LayoutError>
        ensures nodes { OnOk result (branch.new ≡ sprouted branch.old at.now.node
            (nodes_of self.now at.now.heading (option_map (λ id. id.now) at.now.id))) }
        ensures refusal { Judged (too_large (numbers_of self.now)) result };
}

/// Adds the parts below `node`. A refused call changes nothing.
#[tactic(auto, using(crate::proofs::Generated::grown_tree_rules))]
pub fn grow<P: Parts>(tree: &mut MdTree, node: usize, of: &P) -> Result<(), DocsError>
    requires { node < length tree.old.contents }
    ensures nodes { OnOk result (tree.new ≡ generated tree.old node (content_at tree.old.contents node)
        (P.nodes_of of.now (heading_below tree.old node) (content_id (content_at tree.old.contents node)))) }
    ensures accepted { OnOk result (number_refusal (P.numbers_of of.now) ≡ None) }
    ensures refusal { IfErr result (λ refused. (refused ≡ DocsError.OutOfMemory)
        ⊎ (number_refusal (P.numbers_of of.now) ≡ Some refused)) }
    ensures unchanged { OnErr result (tree.new ≡ tree.old) }
{
    let branch = branch_below(tree, node, of)?;
    graft(tree, branch)?;
    Ok(())
}

/// The parts as a branch that begins with the tree's next number.
fn branch_below<P: Parts>(tree: &MdTree, node: usize, of: &P) -> Result<Branch, LayoutError>
    requires { node < length tree.now.contents }
    ensures branch { IfOk result (λ branch. branch
        ≡ sprouted (record { first = length tree.now.contents; parents = []; contents = [] }) node
        (P.nodes_of of.now (heading_below tree.now node) (content_id (content_at tree.now.contents node)))) }
    ensures refusal { Judged (too_large (P.numbers_of of.now)) result }
{
    let at = Place {
        node,
        heading: header_below(tree, node),
        id: tree.content(node).id(),
    };
    let mut branch = Branch::new(allocator_of(tree), tree.len());
    of.put_parts(&mut branch, &at)?;
    Ok(branch)
}
