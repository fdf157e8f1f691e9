//! A page as a tree of numbered nodes.
#![tactic(auto, using(crate::proofs::Ancestry::tree_rules))]

ghost use Rattle.std.specs.Prelude.{◌≡◌, ◌∷◌, ◌++◌, [], ◌<◌, IfOk, OnOk, OnErr, length, string_bytes, Some, None};
ghost use Rattle.std.specs.{Borrow.{sem}, List.{All, flat_map}};
ghost use Rattle.witx_markdown.specs.{declared.content.MdContent.{MdContent}, Contents.{content_text}};
ghost use Rattle.witx_markdown.specs.Trees.{HaveParents, ancestors_of, levels_of, tree_text, content_at, heading_below};
ghost use Rattle.witx_markdown.specs.Lending.{LendsContent};

use crate::branch::Branch;
use crate::content::MdContent;
use crate::content_text::put_content;
use crate::family::{ancestor_count, ancestors_in};
use crate::heading::MdHeading;
use crate::kin::{Kin, text_order};
use std::alloc::Global;
use std::marker::Model;
use witx_base::{Items, OutOfMemory, Text};

/// Numbers of nodes.
pub type Numbers = Items<usize>;

/// A page as a tree. Its nodes are numbered in the order in which they were added, the root 0.
#[derive(Debug, Drop)]
pub struct MdTree {
    /// The number of each node's parent.
    parents: Vec<Option<usize>>,
    contents: Vec<MdContent>,
}

impl Model for MdTree {
    ghost use Rattle.std.specs.Prelude.{◌≡◌, length};
    ghost use Rattle.witx_markdown.specs.Trees.{PageTree, AreParents};

    ghost Value = { PageTree };

    ghost view = { λ t. record { parents = t.parents.items; contents = t.contents.items } };

    ghost invariant = { λ t. AreParents t.parents.items × (length t.contents.items ≡ length t.parents.items) };
}

impl MdTree {
    /// A root alone.
    pub fn new(alloc: Global) -> Result<MdTree, OutOfMemory>
        ensures { IfOk result (λ t. t ≡ record { parents = None ∷ []; contents = MdContent.Root ∷ [] }) }
    {
        let mut parents = Vec::new(alloc);
        parents.push(None)?;
        let mut contents = Vec::new(alloc);
        contents.push(MdContent::Root)?;
        Ok(MdTree { parents, contents })
    }

    /// The number of nodes.
    pub fn len(&self) -> usize
        ensures { result ≡ length self.now.contents }
    {
        self.contents.len()
    }

    /// Adds a node as the last child of `parent`; the answer is its number, the next one. A refused call
    /// changes nothing.
    pub fn new_child(&mut self, parent: usize, item: MdContent) -> Result<usize, OutOfMemory>
        requires { parent < length self.old.contents }
        ensures number { IfOk result (λ number. number ≡ length self.old.contents) }
        ensures child { OnOk result (self.new ≡ record {
          parents = self.old.parents
              ++ Some parent ∷ [];
          contents = self.old.contents ++ item ∷ [];
        }) }
        ensures unchanged { OnErr result (self.new ≡ self.old) }
    {
        let number = self.contents.len();
        self.contents.push(item)?;
        if self.parents.push(Some(parent)).is_err() {
            self.contents.truncate(number);
            return Err(OutOfMemory);
        }
        Ok(number)
    }

    /// The nodes above `node`, from its parent up to the root.
    pub fn ancestors(&self, node: usize) -> Result<Numbers, OutOfMemory>
        requires { node < length self.now.contents }
        ensures { IfOk result (λ numbers. numbers ≡ ancestors_of self.now.parents node) }
    {
        ancestors_in(allocator_of(self), self.parents.as_slice(), node)
    }

    /// The children of `node`, and then in turn the same of each of them.
    pub fn children(&self, node: usize) -> Result<Numbers, OutOfMemory>
        requires { node < length self.now.contents }
        ensures { IfOk result (λ numbers. numbers ≡ levels_of self.now.parents node) }
    {
        let kin = Kin::of(allocator_of(self), self.parents.as_slice())?;
        let numbers = kin.children_below(allocator_of(self), node)?;
        Ok(numbers)
    }

    /// The text of the whole tree: each node's text, and then that of its children, one after the other.
    pub fn text(&self) -> Result<Text, OutOfMemory>
        ensures { IfOk result (λ text. text ≡ tree_text self.now) }
    {
        let nodes = text_order(allocator_of(self), self.parents.as_slice())?;
        let mut out = String::new(allocator_of(self));
        put_nodes(&mut out, self.contents.as_slice(), nodes.as_slice())?;
        Ok(Text::from_string(out))
    }

    /// The content of `node`.
    pub fn content(&self, node: usize) -> &MdContent
        requires { node < length self.now.contents }
        ensures { result.now ≡ content_at self.now.contents node }
    {
        &self.contents[node]
    }

    /// The content of `node`, to be changed.
    pub fn content_mut(&mut self, node: usize) -> &mut MdContent
        requires { node < length self.old.contents }
        ensures* writes_back { sem 𝓛 (LendsContent self.entry node result) }
        ensures value { result.now ≡ content_at self.old.contents node }
    {
        &mut self.contents[node]
    }
}

/// Where the tree takes its memory from.
pub fn allocator_of(tree: &MdTree) -> Global {
    *tree.contents.allocator()
}

/// The header of what stands right below `node`: one level more than `node` has ancestors.
pub fn header_below(tree: &MdTree, node: usize) -> MdHeading
    requires { node < length tree.now.contents }
    ensures { result ≡ heading_below tree.now node }
{
    MdHeading::new_header(ancestor_count(tree.parents.as_slice(), node) + 1)
}

/// Adds the nodes of a branch, which begins with the next number. A refused call changes nothing.
pub fn graft(tree: &mut MdTree, branch: Branch) -> Result<(), OutOfMemory>
    requires { HaveParents (length tree.old.contents) branch.parents × (length branch.contents ≡ length branch.parents) }
    ensures nodes { OnOk result (tree.new ≡ record {
      parents = tree.old.parents
          ++ branch.parents;
      contents = tree.old.contents ++ branch.contents;
    }) }
    ensures unchanged { OnErr result (tree.new ≡ tree.old) }
{
    let number = tree.contents.len();
    let mut contents = branch.contents.into_vec();
    let mut parents = branch.parents.into_vec();
    tree.contents.append(&mut contents)?;
    if tree.parents.append(&mut parents).is_err() {
        tree.contents.truncate(number);
        return Err(OutOfMemory);
    }
    Ok(())
}

/// Appends the texts of these nodes, one after the other.
fn put_nodes(out: &mut String, contents: &[MdContent], nodes: &[usize]) -> Result<(), OutOfMemory>
    requires { All (λ n. n < length contents.now) nodes.now }
    ensures { OnOk result (string_bytes out.new
        ≡ string_bytes out.old ++ flat_map (λ n. content_text (content_at contents.now n)) nodes.now) }
{
    for node in nodes {
        put_content(out, &contents[*node])?;
    }
    Ok(())
}
