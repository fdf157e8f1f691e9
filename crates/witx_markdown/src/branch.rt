//! Nodes that are still to be added to a page's tree.

ghost use Rattle.std.specs.Prelude.{◌≡◌, [], IfOk, OnOk};
ghost use Rattle.witx_markdown.specs.Forests.{lone_node, next_number, sprouted};

use crate::content::MdContent;
use std::alloc::Global;
use witx_base::{Items, OutOfMemory};

/// Nodes that are still to be added to a tree, so that the tree has all of them or none.
#[derive(Debug, Drop)]
pub struct Branch {
    /// The number of the first of them.
    pub first: usize,
    /// The number of each node's parent, in the tree or among them.
    pub parents: Items<Option<usize>>,
    pub contents: Items<MdContent>,
}

impl Branch {
    /// No nodes yet; takes no memory.
    pub fn new(alloc: Global, first: usize) -> Branch
        ensures { result ≡ record { first = first; parents = []; contents = [] } }
    {
        Branch {
            first,
            parents: Items::new(alloc),
            contents: Items::new(alloc),
        }
    }

    /// Where the nodes take their memory from.
    pub fn allocator(&self) -> Global {
        self.contents.allocator()
    }

    /// Adds a node below the one numbered `parent`; the answer is its own number.
    #[tactic(auto, unfolding(crate::specs::Forests::sprouted))]
    pub fn push(&mut self, parent: usize, content: MdContent) -> Result<usize, OutOfMemory>
        ensures number { IfOk result (λ number. number ≡ next_number self.old) }
        ensures node { OnOk result (self.new ≡ sprouted self.old parent (lone_node content)) }
    {
        let length = self.contents.len();
        self.contents.push(content)?;
        self.parents.push(Some(parent))?;
        match self.first.checked_add(length) {
            Some(number) => Ok(number),
            None => Err(OutOfMemory),
        }
    }
}
