//! Who stands above whom, from the parents of a tree's nodes.
#![tactic(auto, using(crate::proofs::Ancestry::ancestor_rules))]

ghost use Rattle.std.specs.Prelude.{◌≡◌, ◌<◌, ◌≤◌, IfOk, length};
ghost use Rattle.witx_markdown.specs.Trees.{AreParents, ancestors_of};

use crate::tree::Numbers;
use std::alloc::Global;
use witx_base::OutOfMemory;

/// The nodes above `node`, from its parent up to the root.
pub fn ancestors_in(
    alloc: Global,
    parents: &[Option<usize>],
    node: usize,
) -> Result<Numbers, OutOfMemory>
    requires parents { AreParents parents.now }
    requires node { node < length parents.now }
    ensures { IfOk result (λ numbers. numbers ≡ ancestors_of parents.now node) }
{
    let mut numbers = Numbers::new(alloc);
    let mut at = node;
    while let Some(parent) = parents[at] {
        numbers.push(parent)?;
        at = parent;
    }
    Ok(numbers)
}

/// How many nodes stand above `node`.
pub fn ancestor_count(parents: &[Option<usize>], node: usize) -> usize
    requires parents { AreParents parents.now }
    requires node { node < length parents.now }
    ensures count { result ≡ length (ancestors_of parents.now node) }
    ensures most { result ≤ node }
{
    let mut count = 0;
    let mut at = node;
    while let Some(parent) = parents[at] {
        count += 1;
        at = parent;
    }
    count
}
