//! The nodes below a node, from the parents of a tree's nodes.

ghost use Rattle.std.specs.Prelude.{◌≡◌, ℕ, ◌+◌, ◌∷◌, ◌++◌, ◌<◌, Some, IfOk, OnOk, length};
ghost use Rattle.std.specs.{List.{All, flat_map}, Option.{option_to_list}};
ghost use Rattle.witx_markdown.specs.Trees.{AreParents, children_of, levels_of, order_from, parent_of};
ghost use Rattle.witx_markdown.specs.Families.{AreLinked, next_child};

use crate::tree::Numbers;
use std::alloc::Global;
use std::marker::Model;
use witx_base::OutOfMemory;

/// Of each node of a tree its first child, and the child of the same parent that follows it.
#[derive(Drop)]
pub struct Kin<'a> {
    parents: &'a [Option<usize>],
    first: Vec<Option<usize>>,
    next: Vec<Option<usize>>,
}

impl<'a> Model for Kin<'a> {
    ghost use Rattle.std.specs.Prelude.{ℕ, List, Option};
    ghost use Rattle.witx_markdown.specs.{Trees.{AreParents}, Families.{AreLinked}};

    ghost Value = { List (Option ℕ) };

    ghost view = { λ k. k.parents.now };

    ghost invariant = { λ k. AreParents k.parents.now × AreLinked k.parents.now 0 k.first.items k.next.items };
}

impl<'a> Kin<'a> {
    /// The kin of the nodes with these parents.
    pub fn of(alloc: Global, parents: &'a [Option<usize>]) -> Result<Kin<'a>, OutOfMemory>
        requires { AreParents parents.now }
        ensures { IfOk result (λ kin. kin ≡ parents.now) }
    {
        let mut first = vec![in alloc; None; parents.len()]?;
        let mut next = vec![in alloc; None; parents.len()]?;
        link(parents, &mut first, &mut next);
        Ok(Kin {
            parents,
            first,
            next,
        })
    }

    /// The first child of `node`.
    fn first_child(&self, node: usize) -> Option<usize>
        requires { node < length self.now }
        ensures first { result ≡ next_child self.now 0 node }
        ensures tree { AreParents self.now }
    {
        self.first[node]
    }

    /// The child of the same parent that follows `node`.
    fn next_child(&self, node: usize) -> Option<usize>
        requires { node < length self.now }
        ensures { (p : ℕ) → parent_of self.now node ≡ Some p → result ≡ next_child self.now (node + 1) p }
    {
        self.next[node]
    }

    /// Appends the children of `node`.
    fn put_children(&self, numbers: &mut Numbers, node: usize) -> Result<(), OutOfMemory>
        requires { node < length self.now }
        ensures { OnOk result (numbers.new ≡ numbers.old ++ children_of self.now node) }
    {
        let mut at = self.first_child(node);
        while let Some(child) = at {
            numbers.push(child)?;
            at = self.next_child(child);
        }
        Ok(())
    }

    /// The children of each of these nodes, one after the other.
    fn children_of_each(&self, alloc: Global, nodes: &[usize]) -> Result<Numbers, OutOfMemory>
        requires { All (λ n. n < length self.now) nodes.now }
        ensures { IfOk result (λ numbers. numbers ≡ flat_map (children_of self.now) nodes.now) }
    {
        let mut numbers = Numbers::new(alloc);
        for node in nodes {
            self.put_children(&mut numbers, *node)?;
        }
        Ok(numbers)
    }

    /// A node and what stands below it, in the order of the text.
    fn nodes_from(&self, alloc: Global, node: usize) -> Result<Numbers, OutOfMemory>
        requires { node < length self.now }
        ensures order { IfOk result (λ numbers. numbers ≡ node ∷ order_from 0 self.now node) }
        ensures tree { OnOk result (AreParents self.now) }
    {
        let mut numbers = Numbers::new(alloc);
        numbers.push(node)?;
        let mut ahead = Vec::new(alloc);
        let first = self.first_child(node);
        put_if(&mut ahead, first)?;
        while let Some(next) = ahead.pop() {
            numbers.push(next)?;
            let sibling = self.next_child(next);
            put_if(&mut ahead, sibling)?;
            let child = self.first_child(next);
            put_if(&mut ahead, child)?;
        }
        Ok(numbers)
    }

    /// The children of `node`, and then in turn the same of each of them.
    pub fn children_below(&self, alloc: Global, node: usize) -> Result<Numbers, OutOfMemory>
        requires { node < length self.now }
        ensures { IfOk result (λ numbers. numbers ≡ levels_of self.now node) }
    {
        let nodes = self.nodes_from(alloc, node)?;
        let numbers = self.children_of_each(alloc, nodes.as_slice())?;
        Ok(numbers)
    }
}

/// Links the children of each node, from the last to the first.
fn link(parents: &[Option<usize>], first: &mut [Option<usize>], next: &mut [Option<usize>])
    requires tree { AreParents parents.now }
    requires none { AreLinked parents.now (length parents.now) first.old next.old }
    ensures { AreLinked parents.now 0 first.new next.new }
{
    for node in (0..parents.len()).rev() {
        if let Some(parent) = parents[node] {
            next[node] = first[parent];
            first[parent] = Some(node);
        }
    }
}

fn put_if(ahead: &mut Vec<usize>, node: Option<usize>) -> Result<(), OutOfMemory>
    ensures { OnOk result (ahead.new.items ≡ ahead.old.items ++ option_to_list node) }
{
    if let Some(node) = node {
        ahead.push(node)?;
    }
    Ok(())
}

/// All nodes of a tree, in the order of the text.
pub fn text_order(alloc: Global, parents: &[Option<usize>]) -> Result<Numbers, OutOfMemory>
    requires parents { AreParents parents.now }
    requires root { 0 < length parents.now }
    ensures order { IfOk result (λ numbers. numbers ≡ 0 ∷ order_from 0 parents.now 0) }
    ensures within { IfOk result (All (λ n. n < length parents.now)) }
{
    let kin = Kin::of(alloc, parents)?;
    let nodes = kin.nodes_from(alloc, 0)?;
    Ok(nodes)
}
