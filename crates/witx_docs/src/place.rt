//! Where parts are added to a page: a node with its header and id.

ghost use Rattle.std.specs.Prelude.{◌≡◌, ◌++◌, IfOk, codes, option_map};
ghost use Rattle.witx_docs.specs.Parts.{inner_id};

use std::alloc::Global;
use witx_base::{OutOfMemory, Text};
use witx_markdown::MdHeading;

/// A node below which parts are added.
#[derive(Drop)]
pub struct Place<'a> {
    /// The node's number.
    pub node: usize,
    /// The header of what stands right below it.
    pub heading: MdHeading,
    /// The node's id.
    pub id: Option<&'a str>,
}

impl<'a> Place<'a> {
    /// The id of a part of that name.
    pub fn inner_id(&self, alloc: Global, name: &str) -> Result<Text, OutOfMemory>
        ensures { IfOk result (λ id. id ≡ inner_id (option_map (λ id. id.now) self.now.id) name.now) }
    {
        match self.id {
            Some(id) => dotted_name(alloc, id, name),
            None => Text::new(alloc, name),
        }
    }
}

/// Two names with a dot between them.
pub fn dotted_name(alloc: Global, outer: &str, name: &str) -> Result<Text, OutOfMemory>
    ensures { IfOk result (λ id. id ≡ outer.now ++ codes "." ++ name.now) }
{
    Ok(Text::from_string(format!(in alloc; "{outer}.{name}")?))
}
