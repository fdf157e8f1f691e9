//! A block that is being run.

ghost use Rattle.std.specs.Prelude.{◌<◌};

use crate::item::Item;
use crate::machine::Inside;

/// The step that runs a block, and what follows the block.
#[derive(Drop)]
pub struct Frame<V, W> {
    /// Where the step stands.
    pub(crate) inside: Inside<V, W>,
    /// The step.
    pub(crate) at: usize,
    /// The end of the events in which it stands.
    pub(crate) end: usize,
    /// What was below on the stack.
    pub(crate) below: Vec<Item<V, W>>,
    /// Whether the step is result_lower; else it is result_lift.
    pub(crate) lowers: bool,
    /// Whether the block is the second case's.
    pub(crate) error: bool,
    /// Whether the block's finish has a value.
    pub(crate) has_value: bool,
    /// The finish.
    pub(crate) finish: usize,
    ghost within: { at < end },
}
