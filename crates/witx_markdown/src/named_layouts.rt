//! How the layout of a name is found.

use witx_base::NameMap;
use witx_layout::SizeAlign;

/// What the layout of a name is found by.
#[derive(Clone, Copy, Drop)]
pub enum NamedLayouts<'a> {
    /// The layouts of typenames, by their names.
    Kept(&'a NameMap<SizeAlign>),
    /// Nothing: each name is looked through.
    LookedThrough,
}
