//! Sizes, alignments and offsets of types in linear memory, exact or refused.
#![tactic(auto)]

mod flat;
mod laws;
mod layout;
mod lines;
mod members;
mod rounding;
mod steps;
mod table;
mod table_lines;
mod tags;

pub use laws::{
    alignment_is_power_of_two, alike_layouts, members_lie_apart, offsets_are_multiples,
    payloads_lie_inside, rounding_is_least, size_is_multiple,
};
pub use layout::{Layout, SizeAlign, TooLarge, VariantOffset};
pub use lines::layouts_text;
pub use members::{LayoutError, MemberLayouts, RecordMemberLayout, RecordMembers};
pub use rounding::{Placed, behind, greater, padded};
pub use steps::Steps;
pub use table::{LayoutsError, SizeAligns, enter_layout, known_layout, layouts, uncounted_layouts};
pub use table_lines::ordered_layouts_text;
pub use tags::{TagTooNarrow, fits_tags};
