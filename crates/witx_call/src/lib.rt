//! What a call over bytes is told and answered with: the texts of values, words, the memory with its
//! ranges, and what is seen of the call.
#![tactic(auto)]

mod answering;
mod call_seen;
mod copies;
mod giving;
mod line;
mod placement;
mod range;
mod text;
mod word;

pub use answering::outcome_seen;
pub use call_seen::{Invoked, Placed, PlacedRanges, Words};
pub use copies::{copied_ranges_are_equal, copied_words_are_equal};
pub use line::behind_line;
pub use placement::Placement;
pub use range::Range;
pub use text::value_text;
pub use word::Word;
