//! How much there is to a type where it is gone through once for each of its mentions: types that double at each
//! step are small as texts, and have no end here. And how much a document shows that has one type at many places.
#![tactic(auto)]

mod allowance;
mod listings;
mod pages;
mod parts;
mod shown;
mod texts;

pub use allowance::Allowance;
pub use listings::check_lowering;
pub use pages::{check_layouts, check_page};
