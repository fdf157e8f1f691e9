//! Whether a function can be lowered, the words of its call, and the plans of the events of both sides.
#![tactic(auto)]

mod callee;
mod caller;
mod can_lower;
mod lowering;
mod signature;

pub use callee::plan_callee;
pub use caller::plan_caller;
pub use can_lower::lowerable;
pub use signature::words_in;
