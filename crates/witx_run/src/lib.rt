//! The machine that runs a trace, as a program: its rows are written once over what values, words and
//! memories are.
#![tactic(auto)]

mod blocks;
mod callee;
mod calls;
mod cases;
mod conversion;
mod copies;
mod domain;
mod frame;
mod item;
mod machine;
mod matching;
mod naming;
mod outcome;
mod progress;
mod row;
mod script;
mod side;
mod sides;
mod slots;
mod stack;
mod traces;

pub use conversion::{Conversion, builtin_word_type, same_type};
pub use copies::name_of;
pub use domain::{Domain, Picked};
pub use frame::Frame;
pub use item::Item;
pub use machine::{Block, Inside, Machine, give_slot, perform};
pub use outcome::{CallMade, Outcome, Run};
pub use progress::{Progress, Stop, Turn, run, run_on, start};
pub use row::{Row, row_of};
pub use script::Script;
pub use slots::Slots;
pub use traces::{RunOf, run_traces};
