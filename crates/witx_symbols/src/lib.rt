//! Symbols, which stand for any values of their types: traces run over them, what such a run leaves, and what the verdict
//! on two traces tells.
#![tactic(auto)]

mod cells;
mod coming_back;
mod domain;
mod from;
mod given_back;
mod going_in;
mod kinds;
mod known_worlds;
mod laws;
mod lists;
mod misfits;
mod outcome;
mod run;
mod surface;
mod symbol;
mod types;
mod typing;
mod wholes;
mod words;
mod world;

pub use cells::{Cell, Cells, cell_at};
pub use coming_back::gives_back;
pub use from::{arguments_from, symbol_from};
pub use given_back::is_reply;
pub use going_in::words_behind;
pub use kinds::{converts, fits};
pub use known_worlds::{known, one_world, push_second, unknown};
pub use laws::{
    a_stuck_run_names_its_event, a_yes_is_faithful, own_traces_get_a_yes, tests_tell_what_passes,
    traces_of_an_adapted_get_a_yes,
};
pub use misfits::misfit;
pub use outcome::{Item, Outcome, Run};
pub use run::run_in;
pub use surface::{Doubt, Verdict};
pub use symbol::{Source, Symbol, Symbols, all_same, same};
pub use types::alike;
pub use typing::is_of;
pub use witx_run::Conversion;
pub use words::{Word, lift, list_of_words, list_words, lower, parts_of};
pub use world::{Picked, World};
