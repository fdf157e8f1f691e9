//! What lowering means: signatures, the events of a function's two traces, the machine that runs them,
//! and the law that the two traces of each function agree.
#![tactic(auto)]

mod promises;
mod surface;

pub use promises::{
    a_run_has_at_most_one_outcome, rows_keep_to_the_table, shims_are_faithful, traces_are_faithful,
};
pub use surface::{Place, WasmType};
