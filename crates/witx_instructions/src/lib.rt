//! Instructions and events, what a generator of code is, plans and traces; and what is read off types to
//! lower and to lift their values.
#![tactic(auto)]

mod bindgen;
mod error;
mod event;
mod failing;
mod instruction;
mod kept;
mod loading;
mod plan;
mod pointers;
mod promises;
mod reading;
mod returning;
mod trace;
mod words;

pub use bindgen::{Bindgen, BindgenError};
pub use error::{AbiError, SignatureError};
pub use event::{Event, Events, InterfaceCall, Payloads, Step, WasmCall};
pub use failing::FailingBindgen;
pub use instruction::{Instruction, WasmTypes};
pub use loading::{lift_ok_block, load_all, make_spaces};
pub use plan::{Plan, Planned, add, new_plan, play, put};
pub use pointers::{Pointers, return_pointers};
pub use promises::functions_are_read_as_their_trees;
pub use reading::{
    can_be_param, err_type, is_list, is_tuple, ok_type, push_param_words, result_cases,
    result_word, tuple_members,
};
pub use returning::{record_can_return, variant_can_return};
pub use trace::Trace;
pub use words::{push_ok_pointers, push_params, words_back};
