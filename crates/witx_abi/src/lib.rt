//! The binary interface of a function: its signature, and the events of both sides of a call, handed to a
//! generator or kept as a trace.
#![tactic(auto)]

mod abi;
mod plans;
mod recorded;
mod signature;

pub use abi::AbiFunc;
pub use recorded::{callee_trace, caller_trace};
pub use witx_instructions::{
    AbiError, Bindgen, BindgenError, Event, Events, FailingBindgen, Instruction, InterfaceCall,
    Payloads, SignatureError, Step, Trace, WasmCall, WasmTypes, err_type,
    functions_are_read_as_their_trees, is_tuple, ok_type, result_cases, return_pointers,
    tuple_members, words_back,
};
pub use witx_lowering::{lowerable, words_in};
pub use witx_machine::{Place, WasmType};
