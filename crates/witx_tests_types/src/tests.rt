//! The tests, by what they test.

mod abi;
mod ast;
mod bytes;
mod compat;
mod hostile;
mod layout;
mod shim;
