//! The public surface, crate by crate: each type and call by its name, and what each type derives.
//!
//! Nothing here runs. An import names what is there, and each function is a table whose rows put a type
//! under the bounds that it is to meet, so that the crate is proved only where all rows hold.
#![tactic(auto)]

mod bounds;
pub mod documents;
mod one;
pub mod outputs;
pub mod program;
pub mod texts;
pub mod tools;
