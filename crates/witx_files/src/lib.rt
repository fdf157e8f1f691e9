//! Readers of files by path, files in memory, and a place in a file as a report shows it.
#![tactic(auto)]

mod failing;
mod fault;
mod io;
mod location;
mod memory;

pub use failing::{Aliases, FailingFs};
pub use fault::{IoError, IoFault};
pub use io::WitxIo;
pub use location::{Location, WIDEST, widest_column};
pub use memory::MockFs;
