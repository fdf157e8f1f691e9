//! What several files of tests need, of one crate of tests or of two: numbers of calls that fail, long
//! texts, and files and devices in memory. It is a library, since a crate of tests gives nothing on.
#![tactic(auto)]

mod devices;
mod files;
mod fixtures;

pub use devices::Devices;
pub use files::{Files, Links, files_of, links_of};
pub use fixtures::{Pieces, built_text, calls_of, long_text};
