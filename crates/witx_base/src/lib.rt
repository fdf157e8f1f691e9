//! What every other crate of the workspace stands on: owned texts, names, paths, lists and maps,
//! whose contracts speak of plain bytes and lists, and the two ends of a program, a source and a sink.
#![tactic(auto)]

mod calls;
mod device;
mod duplicate;
mod items;
mod laws;
mod mem_device;
mod memory;
mod name;
mod name_map;
mod path;
mod path_text;
mod spelling;
mod store;
mod streams;
mod text;

pub use calls::CallCounter;
pub use device::{Sink, Source};
pub use duplicate::Duplicate;
pub use items::Items;
pub use laws::{
    copied_texts, copies_are_equal, entries_are_found_in_turn, names_are_told_by_bytes,
    paths_are_parent_and_name, paths_without_parent_are_nameless,
};
pub use mem_device::{MemSink, MemSource};
pub use memory::{Failed, MemoryRefused, OutOfMemory};
pub use name::Id;
pub use name_map::NameMap;
pub use path::WitxPath;
pub use streams::{Reading, Writing};
pub use text::Text;

/// A list of bytes.
pub type Bytes = Items<u8>;

/// Numbers of calls, counted from 0.
pub type Calls = Items<u64>;
