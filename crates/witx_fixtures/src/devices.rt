//! The devices of a run, in memory.

use witx_base::{MemSink, MemSource};

/// The source and the sinks of a run.
#[derive(Drop)]
pub struct Devices {
    /// What gives the bundle.
    pub source: MemSource,
    /// What takes the output.
    pub out: MemSink,
    /// What takes a refusal, or what is noted.
    pub err: MemSink,
}
