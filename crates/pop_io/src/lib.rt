//! Lists, texts and names; sources, sinks and gates: the program's only access to the outside.
//! It stands on std alone.
//! The layer above uses: `read_all` gives all bytes, `write_all` appends all or a prefix; a fault has its cause.
#![tactic(auto)]

mod failure;
mod fault;
mod gate;
mod list;
mod memory_sink;
mod memory_source;
mod names;
mod outside;
mod standard;
mod text;
mod trouble;
mod whole;

pub use failure::Failure;
pub use fault::{Failed, NoMemory, ReadAll, WriteFault};
pub use gate::{Gate, OpenGate, SHARD_LIMIT, WORKER_LIMIT};
pub use list::List;
pub use memory_sink::{CalmSink, MemorySink};
pub use memory_source::{CalmSource, MemorySource};
pub use names::{
    NAME_LIMIT, VARIABLE_LIMIT, begins_name, continues_name, is_among, is_state_name,
    is_variable_name, place_of,
};
pub use outside::{Sink, Source};
pub use standard::{StdSink, StdSource};
pub use text::Text;
pub use trouble::{LAST_COUNT, Trouble, TroubleKind};
pub use whole::{INPUT_LIMIT, read_all, write_all};
