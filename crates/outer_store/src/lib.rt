//! Stores of files, sinks and sources of bytes: traits with a meaning, and objects in memory and of the system.
#![tactic(auto)]

mod copy;
mod fault;
mod file_map;
mod memory;
mod plan;
mod reader;
mod real;
mod sink;
mod source;
mod store;
mod sure;
mod used;

pub use fault::StoreFault;
pub use memory::{MemorySink, MemoryStore};
pub use reader::StoreReader;
pub use real::{FileStore, StdoutSink};
pub use sink::Sink;
pub use source::Source;
pub use store::Store;
pub use sure::{SureSink, SureStore};
