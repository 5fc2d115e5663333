//! The streams and the store through which a command meets the outside, and such ones in memory.
#![tactic(auto)]

mod fault_plan;
mod file_store;
mod files;
mod host_streams;
mod memory_sink;
mod memory_source;
mod memory_store;
mod sink;
mod source;
mod store;
#[cfg(test)]
mod tests;

pub use file_store::FileStore;
pub use files::Files;
pub use host_streams::{ReaderSource, WriterSink};
pub use memory_sink::{MemSink, SureSink};
pub use memory_source::{MemSource, SureSource};
pub use memory_store::{MemStore, SureStore};
pub use sink::{Sink, WriteFault, Written, put_all, put_counted};
pub use source::{Failed, Source};
pub use store::{LoadErr, Loaded, Store};
