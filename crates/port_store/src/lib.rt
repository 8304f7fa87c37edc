//! The outside of a command as two traits, a store of files and a sink of bytes, with fakes in memory
//! for tests and the real files and standard output for the program.
#![tactic(auto)]

mod failures;
mod fault;
mod file_store;
pub mod laws;
mod mem_sink;
mod mem_store;
mod out_sink;
mod sink;
mod store;
mod whole;

pub use fault::{PortFault, ReadRefusal};
pub use file_store::FileStore;
pub use mem_sink::MemSink;
pub use mem_store::MemStore;
pub use out_sink::OutSink;
pub use sink::Sink;
pub use store::Store;
pub use whole::{PIECE, read_whole, write_whole};

#[cfg(test)]
mod tests;
