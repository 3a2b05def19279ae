//! The outside: folders that are read and changed and sinks that are written, over the system and in memory.
#![tactic(auto)]

mod faults;
mod folder_sink;
mod folders;
mod memory_folder;
mod memory_sink;
mod output;
mod read;
mod real_folder;
mod real_sink;
mod sinks;
mod slot;

pub use folder_sink::FolderSink;
pub use folders::{Folder, FolderFault};
pub use memory_folder::MemoryFolder;
pub use memory_sink::MemorySink;
pub use output::write_output;
pub use read::{LoadFault, read_all};
pub use real_folder::RealFolder;
pub use real_sink::RealSink;
pub use sinks::{Failed, Sink, report, write_all};
