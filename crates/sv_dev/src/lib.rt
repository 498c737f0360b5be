//! The world outside the kernel, as traits with contracts, and its forms in memory and in real files.
//!
//! - `Disk` is the block device: reads and writes of 512 or 1,024 bytes, each of which may fail and is counted.
//! - `Sink` takes bytes in order, `Host` gives disks by the name of their image and takes them back.
//! - `Watch` is told of each answer of a run; `FlagWatch` sets a flag at one of them.
//! - `MemDisk`, `MemSink` and `MemHost` hold all in memory, and fail the calls that they are told to fail (`Tally`);
//!   `HoldDisk` holds a read until a flag is set; `MirrorDisk`, `FileSink` and `RealHost` stand over real files.
//! - A failure is answered only where the count of failures of the very object that was asked has risen.
#![tactic(auto)]

mod disk;
mod fault;
mod file_sink;
mod file_source;
mod flag_watch;
mod hold_disk;
mod host;
mod mem_disk;
mod mem_host;
mod mem_sink;
mod mem_source;
mod mirror_disk;
mod real_host;
mod sink;
mod source;
mod tally;
#[cfg(test)]
mod tests;
mod watch;

pub use disk::Disk;
pub use fault::{Failed, HostFault};
pub use file_sink::FileSink;
pub use file_source::FileSource;
pub use flag_watch::FlagWatch;
pub use hold_disk::HoldDisk;
pub use host::Host;
pub use mem_disk::{Access, Fail, MemDisk};
pub use mem_host::MemHost;
pub use mem_sink::MemSink;
pub use mem_source::MemSource;
pub use mirror_disk::MirrorDisk;
pub use real_host::RealHost;
pub use sink::Sink;
pub use source::Source;
pub use std::alloc::AllocError as NoMemory;
pub use tally::Tally;
pub use watch::{NoWatch, Watch};
