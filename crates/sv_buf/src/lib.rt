//! The running cache: Bach's buffer cache (chapter 3) with threads that sleep and look again. The device is out while it transfers,
//! and other threads go on.
//!
//! - `Cache::new` is given a disk, and gives the cache with two passes: the first holds all lines, the second is the worker's.
//! - `Cache::stake` makes a stake of a pass: the right to certain lines. `CacheStake::give_up` makes a pass of it again.
//! - `Cache::flush_all` writes what is free and still to be written.
//! - `Cache::worker` runs, in a thread of its own, the transfers that others asked for, until `Cache::stop`.
//! - `Cache::close` takes all passes back, writes what is still to be written, and gives the disk.
#![tactic(auto)]

mod ahead;
mod cache;
mod clear;
mod close;
mod delay;
mod event;
mod flush;
mod fresh;
mod get;
mod getblk;
mod give;
mod leave;
mod medium;
mod read;
mod rule;
mod stake;
mod state;
mod take;
#[cfg(test)]
mod tests;
mod view;
mod worker;
mod write;

pub use cache::{Cache, CachePass};
pub use rule::Running;
pub use stake::CacheStake;
pub use std::alloc::AllocError as NoMemory;
