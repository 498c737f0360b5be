//! The core of the buffer cache: buffer headers on hash queues and a free list (Bach, chapter 3), with no threads and no
//! waiting. The caller reads and writes the device, and waits where a scenario asks for it.
//!
//! To get the buffer of a block, call `attempt` and look at the scenario that it answers. To work on a busy buffer's
//! bytes, call `lend`; to end with it, `give_back`, which says how it is released. `next_delayed` finds a buffer that
//! is still to be written. The device is kept beside the buffers: `take_device` moves it out, `put_device` brings it home.
//! Only `new` takes memory.
#![tactic(auto)]

mod cache;
mod header;
mod scenario;

pub use cache::CacheCore;
pub use scenario::{Release, Scenario};
pub use std::alloc::AllocError as NoMemory;

/// The number of hash queues. Block b is on queue b mod `HASH_QUEUES`.
pub const HASH_QUEUES: u32 = 64;
