//! Requests to a worker: the numbers of buffers that wait for a transfer, first in, first out (Bach, chapter 3.4: the block that
//! is read ahead, and the delayed write that was met at the head of the free list, are started and not waited for).
//!
//! To ask for a transfer, call `push`, which hands the number back where the queue is full. To serve the one that waits longest,
//! call `pop`. Only `new` takes memory.
#![tactic(auto)]

mod requests;

pub use requests::Requests;
pub use std::alloc::AllocError as NoMemory;
