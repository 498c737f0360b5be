//! Many lists over the numbers 0 to n - 1, each number on at most one of them (Bach, chapter 3.1, has the hash queues and
//! the free list of the buffer cache in this form).
//!
//! To put a number on a list, call `push_head` or `push_tail`; to take it off, `unlink`, wherever it stands. To go through
//! a list, begin with `first` and go on with `next`. `list_of` tells on which list a number stands, if on any.
//! Only `new` takes memory.
#![tactic(auto)]

mod lists;
mod way;

pub use lists::Lists;
pub use std::alloc::AllocError as NoMemory;
