//! The free blocks and inodes of the disk (Bach, chapters 4.6 and 4.7): a list of blocks in the superblock, whose rest stands
//! in free blocks themselves, and a cache of inode numbers, which a map of those in use fills.
//!
//! - `SuperCore` holds the superblock's lines, all free blocks, and the lines of all free inodes. `left` and `inodes_left` say
//!   how many are free.
//! - `alloc` hands a block out with all its lines, and `free` takes one back; `free` is never refused.
//! - A block whose list cannot be written for a fault is set aside in memory, still free; `room` makes room for that.
//! - `ialloc` hands an inode out with its line, the cache's last; `ifree` takes one back, and is never refused.
//! - `flush` links the blocks set aside, and puts the superblock: the list with which the chain begins, and the cached inodes.
//! - `give_up` hands back all lines.
#![tactic(auto)]

mod blocks;
mod chain;
#[cfg(test)]
mod inode_tests;
mod inodes;
mod mounted;
mod superblock;
#[cfg(test)]
mod tests;

pub use blocks::SuperCore;
