//! Pages to blocks: the address tree of an inode (Bach, chapter 4.2, algorithm bmap), over any stake.
//!
//! - `lookup` gives the block of a page, none for a hole.
//! - `need` says how many blocks make a range of pages present.
//! - `attach` makes one page present, with the indirect blocks that it needs.
//! - `collect` lists the blocks, each indirect block after all that is under it.
//!
//! The tree is read out of the lines that the stake holds. Its blocks are held, and each stands in it once.
#![tactic(auto)]

mod grow;
#[cfg(test)]
mod grow_tests;
mod numbers;
mod order;
mod pages;
#[cfg(test)]
mod sample_tests;
#[cfg(test)]
mod tests;

pub use grow::attach;
pub use order::collect;
pub use pages::{Addresses, lookup, need};
