//! Stakes: the right to certain lines of the disk, such that what a holder reads is what it last put there.
//!
//! - `Stake` is the contract: `bread` and `fresh` lend a block, `brelse`, `bdwrite` and `bwrite` take it back, `part`
//!   cuts lines off as a stake of their own, and `merge` brings them back.
//! - `Buf` is the block that is lent. It must be given back.
//! - `Refusal` is why a call gave nothing: a transfer that failed, and that the stake has counted, or want of memory.
//! - `OwnStake` holds its blocks in memory, and fails the calls that it is told to fail.
#![tactic(auto)]

mod buf;
mod clients;
mod own_block;
mod own_cut;
mod own_stake;
mod refusal;
mod stake;
#[cfg(test)]
mod tests;

pub use buf::Buf;
pub use own_stake::{Numbered, OwnStake};
pub use refusal::Refusal;
pub use stake::Stake;
pub use std::alloc::AllocError as NoMemory;
pub use sv_dev::Failed;
pub use sv_form::LineRange;
