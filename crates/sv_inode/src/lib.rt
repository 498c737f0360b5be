//! A locked inode: what one process does with a file while nobody else may.
//!
//! - `LockedInode` is an inode's number and body, with the stake that holds its lines. With these lines it stands for a
//!   node: a kind, mode bits, links, a size and pages.
//! - `readi` gives bytes of the node; it reads each page once and asks for the next one that is present ahead.
//! - `writei` puts bytes into the node; it takes all blocks before it puts one.
//! - `truncate` makes the file empty, and gives its blocks back.
//! - `update` puts the body into the inode's line.
//! - `look` gives the inode that a name leads to in a directory, `enter` puts a name with its inode into the first empty entry or at
//!   the end, and `clear` makes the entry of a name empty.
#![tactic(auto)]

mod cuts;
mod enter;
#[cfg(test)]
mod enter_tests;
mod fill;
mod locked;
mod names;
#[cfg(test)]
mod names_tests;
mod range;
#[cfg(test)]
mod read_back_tests;
mod stop;
mod supplies;
#[cfg(test)]
mod tests;
#[cfg(test)]
mod truncate_tests;
mod update;
mod write;
#[cfg(test)]
mod write_tests;

pub use locked::LockedInode;
pub use stop::WriteStop;
