//! The one-process file system: what files are, without blocks, caches or threads.
//!
//! - `Fs` is the whole state. `Fs::new` makes an empty one, `add_node` and `put_page` fill it, `node` reads it, and
//!   `numbers` says how many blocks and inodes are free.
//! - `Node` is a file or a directory: kind, mode, links and size, and by `page` its bytes.
//! - `Op` is what a process may ask for, `Reply` what it is answered, `Entry` both with the process, and `Entries` a
//!   history of them. What each op may be answered, and what it changes, is `Step` of the specs; `IsLegal` and `after` are
//!   of whole histories.
//! - `number_of`, `value_of` and `are_lower_hex` read the digits of a text.
//! - `Opening` is an entry of the file table, and `Mode` what it was opened for.
//!
//! The meaning of a state, and what holds of it at every moment, are `Fs` and `IsWhole` of the specs.
#![tactic(auto)]

mod beginning;
mod fs;
mod history;
mod laws;
mod maps;
mod node;
mod steps;
mod taking;
#[cfg(test)]
mod tests;
mod text;

pub use beginning::begin;
pub use fs::{Fs, Mode, Opening};
pub use history::{Entries, Entry, Illegal, Need, Op, Reply};
pub use laws::{
    histories_grow, histories_keep_sizes, histories_lead_legally, shares_are_counted,
    steps_keep_whole, unshared_is_unreferenced,
};
pub(crate) use maps::{HolderCounts, Nodes};
pub use maps::{NumberMap, PairMap, PairSet};
pub use node::Node;
pub use std::alloc::AllocError as NoMemory;
pub use taking::apply;
pub use text::{are_lower_hex, listing, number_of, value_of};
