//! What stands on an image, and how it is spelled.
//!
//! - `Geometry` says how large the disk is and where its parts lie; `path_of` says how a page of a file is reached.
//! - `Super`, `DiskInode`, `LinkBlock` and `Entry` are the formats. `read` and `write` of each are one relation between
//!   bytes and value, and a law says that no bytes spell two values and no value has two spellings.
//! - `Owners` says whose each line of 64 bytes is, and gives them in ranges; `Mounted` is what the check of an image leaves.
//! - `Place` is one line, `Kind` what an inode is, `Name` what an entry is called; `Bytes` is what a call carries.
//! - `number16`, `number24` and `number32` read the numbers of all formats, lowest byte first, and `write_number16` and
//!   its like write them. What a node means, apart from where its bytes lie, is in specs/Node.antt.
#![tactic(auto)]

mod bytes;
mod entry;
mod geometry;
mod inode;
mod kind;
mod link_block;
mod name;
mod number;
mod owners;
mod page_path;
mod place;
mod readers;
mod superblock;
mod table;

pub use bytes::Bytes;
pub use entry::{ENTRY_SIZE, Entry, entries_have_one_spelling};
pub use geometry::Geometry;
pub use inode::{DiskInode, InodeBody, inodes_have_one_spelling};
pub use kind::Kind;
pub use link_block::{LINK_BLOCK_SIZE, LinkBlock, link_blocks_have_one_spelling};
pub use name::{NAME_MAX, Name};
pub use number::{
    is_zero, number16, number24, number32, write_number16, write_number24, write_number32,
    write_zeros,
};
pub use owners::{LineRange, Mounted, NoMemory, Owners};
pub use page_path::{ADDRESSES, DIRECT, DOUBLE, PagePath, SINGLE, TRIPLE, pages_have_one_path};
pub use place::Place;
pub use readers::{
    nodes_read_pieces, readers_chain_the_same, readers_list_the_same, readers_reach_the_same,
    readers_show_the_same,
};
pub use superblock::{MAGIC, Super, superblocks_have_one_spelling};

#[cfg(test)]
mod tests;
