//! The files that processes share, under one turn; and laws, without code, from an image to the lines that a stake holds, and back.
//!
//! - `Files` has the in-core inodes, the superblock and the history. A `FilePass` is what one process has of it. Its rule, `Holds`
//!   of the specs, says that the history leads to a file system each of whose inodes is at home or locked by one pass, and stands
//!   for its node.
//! - `look` looks a name up in a directory, and takes a reference to the child where the table of in-core inodes has a place for it.
//! - `stat` answers what an inode says. It locks the inode, sleeping while another pass has it, and reads its line where it is not
//!   in core.
//! - `inodes_stand_for_nodes`, `inode_lines_alone`, `free_blocks_mount`, `free_blocks_alone` and `free_inodes_mount` give, from a
//!   sound image, what each used inode's lines stand for, and all that a core asks of the lines that no inode owns.
//! - `mounted_parts` says that the lines of a checked image, once they are parted by their owners, are what the rule says of
//!   stakes; `mounted_holds`, that the rule then holds of all processes as they begin; `owned_ranges`, that the ranges in which an
//!   inode's lines are handed out are exactly them.
//! - `closed_is_sound` gives a sound image, whose tree is the nodes, from the lines of a file system that was closed. Each other
//!   law is a part of it, from what alone it needs.
//! - `flushed_is_sized`, `flushed_is_chained` and `flushed_is_cached` give the conditions 1 to 3 and 10 to 12 from the lines of a
//!   flushed core.
//! - `nodes_have_inodes`, `nodes_are_walked_once`, `nodes_are_paged_well` and `nodes_are_tree` give the conditions 4 to 9, and the
//!   tree, from the lines that stand for the nodes.
//! - `nodes_are_named` gives the conditions 13 to 16 from the nodes of a whole file system at rest.
//! - `tree_is_used` and `need_is_added` give how many blocks an inode has, and how many a write takes, in terms of the node alone.
//! - `sound_is_closed` and `sound_is_at_rest` say that each sound image meets what this asks, and `purged_is_at_rest` when a file
//!   system is at rest.
#![tactic(auto)]

mod answer;
mod begin;
mod body;
mod converse;
mod event;
mod files;
mod from_image;
mod history;
mod in_core;
mod lock;
mod look;
mod mounting;
mod node_blocks;
mod refer;
mod references;
mod rule;
mod search;
mod stakes;
mod stat;
mod state;
mod view;

pub use converse::{
    closed_is_sound, flushed_is_cached, flushed_is_chained, flushed_is_sized, nodes_are_named,
    nodes_are_paged_well, nodes_are_tree, nodes_are_walked_once, nodes_have_inodes,
    purged_is_at_rest, sound_is_at_rest, sound_is_closed,
};
pub use files::{FilePass, Files};
pub use from_image::{
    free_blocks_alone, free_blocks_mount, free_inodes_mount, inode_lines_alone,
    inodes_stand_for_nodes,
};
pub use mounting::{mounted_holds, mounted_parts, owned_ranges};
pub use node_blocks::{need_is_added, tree_is_used};
pub use std::alloc::AllocError as NoMemory;
