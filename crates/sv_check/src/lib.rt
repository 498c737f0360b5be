//! Whether an image is sound. What the sixteen conditions are stands in specs/Sound.antt and the files that it names.
//!
//! - `check` answers what the image mounts as exactly where all of them hold, and else the first that fails.
//! - `read_sizes` answers the same of the first three, from the superblock alone.
//! - `read_block` and `read_inode` read one block, and one inode, of an image whose sizes are known.
//! - `file_size` and `read_pages` find one file of a sound image, and `free_count` and `used_count` count.
//! - `load` reads the tree of a sound image into a file system of `sv_plain`.
//! - `mkfs` makes an image anew, with a root and nothing in it, or says in `MakeFault` why not. What it makes is sound, and a
//!   law says so of each pair of numbers; another says that its chain is the one that freeing gives. `can_be_made` says which
//!   numbers have an image.
//! - `CheckFault` is a refusal with its number and place, a failure of the disk, or want of memory.
//! - All passes of the check stand inside the crate.
#![tactic(auto)]

mod blocks;
mod condition;
mod counts;
mod fault;
mod inodes;
mod loading;
mod make;
mod pages;
mod sound;
#[cfg(test)]
mod tests;
mod walk;

pub use blocks::{read_block, read_inode};
pub use condition::Condition;
pub use counts::{free_count, used_count};
pub use fault::CheckFault;
pub use loading::{LoadFault, file_size, load, read_pages};
pub use make::{
    MakeFault, can_be_made, made_chains_are_freed, made_images_are_sound,
    made_images_have_their_sizes, mkfs,
};
pub use pages::{PageBlock, next_block};
pub use sound::{check, read_sizes};
pub use sv_form::{LineRange, Mounted, Owners};
