// A sound image read: its whole tree, or one file of it.
mod file;
mod tree;

pub use file::{file_size, read_pages};
pub use tree::{LoadFault, load};
