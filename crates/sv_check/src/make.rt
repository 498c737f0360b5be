// An image made anew: its lists, its blocks one by one, and their writing.
mod blocks;
mod freeing;
mod image;
mod lists;

pub use freeing::made_chains_are_freed;
pub use image::{MakeFault, made_images_are_sound, made_images_have_their_sizes, mkfs};
pub use lists::can_be_made;
