/// A number that the walk over the blocks of all inodes meets, and the inode that it belongs to.
#[derive(Clone, Copy)]
pub(crate) struct Met {
    pub(crate) inode: u16,
    pub(crate) block: u32,
}
