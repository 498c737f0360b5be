use crate::Mode;

/// An entry of the file table (Bach, chapter 5.1): the inode that it is one reference to, what it was opened for, the
/// offset in bytes, and how many descriptors share it.
#[derive(Clone, Copy, Drop)]
pub struct Opening {
    pub inode: u16,
    pub mode: Mode,
    pub offset: u32,
    pub count: u32,
}
