/// One line of 64 bytes of a block, counted from 0. An inode is one line.
#[derive(Clone, Copy, Debug, PartialEq, Eq)]
pub struct Place {
    pub block: u32,
    pub line: u8,
}
