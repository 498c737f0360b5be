use sv_form::{Bytes, Kind};

/// What a step answers. Which replies an op has, and when, is `replies` of the specs.
#[derive(Drop)]
pub enum Reply {
    /// The inode that the name leads to; the process has a reference to it now.
    Found(u16),
    NotFound,
    NotDir,
    /// The directory or the file has no link any more.
    Gone,
    /// The table of in-core inodes has no place for the child.
    Full,
    /// The device failed, and nothing changed.
    Fault,
    Kept,
    /// The last reference went, and the inode with it.
    Freed,
    /// The last reference went, and a device failure kept the inode from being freed.
    Late,
    /// The last reference went, and want of memory kept the inode from being freed.
    LateMemory,
    /// The inode that was made; the process has a reference to it.
    Made(u16),
    ManyLinks,
    NoInode,
    Raised,
    IsDir,
    Entered,
    Exists,
    Lowered,
    /// The inode whose name was removed; the process has a reference to it.
    Removed(u16),
    /// The child is no directory.
    Plain,
    NotEmpty,
    /// The number of the file in the file table.
    Opened(u16),
    Dupped,
    Got(Bytes),
    Wrote(u32),
    /// So many bytes were written before the device failed.
    FaultAfter(u32),
    At(u32),
    Bad,
    Done,
    Status {
        kind: Kind,
        mode: u16,
        links: u16,
        size: u32,
    },
    Granted(u32),
    NoSpace,
    TooBig,
}
