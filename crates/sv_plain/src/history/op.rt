use crate::{Mode, Need};
use sv_form::{Bytes, Kind, Name};

/// A step of the file system, as a process asks for it. Each takes place at one moment.
#[derive(Drop)]
pub enum Op {
    /// Looks a name up in a directory and takes a reference to the child (Bach, chapter 4.3, one turn of namei).
    Look {
        dir: u16,
        name: Name,
    },
    /// Gives one reference back (Bach, chapter 4.1, iput).
    Drop {
        ino: u16,
    },
    /// Finds a name in a directory, or makes a file or a directory of that name (Bach, algorithms creat and mknod).
    Create {
        dir: u16,
        name: Name,
        kind: Kind,
        mode: u16,
    },
    /// Raises the link count of a file before its new name is entered (Bach, algorithm link).
    AddLink {
        ino: u16,
    },
    /// Enters a further name of the file whose link count the process has raised.
    Enter {
        dir: u16,
        name: Name,
        ino: u16,
    },
    /// Lowers the link count that the process has raised.
    SubLink {
        ino: u16,
    },
    /// Removes a name of a regular file (Bach, algorithm unlink).
    Unlink {
        dir: u16,
        name: Name,
    },
    /// Removes an empty directory.
    Rmdir {
        dir: u16,
        name: Name,
    },
    /// Makes an entry of the file table of a reference (Bach, algorithm open).
    OpenFile {
        ino: u16,
        mode: Mode,
    },
    /// Gives one descriptor's share of a file up (Bach, algorithm close).
    CloseFile {
        file: u16,
    },
    /// Shares a file with one more descriptor (Bach, algorithm dup).
    DupFile {
        file: u16,
    },
    /// Reads at most so many bytes from the file's offset (Bach, algorithm read).
    Read {
        file: u16,
        count: u32,
    },
    /// Writes these bytes at the file's offset (Bach, algorithm write).
    Write {
        file: u16,
        bytes: Bytes,
    },
    /// Sets the file's offset from its beginning, from where it is, or from its end (Bach, algorithm lseek).
    Seek {
        file: u16,
        offset: i64,
        whence: u8,
    },
    /// Takes all bytes of a regular file away (Bach, chapter 4.7, free, of all blocks).
    Trunc {
        ino: u16,
    },
    /// Reads what an inode says (Bach, algorithm stat).
    Stat {
        ino: u16,
    },
    /// Has blocks kept for a later step of the process.
    Promise {
        need: Need,
    },
    /// Gives back what is left of the promise.
    Forgo,
    /// Writes what is delayed (Bach, algorithm sync).
    Sync,
    /// At the end, when nothing is in use: removes what no name leads to.
    Purge,
}
