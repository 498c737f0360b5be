// The calls that a line can ask for.
use sv_form::Bytes;
use sv_plain::Mode;

/// One line of a script, read: a system call with its words in order (Bach, chapter 5). A path is any bytes but space
/// and newline, also none at all; what a path means is tested only when the call is made.
#[derive(Debug, Drop, PartialEq, Eq)]
pub enum Call {
    Open { path: Bytes, mode: Mode },
    Creat { path: Bytes, mode: u16 },
    Mkdir { path: Bytes, mode: u16 },
    Read { fd: u32, count: u32 },
    Write { fd: u32, bytes: Bytes },
    Fill { fd: u32, count: u32, byte: u8 },
    Lseek { fd: u32, offset: i64, whence: u8 },
    Close { fd: u32 },
    Dup { fd: u32 },
    Link { first: Bytes, second: Bytes },
    Unlink { path: Bytes },
    Rmdir { path: Bytes },
    Chdir { path: Bytes },
    Stat { path: Bytes },
    Fstat { fd: u32 },
    Sync,
}
