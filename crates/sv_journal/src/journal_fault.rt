/// Why a text is not read as a journal.
#[derive(Clone, Copy, Debug, PartialEq, Eq)]
pub enum JournalFault {
    /// This line, from 1, is the first that is none of a journal; line 0 is that of a text that is too long.
    Line(u32),
    /// There was no memory for the entries.
    NoMemory,
}
