/// Why the writing of a journal ended early.
#[derive(Clone, Copy, Debug, PartialEq, Eq)]
pub enum WriteFault {
    /// The sink failed, and its count of faults has risen.
    Fault,
    /// There was no memory for a line.
    NoMemory,
}
