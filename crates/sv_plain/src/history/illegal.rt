/// Why a step is not taken.
#[derive(Clone, Copy, Debug, PartialEq, Eq)]
pub enum Illegal {
    /// The op may not be asked now.
    Condition,
    /// The op may be asked now, and is never answered so.
    Reply,
    /// The step is legal, and there is no memory for it.
    NoMemory,
}
