/// Why a history is not replayed to its end.
#[derive(Clone, Copy, Debug, PartialEq, Eq)]
pub enum ReplayFault {
    /// The entry at this place, from 0, is the first that is illegal.
    Place(u32),
    /// There is no memory for a legal step.
    NoMemory,
}
