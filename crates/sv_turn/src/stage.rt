//! What a pass is about. No value of these types is made: they stand in proofs alone.

/// How far a pass has come. Tickets count on without an end; the words of the table have them modulo 2^64.
pub enum Stage<S> {
    /// It has no ticket.
    Away,
    /// It has this ticket.
    Waiting(u64),
    /// Its ticket is served, and the state was this when it was taken.
    Inside(u64, S),
    /// It was joined into another pass.
    Spent,
}

/// How far a pass has come, beside what it stands for in the caller's rule.
pub struct Doing<S, V> {
    pub stage: Stage<S>,
    pub client: V,
}
