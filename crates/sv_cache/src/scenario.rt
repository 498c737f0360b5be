/// What a search for a block meets (Bach, chapter 3.3, the five scenarios of `getblk`). A number is that of a buffer.
#[derive(Clone, Copy, Debug, PartialEq, Eq)]
pub enum Scenario {
    /// Scenario 1: the block has a buffer, which was free and is the caller's now.
    Hit(u32),
    /// Scenario 2: the block had none, and the head of the free list is its buffer now.
    Taken(u32),
    /// Scenario 3: the block has none, and the head of the free list is the caller's now, to be written first.
    Delayed(u32),
    /// Scenario 4: the block has none, and no buffer is free.
    Empty,
    /// Scenario 5: the block has a buffer, which is busy.
    Busy(u32),
}

/// How a busy buffer is released (Bach, chapter 3.3, `brelse`).
#[derive(Clone, Copy, Debug, PartialEq, Eq)]
pub enum Release {
    /// The bytes are the block's: to the tail of the free list.
    Valid,
    /// As `Valid`, but the buffer is to be reused soon: to the head.
    Old,
    /// The bytes are not the block's, since a read failed: to the head.
    Invalid,
    /// The bytes are the block's, and are still to be written: to the tail.
    Delayed,
    /// The same, and a write of them has failed: marked, to the head.
    FailedWrite,
}
