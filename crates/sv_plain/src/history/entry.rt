use crate::{Op, Reply};

/// One step of a history: who asked, for what, and what was answered. Process 0 is the system.
#[derive(Drop)]
pub struct Entry {
    pub process: u8,
    pub op: Op,
    pub reply: Reply,
}
