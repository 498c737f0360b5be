// A watch that sets a flag.
use crate::Watch;
use std::alloc::Global;
use std::sync::Arc;
use std::sync::atomic::{AtomicBool, Ordering};

/// Sets a flag at one answer of a run, for which `HoldDisk` may wait.
#[derive(Drop)]
pub struct FlagWatch {
    flag: Arc<AtomicBool, Global>,
    process: u8,
    line: u32,
}

impl FlagWatch {
    /// Sets the flag at the answer of script line `line` of process `process`; both are numbered from 1.
    pub fn new(flag: Arc<AtomicBool, Global>, process: u8, line: u32) -> FlagWatch {
        FlagWatch {
            flag,
            process,
            line,
        }
    }
}

impl Watch for FlagWatch {
    fn answered(&self, process: u8, line: u32) {
        if process == self.process && line == self.line {
            self.flag.store(true, Ordering::SeqCst);
        }
    }
}
