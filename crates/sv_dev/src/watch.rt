// Who is told of the answers of a run.

/// Is told of each answer, as it is given, by the thread of the process that got it.
pub trait Watch: Sync {
    /// Process `process`, from 1, got the answer of the script line `line`.
    fn answered(&self, process: u8, line: u32);
}

/// Watches nothing.
#[derive(Clone, Copy, Debug)]
pub struct NoWatch;

impl Watch for NoWatch {
    fn answered(&self, _process: u8, _line: u32) {}
}
