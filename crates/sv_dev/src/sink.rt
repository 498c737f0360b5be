// Where bytes go in order.
ghost use Rattle.std.specs.Prelude.{List, ℕ, Option};
ghost use Rattle.sv_dev.specs.Causes.{HasCause};
ghost use Rattle.sv_dev.specs.Told.{Writes};

use crate::Failed;

/// Takes bytes in order, as a file that is written or standard output does.
pub trait Sink {
    /// All bytes that it took, where it tells: a form in memory does, a real file does not.
    ghost written: { Self → Option (List ℕ) };

    /// How many calls have failed, at least. It only rises, and stands still at `u64::MAX`.
    ghost faults: { Self → ℕ };

    /// Appends all of the slice. After `Failed` some front of it was appended.
    fn write(&mut self, from: &[u8]) -> Result<(), Failed>
        ensures written { Writes (written self.old) (written self.new) from.now result }
        ensures cause { HasCause (faults self.old) (faults self.new) result };
}
