// Where bytes come from in order.
ghost use Rattle.std.specs.Prelude.{◌≡◌, ◌≤◌, ◌<◌, List, ℕ, Option, length, IfOk};
ghost use Rattle.sv_dev.specs.Causes.{HasCause};
ghost use Rattle.sv_dev.specs.Told.{Takes, IsAtEnd};

use crate::Failed;

/// Gives bytes in order, as a file that is read does.
pub trait Source {
    /// All bytes that it has still to give, where it tells: a form in memory does, a real file does not.
    ghost left: { Self → Option (List ℕ) };

    /// How many calls have failed, at least. It only rises, and stands still at `u64::MAX`.
    ghost faults: { Self → ℕ };

    /// Fills a front of the slice with the next bytes and answers how many they are: 0 only at the end, or where
    /// the slice is empty. After `Failed` no byte is lost, and the slice has any bytes.
    fn read(&mut self, into: &mut [u8]) -> Result<usize, Failed>
        ensures within { IfOk result (λ n. n ≤ length into.old) }
        ensures bytes { Takes (left self.old) (left self.new) into.new result }
        ensures end { IfOk result (λ n. n ≡ 0 → 0 < length into.old → IsAtEnd (left self.old)) }
        ensures cause { HasCause (faults self.old) (faults self.new) result };
}
