// The device as the cache's own functions see it: `Disk`, without the word that it may go to another thread. A function over a bound
// with that word has no proof inside a method of a trait's impl, and every call of a stake is one.
ghost use Rattle.std.specs.Prelude.{◌≡◌, ◌+◌, List, ℕ, length, slice_range, OnOk, OnErr};
ghost use Rattle.sv_dev.specs.Causes.{HasCause, counted};
ghost use Rattle.sv_dev.specs.Transfer.{CanTransfer, IsTorn, overwritten};

use sv_dev::{Disk, Failed};

/// A block device that is used where it is. Every `Disk` is one.
pub trait Medium {
    /// The bytes of the whole device, in order.
    ghost content: { Self → List ℕ };

    /// How many reads were asked for, failed ones included.
    ghost reads: { Self → ℕ };

    /// How many writes were asked for, failed ones included.
    ghost writes: { Self → ℕ };

    /// How many transfers have failed, at least.
    ghost faults: { Self → ℕ };

    /// Reads the bytes from `at` on into the slice. After `Failed` the slice has any bytes.
    fn read(&mut self, at: u64, into: &mut [u8]) -> Result<(), Failed>
        requires { CanTransfer (content self.old) at (length into.old) }
        ensures bytes { OnOk result (into.new ≡ slice_range (content self.old) at (at + length into.old)) }
        ensures content { content self.new ≡ content self.old }
        ensures reads { reads self.new ≡ counted (reads self.old) 1 }
        ensures writes { writes self.new ≡ writes self.old }
        ensures cause { HasCause (faults self.old) (faults self.new) result };

    /// Writes the slice over the bytes from `at` on. After `Failed` those bytes are any, and all others stay.
    fn write(&mut self, at: u64, from: &[u8]) -> Result<(), Failed>
        requires { CanTransfer (content self.old) at (length from.now) }
        ensures written { OnOk result (content self.new ≡ overwritten (content self.old) at from.now) }
        ensures nothing_else { OnOk result (faults self.new ≡ faults self.old) }
        ensures torn { OnErr result (IsTorn (content self.old) at (length from.now) (content self.new)) }
        ensures reads { reads self.new ≡ reads self.old }
        ensures writes { writes self.new ≡ counted (writes self.old) 1 }
        ensures cause { HasCause (faults self.old) (faults self.new) result };
}

impl<D: Disk> Medium for D {
    ghost content = { D.Disk.content };

    ghost reads = { D.Disk.reads };

    ghost writes = { D.Disk.writes };

    ghost faults = { D.Disk.faults };

    fn read(&mut self, at: u64, into: &mut [u8]) -> Result<(), Failed> {
        Disk::read(self, at, into)
    }

    fn write(&mut self, at: u64, from: &[u8]) -> Result<(), Failed> {
        Disk::write(self, at, from)
    }
}
