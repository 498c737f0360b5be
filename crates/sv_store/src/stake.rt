// The contract between the buffer cache and everything that works on blocks.
ghost use Rattle.std.specs.Prelude.{◌≡◌, ◌≤◌, ◌+◌, ◌<◌, ◌^◌, ◌||◌, ℕ, Bool, true, false, IfOk, OnErr, IsErrOf};
ghost use Rattle.sv_dev.specs.Causes.{counted};
ghost use Rattle.sv_form.specs.Geometry.{IsGeometry};
ghost use Rattle.sv_store.specs.Held.{Held, Lent, Origin, InRange, Both, put, with, without, nothing_lent};
ghost use Rattle.sv_store.specs.Calls.{CanGet, CanFresh, Gets, GetsZeros, CanReturn, CanPut, CanPart, Parts, CanMerge};
ghost use Rattle.sv_store.specs.Causes.{HasFault};
ghost use Rattle.sv_store.specs.declared.refusal.Refusal.TheVariants.{NoMemory, Fault};

use crate::{Buf, LineRange, Refusal};
use std::alloc::Global;
use std::sync::Wait;
use sv_form::Geometry;

/// The right to certain lines of the disk (the buffer calls of Bach, chapter 3, as one holder sees them).
///
/// What a stake holds changes only by its own calls, whatever other holders do. No call but `part` takes memory.
pub trait Stake: Sized + Send {
    /// The lines that it holds, each with its bytes.
    ghost held: { Self → Held };

    /// The blocks that it has lent out, each with the bytes with which it was lent.
    ghost lent: { Self → Lent };

    /// How many transfers have failed that this stake ran, or one that was merged into it. The count only rises, and
    /// stands still at `u64::MAX`.
    ghost faults: { Self → ℕ };

    /// Whether this stake, or one that was merged into it, got a call of `bwrite` or `flush`.
    ghost forced: { Self → Bool };

    /// What all parts of one first stake have in common, and no part of another: the sizes of the disk, and numbers that
    /// name the rest of it, as the identity of a cache's turn and what the cache was opened with.
    ghost origin: { Self → Origin };

    /// The sizes of the disk. Only lines of its blocks are held, each with 64 bytes, and the count of faults is a `u64`.
    fn geometry(&self) -> Geometry
        ensures value { result ≡ (origin self.now).sizes }
        ensures sizes { IsGeometry result }
        ensures range { InRange result (held self.now) }
        ensures count { faults self.now < 2 ^ 64 };

    /// Lends a block with its bytes (Bach, algorithm bread). Lines that the stake does not hold have any bytes.
    fn bread<R: Wait>(&mut self, rt: &R, b: u32) -> Result<Buf, Refusal>
        requires { CanGet (held self.old) (lent self.old) b }
        ensures ok { IfOk result (Gets (origin self.old) (held self.old) b) }
        ensures lends { IfOk result (λ buf. lent self.new ≡ with b buf.bytes (lent self.old)) }
        ensures err { OnErr result (lent self.new ≡ lent self.old) }
        ensures held { held self.new ≡ held self.old }
        ensures forced { forced self.new ≡ forced self.old }
        ensures origin { origin self.new ≡ origin self.old }
        ensures cause { HasFault (faults self.old) (faults self.new) result };

    /// Lends a block as `bread` does, and has a second one read ahead (Bach, algorithm breada). That the read ahead
    /// failed is reported to nobody.
    fn breada<R: Wait>(&mut self, rt: &R, b: u32, next: u32) -> Result<Buf, Refusal>
        requires block { CanGet (held self.old) (lent self.old) b }
        requires next { next < (origin self.old).sizes.blocks }
        ensures ok { IfOk result (Gets (origin self.old) (held self.old) b) }
        ensures lends { IfOk result (λ buf. lent self.new ≡ with b buf.bytes (lent self.old)) }
        ensures err { OnErr result (lent self.new ≡ lent self.old) }
        ensures held { held self.new ≡ held self.old }
        ensures forced { forced self.new ≡ forced self.old }
        ensures origin { origin self.new ≡ origin self.old }
        ensures cause { HasFault (faults self.old) (faults self.new) result };

    /// Lends a block of zero bytes, which are its bytes from then on; the block is not read.
    fn fresh<R: Wait>(&mut self, rt: &R, b: u32) -> Result<Buf, Refusal>
        requires { CanFresh (origin self.old) (held self.old) (lent self.old) b }
        ensures ok { IfOk result (GetsZeros (origin self.old) b) }
        ensures lends { IfOk result (λ buf. lent self.new ≡ with b buf.bytes (lent self.old)) }
        ensures puts { IfOk result (λ buf. held self.new ≡ put b buf.bytes (held self.old)) }
        ensures err { OnErr result (lent self.new ≡ lent self.old) }
        ensures held { OnErr result (held self.new ≡ held self.old) }
        ensures forced { forced self.new ≡ forced self.old }
        ensures origin { origin self.new ≡ origin self.old }
        ensures cause { HasFault (faults self.old) (faults self.new) result };

    /// Takes a block back unchanged (Bach, algorithm brelse). It runs no transfer, so no fault is counted.
    fn brelse<R: Wait>(&mut self, rt: &R, buf: Buf)
        requires { CanReturn (lent self.old) buf }
        ensures lends { lent self.new ≡ without buf.block (lent self.old) }
        ensures held { held self.new ≡ held self.old }
        ensures forced { forced self.new ≡ forced self.old }
        ensures origin { origin self.new ≡ origin self.old }
        ensures faults { faults self.new ≡ faults self.old };

    /// Takes a block back with new bytes, to be written later (Bach's delayed write). It runs no transfer, so no fault is
    /// counted.
    fn bdwrite<R: Wait>(&mut self, rt: &R, buf: Buf)
        requires { CanPut (held self.old) (lent self.old) buf }
        ensures held { held self.new ≡ put buf.block buf.bytes (held self.old) }
        ensures lends { lent self.new ≡ without buf.block (lent self.old) }
        ensures forced { forced self.new ≡ forced self.old }
        ensures origin { origin self.new ≡ origin self.old }
        ensures faults { faults self.new ≡ faults self.old };

    /// Takes a block back with new bytes and writes it at once (Bach, algorithm bwrite). After a fault the held lines
    /// have the new bytes all the same, and the block stays to be written.
    fn bwrite<R: Wait>(&mut self, rt: &R, buf: Buf) -> Result<(), Refusal>
        requires { CanPut (held self.old) (lent self.old) buf }
        ensures held { held self.new ≡ put buf.block buf.bytes (held self.old) }
        ensures lends { lent self.new ≡ without buf.block (lent self.old) }
        ensures forced { forced self.new ≡ true }
        ensures origin { origin self.new ≡ origin self.old }
        ensures cause { HasFault (faults self.old) (faults self.new) result };

    /// Cuts lines off as a stake of their own. A refusal is want of memory.
    fn part(&mut self, alloc: Global, lines: &[LineRange]) -> Result<Self, Refusal>
        requires { CanPart (held self.old) (lent self.old) lines.now }
        ensures ok { IfOk result (λ new. Parts (held self.old) lines.now (held self.new) (held new)) }
        ensures new_lent { IfOk result (λ new. lent new ≡ nothing_lent) }
        ensures new_faults { IfOk result (λ new. faults new ≡ 0) }
        ensures new_forced { IfOk result (λ new. forced new ≡ false) }
        ensures new_origin { IfOk result (λ new. origin new ≡ origin self.old) }
        ensures err { OnErr result (held self.new ≡ held self.old) }
        ensures memory { OnErr result (IsErrOf result NoMemory) }
        ensures lends { lent self.new ≡ lent self.old }
        ensures faults { faults self.new ≡ faults self.old }
        ensures forced { forced self.new ≡ forced self.old }
        ensures origin { origin self.new ≡ origin self.old };

    /// Takes the lines of another stake in, and its faults with them.
    fn merge(&mut self, other: Self)
        requires lines { CanMerge (held self.old) (held other) (lent other) }
        requires origin { origin other ≡ origin self.old }
        ensures held { held self.new ≡ Both (held self.old) (held other) }
        ensures lends { lent self.new ≡ lent self.old }
        ensures faults { faults self.new ≡ counted (faults self.old) (faults other) }
        ensures forced { forced self.new ≡ (forced self.old || forced other) }
        ensures origin { origin self.new ≡ origin self.old };

    /// Asks for the writing of what waits to be written.
    fn flush<R: Wait>(&mut self, rt: &R) -> Result<(), Refusal>
        requires { lent self.old ≡ nothing_lent }
        ensures held { held self.new ≡ held self.old }
        ensures lends { lent self.new ≡ lent self.old }
        ensures forced { forced self.new ≡ true }
        ensures origin { origin self.new ≡ origin self.old }
        ensures cause { HasFault (faults self.old) (faults self.new) result };
}
