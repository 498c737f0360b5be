// The inode's line in the inode list.
ghost use Rattle.std.specs.Prelude.{◌≡◌, ◌≤◌, ◌+◌, ℕ, OnErr, OnOk, length, slice_range};
ghost use Rattle.sv_form.specs.Inode.{IsInode, IsSpelledBody};
ghost use Rattle.sv_form.specs.Node.{Node};
ghost use Rattle.sv_form.specs.Number.{ChangesOnly};
ghost use Rattle.sv_form.specs.declared.inode.DiskInode.TheVariants.{Used};
ghost use Rattle.sv_store.specs.Causes.{HasFault};
ghost use Rattle.sv_store.specs.Held.{SameLines, nothing_lent};
ghost use Rattle.sv_inode.specs.Frames.{KeepsStake};
ghost use Rattle.sv_inode.specs.InodeLine.{PutsInode};
ghost use Rattle.sv_inode.specs.StandsFor.{HasTree, StandsFor};
ghost use Rattle.sv_inode.specs.Truncate.{HoldsInode, HoldsOnly};

use crate::LockedInode;
use std::sync::Wait;
use sv_form::{DiskInode, InodeBody};
use sv_store::{Refusal, Stake};

// The bytes of a line.
const LINE_SIZE: usize = 64;

// Spells a used inode in its block, from a place on.
fn write_line(body: &InodeBody, bytes: &mut [u8], at: usize)
    requires size { at + 64 ≤ length bytes.old }
    requires spelled { IsSpelledBody body.now }
    ensures spelled { IsInode (slice_range bytes.new at (at + 64)) (Used body.now) }
    ensures others { ChangesOnly bytes.old bytes.new at (at + 64) }
{
    let (_before, rest) = bytes.split_at_mut(at);
    let (into, _after) = rest.split_at_mut(LINE_SIZE);
    let inode = DiskInode::Used(*body);
    inode.write(into);
}

// Puts a used inode into its line.
fn put_line<R: Wait, S: Stake>(
    rt: &R,
    s: &mut S,
    number: u16,
    body: &InodeBody,
) -> Result<(), Refusal>
    requires inode { HoldsInode (S.origin s.old) (S.held s.old) number }
    requires spelled { IsSpelledBody body.now }
    requires lent { S.lent s.old ≡ nothing_lent }
    ensures puts { OnOk result (PutsInode (S.origin s.old).sizes number body.now (S.held s.old) (S.held s.new)) }
    ensures kept { OnErr result (S.held s.new ≡ S.held s.old) }
    ensures lines { SameLines (S.held s.new) (S.held s.old) }
    ensures lends { S.lent s.new ≡ nothing_lent }
    ensures forced { S.forced s.new ≡ S.forced s.old }
    ensures origin { S.origin s.new ≡ S.origin s.old }
    ensures cause { HasFault (S.faults s.old) (S.faults s.new) result }
{
    let place = s.geometry().inode_place(number);
    let mut buf = s.bread(rt, place.block)?;
    let bytes = buf.bytes_mut();
    write_line(body, bytes, usize::from(place.line) * LINE_SIZE);
    s.bdwrite(rt, buf);
    Ok(())
}

impl<S: Stake> LockedInode<S> {
    /// Puts the body into the inode's line, to be written later (Bach, chapter 4.1.3; iupdat in the System V kernel). No
    /// other line changes, and the inode stands for the same node. A refusal is a fault that the stake has counted, and
    /// changes no line.
    pub fn update<R: Wait>(&mut self, rt: &R) -> Result<(), Refusal>
        requires inode { HoldsInode (S.origin self.old.stake) (S.held self.old.stake) self.old.number }
        requires spelled { IsSpelledBody self.old.body }
        requires lent { S.lent self.old.stake ≡ nothing_lent }
        ensures puts { OnOk result (PutsInode (S.origin self.old.stake).sizes self.old.number self.old.body
            (S.held self.old.stake) (S.held self.new.stake)) }
        ensures kept { OnErr result (S.held self.new.stake ≡ S.held self.old.stake) }
        ensures lines { SameLines (S.held self.new.stake) (S.held self.old.stake) }
        ensures node { (node : Node) → StandsFor (S.origin self.old.stake) (S.held self.old.stake) self.old.body node
            → StandsFor (S.origin self.new.stake) (S.held self.new.stake) self.new.body node }
        ensures inode { HoldsInode (S.origin self.new.stake) (S.held self.new.stake) self.new.number }
        ensures only { (n : ℕ) → HasTree (S.origin self.old.stake) (S.held self.old.stake) self.old.body.addresses
            → HoldsOnly (S.origin self.old.stake) (S.held self.old.stake) n self.old.body.addresses
            → HoldsOnly (S.origin self.old.stake) (S.held self.new.stake) n self.new.body.addresses }
        ensures number { self.new.number ≡ self.old.number }
        ensures body { self.new.body ≡ self.old.body }
        ensures stake { KeepsStake S.lent S.origin S.forced S.faults self.old.stake self.new.stake }
        ensures cause { HasFault (S.faults self.old.stake) (S.faults self.new.stake) result }
    {
        let _disk = self.stake.geometry();
        put_line(rt, &mut self.stake, self.number, &self.body)
    }
}
