// A locked inode.
ghost use Rattle.std.specs.Prelude.{◌≡◌, ◌≤◌, ◌<◌, ◌+◌, ◌-◌, ◌⊎◌, ℕ, IfErr, IfOk, OnErr, OnOk, length, min, replicate, take};
ghost use Rattle.sv_form.specs.Node.{Node, bytes_of};
ghost use Rattle.sv_form.specs.NodeChanges.{emptied, put};
ghost use Rattle.sv_form.specs.PagePath.{greatest_size, slots};
ghost use Rattle.sv_store.specs.Frames.{Unchanged};
ghost use Rattle.sv_store.specs.Held.{Apart, nothing_lent};
ghost use Rattle.sv_super.specs.Core.{left_of};
ghost use Rattle.sv_bmap.specs.Causes.{HasReason};
ghost use Rattle.sv_bmap.specs.Order.{blocks_of};
ghost use Rattle.sv_bmap.specs.Tree.{IsTree};
ghost use Rattle.sv_inode.specs.Contents.{file_bytes};
ghost use Rattle.sv_inode.specs.Frames.{KeepsCore, KeepsFree, KeepsFront, KeepsRoom, KeepsStake, SameFile};
ghost use Rattle.sv_inode.specs.StandsFor.{HasTree, StandsFor};
ghost use Rattle.sv_inode.specs.Truncate.{GivesBack, HoldsInode, HoldsOnly, less_all};
ghost use Rattle.sv_inode.specs.Write.{HasRisen, MovesBlocks, StopsAt, done_by, write_need};

use crate::cuts::{cut_all, free_all};
use crate::range::read_range;
use crate::stop::{WriteStop, at_once};
use crate::write::{prepare, put_bytes};
use std::alloc::Global;
use std::sync::Wait;
use sv_bmap::collect;
use sv_form::{Bytes, InodeBody};
use sv_store::{Refusal, Stake};
use sv_super::SuperCore;

/// An inode that nobody else may use now (Bach, chapter 4.2), with the stake that holds its line and its blocks. The
/// bytes of its line need not be the body's.
pub struct LockedInode<S: Stake> {
    pub number: u16,
    pub body: InodeBody,
    pub stake: S,
}

impl<S: Stake> LockedInode<S> {
    /// The bytes from `at` on, at most `count`, up to the size (Bach, chapter 5.2, algorithm read). A hole reads as
    /// zero bytes. A refusal is a fault that the stake has counted, or want of memory.
    pub fn readi<R: Wait>(
        &mut self,
        rt: &R,
        alloc: Global,
        at: u32,
        count: u32,
    ) -> Result<Bytes, Refusal>
        requires tree { IsTree (S.origin self.old.stake) (S.held self.old.stake) self.old.body.addresses }
        requires size { self.old.body.size ≤ greatest_size (S.origin self.old.stake).sizes }
        requires lent { S.lent self.old.stake ≡ nothing_lent }
        ensures bytes { (node : Node) → StandsFor (S.origin self.old.stake) (S.held self.old.stake) self.old.body node
            → IfOk result (λ bytes. bytes ≡ bytes_of (S.origin self.old.stake).sizes.block_size node at (min count (node.size - at))) }
        ensures file { IfOk result (λ bytes. bytes ≡ file_bytes (S.origin self.old.stake).sizes
            (S.held self.old.stake) self.old.body.addresses at (min count (self.old.body.size - at))) }
        ensures number { self.new.number ≡ self.old.number }
        ensures body { self.new.body ≡ self.old.body }
        ensures stake { Unchanged S.held S.lent S.origin S.forced self.old.stake self.new.stake }
        ensures cause { HasReason (S.faults self.old.stake) (S.faults self.new.stake) result }
    {
        let _sizes = self.stake.geometry();
        let count = count.min(self.body.size.saturating_sub(at));
        read_range(rt, alloc, &self.body.addresses, &mut self.stake, at, count)
    }

    /// Makes the file empty, with no page (Bach, chapter 4.3): all its blocks become free, pages and indirect blocks. All
    /// are cut off before the first is given back, so that a refusal, a fault that the stake has counted or want of
    /// memory, changes nothing of the file and of what is free.
    pub fn truncate<R: Wait>(
        &mut self,
        rt: &R,
        alloc: Global,
        core: &mut SuperCore<S>,
    ) -> Result<(), Refusal>
        requires inode { HoldsInode (S.origin self.old.stake) (S.held self.old.stake) self.old.number }
        requires tree { HasTree (S.origin self.old.stake) (S.held self.old.stake) self.old.body.addresses }
        requires apart { Apart (S.held core.old.stake) (S.held self.old.stake) }
        requires lent { S.lent self.old.stake ≡ nothing_lent }
        requires origin { S.origin core.old.stake ≡ S.origin self.old.stake }
        ensures node { (node : Node) → StandsFor (S.origin self.old.stake) (S.held self.old.stake) self.old.body node
            → OnOk result (StandsFor (S.origin self.new.stake) (S.held self.new.stake) self.new.body (emptied node)) }
        ensures body { OnOk result (self.new.body ≡ record self.old.body { size = 0; addresses = replicate slots 0 }) }
        ensures held { OnOk result (S.held self.new.stake
            ≡ less_all (blocks_of (S.origin self.old.stake).sizes (S.held self.old.stake) self.old.body.addresses)
            (S.held self.old.stake)) }
        ensures gives { OnOk result (GivesBack S.held S.faults (S.held self.old.stake)
            (blocks_of (S.origin self.old.stake).sizes (S.held self.old.stake) self.old.body.addresses) core.old core.new) }
        ensures inode { HoldsInode (S.origin self.new.stake) (S.held self.new.stake) self.new.number }
        ensures apart { Apart (S.held core.new.stake) (S.held self.new.stake) }
        ensures only { (n : ℕ) → HoldsOnly (S.origin self.old.stake) (S.held self.old.stake) n self.old.body.addresses
            → HoldsOnly (S.origin self.old.stake) (S.held self.new.stake) n self.new.body.addresses }
        ensures kept { OnErr result (SameFile self.old.body self.new.body (S.held self.old.stake) (S.held self.new.stake)) }
        ensures core_kept { OnErr result (KeepsFree core.old core.new) }
        ensures number { self.new.number ≡ self.old.number }
        ensures stake { KeepsStake S.lent S.origin S.forced S.faults self.old.stake self.new.stake }
        ensures core { KeepsCore S.lent S.origin S.forced S.faults core.old core.new }
        ensures cause { HasReason (S.faults self.old.stake) (S.faults self.new.stake) result }
    {
        let _disk = self.stake.geometry();
        let _left = core.left();
        let blocks = collect(rt, alloc, &self.body.addresses, &mut self.stake)?;
        core.room(blocks.len() as u32)?;
        let cuts = cut_all(alloc, &mut self.stake, blocks.as_slice())?;
        self.body.size = 0;
        self.body.addresses = [0; 13];
        free_all(rt, core, cuts);
        Ok(())
    }

    /// Puts these bytes at byte `at` of the file (Bach, chapter 5.3, algorithm write), and makes the pages present that they
    /// lie in. All blocks are taken before the first byte is put, so that a write without memory puts nothing. A write
    /// stops short at the begin of a page where a fault was counted by the inode's stake or the core's; the blocks that
    /// it took and did not use are free again.
    pub fn writei<R: Wait>(
        &mut self,
        rt: &R,
        alloc: Global,
        core: &mut SuperCore<S>,
        at: u32,
        from: &[u8],
    ) -> Result<(), WriteStop>
        requires stands { (node : Node) × StandsFor (S.origin self.old.stake) (S.held self.old.stake) self.old.body node }
        requires end { at + length from.now ≤ greatest_size (S.origin self.old.stake).sizes }
        requires left { write_need (S.origin self.old.stake).sizes (S.held self.old.stake) self.old.body.addresses at
            (length from.now) ≤ left_of core.old }
        requires apart { Apart (S.held core.old.stake) (S.held self.old.stake) }
        requires lent { S.lent self.old.stake ≡ nothing_lent }
        requires origin { S.origin core.old.stake ≡ S.origin self.old.stake }
        ensures node { (node : Node) → StandsFor (S.origin self.old.stake) (S.held self.old.stake) self.old.body node
            → StandsFor (S.origin self.new.stake) (S.held self.new.stake) self.new.body
            (put (S.origin self.old.stake).sizes.block_size node at (take (done_by (length from.now) result) from.now)) }
        ensures stop { IfErr result (StopsAt (S.origin self.old.stake).sizes.block_size at (length from.now)
            (HasRisen (S.faults self.old.stake) (S.faults self.new.stake)
            ⊎ HasRisen (S.faults core.old.stake) (S.faults core.new.stake))) }
        ensures moves { MovesBlocks S.held
            (write_need (S.origin self.old.stake).sizes (S.held self.old.stake) self.old.body.addresses at
            (done_by (length from.now) result))
            core.old core.new (S.held self.old.stake) (S.held self.new.stake) }
        ensures apart { Apart (S.held core.new.stake) (S.held self.new.stake) }
        ensures inode { HoldsInode (S.origin self.old.stake) (S.held self.old.stake) self.old.number
            → HoldsInode (S.origin self.new.stake) (S.held self.new.stake) self.new.number }
        ensures only { (n : ℕ) → HoldsOnly (S.origin self.old.stake) (S.held self.old.stake) n self.old.body.addresses
            → HoldsOnly (S.origin self.old.stake) (S.held self.new.stake) n self.new.body.addresses }
        ensures spare { KeepsRoom (write_need (S.origin self.old.stake).sizes (S.held self.old.stake) self.old.body.addresses at
            (length from.now))
            (write_need (S.origin self.old.stake).sizes (S.held self.old.stake) self.old.body.addresses at
            (done_by (length from.now) result)) core.old.spare core.new.spare }
        ensures body { self.new.body ≡ record self.old.body { size = self.new.body.size; addresses = self.new.body.addresses } }
        ensures number { self.new.number ≡ self.old.number }
        ensures front { KeepsFront S.held S.lent S.origin S.forced S.faults self.old.stake self.new.stake }
        ensures core { KeepsCore S.lent S.origin S.forced S.faults core.old core.new }
    {
        let _left = core.left();
        if from.is_empty() {
            return Ok(());
        }
        match prepare(rt, alloc, self, core, at, from.len() as u32) {
            Ok(supplies) => put_bytes(rt, self, core, at, from, supplies),
            Err(refusal) => Err(at_once(refusal)),
        }
    }
}
