// The blocks set aside are linked, and the superblock is put.
ghost use Rattle.std.specs.Prelude.{◌≡◌, ◌≤◌, ◌+◌, ◌++◌, [], OnOk, OnErr, length};
ghost use Rattle.sv_store.specs.Causes.{HasFault};
ghost use Rattle.sv_store.specs.Held.{nothing_lent};
ghost use Rattle.sv_super.specs.Core.{free_of};
ghost use Rattle.sv_super.specs.Written.{IsWritten, Rewrites};

use crate::SuperCore;
use crate::chain::{first_of, link};
use crate::superblock::put_head;
use std::sync::Wait;
use sv_form::Super;
use sv_store::{Refusal, Stake};

impl<S: Stake> SuperCore<S> {
    /// Links the blocks set aside into the chain, and puts the superblock's lines. The free blocks are those that were free,
    /// the last that was set aside coming last of them; a block that cannot be linked for a fault stays set aside.
    pub fn flush<R: Wait>(&mut self, rt: &R) -> Result<(), Refusal>
        ensures order { self.new.aside ++ self.new.chain ≡ self.old.aside ++ self.old.chain }
        ensures linked { OnOk result (self.new.aside ≡ []) }
        ensures written { OnOk result (IsWritten (S.origin self.old.stake).sizes (S.held self.new.stake)
            self.old.head self.new.chain self.old.inodes.cached) }
        ensures held { Rewrites (S.origin self.old.stake).sizes (free_of self.old) (S.held self.old.stake) (S.held self.new.stake) }
        ensures spare { self.new.spare ≡ self.old.spare }
        ensures inodes { self.new.inodes ≡ self.old.inodes }
        ensures head { self.new.head ≡ self.old.head }
        ensures lends { S.lent self.new.stake ≡ nothing_lent }
        ensures forced { S.forced self.new.stake ≡ S.forced self.old.stake }
        ensures origin { S.origin self.new.stake ≡ S.origin self.old.stake }
        ensures cause { HasFault (S.faults self.old.stake) (S.faults self.new.stake) result }
    {
        self.link_all(rt)?;
        self.put_super(rt)
    }

    // Links all blocks set aside.
    fn link_all<R: Wait>(&mut self, rt: &R) -> Result<(), Refusal>
        ensures order { self.new.aside ++ self.new.chain ≡ self.old.aside ++ self.old.chain }
        ensures linked { OnOk result (length self.new.aside ≡ 0) }
        ensures held { Rewrites (S.origin self.old.stake).sizes (free_of self.old) (S.held self.old.stake) (S.held self.new.stake) }
        ensures spare { self.new.spare ≡ self.old.spare }
        ensures inodes { self.new.inodes ≡ self.old.inodes }
        ensures head { self.new.head ≡ self.old.head }
        ensures lends { S.lent self.new.stake ≡ nothing_lent }
        ensures forced { S.forced self.new.stake ≡ S.forced self.old.stake }
        ensures origin { S.origin self.new.stake ≡ S.origin self.old.stake }
        ensures cause { HasFault (S.faults self.old.stake) (S.faults self.new.stake) result }
    {
        for _block in 0..self.set_aside() {
            self.link_last(rt)?;
        }
        Ok(())
    }

    // How many blocks are set aside.
    fn set_aside(&self) -> usize
        ensures count { result ≡ length self.now.aside }
        ensures lent { S.lent self.now.stake ≡ nothing_lent }
    {
        self.aside.len()
    }

    // Links the last block set aside: it becomes the first of the chain.
    fn link_last<R: Wait>(&mut self, rt: &R) -> Result<(), Refusal>
        requires { 1 ≤ length self.old.aside }
        ensures order { self.new.aside ++ self.new.chain ≡ self.old.aside ++ self.old.chain }
        ensures linked { OnOk result (length self.new.aside + 1 ≡ length self.old.aside) }
        ensures held { Rewrites (S.origin self.old.stake).sizes (free_of self.old) (S.held self.old.stake) (S.held self.new.stake) }
        ensures spare { self.new.spare ≡ self.old.spare }
        ensures inodes { self.new.inodes ≡ self.old.inodes }
        ensures head { self.new.head ≡ self.old.head }
        ensures lends { S.lent self.new.stake ≡ nothing_lent }
        ensures forced { S.forced self.new.stake ≡ S.forced self.old.stake }
        ensures origin { S.origin self.new.stake ≡ S.origin self.old.stake }
        ensures cause { HasFault (S.faults self.old.stake) (S.faults self.new.stake) result }
    {
        let _sizes = self.stake.geometry();
        let last = self.aside.len() - 1;
        let block = self.aside[last];
        link(rt, &mut self.stake, &mut self.list, block)?;
        self.aside.truncate(last);
        self.chained += 1;
        Ok(())
    }

    // Puts the superblock: the list with which the chain begins, and the cached inodes.
    fn put_super<R: Wait>(&mut self, rt: &R) -> Result<(), Refusal>
        ensures chain { self.new.chain ≡ self.old.chain }
        ensures aside { self.new.aside ≡ self.old.aside }
        ensures written { OnOk result (IsWritten (S.origin self.old.stake).sizes (S.held self.new.stake)
            self.old.head self.new.chain self.old.inodes.cached) }
        ensures held { Rewrites (S.origin self.old.stake).sizes (free_of self.old) (S.held self.old.stake) (S.held self.new.stake) }
        ensures spare { self.new.spare ≡ self.old.spare }
        ensures inodes { self.new.inodes ≡ self.old.inodes }
        ensures head { self.new.head ≡ self.old.head }
        ensures lends { S.lent self.new.stake ≡ nothing_lent }
        ensures forced { S.forced self.new.stake ≡ S.forced self.old.stake }
        ensures origin { S.origin self.new.stake ≡ S.origin self.old.stake }
        ensures cause { HasFault (S.faults self.old.stake) (S.faults self.new.stake) result }
    {
        let _sizes = self.stake.geometry();
        let list = self.list.numbers.as_slice();
        let head = Super {
            block_type: self.block_type,
            first_data: self.first_data,
            blocks: self.blocks,
            free: first_of(list, list.len()).numbers,
            inodes: self.inodes.cache(),
        };
        put_head(rt, &mut self.stake, &head)?;
        Ok(())
    }
}
