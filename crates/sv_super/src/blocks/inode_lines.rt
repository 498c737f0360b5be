// The free inodes, each handed out with its line.
ghost use Rattle.std.specs.Prelude.{◌≡◌, ◌≤◌, ◌||◌, ℕ, false, replicate, Some, IfOk, IfSome, IfNone, OnErr, OnOk};
ghost use Rattle.sv_dev.specs.Causes.{counted};
ghost use Rattle.sv_form.specs.Geometry.{inode_count, inode_place};
ghost use Rattle.sv_store.specs.Held.{Apart, Both, nothing_lent};
ghost use Rattle.sv_super.specs.Calls.{TakesInode};
ghost use Rattle.sv_super.specs.Core.{HoldsFirst, HoldsInodes, HoldsOnly, HoldsSuper, line_alone, line_less};
ghost use Rattle.sv_super.specs.Inodes.{IsCache, free_count, is_free_inode, with_free};

use crate::SuperCore;
use std::alloc::Global;
use sv_form::{LineRange, Place};
use sv_store::{NoMemory, Stake};

impl<S: Stake> SuperCore<S> {
    /// How many inodes are free. The map has a place for each, and the line of each free one is held and zero bytes, and so is that
    /// of inode 1, which is never used. Each cached number is free and stands there once, and each free number below the remembered
    /// one is cached.
    pub fn inodes_left(&self) -> u32
        ensures left { result ≡ free_count self.now.inodes.used }
        ensures lines { HoldsInodes (S.origin self.now.stake) (S.held self.now.stake) self.now.inodes.used }
        ensures first { HoldsFirst (S.origin self.now.stake) (S.held self.now.stake) }
        ensures cache { IsCache self.now.inodes result }
    {
        self.inodes.left()
    }

    /// Hands a free inode out with its line, which is zero bytes (Bach, chapter 4.6, algorithm ialloc); none exactly where
    /// none is free. A refusal is want of memory, and changes nothing.
    pub fn ialloc(&mut self, alloc: Global) -> Result<Option<(u16, S)>, NoMemory>
        ensures none { IfOk result (λ got. IfNone got ((n : ℕ) → is_free_inode self.old.inodes.used n ≡ false)) }
        ensures taken { IfOk result (λ got. IfSome got (λ taken. TakesInode (S.origin self.old.stake)
            (S.held self.old.stake) (S.held self.new.stake) (S.held taken.1) self.old.inodes self.new.inodes taken.0)) }
        ensures part_lent { IfOk result (λ got. IfSome got (λ taken. S.lent taken.1 ≡ nothing_lent)) }
        ensures part_faults { IfOk result (λ got. IfSome got (λ taken. S.faults taken.1 ≡ 0)) }
        ensures part_forced { IfOk result (λ got. IfSome got (λ taken. S.forced taken.1 ≡ false)) }
        ensures part_origin { IfOk result (λ got. IfSome got (λ taken. S.origin taken.1 ≡ S.origin self.old.stake)) }
        ensures kept { IfOk result (λ got. IfNone got (S.held self.new.stake ≡ S.held self.old.stake)) }
        ensures inodes_kept { IfOk result (λ got. IfNone got (self.new.inodes ≡ self.old.inodes)) }
        ensures held { OnErr result (S.held self.new.stake ≡ S.held self.old.stake) }
        ensures inodes { OnErr result (self.new.inodes ≡ self.old.inodes) }
        ensures chain { self.new.chain ≡ self.old.chain }
        ensures aside { self.new.aside ≡ self.old.aside }
        ensures spare { self.new.spare ≡ self.old.spare }
        ensures head { self.new.head ≡ self.old.head }
        ensures lends { S.lent self.new.stake ≡ nothing_lent }
        ensures faults { S.faults self.new.stake ≡ S.faults self.old.stake }
        ensures forced { S.forced self.new.stake ≡ S.forced self.old.stake }
        ensures origin { S.origin self.new.stake ≡ S.origin self.old.stake }
    {
        let Some(n) = self.inodes.next() else {
            return Ok(None);
        };
        let sizes = self.stake.geometry();
        let part = cut_line(alloc, &mut self.stake, sizes.inode_place(n))?;
        self.inodes.take();
        Ok(Some((n, part)))
    }

    /// Takes an inode back that is not free, with its line, which is zero bytes, and no line of a data block (Bach, chapter
    /// 4.6, algorithm ifree).
    pub fn ifree(&mut self, n: u16, part: S)
        requires least { 2 ≤ n }
        requires most { n ≤ inode_count (S.origin self.old.stake).sizes }
        requires used { is_free_inode self.old.inodes.used n ≡ false }
        requires line { S.held part (inode_place (S.origin self.old.stake).sizes n).block
            (inode_place (S.origin self.old.stake).sizes n).line ≡ Some (replicate 64 0) }
        requires only { HoldsOnly (S.origin self.old.stake) (S.held part) (λ _. 0) }
        requires apart { Apart (S.held self.old.stake) (S.held part) }
        requires lent { S.lent part ≡ nothing_lent }
        requires origin { S.origin part ≡ S.origin self.old.stake }
        ensures inodes { self.new.inodes ≡ with_free n self.old.inodes }
        ensures held { S.held self.new.stake ≡ Both (S.held self.old.stake) (S.held part) }
        ensures chain { self.new.chain ≡ self.old.chain }
        ensures aside { self.new.aside ≡ self.old.aside }
        ensures spare { self.new.spare ≡ self.old.spare }
        ensures head { self.new.head ≡ self.old.head }
        ensures lends { S.lent self.new.stake ≡ nothing_lent }
        ensures faults { S.faults self.new.stake ≡ counted (S.faults self.old.stake) (S.faults part) }
        ensures forced { S.forced self.new.stake ≡ (S.forced self.old.stake || S.forced part) }
        ensures origin { S.origin self.new.stake ≡ S.origin self.old.stake }
    {
        self.stake.merge(part);
        let _sizes = self.stake.geometry();
        self.inodes.give(n);
    }
}

// Cuts one line off.
fn cut_line<S: Stake>(alloc: Global, s: &mut S, place: Place) -> Result<S, NoMemory>
    requires line { S.held s.old place.block place.line ≡ Some (replicate 64 0) }
    requires rest { HoldsSuper (S.origin s.old) (S.held s.old) }
    requires other { 2 ≤ place.block }
    requires lent { S.lent s.old ≡ nothing_lent }
    ensures mine { OnOk result (S.held s.new ≡ line_less place (S.held s.old)) }
    ensures theirs { IfOk result (λ part. S.held part ≡ line_alone place (S.held s.old)) }
    ensures part_lent { IfOk result (λ part. S.lent part ≡ nothing_lent) }
    ensures part_faults { IfOk result (λ part. S.faults part ≡ 0) }
    ensures part_forced { IfOk result (λ part. S.forced part ≡ false) }
    ensures part_origin { IfOk result (λ part. S.origin part ≡ S.origin s.old) }
    ensures err { OnErr result (S.held s.new ≡ S.held s.old) }
    ensures lends { S.lent s.new ≡ nothing_lent }
    ensures faults { S.faults s.new ≡ S.faults s.old }
    ensures forced { S.forced s.new ≡ S.forced s.old }
    ensures origin { S.origin s.new ≡ S.origin s.old }
{
    let _sizes = s.geometry();
    let lines = [LineRange {
        block: place.block,
        first: place.line,
        count: 1,
    }];
    match s.part(alloc, &lines) {
        Ok(part) => Ok(part),
        Err(_) => Err(NoMemory),
    }
}
