// The free blocks, and the core that holds them.
ghost use Rattle.std.specs.Prelude.{◌≡◌, ◌≢◌, ◌≤◌, ◌<◌, ◌+◌, ◌==◌, ◌||◌, ◌∷◌, ℕ, max, false, IfOk, IfErr, OnOk, OnErr, length};
ghost use Rattle.sv_dev.specs.Causes.{counted};
ghost use Rattle.sv_form.specs.Geometry.{IsDataBlock};
ghost use Rattle.sv_form.specs.Superblock.{IsSuper};
ghost use Rattle.sv_store.specs.Causes.{HasReason};
ghost use Rattle.sv_store.specs.Held.{Apart, Both, HoldsBlock, SameLines, nothing_lent};
ghost use Rattle.sv_super.specs.Calls.{CanMount, CanMountInodes, Frees, FreesBlock, head_of, is_free};
ghost use Rattle.sv_super.specs.Calls.{IsNewPart, StaysAs, Takes, TakesAside, TakesBlock, TakesChained};
ghost use Rattle.sv_super.specs.Core.{HoldsFirst, HoldsOnly, IsSound, NamesSizes, free_of, left_of};
ghost use Rattle.sv_super.specs.Count.{one_if};
ghost use Rattle.sv_super.specs.FreeList.{IsChain};
ghost use Rattle.sv_super.specs.Written.{IsWritten, super_bytes};

mod flush;
mod inode_lines;

use crate::chain::{cut_block, first_of, link, next_of};
use crate::inodes::FreeInodes;
use crate::mounted::count_free;
use std::alloc::Global;
use std::marker::Model;
use std::sync::Wait;
use sv_form::{LinkBlock, Mounted};
use sv_store::{NoMemory, Refusal, Stake};

/// The free blocks and inodes, with the stake that holds their lines and the superblock's (Bach, chapters 4.6 and 4.7).
///
/// A contract sees the blocks in the order in which they are handed out: first those set aside, the last of them first,
/// then the chain. It sees the inodes as the map of those in use, the cached numbers, and the remembered one; and the sizes
/// that the superblock names.
pub struct SuperCore<S: Stake> {
    stake: S,
    list: LinkBlock,
    chained: u32,
    aside: Vec<u32>,
    spare: u32,
    inodes: FreeInodes,
    block_type: u16,
    first_data: u16,
    blocks: u32,
}

impl<S: Stake> Model for SuperCore<S> {
    ghost use Rattle.sv_super.specs.Core.{Core, IsCore};
    ghost use Rattle.sv_super.specs.FreeList.{taken};
    ghost use Rattle.std.specs.Prelude.{vec_capacity};

    ghost Value = { Core S };

    ghost view = { λ c. record {
      stake = c.stake;
      chain = taken c.chained (S.held c.stake) c.list.numbers.items;
      aside = c.aside.items;
      spare = c.spare;
      inodes = c.inodes;
      head = record { block_type = c.block_type; first_data = c.first_data; blocks = c.blocks };
    } };

    ghost invariant = { λ c. IsCore (S.origin c.stake) (S.held c.stake) (S.lent c.stake) c.list.numbers.items c.chained c.aside.items
        c.spare (vec_capacity c.aside) c.inodes.used (record { block_type = c.block_type; first_data = c.first_data; blocks = c.blocks }) };
}

impl<S: Stake> SuperCore<S> {
    /// The free blocks and inodes of an image that was checked, with the line of inode 1, and no other data block. Where the held
    /// superblock spells the one that was read, it is as a flush leaves it. Without memory the stake comes back as it was.
    pub fn new(alloc: Global, stake: S, mounted: &Mounted) -> Result<SuperCore<S>, (S, NoMemory)>
        requires blocks { CanMount (S.origin stake) (S.held stake) (S.lent stake) mounted.now.owners mounted.now.head.free.items }
        requires inodes { CanMountInodes (S.origin stake) (S.held stake) mounted.now.used.items mounted.now.head.inodes.items }
        requires first { HoldsFirst (S.origin stake) (S.held stake) }
        requires only { HoldsOnly (S.origin stake) (S.held stake) (λ b. one_if (is_free mounted.now.owners b)) }
        requires names { NamesSizes (S.origin stake).sizes (head_of mounted.now.head) }
        ensures stake { IfOk result (λ core. core.stake ≡ stake) }
        ensures chain { IfOk result (λ core. IsChain (S.held stake) mounted.now.head.free.items core.chain) }
        ensures aside { IfOk result (λ core. length core.aside ≡ 0) }
        ensures spare { IfOk result (λ core. core.spare ≡ 0) }
        ensures inodes { IfOk result (λ core. core.inodes ≡
            record { used = mounted.now.used.items; cached = mounted.now.head.inodes.items; remembered = 2 }) }
        ensures head { IfOk result (λ core. core.head ≡ head_of mounted.now.head) }
        ensures written { IfOk result (λ core. IsSuper (super_bytes (S.origin stake).sizes (S.held stake)) mounted.now.head
            → IsWritten (S.origin stake).sizes (S.held stake) core.head core.chain core.inodes.cached) }
        ensures back { IfErr result (λ refused. refused.0 ≡ stake) }
    {
        let sizes = stake.geometry();
        let used = mounted.used.as_slice();
        let cached = mounted.head.inodes.as_slice();
        let Ok(inodes) = FreeInodes::new(alloc, used, cached) else {
            return Err((stake, NoMemory));
        };
        let list = mounted.head.free.as_slice();
        Ok(SuperCore {
            list: first_of(list, list.len()),
            chained: count_free(sizes, &mounted.owners),
            aside: Vec::new(alloc),
            spare: 0,
            inodes,
            block_type: mounted.head.block_type,
            first_data: mounted.head.first_data,
            blocks: mounted.head.blocks,
            stake,
        })
    }

    /// How many blocks are free, those set aside included. Each is a data block of which all lines are held, and free once; no
    /// line of another data block is held. The superblock names the sizes.
    pub fn left(&self) -> u32
        ensures left { result ≡ left_of self.now }
        ensures sound { IsSound (S.origin self.now.stake) (S.held self.now.stake) (S.lent self.now.stake) (free_of self.now) }
        ensures only { HoldsOnly (S.origin self.now.stake) (S.held self.now.stake) (free_of self.now) }
        ensures names { NamesSizes (S.origin self.now.stake).sizes self.now.head }
    {
        let _sizes = self.stake.geometry();
        self.chained + self.aside.len() as u32
    }

    /// Hands a free block out, with all its lines (Bach, chapter 4.7, algorithm alloc). A refusal is a fault that the
    /// stake has counted, or want of memory.
    pub fn alloc<R: Wait>(&mut self, rt: &R, alloc: Global) -> Result<(u32, S), Refusal>
        requires { 1 ≤ left_of self.old }
        ensures block { IfOk result (λ taken. Takes self.old self.new taken.0) }
        ensures lines { IfOk result (λ taken. TakesBlock (S.origin self.old.stake) (free_of self.old) (free_of self.new)
            (left_of self.old) (left_of self.new) (S.held self.old.stake) (S.held self.new.stake) (S.held taken.1) taken.0) }
        ensures part { IfOk result (λ taken. IsNewPart (S.origin self.old.stake)
            (S.lent taken.1) (S.faults taken.1) (S.forced taken.1) (S.origin taken.1)) }
        ensures refused { OnErr result (StaysAs S.held self.old self.new) }
        ensures spare { self.new.spare ≡ self.old.spare }
        ensures inodes { self.new.inodes ≡ self.old.inodes }
        ensures head { self.new.head ≡ self.old.head }
        ensures lends { S.lent self.new.stake ≡ nothing_lent }
        ensures forced { S.forced self.new.stake ≡ S.forced self.old.stake }
        ensures origin { S.origin self.new.stake ≡ S.origin self.old.stake }
        ensures cause { HasReason (S.faults self.old.stake) (S.faults self.new.stake) result }
    {
        if self.aside.is_empty() {
            self.take_chained(rt, alloc)
        } else {
            self.take_aside(alloc)
        }
    }

    // The last of those set aside.
    fn take_aside(&mut self, alloc: Global) -> Result<(u32, S), Refusal>
        requires { 1 ≤ length self.old.aside }
        ensures block { IfOk result (λ taken. TakesAside self.old self.new taken.0) }
        ensures lines { IfOk result (λ taken. TakesBlock (S.origin self.old.stake) (free_of self.old) (free_of self.new)
            (left_of self.old) (left_of self.new) (S.held self.old.stake) (S.held self.new.stake) (S.held taken.1) taken.0) }
        ensures part { IfOk result (λ taken. IsNewPart (S.origin self.old.stake)
            (S.lent taken.1) (S.faults taken.1) (S.forced taken.1) (S.origin taken.1)) }
        ensures refused { OnErr result (StaysAs S.held self.old self.new) }
        ensures spare { self.new.spare ≡ self.old.spare }
        ensures inodes { self.new.inodes ≡ self.old.inodes }
        ensures head { self.new.head ≡ self.old.head }
        ensures lends { S.lent self.new.stake ≡ nothing_lent }
        ensures forced { S.forced self.new.stake ≡ S.forced self.old.stake }
        ensures origin { S.origin self.new.stake ≡ S.origin self.old.stake }
        ensures cause { HasReason (S.faults self.old.stake) (S.faults self.new.stake) result }
    {
        let _sizes = self.stake.geometry();
        let last = self.aside.len() - 1;
        let block = self.aside[last];
        let part = cut_block(alloc, &mut self.stake, block)?;
        self.aside.truncate(last);
        Ok((block, part))
    }

    // The first of the chain.
    fn take_chained<R: Wait>(&mut self, rt: &R, alloc: Global) -> Result<(u32, S), Refusal>
        requires { 1 ≤ length self.old.chain }
        ensures block { IfOk result (λ taken. self.old.chain ≡ taken.0 ∷ self.new.chain) }
        ensures lines { IfOk result (λ taken. TakesBlock (S.origin self.old.stake) (free_of self.old) (free_of self.new)
            (left_of self.old) (left_of self.new) (S.held self.old.stake) (S.held self.new.stake) (S.held taken.1) taken.0) }
        ensures part { IfOk result (λ taken. IsNewPart (S.origin self.old.stake)
            (S.lent taken.1) (S.faults taken.1) (S.forced taken.1) (S.origin taken.1)) }
        ensures refused { OnErr result (StaysAs S.held self.old self.new) }
        ensures aside { self.new.aside ≡ self.old.aside }
        ensures spare { self.new.spare ≡ self.old.spare }
        ensures inodes { self.new.inodes ≡ self.old.inodes }
        ensures head { self.new.head ≡ self.old.head }
        ensures lends { S.lent self.new.stake ≡ nothing_lent }
        ensures forced { S.forced self.new.stake ≡ S.forced self.old.stake }
        ensures origin { S.origin self.new.stake ≡ S.origin self.old.stake }
        ensures cause { HasReason (S.faults self.old.stake) (S.faults self.new.stake) result }
    {
        let _sizes = self.stake.geometry();
        let (block, after) = next_of(rt, &mut self.stake, &self.list)?;
        let part = cut_block(alloc, &mut self.stake, block)?;
        self.list = after;
        self.chained -= 1;
        Ok((block, part))
    }

    /// Makes room to set aside at least this many blocks.
    pub fn room(&mut self, n: u32) -> Result<(), NoMemory>
        ensures stake { self.new.stake ≡ self.old.stake }
        ensures chain { self.new.chain ≡ self.old.chain }
        ensures aside { self.new.aside ≡ self.old.aside }
        ensures inodes { self.new.inodes ≡ self.old.inodes }
        ensures head { self.new.head ≡ self.old.head }
        ensures ok { OnOk result (self.new.spare ≡ max self.old.spare n) }
        ensures err { OnErr result (self.new.spare ≡ self.old.spare) }
    {
        if n <= self.spare {
            return Ok(());
        }
        self.aside.reserve(n as usize)?;
        self.spare = n;
        Ok(())
    }

    /// Takes a block back that is not free, with its lines, and those of no other data block (Bach, chapter 4.7, algorithm
    /// free). Where the full list cannot be written for a fault, the block is set aside.
    pub fn free<R: Wait>(&mut self, rt: &R, b: u32, part: S)
        requires spare { 1 ≤ self.old.spare }
        requires in_data { IsDataBlock (S.origin self.old.stake).sizes b }
        requires block { HoldsBlock (S.origin self.old.stake) (S.held part) b }
        requires only { HoldsOnly (S.origin self.old.stake) (S.held part) (λ c. one_if (b == c)) }
        requires apart { Apart (S.held self.old.stake) (S.held part) }
        requires lent { S.lent part ≡ nothing_lent }
        requires origin { S.origin part ≡ S.origin self.old.stake }
        ensures block { Frees (counted (S.faults self.old.stake) (S.faults part)) (S.faults self.new.stake) self.old self.new b }
        ensures set { FreesBlock (free_of self.old) (free_of self.new) (left_of self.old) (left_of self.new) b }
        ensures spare { self.new.spare + 1 ≡ self.old.spare }
        ensures inodes { self.new.inodes ≡ self.old.inodes }
        ensures head { self.new.head ≡ self.old.head }
        ensures lines { SameLines (S.held self.new.stake) (Both (S.held self.old.stake) (S.held part)) }
        ensures others { (c l : ℕ) → c ≢ b → S.held self.new.stake c l ≡ Both (S.held self.old.stake) (S.held part) c l }
        ensures lends { S.lent self.new.stake ≡ nothing_lent }
        ensures forced { S.forced self.new.stake ≡ (S.forced self.old.stake || S.forced part) }
        ensures origin { S.origin self.new.stake ≡ S.origin self.old.stake }
        ensures faults { counted (S.faults self.old.stake) (S.faults part) ≤ S.faults self.new.stake }
    {
        self.stake.merge(part);
        let _sizes = self.stake.geometry();
        self.spare -= 1;
        match link(rt, &mut self.stake, &mut self.list, b) {
            Ok(()) => self.chained += 1,
            Err(_) => {
                let _pushed = self.aside.push(b);
            }
        }
    }

    /// Hands back all lines.
    pub fn give_up(self) -> S
        ensures { result ≡ self.stake }
    {
        let SuperCore {
            stake,
            list: _,
            chained: _,
            aside: _,
            spare: _,
            inodes: _,
            block_type: _,
            first_data: _,
            blocks: _,
        } = self;
        stake
    }
}
