// A stake whose blocks are in memory.
ghost use Rattle.std.specs.Prelude.{◌≡◌, ◌≤◌, ◌==◌, ◌||◌, ◌+◌, ◌*◌, ◌<◌, ◌^◌, ℕ, true, false, IfOk, OnErr, IsErrOf};
ghost use Rattle.sv_dev.specs.Causes.{counted};
ghost use Rattle.sv_form.specs.Geometry.{IsGeometry};
ghost use Rattle.sv_store.specs.Causes.{HasFault};
ghost use Rattle.sv_dev.specs.Tally.{Numbers, IsNumbered, IsQuiet};
ghost use Rattle.sv_store.specs.OwnBlock.{held_of, lent_of, IsSound};

use crate::own_block::{
    Own, copy_all, join, lend, lend_zeros, put_back, take_back, whole_list, zero_content,
};
use crate::own_cut::cut_off;
use crate::{Buf, LineRange, NoMemory, Refusal, Stake};
use std::alloc::{AllocError, Global};
use std::collections::LinkedList;
use std::sync::Wait;
use sv_dev::Tally;
use sv_form::Geometry;

/// What is seen of a stake whose calls are numbered.
pub trait Numbered {
    /// The calls that fail, the calls so far, and the faults so far.
    ghost numbers: { Self → Numbers };
}

impl Numbered for OwnStake {
    ghost numbers = { λ s. s.tally };
}

/// A stake that owns its blocks, in memory, and fails the calls that it is told to fail.
///
/// The calls of `bread`, `breada`, `fresh` and `bwrite` are numbered from 1, in each part anew. Its origin names the numbers
/// of the calls that fail, so where there are none, no part of it has counted a fault.
#[derive(Drop)]
pub struct OwnStake {
    sizes: Geometry,
    blocks: LinkedList<Own>,
    tally: Tally,
    forced: bool,
    ghost sized: { IsGeometry sizes },
    ghost sound: { IsSound sizes blocks },
    ghost quiet: { IsQuiet tally },
}

impl OwnStake {
    ghost use Rattle.std.specs.Prelude.{◌≡◌, ℕ, [], length, map, false, OnErr, IfErr};
    ghost use Rattle.std.specs.List.{All};
    ghost use Rattle.sv_store.specs.Held.{of_content, nothing_lent, HoldsBlock};

    /// A stake of all lines of all blocks, whose calls with these numbers fail.
    pub fn new(
        alloc: Global,
        sizes: Geometry,
        content: Vec<Vec<u8>>,
        fails: Vec<u64>,
    ) -> Result<OwnStake, NoMemory>
        requires sizes { IsGeometry sizes }
        requires blocks { length content.items ≡ sizes.blocks }
        requires bytes { All (λ bytes. length bytes.items ≡ sizes.block_size) content.items }
        ensures held { IfOk result (λ s. ⟦<OwnStake as Stake>⟧.held s ≡ of_content sizes (map (λ bytes. bytes.items) content.items)) }
        ensures lent { IfOk result (λ s. ⟦<OwnStake as Stake>⟧.lent s ≡ nothing_lent) }
        ensures faults { IfOk result (λ s. ⟦<OwnStake as Stake>⟧.faults s ≡ 0) }
        ensures forced { IfOk result (λ s. ⟦<OwnStake as Stake>⟧.forced s ≡ false) }
        ensures origin { IfOk result (λ s. ⟦<OwnStake as Stake>⟧.origin s ≡ record { id = fails.items; sizes = sizes }) }
        ensures numbers { IfOk result (λ s. ⟦<OwnStake as Numbered>⟧.numbers s ≡ record { fails = fails.items; calls = 0; faults = 0 }) }
    {
        let blocks = whole_list(alloc, sizes, content)?;
        Ok(OwnStake {
            sizes,
            blocks,
            tally: Tally::new(fails),
            forced: false,
        })
    }

    /// The blocks with their bytes, in order. Without memory the stake comes back as it was.
    pub fn into_content(self, alloc: Global) -> Result<Vec<Vec<u8>>, (OwnStake, NoMemory)>
        requires lines { (b : ℕ) → b < (⟦<OwnStake as Stake>⟧.origin self).sizes.blocks
            → HoldsBlock (⟦<OwnStake as Stake>⟧.origin self) (⟦<OwnStake as Stake>⟧.held self) b }
        requires lent { ⟦<OwnStake as Stake>⟧.lent self ≡ nothing_lent }
        ensures blocks { IfOk result (λ content. length content.items ≡ (⟦<OwnStake as Stake>⟧.origin self).sizes.blocks) }
        ensures bytes { IfOk result (λ content. All (λ bytes. length bytes.items ≡ (⟦<OwnStake as Stake>⟧.origin self).sizes.block_size)
            content.items) }
        ensures held { IfOk result (λ content. of_content (⟦<OwnStake as Stake>⟧.origin self).sizes
            (map (λ bytes. bytes.items) content.items) ≡ ⟦<OwnStake as Stake>⟧.held self) }
        ensures back { IfErr result (λ refused. refused.0 ≡ self) }
        ensures quiet { (⟦<OwnStake as Stake>⟧.origin self).id ≡ [] → ⟦<OwnStake as Stake>⟧.faults self ≡ 0 }
    {
        let Ok(mut content) = zero_content(alloc, self.sizes) else {
            return Err((self, AllocError));
        };
        let OwnStake {
            sizes,
            mut blocks,
            tally: _,
            forced: _,
        } = self;
        copy_all(&mut blocks, sizes, content.as_mut_slice());
        Ok(content)
    }
}

impl Stake for OwnStake {
    ghost use Rattle.std.specs.Prelude.{◌≡◌};
    ghost use Rattle.sv_store.specs.Calls.{CanGet, CanFresh, Gets, GetsZeros, CanReturn, CanPut, CanPart, Parts, CanMerge};
    ghost use Rattle.sv_store.specs.Held.{Both, put, with, without, nothing_lent};

    ghost held = { λ s. held_of s.blocks };

    ghost lent = { λ s. lent_of s.blocks };

    ghost faults = { λ s. s.tally.faults };

    ghost forced = { λ s. s.forced };

    ghost origin = { λ s. record { id = s.tally.fails; sizes = s.sizes } };

    fn geometry(&self) -> Geometry {
        let _count = self.tally.faults();
        self.sizes
    }

    fn bread<R: Wait>(&mut self, _rt: &R, b: u32) -> Result<Buf, Refusal>
        requires { CanGet (⟦<OwnStake as Stake>⟧.held self.old) (⟦<OwnStake as Stake>⟧.lent self.old) b }
        ensures ok { IfOk result (Gets (⟦<OwnStake as Stake>⟧.origin self.old) (⟦<OwnStake as Stake>⟧.held self.old) b) }
        ensures lends { IfOk result (λ buf. ⟦<OwnStake as Stake>⟧.lent self.new ≡ with b buf.bytes (⟦<OwnStake as Stake>⟧.lent self.old)) }
        ensures err { OnErr result (⟦<OwnStake as Stake>⟧.lent self.new ≡ ⟦<OwnStake as Stake>⟧.lent self.old) }
        ensures held { ⟦<OwnStake as Stake>⟧.held self.new ≡ ⟦<OwnStake as Stake>⟧.held self.old }
        ensures forced { ⟦<OwnStake as Stake>⟧.forced self.new ≡ ⟦<OwnStake as Stake>⟧.forced self.old }
        ensures origin { ⟦<OwnStake as Stake>⟧.origin self.new ≡ ⟦<OwnStake as Stake>⟧.origin self.old }
        ensures cause { HasFault (⟦<OwnStake as Stake>⟧.faults self.old) (⟦<OwnStake as Stake>⟧.faults self.new) result }
        ensures numbered { IsNumbered (⟦<OwnStake as Numbered>⟧.numbers self.old) (⟦<OwnStake as Numbered>⟧.numbers self.new) result }
    {
        self.tally.next()?;
        Ok(Buf::new(b, lend(&mut self.blocks, self.sizes, b)))
    }

    fn breada<R: Wait>(&mut self, _rt: &R, b: u32, _next: u32) -> Result<Buf, Refusal>
        requires block { CanGet (⟦<OwnStake as Stake>⟧.held self.old) (⟦<OwnStake as Stake>⟧.lent self.old) b }
        requires next { _next < (⟦<OwnStake as Stake>⟧.origin self.old).sizes.blocks }
        ensures ok { IfOk result (Gets (⟦<OwnStake as Stake>⟧.origin self.old) (⟦<OwnStake as Stake>⟧.held self.old) b) }
        ensures lends { IfOk result (λ buf. ⟦<OwnStake as Stake>⟧.lent self.new ≡ with b buf.bytes (⟦<OwnStake as Stake>⟧.lent self.old)) }
        ensures err { OnErr result (⟦<OwnStake as Stake>⟧.lent self.new ≡ ⟦<OwnStake as Stake>⟧.lent self.old) }
        ensures held { ⟦<OwnStake as Stake>⟧.held self.new ≡ ⟦<OwnStake as Stake>⟧.held self.old }
        ensures forced { ⟦<OwnStake as Stake>⟧.forced self.new ≡ ⟦<OwnStake as Stake>⟧.forced self.old }
        ensures origin { ⟦<OwnStake as Stake>⟧.origin self.new ≡ ⟦<OwnStake as Stake>⟧.origin self.old }
        ensures cause { HasFault (⟦<OwnStake as Stake>⟧.faults self.old) (⟦<OwnStake as Stake>⟧.faults self.new) result }
        ensures numbered { IsNumbered (⟦<OwnStake as Numbered>⟧.numbers self.old) (⟦<OwnStake as Numbered>⟧.numbers self.new) result }
    {
        self.tally.next()?;
        Ok(Buf::new(b, lend(&mut self.blocks, self.sizes, b)))
    }

    fn fresh<R: Wait>(&mut self, _rt: &R, b: u32) -> Result<Buf, Refusal>
        requires { CanFresh (⟦<OwnStake as Stake>⟧.origin self.old) (⟦<OwnStake as Stake>⟧.held self.old)
            (⟦<OwnStake as Stake>⟧.lent self.old) b }
        ensures ok { IfOk result (GetsZeros (⟦<OwnStake as Stake>⟧.origin self.old) b) }
        ensures lends { IfOk result (λ buf. ⟦<OwnStake as Stake>⟧.lent self.new ≡ with b buf.bytes (⟦<OwnStake as Stake>⟧.lent self.old)) }
        ensures puts { IfOk result (λ buf. ⟦<OwnStake as Stake>⟧.held self.new ≡ put b buf.bytes (⟦<OwnStake as Stake>⟧.held self.old)) }
        ensures err { OnErr result (⟦<OwnStake as Stake>⟧.lent self.new ≡ ⟦<OwnStake as Stake>⟧.lent self.old) }
        ensures held { OnErr result (⟦<OwnStake as Stake>⟧.held self.new ≡ ⟦<OwnStake as Stake>⟧.held self.old) }
        ensures forced { ⟦<OwnStake as Stake>⟧.forced self.new ≡ ⟦<OwnStake as Stake>⟧.forced self.old }
        ensures origin { ⟦<OwnStake as Stake>⟧.origin self.new ≡ ⟦<OwnStake as Stake>⟧.origin self.old }
        ensures cause { HasFault (⟦<OwnStake as Stake>⟧.faults self.old) (⟦<OwnStake as Stake>⟧.faults self.new) result }
        ensures numbered { IsNumbered (⟦<OwnStake as Numbered>⟧.numbers self.old) (⟦<OwnStake as Numbered>⟧.numbers self.new) result }
    {
        self.tally.next()?;
        Ok(Buf::new(b, lend_zeros(&mut self.blocks, self.sizes, b)))
    }

    fn brelse<R: Wait>(&mut self, _rt: &R, buf: Buf)
        requires { CanReturn (⟦<OwnStake as Stake>⟧.lent self.old) buf }
        ensures lends { ⟦<OwnStake as Stake>⟧.lent self.new ≡ without buf.block (⟦<OwnStake as Stake>⟧.lent self.old) }
        ensures held { ⟦<OwnStake as Stake>⟧.held self.new ≡ ⟦<OwnStake as Stake>⟧.held self.old }
        ensures forced { ⟦<OwnStake as Stake>⟧.forced self.new ≡ ⟦<OwnStake as Stake>⟧.forced self.old }
        ensures origin { ⟦<OwnStake as Stake>⟧.origin self.new ≡ ⟦<OwnStake as Stake>⟧.origin self.old }
        ensures faults { ⟦<OwnStake as Stake>⟧.faults self.new ≡ ⟦<OwnStake as Stake>⟧.faults self.old }
        ensures numbers { ⟦<OwnStake as Numbered>⟧.numbers self.new ≡ ⟦<OwnStake as Numbered>⟧.numbers self.old }
    {
        let b = buf.block();
        take_back(&mut self.blocks, self.sizes, b, buf.into_bytes());
    }

    fn bdwrite<R: Wait>(&mut self, _rt: &R, buf: Buf)
        requires { CanPut (⟦<OwnStake as Stake>⟧.held self.old) (⟦<OwnStake as Stake>⟧.lent self.old) buf }
        ensures held { ⟦<OwnStake as Stake>⟧.held self.new ≡ put buf.block buf.bytes (⟦<OwnStake as Stake>⟧.held self.old) }
        ensures lends { ⟦<OwnStake as Stake>⟧.lent self.new ≡ without buf.block (⟦<OwnStake as Stake>⟧.lent self.old) }
        ensures forced { ⟦<OwnStake as Stake>⟧.forced self.new ≡ ⟦<OwnStake as Stake>⟧.forced self.old }
        ensures origin { ⟦<OwnStake as Stake>⟧.origin self.new ≡ ⟦<OwnStake as Stake>⟧.origin self.old }
        ensures faults { ⟦<OwnStake as Stake>⟧.faults self.new ≡ ⟦<OwnStake as Stake>⟧.faults self.old }
        ensures numbers { ⟦<OwnStake as Numbered>⟧.numbers self.new ≡ ⟦<OwnStake as Numbered>⟧.numbers self.old }
    {
        let b = buf.block();
        put_back(&mut self.blocks, self.sizes, b, buf.into_bytes());
    }

    fn bwrite<R: Wait>(&mut self, _rt: &R, buf: Buf) -> Result<(), Refusal>
        requires { CanPut (⟦<OwnStake as Stake>⟧.held self.old) (⟦<OwnStake as Stake>⟧.lent self.old) buf }
        ensures held { ⟦<OwnStake as Stake>⟧.held self.new ≡ put buf.block buf.bytes (⟦<OwnStake as Stake>⟧.held self.old) }
        ensures lends { ⟦<OwnStake as Stake>⟧.lent self.new ≡ without buf.block (⟦<OwnStake as Stake>⟧.lent self.old) }
        ensures forced { ⟦<OwnStake as Stake>⟧.forced self.new ≡ true }
        ensures origin { ⟦<OwnStake as Stake>⟧.origin self.new ≡ ⟦<OwnStake as Stake>⟧.origin self.old }
        ensures cause { HasFault (⟦<OwnStake as Stake>⟧.faults self.old) (⟦<OwnStake as Stake>⟧.faults self.new) result }
        ensures numbered { IsNumbered (⟦<OwnStake as Numbered>⟧.numbers self.old) (⟦<OwnStake as Numbered>⟧.numbers self.new) result }
    {
        self.forced = true;
        let b = buf.block();
        put_back(&mut self.blocks, self.sizes, b, buf.into_bytes());
        self.tally.next()?;
        Ok(())
    }

    fn part(&mut self, alloc: Global, lines: &[LineRange]) -> Result<Self, Refusal>
        requires { CanPart (⟦<OwnStake as Stake>⟧.held self.old) (⟦<OwnStake as Stake>⟧.lent self.old) lines.now }
        ensures ok { IfOk result (λ new. Parts (⟦<OwnStake as Stake>⟧.held self.old) lines.now (⟦<OwnStake as Stake>⟧.held self.new)
            (⟦<OwnStake as Stake>⟧.held new)) }
        ensures new_lent { IfOk result (λ new. ⟦<OwnStake as Stake>⟧.lent new ≡ nothing_lent) }
        ensures new_faults { IfOk result (λ new. ⟦<OwnStake as Stake>⟧.faults new ≡ 0) }
        ensures new_forced { IfOk result (λ new. ⟦<OwnStake as Stake>⟧.forced new ≡ false) }
        ensures new_origin { IfOk result (λ new. ⟦<OwnStake as Stake>⟧.origin new ≡ ⟦<OwnStake as Stake>⟧.origin self.old) }
        ensures err { OnErr result (⟦<OwnStake as Stake>⟧.held self.new ≡ ⟦<OwnStake as Stake>⟧.held self.old) }
        ensures memory { OnErr result (IsErrOf result Refusal.NoMemory) }
        ensures lends { ⟦<OwnStake as Stake>⟧.lent self.new ≡ ⟦<OwnStake as Stake>⟧.lent self.old }
        ensures faults { ⟦<OwnStake as Stake>⟧.faults self.new ≡ ⟦<OwnStake as Stake>⟧.faults self.old }
        ensures forced { ⟦<OwnStake as Stake>⟧.forced self.new ≡ ⟦<OwnStake as Stake>⟧.forced self.old }
        ensures origin { ⟦<OwnStake as Stake>⟧.origin self.new ≡ ⟦<OwnStake as Stake>⟧.origin self.old }
        ensures numbers { ⟦<OwnStake as Numbered>⟧.numbers self.new ≡ ⟦<OwnStake as Numbered>⟧.numbers self.old }
        ensures new_numbers { IfOk result (λ new. ⟦<OwnStake as Numbered>⟧.numbers new
            ≡ record { fails = (⟦<OwnStake as Numbered>⟧.numbers self.old).fails; calls = 0; faults = 0 }) }
    {
        let tally = self.tally.anew(alloc)?;
        let blocks = cut_off(alloc, &mut self.blocks, self.sizes, lines)?;
        Ok(OwnStake {
            sizes: self.sizes,
            blocks,
            tally,
            forced: false,
        })
    }

    fn merge(&mut self, other: Self)
        requires lines { CanMerge (⟦<OwnStake as Stake>⟧.held self.old) (⟦<OwnStake as Stake>⟧.held other)
            (⟦<OwnStake as Stake>⟧.lent other) }
        requires origin { ⟦<OwnStake as Stake>⟧.origin other ≡ ⟦<OwnStake as Stake>⟧.origin self.old }
        ensures held { ⟦<OwnStake as Stake>⟧.held self.new ≡ Both (⟦<OwnStake as Stake>⟧.held self.old) (⟦<OwnStake as Stake>⟧.held other) }
        ensures lends { ⟦<OwnStake as Stake>⟧.lent self.new ≡ ⟦<OwnStake as Stake>⟧.lent self.old }
        ensures faults { ⟦<OwnStake as Stake>⟧.faults self.new ≡ counted (⟦<OwnStake as Stake>⟧.faults self.old)
            (⟦<OwnStake as Stake>⟧.faults other) }
        ensures forced { ⟦<OwnStake as Stake>⟧.forced self.new ≡ (⟦<OwnStake as Stake>⟧.forced self.old
            || ⟦<OwnStake as Stake>⟧.forced other) }
        ensures origin { ⟦<OwnStake as Stake>⟧.origin self.new ≡ ⟦<OwnStake as Stake>⟧.origin self.old }
        ensures numbers { ⟦<OwnStake as Numbered>⟧.numbers self.new ≡ record (⟦<OwnStake as Numbered>⟧.numbers self.old) {
          faults = counted
              (⟦<OwnStake as Numbered>⟧.numbers self.old).faults (⟦<OwnStake as Numbered>⟧.numbers other).faults;
        } }
    {
        let OwnStake {
            sizes: _,
            blocks,
            tally,
            forced,
        } = other;
        join(&mut self.blocks, self.sizes, blocks);
        self.tally.count(tally.faults());
        self.forced = self.forced | forced;
    }

    fn flush<R: Wait>(&mut self, _rt: &R) -> Result<(), Refusal>
        requires { ⟦<OwnStake as Stake>⟧.lent self.old ≡ nothing_lent }
        ensures held { ⟦<OwnStake as Stake>⟧.held self.new ≡ ⟦<OwnStake as Stake>⟧.held self.old }
        ensures lends { ⟦<OwnStake as Stake>⟧.lent self.new ≡ ⟦<OwnStake as Stake>⟧.lent self.old }
        ensures forced { ⟦<OwnStake as Stake>⟧.forced self.new ≡ true }
        ensures origin { ⟦<OwnStake as Stake>⟧.origin self.new ≡ ⟦<OwnStake as Stake>⟧.origin self.old }
        ensures cause { HasFault (⟦<OwnStake as Stake>⟧.faults self.old) (⟦<OwnStake as Stake>⟧.faults self.new) result }
        ensures ok { result ≡ Ok tt }
        ensures numbers { ⟦<OwnStake as Numbered>⟧.numbers self.new ≡ ⟦<OwnStake as Numbered>⟧.numbers self.old }
    {
        self.forced = true;
        Ok(())
    }
}
