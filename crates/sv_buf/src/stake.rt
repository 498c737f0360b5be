// A stake over the cache.
ghost use Rattle.std.specs.Prelude.{◌≡◌, IfOk, OnOk, OnErr};
ghost use Rattle.sv_turn.specs.Passes.{pass_view, IsOut, IsPassOf, IsSamePass, first_view};
ghost use Rattle.sv_buf.specs.Parting.{IsCut};
ghost use Rattle.std.proofs.Props.{props};
ghost use Rattle.sv_buf.specs.Running.{IsFit};
ghost use Rattle.sv_buf.specs.Stake.{pass_held, pass_lent, pass_faults, pass_forced, pass_origin};

use crate::ahead::get_ahead;
use crate::cache::{Cache, CachePass};
use crate::flush::flush_all;
use crate::fresh::get_zeros;
use crate::get::get;
use crate::give::{take_back, take_put};
use crate::medium::Medium;
use crate::rule::Running;
use crate::view::View;
use crate::write::put_now;
use std::alloc::{AllocError, Global};
use std::marker::Brand;
use std::sync::Wait;
use sv_dev::Disk;
use sv_form::Geometry;
use sv_store::{Buf, LineRange, Refusal, Stake};
use sv_turn::{CutView, Pass, Turn};

/// The right to certain lines of a cache. What a stake holds changes only by its own calls, whatever other threads do. A stake that is
/// dropped takes its lines with it: the cache cannot be closed any more.
#[derive(Drop)]
pub struct CacheStake<'a, D: Medium> {
    pub(crate) cache: &'a Cache<D>,
    pub(crate) pass: Pass<Running<D>>,
    ghost own: { IsPassOf cache.now.turn pass },
    ghost away: { IsOut pass },
    ghost fit: { IsFit (pass_view pass) } by { Prim.hlevel props },
    ghost opened: { (pass_view pass).opening ≡ (first_view cache.now.turn).opening },
}

impl<'a, D: Disk> Stake for CacheStake<'a, D> {
    ghost held = { λ s. pass_held s.pass };

    ghost lent = { λ s. pass_lent s.pass };

    ghost faults = { λ s. pass_faults s.pass };

    ghost forced = { λ s. pass_forced s.pass };

    ghost origin = { λ s. pass_origin s.pass };

    fn geometry(&self) -> Geometry {
        self.cache.sizes
    }

    fn bread<R: Wait>(&mut self, rt: &R, b: u32) -> Result<Buf, Refusal> {
        get(rt, &self.cache.turn, &mut self.pass, b)
    }

    fn breada<R: Wait>(&mut self, rt: &R, b: u32, next: u32) -> Result<Buf, Refusal> {
        get_ahead(rt, &self.cache.turn, &mut self.pass, b, next)
    }

    fn fresh<R: Wait>(&mut self, rt: &R, b: u32) -> Result<Buf, Refusal> {
        get_zeros(rt, &self.cache.turn, &mut self.pass, b)
    }

    fn brelse<R: Wait>(&mut self, rt: &R, buf: Buf) {
        take_back(rt, &self.cache.turn, &mut self.pass, buf);
    }

    fn bdwrite<R: Wait>(&mut self, rt: &R, buf: Buf) {
        take_put(rt, &self.cache.turn, &mut self.pass, buf);
    }

    fn bwrite<R: Wait>(&mut self, rt: &R, buf: Buf) -> Result<(), Refusal> {
        put_now(rt, &self.cache.turn, &mut self.pass, buf)
    }

    fn part(&mut self, _alloc: Global, lines: &[LineRange]) -> Result<Self, Refusal> {
        let pass = split_lines::<Brand, D>(&self.cache.turn, &mut self.pass, lines)?;
        Ok(CacheStake {
            cache: self.cache,
            pass,
        })
    }

    fn merge(&mut self, other: Self) {
        let CacheStake { cache: _, pass } = other;
        self.cache.turn.join::<Brand>(&mut self.pass, pass);
    }

    fn flush<R: Wait>(&mut self, rt: &R) -> Result<(), Refusal> {
        flush_all(rt, &self.cache.turn, &mut self.pass, self.cache.buffers)
    }
}

impl<'a, D: Medium> CacheStake<'a, D> {
    /// The pass again, with the lines that the stake holds.
    pub fn give_up(self) -> CachePass<D>
        ensures same { result ≡ self.entry.pass }
        ensures own { IsPassOf self.entry.cache.now.turn result × IsOut result }
        ensures fit { IsFit (pass_view result) }
        ensures opened { (pass_view result).opening ≡ (first_view self.entry.cache.now.turn).opening }
    {
        let CacheStake { cache: _, pass } = self;
        pass
    }
}

// Cuts the lines of these ranges off, as `Turn::split` cuts a view.
fn split_lines<C: CutView<View>, D: Medium>(
    turn: &Turn<Running<D>>,
    pass: &mut Pass<Running<D>>,
    lines: &[LineRange],
) -> Result<Pass<Running<D>>, AllocError>
    requires own { IsPassOf turn.now pass.old }
    requires away { IsOut pass.old }
    requires cuts { IsCut (pass_view pass.old) (C.left (pass_view pass.old)) (C.right (pass_view pass.old)) }
    ensures same { IsSamePass pass.old pass.new × IsOut pass.new }
    ensures left { OnOk result (pass_view pass.new ≡ C.left (pass_view pass.old)) }
    ensures right { IfOk result (λ other. IsPassOf turn.now other × IsOut other × (pass_view other ≡ C.right (pass_view pass.old))) }
    ensures err { OnErr result (pass_view pass.new ≡ pass_view pass.old) }
{
    turn.split::<C>(pass)
}
