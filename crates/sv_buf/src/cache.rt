// The cache that threads share.
ghost use Rattle.std.specs.Prelude.{◌≡◌, ◌+◌, ◌*◌, ◌<◌, length, IfOk};
ghost use Rattle.sv_form.specs.Geometry.{IsGeometry};
ghost use Rattle.sv_cache.specs.Cache.{IsBufferCount};
ghost use Rattle.sv_turn.specs.Passes.{pass_view, IsOut, IsPassOf, first_view, turn_events};
ghost use Rattle.sv_buf.specs.Running.{IsFit, seen_by};
ghost use Rattle.sv_buf.specs.Start.{whole_view, lines_view, worker_view, of_disk, opened_with, IsNew};
ghost use Rattle.sv_buf.specs.Stake.{pass_held};

use crate::NoMemory;
use crate::medium::Medium;
use crate::rule::Running;
use crate::stake::CacheStake;
use crate::state::State;
use std::alloc::Global;
use std::marker::Brand;
use sv_cache::CacheCore;
use sv_dev::Disk;
use sv_form::Geometry;
use sv_request::Requests;
use sv_turn::{Pass, Turn};

/// The right to certain lines of a cache, while no stake is made of it.
pub type CachePass<D> = Pass<Running<D>>;

/// A buffer cache that threads share through stakes. It has no drop: it is spent by closing it.
pub struct Cache<D: Medium> {
    pub(crate) turn: Turn<Running<D>>,
    pub(crate) sizes: Geometry,
    pub(crate) buffers: u32,
    ghost sized: { IsGeometry sizes },
    ghost same_sizes: { (first_view turn).opening.sizes ≡ sizes },
    ghost whole: { first_view turn ≡ whole_view (first_view turn).opening },
    ghost counted: { (first_view turn).opening.buffers ≡ buffers },
    ghost some: { 0 < buffers },
    ghost events: { turn_events turn ≡ (first_view turn).opening.buffers + 3 },
}

impl<D: Disk> Cache<D> {
    /// A cache of this many buffers over the disk, with two passes: the first holds all lines, with the bytes that the disk has there,
    /// and the second is the worker's. Without memory the disk comes back.
    pub fn new(
        alloc: Global,
        disk: D,
        buffers: u32,
        geometry: Geometry,
    ) -> Result<(Cache<D>, CachePass<D>, CachePass<D>), (D, NoMemory)>
        requires geometry { IsGeometry geometry }
        requires length { length (D.content disk) ≡ geometry.blocks * geometry.block_size }
        requires buffers { IsBufferCount buffers }
        ensures opening { IfOk result (λ r. first_view r.0.turn ≡ whole_view
            (record { sizes = geometry; buffers = buffers; disk = seen_by D.content D.reads D.writes D.faults disk })) }
        ensures first { IfOk result (λ r. IsPassOf r.0.turn r.1 × IsOut r.1 × (pass_view r.1 ≡ lines_view (first_view r.0.turn).opening)) }
        ensures worker { IfOk result (λ r. IsPassOf r.0.turn r.2 × IsOut r.2
            × (pass_view r.2 ≡ worker_view (first_view r.0.turn).opening)) }
        ensures fit { IfOk result (λ r. IsFit (pass_view r.1)) }
        ensures held { IfOk result (λ r. pass_held r.1 ≡ of_disk (first_view r.0.turn).opening.sizes
            (first_view r.0.turn).opening.disk.content) }
    {
        match CacheCore::new(alloc, disk, buffers, geometry) {
            Ok(core) => open(alloc, core, buffers, geometry),
            Err(refused) => Err(refused),
        }
    }
}

impl<D: Medium> Cache<D> {
    /// A stake of the lines that the pass holds.
    pub fn stake(&self, pass: CachePass<D>) -> CacheStake<'_, D>
        requires own { IsPassOf self.now.turn pass }
        requires away { IsOut pass }
        requires fit { IsFit (pass_view pass) }
        requires opened { (pass_view pass).opening ≡ (first_view self.now.turn).opening }
        ensures { result.pass ≡ pass }
    {
        CacheStake { cache: self, pass }
    }
}

// Puts a new core under a turn.
fn open<D: Medium>(
    alloc: Global,
    core: CacheCore<D>,
    buffers: u32,
    sizes: Geometry,
) -> Result<(Cache<D>, CachePass<D>, CachePass<D>), (D, NoMemory)>
    requires { IsNew (seen_by D.content D.reads D.writes D.faults) core buffers sizes }
    ensures opening { IfOk result (λ r. first_view r.0.turn ≡ whole_view (opened_with (seen_by D.content D.reads D.writes D.faults) core)) }
    ensures first { IfOk result (λ r. IsPassOf r.0.turn r.1 × IsOut r.1 × (pass_view r.1 ≡ lines_view (first_view r.0.turn).opening)) }
    ensures worker { IfOk result (λ r. IsPassOf r.0.turn r.2 × IsOut r.2 × (pass_view r.2 ≡ worker_view (first_view r.0.turn).opening)) }
    ensures fit { IfOk result (λ r. IsFit (pass_view r.1)) }
    ensures held { IfOk result (λ r. pass_held r.1 ≡ of_disk (first_view r.0.turn).opening.sizes
        (first_view r.0.turn).opening.disk.content) }
{
    let Ok(requests) = Requests::new(alloc, buffers) else {
        return Err((core.into_device().unwrap(), NoMemory));
    };
    let state = State {
        core,
        requests,
        stopping: false,
    };
    match Turn::<Running<D>>::new::<Brand>(alloc, state, buffers + 3) {
        Ok((turn, first)) => share(turn, first, sizes, buffers),
        Err((state, refusal)) => Err((state.into_disk(), refusal)),
    }
}

// Cuts the worker's pass off the first.
fn share<D: Medium>(
    turn: Turn<Running<D>>,
    mut first: Pass<Running<D>>,
    sizes: Geometry,
    buffers: u32,
) -> Result<(Cache<D>, CachePass<D>, CachePass<D>), (D, NoMemory)>
    requires own { IsPassOf turn first }
    requires away { IsOut first }
    requires whole { pass_view first ≡ whole_view (first_view turn).opening }
    requires first { first_view turn ≡ whole_view (first_view turn).opening }
    requires sized { IsGeometry sizes }
    requires same_sizes { (first_view turn).opening.sizes ≡ sizes }
    requires counted { (first_view turn).opening.buffers ≡ buffers }
    requires some { 0 < buffers }
    requires events { turn_events turn ≡ (first_view turn).opening.buffers + 3 }
    requires length { length (first_view turn).opening.disk.content ≡ (first_view turn).opening.sizes.blocks *
        (first_view turn).opening.sizes.block_size }
    ensures same { IfOk result (λ r. first_view r.0.turn ≡ first_view turn) }
    ensures first { IfOk result (λ r. IsPassOf r.0.turn r.1 × IsOut r.1 × (pass_view r.1 ≡ lines_view (first_view r.0.turn).opening)) }
    ensures worker { IfOk result (λ r. IsPassOf r.0.turn r.2 × IsOut r.2 × (pass_view r.2 ≡ worker_view (first_view r.0.turn).opening)) }
    ensures fit { IfOk result (λ r. IsFit (pass_view r.1)) }
    ensures held { IfOk result (λ r. pass_held r.1 ≡ of_disk (first_view r.0.turn).opening.sizes
        (first_view r.0.turn).opening.disk.content) }
{
    match turn.split::<Brand>(&mut first) {
        Ok(worker) => Ok((
            Cache {
                turn,
                sizes,
                buffers,
            },
            first,
            worker,
        )),
        Err(refusal) => {
            let state = turn.close(first);
            Err((state.into_disk(), refusal))
        }
    }
}
