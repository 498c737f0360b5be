// What becomes of a buffer that a search met at the head of the free list and that is still to be written (Bach, chapter 3.3, getblk,
// the third scenario): the worker is asked to write it. One of which a write has failed is written here, so that its failure is told.
ghost use Rattle.std.specs.Prelude.{◌≡◌, ◌+◌, ◌++◌, ◌∷◌, [], ◌<◌, length, Some, None, IfOk, IfErr, vec_len, if◌then◌else◌};
ghost use Rattle.sv_turn.specs.Passes.{pass_view, IsOut, IsPassOf, IsSamePass, turn_events};
ghost use Rattle.sv_cache.specs.Cache.{buffer_at};
ghost use Rattle.sv_store.specs.declared.refusal.Refusal.TheVariants.{Fault};
ghost use Rattle.sv_buf.specs.Changes.{calm_view, failed_view, moving_view};
ghost use Rattle.sv_buf.specs.Running.{IsRunning, IsFit, seen_by};
ghost use Rattle.sv_buf.specs.Pending.{IsPending};
ghost use Rattle.sv_buf.specs.Meeting.{IsMet};

use crate::event::WORKER;
use crate::leave::leave_with;
use crate::medium::Medium;
use crate::rule::Running;
use crate::state::State;
use crate::write::{fetch, write_home};
use std::marker::Brand;
use std::sync::Wait;
use sv_cache::{CacheCore, Release};
use sv_store::Refusal;
use sv_turn::{Pass, Turn};

// Asks the worker for a buffer that was met at the head of the free list: to write it, or to read its block.
pub fn ask<D: Medium>(turn: &Turn<Running<D>>, mut state: State<D>, buffer: u32) -> State<D>
    requires room { length state.requests.waiting < state.requests.capacity }
    requires events { 2 < turn_events turn.now }
    ensures { result ≡ record state { requests = record state.requests { waiting = state.requests.waiting ++ buffer ∷ [] } } }
{
    match state.requests.push(buffer) {
        Ok(()) => {}
        Err(_) => unreachable!(),
    }
    turn.wake(WORKER);
    state
}

// The block of a buffer of which a write has failed.
fn marked_block<D>(core: &CacheCore<D>, buffer: u32) -> Option<u32>
    requires { buffer < length core.now.buffers }
    ensures { result ≡ (if (buffer_at core.now buffer).marked then (buffer_at core.now buffer).block else None) }
{
    if core.is_marked(buffer) {
        core.block_of(buffer)
    } else {
        None
    }
}

// Takes the buffer that was met for a transfer, and gives the turn on.
fn take_met<D: Medium>(
    turn: &Turn<Running<D>>,
    pass: &mut Pass<Running<D>>,
    mut state: State<D>,
    buffer: u32,
    block: u32,
) -> Vec<u8>
    requires own { IsPassOf turn.now pass.old }
    requires fit { IsFit (pass_view pass.old) }
    requires met { IsMet (IsRunning (seen_by D.content D.reads D.writes D.faults)) pass.old state buffer }
    requires named { (buffer_at state.core buffer).block ≡ Some block }
    ensures same { IsSamePass pass.old pass.new × IsOut pass.new }
    ensures view { pass_view pass.new ≡ moving_view buffer block (Some result.items) (calm_view (pass_view pass.old)) }
    ensures size { vec_len result ≡ 1024 }
    ensures inside { block < (pass_view pass.old).opening.sizes.blocks }
{
    let bytes = state.core.lend(buffer);
    leave_with::<Brand, D>(turn, pass, state, buffer, block, bytes.as_slice());
    bytes
}

// Writes the buffer that was met, and comes in again. It is clean then, at the head of the free list.
fn write_met<R: Wait, D: Medium>(
    rt: &R,
    turn: &Turn<Running<D>>,
    pass: &mut Pass<Running<D>>,
    state: State<D>,
    buffer: u32,
    block: u32,
) -> Result<State<D>, Refusal>
    requires own { IsPassOf turn.now pass.old }
    requires fit { IsFit (pass_view pass.old) }
    requires events { turn_events turn.now ≡ (pass_view pass.old).opening.buffers + 3 }
    requires met { IsMet (IsRunning (seen_by D.content D.reads D.writes D.faults)) pass.old state buffer }
    requires named { (buffer_at state.core buffer).block ≡ Some block }
    ensures same { IsSamePass pass.old pass.new }
    ensures ok { IfOk result (λ s. (pass_view pass.new ≡ pass_view pass.old)
        × IsPending (IsRunning (seen_by D.content D.reads D.writes D.faults)) pass.new s (pass_view pass.old)) }
    ensures err { IfErr result (λ e. (e ≡ Fault) × IsOut pass.new × (pass_view pass.new ≡ failed_view (calm_view (pass_view pass.old)))) }
{
    let bytes = take_met(turn, pass, state, buffer, block);
    let disk = fetch(rt, turn, pass);
    match write_home(rt, turn, pass, disk, buffer, block, bytes, Release::Old) {
        Ok(()) => Ok(turn.enter(rt, pass)),
        Err(refusal) => Err(refusal),
    }
}

// Has the buffer that was met written, by the worker or here, after which the free list may be looked at again.
pub fn clear<R: Wait, D: Medium>(
    rt: &R,
    turn: &Turn<Running<D>>,
    pass: &mut Pass<Running<D>>,
    state: State<D>,
    buffer: u32,
) -> Result<State<D>, Refusal>
    requires own { IsPassOf turn.now pass.old }
    requires fit { IsFit (pass_view pass.old) }
    requires events { turn_events turn.now ≡ (pass_view pass.old).opening.buffers + 3 }
    requires met { IsMet (IsRunning (seen_by D.content D.reads D.writes D.faults)) pass.old state buffer }
    ensures same { IsSamePass pass.old pass.new }
    ensures ok { IfOk result (λ s. (pass_view pass.new ≡ pass_view pass.old)
        × IsPending (IsRunning (seen_by D.content D.reads D.writes D.faults)) pass.new s (pass_view pass.old)) }
    ensures err { IfErr result (λ e. (e ≡ Fault) × IsOut pass.new × (pass_view pass.new ≡ failed_view (calm_view (pass_view pass.old)))) }
{
    match marked_block(&state.core, buffer) {
        Some(block) => write_met(rt, turn, pass, state, buffer, block),
        None => Ok(ask(turn, state, buffer)),
    }
}
