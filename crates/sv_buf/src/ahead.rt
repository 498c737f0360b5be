// How a block is lent, and a second one read ahead (Bach, chapter 3.4, breada). The read ahead never waits for a buffer, since its caller
// has one.
ghost use Rattle.std.specs.Prelude.{◌≡◌, ◌+◌, ◌<◌, ◌≤◌, ◌++◌, ◌∷◌, [], ℕ, List, length, None, Some, IfSome, IfNone, IfOk, IfErr};
ghost use Rattle.sv_turn.specs.Passes.{pass_view, IsOut, IsPassOf, IsSamePass, turn_events};
ghost use Rattle.sv_store.specs.Calls.{Gets};
ghost use Rattle.sv_store.specs.declared.refusal.Refusal.TheVariants.{Fault};
ghost use Rattle.sv_buf.specs.View.{held_of};
ghost use Rattle.sv_buf.specs.Changes.{calm_view, lent_view, failed_view};
ghost use Rattle.sv_buf.specs.Running.{IsRunning, IsFit, seen_by};
ghost use Rattle.sv_buf.specs.Pending.{IsPending};
ghost use Rattle.sv_buf.specs.Meeting.{MayFail};

use crate::clear::{ask, clear};
use crate::get::get;
use crate::medium::Medium;
use crate::rule::Running;
use crate::state::State;
use std::marker::Brand;
use std::sync::Wait;
use sv_cache::Scenario;
use sv_store::{Buf, Refusal};
use sv_turn::{Pass, Turn};

// Leaves with all as it was.
fn leave_same<D: Medium>(turn: &Turn<Running<D>>, pass: &mut Pass<Running<D>>, state: State<D>)
    requires own { IsPassOf turn.now pass.old }
    requires pending { IsPending (IsRunning (seen_by D.content D.reads D.writes D.faults)) pass.old state (pass_view pass.old) }
    ensures same { IsSamePass pass.old pass.new × IsOut pass.new }
    ensures view { pass_view pass.new ≡ pass_view pass.old }
{
    turn.leave::<Brand>(pass, state);
}

// Queues a buffer that was taken for a block, which the worker reads then, and leaves.
fn queue_read<D: Medium>(
    turn: &Turn<Running<D>>,
    pass: &mut Pass<Running<D>>,
    state: State<D>,
    buffer: u32,
)
    requires own { IsPassOf turn.now pass.old }
    requires room { length state.requests.waiting < state.requests.capacity }
    requires events { 2 < turn_events turn.now }
    requires pending { IsPending (IsRunning (seen_by D.content D.reads D.writes D.faults)) pass.old
        (record state { requests = record state.requests { waiting = state.requests.waiting ++ buffer ∷ [] } }) (pass_view pass.old) }
    ensures same { IsSamePass pass.old pass.new × IsOut pass.new }
    ensures view { pass_view pass.new ≡ pass_view pass.old }
{
    let asked = ask(turn, state, buffer);
    leave_same(turn, pass, asked);
}

// Looks for a buffer for a block that no buffer names, once. Where it is to look again the pass is inside; else it has left.
fn look<R: Wait, D: Medium>(
    rt: &R,
    turn: &Turn<Running<D>>,
    pass: &mut Pass<Running<D>>,
    mut state: State<D>,
    next: u32,
) -> Option<State<D>>
    requires own { IsPassOf turn.now pass.old }
    requires fit { IsFit (pass_view pass.old) }
    requires inside { next < (pass_view pass.old).opening.sizes.blocks }
    requires events { turn_events turn.now ≡ (pass_view pass.old).opening.buffers + 3 }
    requires pending { IsPending (IsRunning (seen_by D.content D.reads D.writes D.faults)) pass.old state (pass_view pass.old) }
    ensures same { IsSamePass pass.old pass.new }
    ensures again { IfSome result (λ s. (pass_view pass.new ≡ pass_view pass.old)
        × IsPending (IsRunning (seen_by D.content D.reads D.writes D.faults)) pass.new s (pass_view pass.old)) }
    ensures left { IfNone result (IsOut pass.new × MayFail (pass_view pass.old) (pass_view pass.new)) }
{
    if state.core.find(next).is_some() {
        leave_same(turn, pass, state);
        return None;
    }
    match state.core.attempt(next) {
        Scenario::Taken(buffer) => {
            queue_read(turn, pass, state, buffer);
            None
        }
        Scenario::Delayed(buffer) => match clear(rt, turn, pass, state, buffer) {
            Ok(cleared) => Some(cleared),
            Err(_) => None,
        },
        Scenario::Empty => {
            leave_same(turn, pass, state);
            None
        }
        Scenario::Hit(_) => unreachable!(),
        Scenario::Busy(_) => unreachable!(),
    }
}

// Has a block read by the worker, where no buffer names it and one can be had without waiting for it.
fn read_ahead<R: Wait, D: Medium>(
    rt: &R,
    turn: &Turn<Running<D>>,
    pass: &mut Pass<Running<D>>,
    next: u32,
)
    requires own { IsPassOf turn.now pass.old }
    requires away { IsOut pass.old }
    requires fit { IsFit (pass_view pass.old) }
    requires inside { next < (pass_view pass.old).opening.sizes.blocks }
    requires events { turn_events turn.now ≡ (pass_view pass.old).opening.buffers + 3 }
    ensures same { IsSamePass pass.old pass.new × IsOut pass.new }
    ensures view { MayFail (pass_view pass.old) (pass_view pass.new) }
{
    let mut state = turn.enter(rt, pass);
    for _ in rt.forever() {
        match look(rt, turn, pass, state, next) {
            Some(again) => {
                state = again;
            }
            None => {
                return;
            }
        }
    }
    unreachable!()
}

// Gets the buffer of a block and lends its bytes, and has a second block read ahead. That the read ahead failed is no failure of the call.
pub fn get_ahead<R: Wait, D: Medium>(
    rt: &R,
    turn: &Turn<Running<D>>,
    pass: &mut Pass<Running<D>>,
    block: u32,
    next: u32,
) -> Result<Buf, Refusal>
    requires own { IsPassOf turn.now pass.old }
    requires away { IsOut pass.old }
    requires fit { IsFit (pass_view pass.old) }
    requires inside { block < (pass_view pass.old).opening.sizes.blocks }
    requires next { next < (pass_view pass.old).opening.sizes.blocks }
    requires events { turn_events turn.now ≡ (pass_view pass.old).opening.buffers + 3 }
    ensures same { IsSamePass pass.old pass.new × IsOut pass.new }
    ensures view { IfOk result (λ buf. (k : ℕ) × MayFail (lent_view k block buf.bytes (calm_view (pass_view pass.old)))
        (pass_view pass.new)) }
    ensures gets { IfOk result (λ buf. (id : List ℕ) → Gets (record { id = id; sizes = (pass_view pass.old).opening.sizes })
        (held_of (pass_view pass.old).lines) block buf) }
    ensures err { IfErr result (λ e. (e ≡ Fault) × (pass_view pass.new ≡ failed_view (calm_view (pass_view pass.old)))) }
{
    match get(rt, turn, pass, block) {
        Ok(buf) => {
            read_ahead(rt, turn, pass, next);
            Ok(buf)
        }
        Err(refusal) => Err(refusal),
    }
}
