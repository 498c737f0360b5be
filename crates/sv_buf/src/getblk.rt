// How the buffer of a block is taken (Bach, chapter 3.3, getblk).
ghost use Rattle.std.specs.Prelude.{◌≡◌, ◌+◌, ◌++◌, ◌∷◌, [], ◌<◌, length, true, false, None, Some, OnOk, IfOk, IfErr, vec_len};
ghost use Rattle.sv_turn.specs.Passes.{pass_view, IsOut, IsPassOf, IsSamePass, turn_events};
ghost use Rattle.sv_cache.specs.Cache.{buffer_at};
ghost use Rattle.sv_store.specs.declared.refusal.Refusal.TheVariants.{Fault};
ghost use Rattle.sv_buf.specs.Changes.{calm_view, failed_view, moving_view};
ghost use Rattle.sv_buf.specs.Running.{IsRunning, IsFit, seen_by};
ghost use Rattle.sv_buf.specs.Pending.{IsPending};

use crate::clear::clear;
use crate::event::{ANY_BUFFER, FIRST_BUFFER};
use crate::leave::sleep_with;
use crate::medium::Medium;
use crate::rule::Running;
use crate::state::State;
use std::marker::Brand;
use std::sync::Wait;
use sv_cache::Scenario;
use sv_store::Refusal;
use sv_turn::{Pass, Turn};

// Takes the buffer of a block, with its bytes: those of the block where the buffer is valid, and else any. Where it has to wait it sleeps,
// and looks again; the pass is inside then. A buffer that it met may have to be written here; where this fails the call ends.
pub fn getblk<R: Wait, D: Medium>(
    rt: &R,
    turn: &Turn<Running<D>>,
    pass: &mut Pass<Running<D>>,
    block: u32,
) -> Result<(State<D>, u32, Vec<u8>), Refusal>
    requires own { IsPassOf turn.now pass.old }
    requires away { IsOut pass.old }
    requires fit { IsFit (pass_view pass.old) }
    requires inside { block < (pass_view pass.old).opening.sizes.blocks }
    requires events { turn_events turn.now ≡ (pass_view pass.old).opening.buffers + 3 }
    ensures same { IsSamePass pass.old pass.new }
    ensures view { OnOk result (pass_view pass.new ≡ pass_view pass.old) }
    ensures size { IfOk result (λ r. vec_len r.2 ≡ 1024) }
    ensures found { IfOk result (λ r. r.1 < length r.0.core.buffers) }
    ensures valid { IfOk result (λ r. (buffer_at r.0.core r.1).valid ≡ true
        → IsPending (IsRunning (seen_by D.content D.reads D.writes D.faults)) pass.new r.0
        (moving_view r.1 block (Some r.2.items) (calm_view (pass_view pass.new)))) }
    ensures invalid { IfOk result (λ r. (buffer_at r.0.core r.1).valid ≡ false
        → IsPending (IsRunning (seen_by D.content D.reads D.writes D.faults)) pass.new r.0
        (moving_view r.1 block None (pass_view pass.new))) }
    ensures err { IfErr result (λ e. (e ≡ Fault) × IsOut pass.new × (pass_view pass.new ≡ failed_view (calm_view (pass_view pass.old)))) }
{
    let mut state = turn.enter(rt, pass);
    for _ in rt.forever() {
        match state.core.attempt(block) {
            Scenario::Hit(buffer) => {
                let bytes = state.core.lend(buffer);
                return Ok((state, buffer, bytes));
            }
            Scenario::Taken(buffer) => {
                let bytes = state.core.lend(buffer);
                return Ok((state, buffer, bytes));
            }
            Scenario::Delayed(buffer) => match clear(rt, turn, pass, state, buffer) {
                Ok(cleared) => {
                    state = cleared;
                }
                Err(refusal) => {
                    return Err(refusal);
                }
            },
            Scenario::Empty => {
                state = sleep_with::<Brand, R, D>(rt, turn, pass, state, ANY_BUFFER, 0, block);
            }
            Scenario::Busy(buffer) => {
                let event = FIRST_BUFFER + buffer;
                state = sleep_with::<Brand, R, D>(rt, turn, pass, state, event, buffer, block);
            }
        }
    }
    unreachable!()
}
