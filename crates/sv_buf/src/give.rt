// How a lent block comes back (Bach, chapter 3.3, brelse).
ghost use Rattle.std.specs.Prelude.{◌≡◌, ◌+◌, ◌<◌, Some, None, length, if◌then◌else◌};
ghost use Rattle.sv_turn.specs.Passes.{pass_view, IsOut, IsPassOf, IsSamePass, turn_events};
ghost use Rattle.sv_cache.specs.Cache.{is_delayed};
ghost use Rattle.sv_cache.specs.declared.scenario.Release.TheVariants.{Valid, Delayed};
ghost use Rattle.sv_store.specs.Calls.{CanPut};
ghost use Rattle.sv_buf.specs.View.{weight, held_of, lent_of};
ghost use Rattle.sv_buf.specs.Changes.{back_view, put_view};

use crate::event::{ANY_BUFFER, FIRST_BUFFER};
use crate::leave::leave_with;
use crate::medium::Medium;
use crate::rule::Running;
use std::marker::Brand;
use std::sync::Wait;
use sv_cache::{CacheCore, Release};
use sv_store::Buf;
use sv_turn::{Pass, Turn};

// A release that leaves a buffer still to be written where it was so.
fn as_it_was<D>(core: &CacheCore<D>, buffer: u32) -> Release
    requires { buffer < length core.now.buffers }
    ensures { result ≡ (if is_delayed core.now buffer then Delayed else Valid) }
{
    if core.is_delayed(buffer) {
        Release::Delayed
    } else {
        Release::Valid
    }
}

// Takes a block back as it was lent.
pub fn take_back<R: Wait, D: Medium>(
    rt: &R,
    turn: &Turn<Running<D>>,
    pass: &mut Pass<Running<D>>,
    buf: Buf,
)
    requires own { IsPassOf turn.now pass.old }
    requires away { IsOut pass.old }
    requires calm { (pass_view pass.old).moving ≡ None }
    requires some { 0 < weight (pass_view pass.old) }
    requires events { turn_events turn.now ≡ (pass_view pass.old).opening.buffers + 3 }
    requires lent { lent_of (pass_view pass.old).loans buf.block ≡ Some buf.bytes }
    ensures same { IsSamePass pass.old pass.new × IsOut pass.new }
    ensures view { pass_view pass.new ≡ back_view buf.block (pass_view pass.old) }
{
    let block = buf.block();
    let mut state = turn.enter(rt, pass);
    let buffer = state.core.find(block).unwrap();
    let how = as_it_was(&state.core, buffer);
    state.core.give_back(buffer, buf.into_bytes(), how);
    leave_with::<Brand, D>(turn, pass, state, buffer, block, &[]);
    turn.wake(ANY_BUFFER);
    turn.wake(FIRST_BUFFER + buffer);
}

// Takes a block back with new bytes, which are still to be written.
pub fn take_put<R: Wait, D: Medium>(
    rt: &R,
    turn: &Turn<Running<D>>,
    pass: &mut Pass<Running<D>>,
    buf: Buf,
)
    requires own { IsPassOf turn.now pass.old }
    requires away { IsOut pass.old }
    requires calm { (pass_view pass.old).moving ≡ None }
    requires some { 0 < weight (pass_view pass.old) }
    requires events { turn_events turn.now ≡ (pass_view pass.old).opening.buffers + 3 }
    requires put { CanPut (held_of (pass_view pass.old).lines) (lent_of (pass_view pass.old).loans) buf }
    ensures same { IsSamePass pass.old pass.new × IsOut pass.new }
    ensures view { pass_view pass.new ≡ put_view buf.block buf.bytes (pass_view pass.old) }
    ensures size { length buf.bytes ≡ (pass_view pass.old).opening.sizes.block_size }
{
    let block = buf.block();
    let mut state = turn.enter(rt, pass);
    let buffer = state.core.find(block).unwrap();
    state
        .core
        .give_back(buffer, buf.into_bytes(), Release::Delayed);
    leave_with::<Brand, D>(turn, pass, state, buffer, block, &[]);
    turn.wake(ANY_BUFFER);
    turn.wake(FIRST_BUFFER + buffer);
}
