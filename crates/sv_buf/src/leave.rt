// How a pass leaves, or sleeps, with a view that its call names. The new view may be named by a buffer, its block, some bytes, or the
// device: these stand here for the proof alone.
ghost use Rattle.std.specs.Prelude.{◌≡◌, ◌<◌};
ghost use Rattle.sv_turn.specs.Passes.{pass_view, IsOut, IsPassOf, IsSamePass, MayLeave, turn_events};
ghost use Rattle.sv_buf.specs.View.{weight};
ghost use Rattle.sv_buf.specs.Running.{IsRunning, seen_by};
ghost use Rattle.sv_buf.specs.Pending.{IsPending};

use crate::medium::Medium;
use crate::rule::Running;
use crate::state::State;
use crate::view::View;
use std::sync::Wait;
use sv_turn::{NewView, Pass, Turn};

// Leaves as `Turn::leave` does.
pub fn leave_with<N: NewView<View>, D: Medium>(
    turn: &Turn<Running<D>>,
    pass: &mut Pass<Running<D>>,
    state: State<D>,
    buffer: u32,
    block: u32,
    bytes: &[u8],
)
    requires own { IsPassOf turn.now pass.old }
    requires weight { weight (N.next (pass_view pass.old)) ≡ weight (pass_view pass.old) }
    requires rule { MayLeave (IsRunning (seen_by D.content D.reads D.writes D.faults)) pass.old state (N.next (pass_view pass.old)) }
    ensures same { IsSamePass pass.old pass.new }
    ensures away { IsOut pass.new }
    ensures view { pass_view pass.new ≡ N.next (pass_view pass.old) }
{
    turn.leave::<N>(pass, state);
}

// Leaves as `Turn::leave` does, with the device.
pub fn leave_with_device<N: NewView<View>, D: Medium>(
    turn: &Turn<Running<D>>,
    pass: &mut Pass<Running<D>>,
    state: State<D>,
    disk: &D,
    buffer: u32,
    block: u32,
)
    requires own { IsPassOf turn.now pass.old }
    requires weight { weight (N.next (pass_view pass.old)) ≡ weight (pass_view pass.old) }
    requires rule { MayLeave (IsRunning (seen_by D.content D.reads D.writes D.faults)) pass.old state (N.next (pass_view pass.old)) }
    ensures same { IsSamePass pass.old pass.new }
    ensures away { IsOut pass.new }
    ensures view { pass_view pass.new ≡ N.next (pass_view pass.old) }
{
    turn.leave::<N>(pass, state);
}

// Sleeps as `Turn::sleep_on` does.
pub fn sleep_with<N: NewView<View>, R: Wait, D: Medium>(
    rt: &R,
    turn: &Turn<Running<D>>,
    pass: &mut Pass<Running<D>>,
    state: State<D>,
    event: u32,
    buffer: u32,
    block: u32,
) -> State<D>
    requires own { IsPassOf turn.now pass.old }
    requires event { event < turn_events turn.now }
    requires weight { weight (N.next (pass_view pass.old)) ≡ weight (pass_view pass.old) }
    requires rule { MayLeave (IsRunning (seen_by D.content D.reads D.writes D.faults)) pass.old state (N.next (pass_view pass.old)) }
    ensures same { IsSamePass pass.old pass.new }
    ensures view { pass_view pass.new ≡ N.next (pass_view pass.old) }
    ensures pending { IsPending (IsRunning (seen_by D.content D.reads D.writes D.faults)) pass.new result (pass_view pass.new) }
{
    turn.sleep_on::<N, R>(rt, pass, state, event)
}
