// How a block is read into a buffer that was taken for it: the device is out meanwhile, and other passes have the turn (Bach,
// chapter 3.4, bread).
ghost use Rattle.std.specs.Prelude.{◌≡◌, ◌+◌, ◌*◌, ◌<◌, ◌≤◌, length, slice_range, None, Some, OnOk, IfOk, IfErr, vec_len};
ghost use Rattle.sv_dev.specs.Causes.{HasCause};
ghost use Rattle.sv_form.specs.Geometry.{IsGeometry};
ghost use Rattle.sv_turn.specs.Passes.{pass_view, IsOut, IsPassOf, IsSamePass, turn_events};
ghost use Rattle.sv_store.specs.declared.refusal.Refusal.TheVariants.{Fault};
ghost use Rattle.sv_buf.specs.View.{weight};
ghost use Rattle.sv_buf.specs.Changes.{moving_view, device_view};
ghost use Rattle.sv_buf.specs.Running.{IsRunning, seen_by};
ghost use Rattle.sv_buf.specs.Pending.{IsPending};

use crate::event::DEVICE;
use crate::leave::{leave_with_device, sleep_with};
use crate::medium::Medium;
use crate::rule::Running;
use crate::state::State;
use std::marker::Brand;
use std::sync::Wait;
use sv_dev::Failed;
use sv_turn::{Pass, Turn};

// Sleeps until the device may be at home. The buffer that is to be read stays busy.
fn wait_for_device<R: Wait, D: Medium>(
    rt: &R,
    turn: &Turn<Running<D>>,
    pass: &mut Pass<Running<D>>,
    state: State<D>,
    buffer: u32,
    block: u32,
) -> State<D>
    requires own { IsPassOf turn.now pass.old }
    requires events { 1 < turn_events turn.now }
    requires pending { IsPending (IsRunning (seen_by D.content D.reads D.writes D.faults)) pass.old state
        (moving_view buffer block None (pass_view pass.old)) }
    ensures same { IsSamePass pass.old pass.new }
    ensures view { pass_view pass.new ≡ moving_view buffer block None (pass_view pass.old) }
    ensures pending { IsPending (IsRunning (seen_by D.content D.reads D.writes D.faults)) pass.new result (pass_view pass.new) }
{
    sleep_with::<Brand, R, D>(rt, turn, pass, state, DEVICE, buffer, block)
}

// Takes the device out once it is at home, and gives the turn on.
pub fn fetch_device<R: Wait, D: Medium>(
    rt: &R,
    turn: &Turn<Running<D>>,
    pass: &mut Pass<Running<D>>,
    mut state: State<D>,
    buffer: u32,
    block: u32,
) -> D
    requires own { IsPassOf turn.now pass.old }
    requires events { 1 < turn_events turn.now }
    requires some { 0 < weight (pass_view pass.old) }
    requires home { (pass_view pass.old).device ≡ None }
    requires pending { IsPending (IsRunning (seen_by D.content D.reads D.writes D.faults)) pass.old state
        (moving_view buffer block None (pass_view pass.old)) }
    ensures same { IsSamePass pass.old pass.new × IsOut pass.new }
    ensures view { pass_view pass.new ≡ device_view (seen_by D.content D.reads D.writes D.faults result)
        (moving_view buffer block None (pass_view pass.old)) }
    ensures whole { length (D.content result) ≡ (pass_view pass.old).opening.sizes.blocks * (pass_view pass.old).opening.sizes.block_size }
{
    for _ in rt.forever() {
        match state.core.take_device() {
            Some(disk) => {
                leave_with_device::<Brand, D>(turn, pass, state, &disk, buffer, block);
                return disk;
            }
            None => {
                state = wait_for_device(rt, turn, pass, state, buffer, block);
            }
        }
    }
    unreachable!()
}

// Reads a block into a vector of its size.
pub fn read_block<D: Medium>(disk: &mut D, block: u32, bytes: &mut Vec<u8>) -> Result<(), Failed>
    requires size { vec_len bytes.old ≡ 1024 }
    requires inside { block * 1024 + 1024 ≤ length (D.content disk.old) }
    ensures read { OnOk result (bytes.new.items ≡ slice_range (D.content disk.old) (block * 1024) (block * 1024 + 1024)) }
    ensures size { vec_len bytes.new ≡ 1024 }
    ensures content { D.content disk.new ≡ D.content disk.old }
    ensures cause { HasCause (D.faults disk.old) (D.faults disk.new) result }
{
    disk.read(u64::from(block) * 1024, bytes.as_mut_slice())
}
