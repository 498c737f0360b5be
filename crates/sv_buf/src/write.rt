// How a block is written out of a buffer that was taken for it: the device is out meanwhile, and other passes have the turn (Bach,
// chapter 3.4, bwrite).
ghost use Rattle.std.specs.Prelude.{◌≡◌, ◌+◌, ◌*◌, ◌<◌, ◌≤◌, length, None, Some, OnOk, OnErr, IfErr, vec_len};
ghost use Rattle.sv_dev.specs.Causes.{HasCause};
ghost use Rattle.sv_dev.specs.Transfer.{IsTorn, overwritten};
ghost use Rattle.sv_form.specs.Geometry.{IsGeometry};
ghost use Rattle.sv_turn.specs.Passes.{pass_view, IsOut, IsPassOf, IsSamePass, turn_events};
ghost use Rattle.sv_cache.specs.Cache.{buffer_at, IsBusy};
ghost use Rattle.sv_cache.specs.Brelse.{after_release};
ghost use Rattle.sv_store.specs.Calls.{CanPut};
ghost use Rattle.sv_store.specs.declared.refusal.Refusal.TheVariants.{Fault};
ghost use Rattle.sv_buf.specs.View.{weight, held_of, lent_of};
ghost use Rattle.sv_buf.specs.Changes.{moving_view, device_view, calm_view, failed_view, written_view};
ghost use Rattle.sv_buf.specs.Delaying.{IsClean};
ghost use Rattle.sv_buf.specs.Serving.{MayCount};
ghost use Rattle.sv_buf.specs.Running.{IsRunning, IsFit, seen_by};
ghost use Rattle.sv_buf.specs.Pending.{IsPending};

use crate::delay::delay;
use crate::event::{ANY_BUFFER, DEVICE, FIRST_BUFFER};
use crate::leave::{leave_with, leave_with_device, sleep_with};
use crate::medium::Medium;
use crate::rule::Running;
use crate::state::State;
use crate::view::View;
use std::marker::Brand;
use std::sync::Wait;
use sv_cache::Release;
use sv_dev::Failed;
use sv_store::{Buf, Refusal};
use sv_turn::{NewView, Pass, Turn};

// Comes in, waits until the device is at home, and takes it out.
pub fn fetch<R: Wait, D: Medium>(rt: &R, turn: &Turn<Running<D>>, pass: &mut Pass<Running<D>>) -> D
    requires own { IsPassOf turn.now pass.old }
    requires away { IsOut pass.old }
    requires events { 1 < turn_events turn.now }
    requires some { 0 < weight (pass_view pass.old) }
    requires home { (pass_view pass.old).device ≡ None }
    ensures same { IsSamePass pass.old pass.new × IsOut pass.new }
    ensures view { pass_view pass.new ≡ device_view (seen_by D.content D.reads D.writes D.faults result) (pass_view pass.old) }
    ensures whole { length (D.content result) ≡ (pass_view pass.old).opening.sizes.blocks * (pass_view pass.old).opening.sizes.block_size }
{
    let mut state = turn.enter(rt, pass);
    for _ in rt.forever() {
        match state.core.take_device() {
            Some(disk) => {
                leave_with_device::<Brand, D>(turn, pass, state, &disk, 0, 0);
                return disk;
            }
            None => {
                state = sleep_with::<Brand, R, D>(rt, turn, pass, state, DEVICE, 0, 0);
            }
        }
    }
    unreachable!()
}

// Writes a block.
pub fn write_block<D: Medium>(disk: &mut D, block: u32, bytes: &[u8]) -> Result<(), Failed>
    requires size { length bytes.now ≡ 1024 }
    requires inside { block * 1024 + 1024 ≤ length (D.content disk.old) }
    ensures written { OnOk result (D.content disk.new ≡ overwritten (D.content disk.old) (block * 1024) bytes.now) }
    ensures nothing_else { OnOk result (D.faults disk.new ≡ D.faults disk.old) }
    ensures torn { OnErr result (IsTorn (D.content disk.old) (block * 1024) 1024 (D.content disk.new)) }
    ensures cause { HasCause (D.faults disk.old) (D.faults disk.new) result }
{
    disk.write(u64::from(block) * 1024, bytes)
}

// Gives the buffer of a transfer back, after which the device is at home, and wakes who waits for either.
pub fn give_home<N: NewView<View>, D: Medium>(
    turn: &Turn<Running<D>>,
    pass: &mut Pass<Running<D>>,
    mut state: State<D>,
    buffer: u32,
    bytes: Vec<u8>,
    how: Release,
)
    requires own { IsPassOf turn.now pass.old }
    requires busy { IsBusy state.core buffer }
    requires out { (buffer_at state.core buffer).bytes ≡ None }
    requires size { vec_len bytes ≡ state.core.geometry.block_size }
    requires few { buffer < 65536 }
    requires events { buffer + 3 < turn_events turn.now }
    requires weight { weight (N.next (pass_view pass.old)) ≡ weight (pass_view pass.old) }
    requires pending { IsPending (IsRunning (seen_by D.content D.reads D.writes D.faults)) pass.old
        (record state { core = after_release state.core buffer bytes.items how }) (N.next (pass_view pass.old)) }
    ensures same { IsSamePass pass.old pass.new × IsOut pass.new }
    ensures view { pass_view pass.new ≡ N.next (pass_view pass.old) }
{
    state.core.give_back(buffer, bytes, how);
    turn.leave::<N>(pass, state);
    turn.wake(DEVICE);
    turn.wake(ANY_BUFFER);
    turn.wake(FIRST_BUFFER + buffer);
}

// Writes a buffer that is in transfer with the device that is out, and brings both home. The buffer is clean then, or after a failure
// marked and still to be written. Whether the pass counts the failure is for the caller to say.
pub fn bring_home<N: NewView<View>, R: Wait, D: Medium>(
    rt: &R,
    turn: &Turn<Running<D>>,
    pass: &mut Pass<Running<D>>,
    mut disk: D,
    buffer: u32,
    block: u32,
    bytes: Vec<u8>,
    clean: Release,
) -> Result<(), Refusal>
    requires own { IsPassOf turn.now pass.old }
    requires away { IsOut pass.old }
    requires size { vec_len bytes ≡ 1024 }
    requires some { 0 < weight (pass_view pass.old) }
    requires sizes { IsGeometry (pass_view pass.old).opening.sizes }
    requires inside { block < (pass_view pass.old).opening.sizes.blocks }
    requires events { turn_events turn.now ≡ (pass_view pass.old).opening.buffers + 3 }
    requires whole { length (D.content disk) ≡ (pass_view pass.old).opening.sizes.blocks * (pass_view pass.old).opening.sizes.block_size }
    requires out { pass_view pass.old ≡ device_view (seen_by D.content D.reads D.writes D.faults disk)
        (moving_view buffer block (Some bytes.items) (calm_view (pass_view pass.old))) }
    requires clean { IsClean clean }
    requires counts { MayCount (pass_view pass.old) (N.next (pass_view pass.old)) }
    ensures same { IsSamePass pass.old pass.new × IsOut pass.new }
    ensures ok { OnOk result (pass_view pass.new ≡ calm_view (pass_view pass.old)) }
    ensures err { IfErr result (λ e. (e ≡ Fault) × (pass_view pass.new ≡ N.next (pass_view pass.old))) }
{
    let wrote = write_block(&mut disk, block, bytes.as_slice());
    let mut state = turn.enter(rt, pass);
    state.core.put_device(disk);
    match wrote {
        Ok(()) => {
            give_home::<Brand, D>(turn, pass, state, buffer, bytes, clean);
            Ok(())
        }
        Err(_) => {
            give_home::<N, D>(turn, pass, state, buffer, bytes, Release::FailedWrite);
            Err(Refusal::Fault)
        }
    }
}

// Does the same, and the pass counts a failure.
pub fn write_home<R: Wait, D: Medium>(
    rt: &R,
    turn: &Turn<Running<D>>,
    pass: &mut Pass<Running<D>>,
    disk: D,
    buffer: u32,
    block: u32,
    bytes: Vec<u8>,
    clean: Release,
) -> Result<(), Refusal>
    requires own { IsPassOf turn.now pass.old }
    requires away { IsOut pass.old }
    requires size { vec_len bytes ≡ 1024 }
    requires some { 0 < weight (pass_view pass.old) }
    requires sizes { IsGeometry (pass_view pass.old).opening.sizes }
    requires inside { block < (pass_view pass.old).opening.sizes.blocks }
    requires events { turn_events turn.now ≡ (pass_view pass.old).opening.buffers + 3 }
    requires whole { length (D.content disk) ≡ (pass_view pass.old).opening.sizes.blocks * (pass_view pass.old).opening.sizes.block_size }
    requires out { pass_view pass.old ≡ device_view (seen_by D.content D.reads D.writes D.faults disk)
        (moving_view buffer block (Some bytes.items) (calm_view (pass_view pass.old))) }
    requires clean { IsClean clean }
    ensures same { IsSamePass pass.old pass.new × IsOut pass.new }
    ensures ok { OnOk result (pass_view pass.new ≡ calm_view (pass_view pass.old)) }
    ensures err { IfErr result (λ e. (e ≡ Fault) × (pass_view pass.new ≡ failed_view (calm_view (pass_view pass.old)))) }
{
    bring_home::<Brand, R, D>(rt, turn, pass, disk, buffer, block, bytes, clean)
}

// Takes a block back with new bytes, and its buffer for a transfer at once.
fn take_written<R: Wait, D: Medium>(
    rt: &R,
    turn: &Turn<Running<D>>,
    pass: &mut Pass<Running<D>>,
    buf: Buf,
) -> (u32, Vec<u8>)
    requires own { IsPassOf turn.now pass.old }
    requires away { IsOut pass.old }
    requires calm { (pass_view pass.old).moving ≡ None }
    requires some { 0 < weight (pass_view pass.old) }
    requires put { CanPut (held_of (pass_view pass.old).lines) (lent_of (pass_view pass.old).loans) buf }
    ensures same { IsSamePass pass.old pass.new × IsOut pass.new }
    ensures view { pass_view pass.new ≡ moving_view result.0 buf.block (Some buf.bytes) (written_view buf.block buf.bytes
        (pass_view pass.old)) }
    ensures bytes { result.1.items ≡ buf.bytes }
    ensures size { length buf.bytes ≡ (pass_view pass.old).opening.sizes.block_size }
    ensures inside { buf.block < (pass_view pass.old).opening.sizes.blocks }
{
    let block = buf.block();
    let mut state = turn.enter(rt, pass);
    let buffer = state.core.find(block).unwrap();
    let bytes = delay(&mut state.core, buffer, block, buf.into_bytes());
    leave_with::<Brand, D>(turn, pass, state, buffer, block, bytes.as_slice());
    (buffer, bytes)
}

// Takes a block back with new bytes, and writes it at once. After a failure it is still to be written.
pub fn put_now<R: Wait, D: Medium>(
    rt: &R,
    turn: &Turn<Running<D>>,
    pass: &mut Pass<Running<D>>,
    buf: Buf,
) -> Result<(), Refusal>
    requires own { IsPassOf turn.now pass.old }
    requires away { IsOut pass.old }
    requires fit { IsFit (pass_view pass.old) }
    requires events { turn_events turn.now ≡ (pass_view pass.old).opening.buffers + 3 }
    requires put { CanPut (held_of (pass_view pass.old).lines) (lent_of (pass_view pass.old).loans) buf }
    ensures same { IsSamePass pass.old pass.new × IsOut pass.new }
    ensures ok { OnOk result (pass_view pass.new ≡ written_view buf.block buf.bytes (pass_view pass.old)) }
    ensures err { IfErr result (λ e. (e ≡ Fault) × (pass_view pass.new ≡ failed_view (written_view buf.block buf.bytes
        (pass_view pass.old)))) }
    ensures size { length buf.bytes ≡ (pass_view pass.old).opening.sizes.block_size }
{
    let block = buf.block();
    let (buffer, bytes) = take_written(rt, turn, pass, buf);
    let disk = fetch(rt, turn, pass);
    write_home(rt, turn, pass, disk, buffer, block, bytes, Release::Valid)
}
