// The worker: a thread that runs the transfers which others asked for and do not wait for (Bach, chapter 3.4: asynchronous writes and
// reads).
ghost use Rattle.std.specs.Prelude.{◌≡◌, ◌+◌, ◌*◌, ◌<◌, length, true, false, None, Some, IfSome, IfNone, OnOk, OnErr, if◌then◌else◌};
ghost use Rattle.std.specs.Prelude.{vec_len};
ghost use Rattle.sv_turn.specs.Passes.{pass_view, IsOut, IsPassOf, IsSamePass, first_view, turn_events};
ghost use Rattle.sv_cache.specs.Cache.{buffer_at, is_delayed};
ghost use Rattle.sv_cache.specs.declared.scenario.Release.TheVariants.{Valid, Invalid, Delayed};
ghost use Rattle.sv_buf.specs.Changes.{moving_view, device_view, calm_view};
ghost use Rattle.sv_buf.specs.Running.{IsRunning, seen_by};
ghost use Rattle.sv_buf.specs.Pending.{IsPending};
ghost use Rattle.sv_buf.specs.Resting.{IsResting};
ghost use Rattle.sv_buf.specs.Serving.{queued_again, IsRead};

use crate::cache::{Cache, CachePass};
use crate::event::{ANY_BUFFER, FIRST_BUFFER, WORKER};
use crate::leave::{leave_with, sleep_with};
use crate::medium::Medium;
use crate::read::{fetch_device, read_block};
use crate::rule::Running;
use crate::state::State;
use crate::write::{bring_home, fetch, give_home};
use std::marker::Brand;
use std::sync::Wait;
use sv_cache::{CacheCore, Release};
use sv_dev::Failed;
use sv_turn::{Pass, Turn};

// Waits for a request, and takes it off the queue. With None there is none left, and the worker is to stop.
fn next_request<R: Wait, D: Medium>(
    rt: &R,
    turn: &Turn<Running<D>>,
    pass: &mut Pass<Running<D>>,
) -> Option<(State<D>, u32)>
    requires own { IsPassOf turn.now pass.old }
    requires away { IsOut pass.old }
    requires events { 2 < turn_events turn.now }
    ensures same { IsSamePass pass.old pass.new × (pass_view pass.new ≡ pass_view pass.old) }
    ensures queued { IfSome result (λ r. IsPending (IsRunning (seen_by D.content D.reads D.writes D.faults)) pass.new
        (queued_again r.0 r.1) (pass_view pass.new)) }
    ensures out { IfNone result (IsOut pass.new) }
{
    let mut state = turn.enter(rt, pass);
    for _ in rt.forever() {
        match state.requests.pop() {
            Some(buffer) => return Some((state, buffer)),
            None => {
                if state.stopping {
                    turn.leave::<Brand>(pass, state);
                    return None;
                }
                state = sleep_with::<Brand, R, D>(rt, turn, pass, state, WORKER, 0, 0);
            }
        }
    }
    unreachable!()
}

// A release that leaves it as it was whether the bytes of a buffer are its block's, and whether they are still to be written.
fn as_before<D>(core: &CacheCore<D>, buffer: u32) -> Release
    requires inside { buffer < length core.now.buffers }
    ensures { result ≡ (if is_delayed core.now buffer then Delayed else if (buffer_at core.now buffer).valid then Valid else Invalid) }
{
    if core.is_delayed(buffer) {
        return Release::Delayed;
    }
    if core.is_valid(buffer) {
        return Release::Valid;
    }
    Release::Invalid
}

// Gives back a buffer that was queued and needs no transfer.
fn put_back<D: Medium>(
    turn: &Turn<Running<D>>,
    pass: &mut Pass<Running<D>>,
    mut state: State<D>,
    buffer: u32,
)
    requires own { IsPassOf turn.now pass.old }
    requires resting { IsResting (pass_view pass.old) }
    requires events { turn_events turn.now ≡ (pass_view pass.old).opening.buffers + 3 }
    requires queued { IsPending (IsRunning (seen_by D.content D.reads D.writes D.faults)) pass.old (queued_again state buffer)
        (pass_view pass.old) }
    requires valid { IsRead state.core buffer }
    ensures same { IsSamePass pass.old pass.new × IsOut pass.new }
    ensures view { pass_view pass.new ≡ pass_view pass.old }
{
    let how = as_before(&state.core, buffer);
    let bytes = state.core.lend(buffer);
    state.core.give_back(buffer, bytes, how);
    turn.leave::<Brand>(pass, state);
    turn.wake(ANY_BUFFER);
    turn.wake(FIRST_BUFFER + buffer);
}

// Writes a buffer that was queued. After a failure it is marked, and still to be written; nobody waits to hear of it.
fn write_queued<R: Wait, D: Medium>(
    rt: &R,
    turn: &Turn<Running<D>>,
    pass: &mut Pass<Running<D>>,
    mut state: State<D>,
    buffer: u32,
    block: u32,
)
    requires own { IsPassOf turn.now pass.old }
    requires resting { IsResting (pass_view pass.old) }
    requires events { turn_events turn.now ≡ (pass_view pass.old).opening.buffers + 3 }
    requires queued { IsPending (IsRunning (seen_by D.content D.reads D.writes D.faults)) pass.old (queued_again state buffer)
        (pass_view pass.old) }
    requires delayed { is_delayed state.core buffer ≡ true }
    requires named { (buffer_at state.core buffer).block ≡ Some block }
    requires inside { block < (pass_view pass.old).opening.sizes.blocks }
    ensures same { IsSamePass pass.old pass.new × IsOut pass.new }
    ensures view { pass_view pass.new ≡ pass_view pass.old }
{
    let bytes = state.core.lend(buffer);
    leave_with::<Brand, D>(turn, pass, state, buffer, block, bytes.as_slice());
    let disk = fetch(rt, turn, pass);
    let _ = bring_home::<Brand, R, D>(rt, turn, pass, disk, buffer, block, bytes, Release::Old);
}

// How a buffer is given back for which its block was read.
fn after_read(read: &Result<(), Failed>) -> Release
    ensures valid { OnOk read.now (result ≡ Valid) }
    ensures invalid { OnErr read.now (result ≡ Invalid) }
{
    match read {
        Ok(()) => Release::Valid,
        Err(_) => Release::Invalid,
    }
}

// Reads the block of a buffer that is in transfer with the device that is out, and brings both home.
fn read_home<R: Wait, D: Medium>(
    rt: &R,
    turn: &Turn<Running<D>>,
    pass: &mut Pass<Running<D>>,
    mut disk: D,
    buffer: u32,
    block: u32,
    mut bytes: Vec<u8>,
)
    requires own { IsPassOf turn.now pass.old }
    requires away { IsOut pass.old }
    requires size { vec_len bytes ≡ 1024 }
    requires resting { IsResting (calm_view (pass_view pass.old)) }
    requires inside { block < (pass_view pass.old).opening.sizes.blocks }
    requires events { turn_events turn.now ≡ (pass_view pass.old).opening.buffers + 3 }
    requires whole { length (D.content disk) ≡ (pass_view pass.old).opening.sizes.blocks * (pass_view pass.old).opening.sizes.block_size }
    requires out { pass_view pass.old ≡ device_view (seen_by D.content D.reads D.writes D.faults disk)
        (moving_view buffer block None (calm_view (pass_view pass.old))) }
    ensures same { IsSamePass pass.old pass.new × IsOut pass.new }
    ensures view { pass_view pass.new ≡ calm_view (pass_view pass.old) }
{
    let read = read_block(&mut disk, block, &mut bytes);
    let how = after_read(&read);
    let mut state = turn.enter(rt, pass);
    state.core.put_device(disk);
    give_home::<Brand, D>(turn, pass, state, buffer, bytes, how);
}

// Reads the block of a buffer that was queued. Nobody waits to hear of a failure.
fn read_queued<R: Wait, D: Medium>(
    rt: &R,
    turn: &Turn<Running<D>>,
    pass: &mut Pass<Running<D>>,
    mut state: State<D>,
    buffer: u32,
    block: u32,
)
    requires own { IsPassOf turn.now pass.old }
    requires resting { IsResting (pass_view pass.old) }
    requires events { turn_events turn.now ≡ (pass_view pass.old).opening.buffers + 3 }
    requires queued { IsPending (IsRunning (seen_by D.content D.reads D.writes D.faults)) pass.old (queued_again state buffer)
        (pass_view pass.old) }
    requires invalid { (buffer_at state.core buffer).valid ≡ false }
    requires named { (buffer_at state.core buffer).block ≡ Some block }
    requires inside { block < (pass_view pass.old).opening.sizes.blocks }
    ensures same { IsSamePass pass.old pass.new × IsOut pass.new }
    ensures view { pass_view pass.new ≡ pass_view pass.old }
{
    let bytes = state.core.lend(buffer);
    let disk = fetch_device(rt, turn, pass, state, buffer, block);
    read_home(rt, turn, pass, disk, buffer, block, bytes);
}

// Runs a request: writes the buffer where it is still to be written, and reads its block where it was not read.
fn run_request<R: Wait, D: Medium>(
    rt: &R,
    turn: &Turn<Running<D>>,
    pass: &mut Pass<Running<D>>,
    state: State<D>,
    buffer: u32,
)
    requires own { IsPassOf turn.now pass.old }
    requires resting { IsResting (pass_view pass.old) }
    requires events { turn_events turn.now ≡ (pass_view pass.old).opening.buffers + 3 }
    requires queued { IsPending (IsRunning (seen_by D.content D.reads D.writes D.faults)) pass.old (queued_again state buffer)
        (pass_view pass.old) }
    ensures same { IsSamePass pass.old pass.new × IsOut pass.new }
    ensures view { pass_view pass.new ≡ pass_view pass.old }
{
    let Some(block) = state.core.block_of(buffer) else {
        put_back(turn, pass, state, buffer);
        return;
    };
    if state.core.is_delayed(buffer) {
        write_queued(rt, turn, pass, state, buffer, block);
        return;
    }
    if state.core.is_valid(buffer) {
        put_back(turn, pass, state, buffer);
        return;
    }
    read_queued(rt, turn, pass, state, buffer, block);
}

// Runs requests until there is none left and the worker is to stop.
fn serve<R: Wait, D: Medium>(rt: &R, turn: &Turn<Running<D>>, pass: &mut Pass<Running<D>>)
    requires own { IsPassOf turn.now pass.old }
    requires away { IsOut pass.old }
    requires resting { IsResting (pass_view pass.old) }
    requires events { turn_events turn.now ≡ (pass_view pass.old).opening.buffers + 3 }
    ensures same { IsSamePass pass.old pass.new × IsOut pass.new }
    ensures view { pass_view pass.new ≡ pass_view pass.old }
{
    for _ in rt.forever() {
        match next_request(rt, turn, pass) {
            Some((state, buffer)) => run_request(rt, turn, pass, state, buffer),
            None => return,
        }
    }
    unreachable!()
}

impl<D: Medium> Cache<D> {
    /// Runs requests with the worker's pass, and gives the pass back after `stop` once none is left. A transfer that fails here is told to
    /// nobody: the pass is as it was.
    pub fn worker<R: Wait>(&self, rt: &R, pass: CachePass<D>) -> CachePass<D>
        requires own { IsPassOf self.now.turn pass }
        requires away { IsOut pass }
        requires resting { IsResting (pass_view pass) }
        requires opened { (pass_view pass).opening ≡ (first_view self.now.turn).opening }
        requires worker { (pass_view pass).workers ≡ 1 }
        ensures same { IsSamePass pass result × IsOut result }
        ensures view { pass_view result ≡ pass_view pass }
    {
        let mut pass = pass;
        serve(rt, &self.turn, &mut pass);
        pass
    }

    /// Lets the worker stop once no request is left.
    pub fn stop<R: Wait>(&self, rt: &R, pass: &mut CachePass<D>)
        requires own { IsPassOf self.now.turn pass.old }
        requires away { IsOut pass.old }
        ensures same { IsSamePass pass.old pass.new × IsOut pass.new }
        ensures view { pass_view pass.new ≡ pass_view pass.old }
    {
        let mut state = self.turn.enter(rt, pass);
        state.stopping = true;
        self.turn.leave::<Brand>(pass, state);
        self.turn.wake(WORKER);
    }
}
