// How a block is read and lent (Bach, chapter 3.4, bread).
ghost use Rattle.std.specs.Prelude.{◌≡◌, ◌+◌, ◌<◌, ℕ, List, length, true, false, None, Some, IfOk, IfErr, vec_len};
ghost use Rattle.sv_turn.specs.Passes.{pass_view, IsOut, IsPassOf, IsSamePass, turn_events};
ghost use Rattle.sv_cache.specs.Cache.{buffer_at};
ghost use Rattle.sv_store.specs.Calls.{Gets};
ghost use Rattle.sv_store.specs.declared.refusal.Refusal.TheVariants.{Fault};
ghost use Rattle.sv_buf.specs.View.{weight, held_of};
ghost use Rattle.sv_buf.specs.Changes.{calm_view, moving_view, lent_view, failed_view};
ghost use Rattle.sv_buf.specs.Running.{IsRunning, IsFit, seen_by};
ghost use Rattle.sv_buf.specs.Pending.{IsPending};

use crate::event::{ANY_BUFFER, DEVICE, FIRST_BUFFER};
use crate::getblk::getblk;
use crate::leave::leave_with;
use crate::medium::Medium;
use crate::read::{fetch_device, read_block};
use crate::rule::Running;
use crate::state::State;
use std::marker::Brand;
use std::sync::Wait;
use sv_cache::Release;
use sv_store::{Buf, Refusal};
use sv_turn::{Pass, Turn};

// Lends the bytes of a buffer that was taken, and are those of its block.
fn lend_out<D: Medium>(
    turn: &Turn<Running<D>>,
    pass: &mut Pass<Running<D>>,
    state: State<D>,
    buffer: u32,
    block: u32,
    bytes: Vec<u8>,
) -> Buf
    requires own { IsPassOf turn.now pass.old }
    requires some { 0 < weight (pass_view pass.old) }
    requires taken { IsPending (IsRunning (seen_by D.content D.reads D.writes D.faults)) pass.old state
        (moving_view buffer block (Some bytes.items) (calm_view (pass_view pass.old))) }
    ensures same { IsSamePass pass.old pass.new × IsOut pass.new }
    ensures view { pass_view pass.new ≡ lent_view buffer block result.bytes (calm_view (pass_view pass.old)) }
    ensures gets { (id : List ℕ) → Gets (record { id = id; sizes = (pass_view pass.old).opening.sizes })
        (held_of (pass_view pass.old).lines) block result }
{
    leave_with::<Brand, D>(turn, pass, state, buffer, block, bytes.as_slice());
    Buf::new(block, bytes)
}

// Gives a buffer back whose block could not be read.
fn give_unread<D: Medium>(
    turn: &Turn<Running<D>>,
    pass: &mut Pass<Running<D>>,
    mut state: State<D>,
    buffer: u32,
    block: u32,
    bytes: Vec<u8>,
)
    requires own { IsPassOf turn.now pass.old }
    requires size { vec_len bytes ≡ 1024 }
    requires events { turn_events turn.now ≡ (pass_view pass.old).opening.buffers + 3 }
    requires some { 0 < weight (pass_view pass.old) }
    requires taken { IsPending (IsRunning (seen_by D.content D.reads D.writes D.faults)) pass.old state
        (moving_view buffer block None (failed_view (calm_view (pass_view pass.old)))) }
    ensures same { IsSamePass pass.old pass.new × IsOut pass.new }
    ensures view { pass_view pass.new ≡ failed_view (calm_view (pass_view pass.old)) }
{
    state.core.give_back(buffer, bytes, Release::Invalid);
    leave_with::<Brand, D>(turn, pass, state, buffer, block, &[]);
    turn.wake(ANY_BUFFER);
    turn.wake(FIRST_BUFFER + buffer);
}

// Reads the block into a buffer that was taken for it, and lends it.
fn read_in<R: Wait, D: Medium>(
    rt: &R,
    turn: &Turn<Running<D>>,
    pass: &mut Pass<Running<D>>,
    state: State<D>,
    buffer: u32,
    block: u32,
    mut bytes: Vec<u8>,
) -> Result<Buf, Refusal>
    requires own { IsPassOf turn.now pass.old }
    requires size { vec_len bytes ≡ 1024 }
    requires fit { IsFit (pass_view pass.old) }
    requires inside { block < (pass_view pass.old).opening.sizes.blocks }
    requires events { turn_events turn.now ≡ (pass_view pass.old).opening.buffers + 3 }
    requires taken { IsPending (IsRunning (seen_by D.content D.reads D.writes D.faults)) pass.old state
        (moving_view buffer block None (pass_view pass.old)) }
    ensures same { IsSamePass pass.old pass.new × IsOut pass.new }
    ensures view { IfOk result (λ buf. pass_view pass.new ≡ lent_view buffer block buf.bytes (calm_view (pass_view pass.old))) }
    ensures gets { IfOk result (λ buf. (id : List ℕ) → Gets (record { id = id; sizes = (pass_view pass.old).opening.sizes })
        (held_of (pass_view pass.old).lines) block buf) }
    ensures err { IfErr result (λ e. (e ≡ Fault) × (pass_view pass.new ≡ failed_view (calm_view (pass_view pass.old)))) }
{
    let mut disk = fetch_device(rt, turn, pass, state, buffer, block);
    let read = read_block(&mut disk, block, &mut bytes);
    let mut state = turn.enter(rt, pass);
    state.core.put_device(disk);
    turn.wake(DEVICE);
    match read {
        Ok(()) => Ok(lend_out(turn, pass, state, buffer, block, bytes)),
        Err(_) => {
            give_unread(turn, pass, state, buffer, block, bytes);
            Err(Refusal::Fault)
        }
    }
}

// Lends a buffer that was found by its block: as it is where it is valid, and else it is read.
fn lend_or_read<R: Wait, D: Medium>(
    rt: &R,
    turn: &Turn<Running<D>>,
    pass: &mut Pass<Running<D>>,
    state: State<D>,
    buffer: u32,
    block: u32,
    bytes: Vec<u8>,
) -> Result<Buf, Refusal>
    requires own { IsPassOf turn.now pass.old }
    requires size { vec_len bytes ≡ 1024 }
    requires fit { IsFit (pass_view pass.old) }
    requires inside { block < (pass_view pass.old).opening.sizes.blocks }
    requires events { turn_events turn.now ≡ (pass_view pass.old).opening.buffers + 3 }
    requires found { buffer < length state.core.buffers }
    requires valid { (buffer_at state.core buffer).valid ≡ true → IsPending (IsRunning (seen_by D.content D.reads D.writes D.faults))
        pass.old state (moving_view buffer block (Some bytes.items) (calm_view (pass_view pass.old))) }
    requires invalid { (buffer_at state.core buffer).valid ≡ false → IsPending (IsRunning (seen_by D.content D.reads D.writes D.faults))
        pass.old state (moving_view buffer block None (pass_view pass.old)) }
    ensures same { IsSamePass pass.old pass.new × IsOut pass.new }
    ensures view { IfOk result (λ buf. pass_view pass.new ≡ lent_view buffer block buf.bytes (calm_view (pass_view pass.old))) }
    ensures gets { IfOk result (λ buf. (id : List ℕ) → Gets (record { id = id; sizes = (pass_view pass.old).opening.sizes })
        (held_of (pass_view pass.old).lines) block buf) }
    ensures err { IfErr result (λ e. (e ≡ Fault) × (pass_view pass.new ≡ failed_view (calm_view (pass_view pass.old)))) }
{
    if state.core.is_valid(buffer) {
        return Ok(lend_out(turn, pass, state, buffer, block, bytes));
    }
    read_in(rt, turn, pass, state, buffer, block, bytes)
}

// Gets the buffer of a block and lends its bytes.
pub fn get<R: Wait, D: Medium>(
    rt: &R,
    turn: &Turn<Running<D>>,
    pass: &mut Pass<Running<D>>,
    block: u32,
) -> Result<Buf, Refusal>
    requires own { IsPassOf turn.now pass.old }
    requires away { IsOut pass.old }
    requires fit { IsFit (pass_view pass.old) }
    requires inside { block < (pass_view pass.old).opening.sizes.blocks }
    requires events { turn_events turn.now ≡ (pass_view pass.old).opening.buffers + 3 }
    ensures same { IsSamePass pass.old pass.new × IsOut pass.new }
    ensures view { IfOk result (λ buf. (k : ℕ) × (pass_view pass.new ≡ lent_view k block buf.bytes (calm_view (pass_view pass.old)))) }
    ensures gets { IfOk result (λ buf. (id : List ℕ) → Gets (record { id = id; sizes = (pass_view pass.old).opening.sizes })
        (held_of (pass_view pass.old).lines) block buf) }
    ensures err { IfErr result (λ e. (e ≡ Fault) × (pass_view pass.new ≡ failed_view (calm_view (pass_view pass.old)))) }
{
    match getblk(rt, turn, pass, block) {
        Ok((state, buffer, bytes)) => lend_or_read(rt, turn, pass, state, buffer, block, bytes),
        Err(refusal) => Err(refusal),
    }
}
