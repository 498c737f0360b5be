// How a block is lent that is filled with zeros.
ghost use Rattle.std.specs.Prelude.{◌≡◌, ◌+◌, ◌<◌, ℕ, length, replicate, true, false, None, Some, IfOk, IfErr, vec_len};
ghost use Rattle.sv_turn.specs.Passes.{pass_view, IsOut, IsPassOf, IsSamePass, turn_events};
ghost use Rattle.sv_cache.specs.Cache.{buffer_at};
ghost use Rattle.sv_store.specs.declared.refusal.Refusal.TheVariants.{Fault};
ghost use Rattle.sv_buf.specs.Changes.{calm_view, failed_view, moving_view, lent_view, filled_view};
ghost use Rattle.sv_buf.specs.Delaying.{NotesBlock};
ghost use Rattle.sv_buf.specs.Running.{IsRunning, IsFit, seen_by};
ghost use Rattle.sv_buf.specs.Pending.{IsPending};

use crate::delay::delay;
use crate::getblk::getblk;
use crate::leave::leave_with;
use crate::medium::Medium;
use crate::rule::Running;
use crate::state::State;
use std::marker::Brand;
use std::sync::Wait;
use sv_store::{Buf, Refusal};
use sv_turn::{Pass, Turn};

// As many zero bytes, in the same place.
fn cleared(mut bytes: Vec<u8>) -> Vec<u8>
    ensures { result.items ≡ replicate (length bytes.items) 0 }
{
    bytes.as_mut_slice().fill(0);
    bytes
}

// Lends a buffer that was taken for a block with zeros, which are the bytes of the block from then on.
fn lend_zeros<D: Medium>(
    turn: &Turn<Running<D>>,
    pass: &mut Pass<Running<D>>,
    mut state: State<D>,
    buffer: u32,
    block: u32,
    bytes: Vec<u8>,
) -> Buf
    requires own { IsPassOf turn.now pass.old }
    requires size { vec_len bytes ≡ 1024 }
    requires fit { IsFit (pass_view pass.old) }
    requires whole { NotesBlock (pass_view pass.old) block }
    requires valid { (buffer_at state.core buffer).valid ≡ true → IsPending (IsRunning (seen_by D.content D.reads D.writes D.faults))
        pass.old state (moving_view buffer block (Some bytes.items) (calm_view (pass_view pass.old))) }
    requires invalid { (buffer_at state.core buffer).valid ≡ false → IsPending (IsRunning (seen_by D.content D.reads D.writes D.faults))
        pass.old state (moving_view buffer block None (pass_view pass.old)) }
    ensures same { IsSamePass pass.old pass.new × IsOut pass.new }
    ensures view { pass_view pass.new ≡ lent_view buffer block result.bytes (filled_view block result.bytes
        (calm_view (pass_view pass.old))) }
    ensures block { result.block ≡ block }
    ensures zeros { result.bytes ≡ replicate 1024 0 }
{
    let zeros = delay(&mut state.core, buffer, block, cleared(bytes));
    leave_with::<Brand, D>(turn, pass, state, buffer, block, zeros.as_slice());
    Buf::new(block, zeros)
}

// Gets the buffer of a block of which all lines are held, and lends it with zeros. The block is not read.
pub fn get_zeros<R: Wait, D: Medium>(
    rt: &R,
    turn: &Turn<Running<D>>,
    pass: &mut Pass<Running<D>>,
    block: u32,
) -> Result<Buf, Refusal>
    requires own { IsPassOf turn.now pass.old }
    requires away { IsOut pass.old }
    requires fit { IsFit (pass_view pass.old) }
    requires inside { block < (pass_view pass.old).opening.sizes.blocks }
    requires events { turn_events turn.now ≡ (pass_view pass.old).opening.buffers + 3 }
    requires whole { NotesBlock (pass_view pass.old) block }
    ensures same { IsSamePass pass.old pass.new × IsOut pass.new }
    ensures view { IfOk result (λ buf. (k : ℕ) × (pass_view pass.new ≡ lent_view k block buf.bytes (filled_view block buf.bytes
        (calm_view (pass_view pass.old))))) }
    ensures block { IfOk result (λ buf. buf.block ≡ block) }
    ensures zeros { IfOk result (λ buf. buf.bytes ≡ replicate 1024 0) }
    ensures err { IfErr result (λ e. (e ≡ Fault) × (pass_view pass.new ≡ failed_view (calm_view (pass_view pass.old)))) }
{
    match getblk(rt, turn, pass, block) {
        Ok((state, buffer, bytes)) => Ok(lend_zeros(turn, pass, state, buffer, block, bytes)),
        Err(refusal) => Err(refusal),
    }
}
