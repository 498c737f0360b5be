// What is still to be written is written while the cache runs (Bach, chapter 3.4: a delayed write, which sync asks for).
ghost use Rattle.std.specs.Prelude.{◌≡◌, ◌+◌, ◌<◌, ℕ, length, true, None, Some, IfSome, IfNone, OnOk, IfErr, vec_len};
ghost use Rattle.sv_turn.specs.Passes.{pass_view, IsOut, IsPassOf, IsSamePass, first_view, turn_events};
ghost use Rattle.sv_cache.specs.Cache.{buffer_at, is_delayed, IsFree};
ghost use Rattle.sv_store.specs.declared.refusal.Refusal.TheVariants.{Fault};
ghost use Rattle.sv_buf.specs.Changes.{moving_view, failed_view, forced_view, flushed_view};
ghost use Rattle.sv_buf.specs.Resting.{IsResting};

use crate::cache::{Cache, CachePass};
use crate::leave::leave_with;
use crate::medium::Medium;
use crate::rule::Running;
use crate::take::take_out;
use crate::write::{fetch, write_home};
use std::marker::Brand;
use std::sync::Wait;
use sv_cache::{CacheCore, Release};
use sv_dev::Failed;
use sv_store::Refusal;
use sv_turn::{Pass, Turn};

// The block of a buffer that is free and still to be written.
fn unwritten_block<D>(core: &CacheCore<D>, buffer: u32) -> Option<u32>
    requires inside { buffer < length core.now.buffers }
    ensures free { IfSome result (λ b. IsFree core.now buffer) }
    ensures delayed { IfSome result (λ b. is_delayed core.now buffer ≡ true) }
    ensures named { IfSome result (λ b. (buffer_at core.now buffer).block ≡ Some b) }
    ensures none { IfNone result (IsFree core.now buffer → is_delayed core.now buffer ≡ true → (buffer_at core.now buffer).block ≡ None) }
{
    if !core.is_free(buffer) {
        return None;
    }
    if !core.is_delayed(buffer) {
        return None;
    }
    core.block_of(buffer)
}

// Takes a buffer for a write, with its block and bytes, where it is free and still to be written.
fn take_unwritten<R: Wait, D: Medium>(
    rt: &R,
    turn: &Turn<Running<D>>,
    pass: &mut Pass<Running<D>>,
    buffer: u32,
) -> Option<(u32, Vec<u8>)>
    requires own { IsPassOf turn.now pass.old }
    requires away { IsOut pass.old }
    requires resting { IsResting (pass_view pass.old) }
    requires inside { buffer < (pass_view pass.old).opening.buffers }
    ensures same { IsSamePass pass.old pass.new × IsOut pass.new }
    ensures none { IfNone result (pass_view pass.new ≡ forced_view (pass_view pass.old)) }
    ensures taken { IfSome result (λ r. pass_view pass.new ≡ moving_view buffer r.0 (Some r.1.items) (forced_view (pass_view pass.old))) }
    ensures size { IfSome result (λ r. vec_len r.1 ≡ 1024) }
    ensures block { IfSome result (λ r. r.0 < (pass_view pass.old).opening.sizes.blocks) }
{
    let mut state = turn.enter(rt, pass);
    let Some(block) = unwritten_block(&state.core, buffer) else {
        turn.leave::<Brand>(pass, state);
        return None;
    };
    let bytes = take_out(&mut state.core, buffer, block);
    leave_with::<Brand, D>(turn, pass, state, buffer, block, bytes.as_slice());
    Some((block, bytes))
}

// Writes a buffer, where it is free and still to be written.
fn flush_one<R: Wait, D: Medium>(
    rt: &R,
    turn: &Turn<Running<D>>,
    pass: &mut Pass<Running<D>>,
    buffer: u32,
) -> Result<(), Refusal>
    requires own { IsPassOf turn.now pass.old }
    requires away { IsOut pass.old }
    requires resting { IsResting (pass_view pass.old) }
    requires inside { buffer < (pass_view pass.old).opening.buffers }
    requires events { turn_events turn.now ≡ (pass_view pass.old).opening.buffers + 3 }
    ensures same { IsSamePass pass.old pass.new × IsOut pass.new }
    ensures ok { OnOk result (pass_view pass.new ≡ forced_view (pass_view pass.old)) }
    ensures err { IfErr result (λ e. (e ≡ Fault) × (pass_view pass.new ≡ failed_view (forced_view (pass_view pass.old)))) }
{
    let Some((block, bytes)) = take_unwritten(rt, turn, pass, buffer) else {
        return Ok(());
    };
    let disk = fetch(rt, turn, pass);
    write_home(rt, turn, pass, disk, buffer, block, bytes, Release::Valid)
}

// Goes once through the buffers in ascending number, and writes each that is free and still to be written. It goes on after a failure.
pub fn flush_all<R: Wait, D: Medium>(
    rt: &R,
    turn: &Turn<Running<D>>,
    pass: &mut Pass<Running<D>>,
    buffers: u32,
) -> Result<(), Refusal>
    requires own { IsPassOf turn.now pass.old }
    requires away { IsOut pass.old }
    requires resting { IsResting (pass_view pass.old) }
    requires count { (pass_view pass.old).opening.buffers ≡ buffers }
    requires some { 0 < buffers }
    requires events { turn_events turn.now ≡ (pass_view pass.old).opening.buffers + 3 }
    ensures same { IsSamePass pass.old pass.new × IsOut pass.new }
    ensures ok { OnOk result (pass_view pass.new ≡ forced_view (pass_view pass.old)) }
    ensures err { IfErr result (λ e. (e ≡ Fault)
        × ((n : ℕ) × (0 < n) × (pass_view pass.new ≡ flushed_view n (pass_view pass.old)))) }
{
    let mut failed = false;
    for buffer in 0..buffers {
        failed |= flush_one(rt, turn, pass, buffer).is_err();
    }
    if failed { Err(Refusal::Fault) } else { Ok(()) }
}

impl<D: Medium> Cache<D> {
    /// Looks at each buffer once, in ascending number, and writes it where it is free and still to be written. It goes on after a failure.
    /// An error comes only where a transfer of this call failed; the pass counts it then.
    pub fn flush_all<R: Wait>(&self, rt: &R, pass: &mut CachePass<D>) -> Result<(), Failed>
        requires own { IsPassOf self.now.turn pass.old }
        requires away { IsOut pass.old }
        requires resting { IsResting (pass_view pass.old) }
        requires opened { (pass_view pass.old).opening ≡ (first_view self.now.turn).opening }
        ensures same { IsSamePass pass.old pass.new × IsOut pass.new }
        ensures ok { OnOk result (pass_view pass.new ≡ forced_view (pass_view pass.old)) }
        ensures err { IfErr result (λ e. (n : ℕ) × (0 < n) × (pass_view pass.new ≡ flushed_view n (pass_view pass.old))) }
    {
        match flush_all(rt, &self.turn, pass, self.buffers) {
            Ok(()) => Ok(()),
            Err(_) => Err(Failed),
        }
    }
}
