// The end of a cache: what is still to be written is written, and the device comes back.
ghost use Rattle.std.specs.Prelude.{◌≡◌, ◌+◌, ◌<◌, ℕ, List, [], ◌∷◌, ◌++◌, length, is_err, nat_lt};
ghost use Rattle.std.specs.List.{All};
ghost use Rattle.sv_links.specs.Arrangement.{one_if};
ghost use Rattle.sv_turn.specs.Passes.{pass_view, IsOut, IsPassOf, first_view};
ghost use Rattle.sv_buf.specs.View.{View, held_of};
ghost use Rattle.sv_buf.specs.Running.{IsRunning, seen_by};
ghost use Rattle.sv_buf.specs.Closing.{IsQuiet, IsBack, IsWritten, IsClosed, SameShape, AreAllLines};
ghost use Rattle.sv_buf.specs.Closing.{lines_held, faults_counted, workers_counted};

use crate::cache::{Cache, CachePass};
use crate::medium::Medium;
use crate::rule::Running;
use crate::state::State;
use crate::take::take_out;
use crate::write::write_block;
use std::marker::Brand;
use sv_cache::{CacheCore, Release};
use sv_dev::Failed;
use sv_turn::{Pass, Turn};

// Writes a buffer, where it is still to be written. After a failure it still is.
fn write_back<D: Medium>(core: &mut CacheCore<D>, disk: &mut D, buffer: u32) -> Result<(), Failed>
    requires so { (current : ℕ → List ℕ) × (before : ℕ) × (failed : List ℕ)
        × IsWritten core.old current (seen_by D.content D.reads D.writes D.faults disk.old) before failed buffer }
    requires inside { buffer < length core.old.buffers }
    ensures step { (current : ℕ → List ℕ) (before : ℕ) (failed : List ℕ)
        → IsWritten core.old current (seen_by D.content D.reads D.writes D.faults disk.old) before failed buffer
        → (more : List ℕ) × (length more ≡ one_if (is_err result))
        × IsWritten core.new current (seen_by D.content D.reads D.writes D.faults disk.new) before (more ++ failed) (buffer + 1) }
    ensures shape { SameShape core.old core.new }
{
    if !core.is_delayed(buffer) {
        return Ok(());
    }
    let Some(block) = core.block_of(buffer) else {
        return Ok(());
    };
    let bytes = take_out(core, buffer, block);
    match write_block(disk, block, bytes.as_slice()) {
        Ok(()) => {
            core.give_back(buffer, bytes, Release::Old);
            Ok(())
        }
        Err(refusal) => {
            core.give_back(buffer, bytes, Release::FailedWrite);
            Err(refusal)
        }
    }
}

// Writes each buffer that is still to be written, once, in ascending number.
fn write_all<D: Medium>(core: &mut CacheCore<D>, disk: &mut D, buffers: u32) -> Result<(), Failed>
    requires so { (current : ℕ → List ℕ) × (before : ℕ)
        × IsWritten core.old current (seen_by D.content D.reads D.writes D.faults disk.old) before [] 0 }
    requires count { buffers ≡ length core.old.buffers }
    ensures all { (current : ℕ → List ℕ) (before : ℕ)
        → IsWritten core.old current (seen_by D.content D.reads D.writes D.faults disk.old) before [] 0
        → (failed : List ℕ) × (is_err result ≡ nat_lt 0 (length failed))
        × IsWritten core.new current (seen_by D.content D.reads D.writes D.faults disk.new) before failed buffers }
    ensures shape { SameShape core.old core.new }
{
    let mut failed = false;
    for buffer in 0..buffers {
        failed |= write_back(core, disk, buffer).is_err();
    }
    if failed { Err(Failed) } else { Ok(()) }
}

// Writes what is still to be written once no pass is left, and gives the device back.
fn finish<D: Medium>(mut state: State<D>, buffers: u32) -> (D, Result<(), Failed>)
    requires so { (v : View) × IsRunning (seen_by D.content D.reads D.writes D.faults) state (v ∷ []) × IsQuiet v.opening v }
    requires count { buffers ≡ length state.core.buffers }
    ensures { (v : View) → IsRunning (seen_by D.content D.reads D.writes D.faults) state (v ∷ []) → IsQuiet v.opening v
        → (failed : List ℕ) × (is_err result.1 ≡ nat_lt 0 (length failed))
        × IsClosed v.opening (held_of v.lines) v.faults failed (seen_by D.content D.reads D.writes D.faults result.0) }
{
    let mut disk = state.core.take_device().unwrap();
    let written = write_all(&mut state.core, &mut disk, buffers);
    state.core.put_device(disk);
    (state.into_disk(), written)
}

// Puts all passes together.
fn join_all<D: Medium>(turn: &Turn<Running<D>>, passes: Vec<CachePass<D>>) -> Pass<Running<D>>
    requires back { All (IsBack turn.now) passes.items }
    requires some { 0 < length passes.items }
    ensures own { IsPassOf turn.now result × IsOut result }
    ensures quiet { IsQuiet (first_view turn.now).opening (pass_view result) }
    ensures lines { (pass_view result).lines ≡ lines_held passes.items }
    ensures faults { (pass_view result).faults ≡ faults_counted passes.items }
    ensures workers { (pass_view result).workers ≡ workers_counted passes.items }
{
    let mut passes = passes;
    let mut whole = passes.pop().unwrap();
    let count = passes.len();
    for _pass in 0..count {
        let Some(pass) = passes.pop() else {
            unreachable!()
        };
        turn.join::<Brand>(&mut whole, pass);
    }
    passes.destroy_empty();
    whole
}

impl<D: Medium> Cache<D> {
    /// Ends the cache: takes all passes back, writes each buffer that is still to be written, once, and gives the device. With Ok it has
    /// the lines that the passes hold. An error comes only where a write of this call has failed; the device has all lines then but
    /// those of the blocks whose writes have failed.
    pub fn close(self, passes: Vec<CachePass<D>>) -> (D, Result<(), Failed>)
        requires back { All (IsBack self.turn) passes.items }
        requires lines { AreAllLines (first_view self.turn).opening.sizes (lines_held passes.items) }
        requires worker { workers_counted passes.items ≡ 1 }
        ensures { (failed : List ℕ) × (is_err result.1 ≡ nat_lt 0 (length failed))
            × IsClosed (first_view self.turn).opening (held_of (lines_held passes.items)) (faults_counted passes.items) failed
            (seen_by D.content D.reads D.writes D.faults result.0) }
    {
        let Cache {
            turn,
            sizes: _,
            buffers,
        } = self;
        let pass = join_all(&turn, passes);
        finish(turn.close(pass), buffers)
    }
}
