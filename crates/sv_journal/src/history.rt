// A history, replayed.
ghost use Rattle.std.specs.Prelude.{◌≡◌, ◌<◌, ◌^◌, IfOk, IfErr, OnOk, length};
ghost use Rattle.sv_plain.specs.History.{IsAllowed, IsLegal, after};
ghost use Rattle.sv_plain.specs.Step.{change_of};
ghost use Rattle.sv_plain.specs.Whole.{IsWhole};
ghost use Rattle.sv_journal.specs.Replay.{IsRefusedAt, IsRefusedHere};

use crate::ReplayFault;
use std::alloc::Global;
use sv_plain::{Entry, Fs, Illegal, apply};

/// Takes a file system through a history, entry by entry, or says which entry is the first that could not have happened.
/// The file system is whole, and so is what comes out. Each entry costs what its step touches.
pub fn replay(alloc: Global, fs: Fs, entries: &[Entry]) -> Result<Fs, ReplayFault>
    requires whole { IsWhole fs }
    requires few { length entries.now < 2 ^ 32 }
    ensures legal { IfOk result (λ _. IsLegal entries.now fs) }
    ensures after { IfOk result (λ new. new ≡ after entries.now fs) }
    ensures whole { IfOk result IsWhole }
    ensures refused { IfErr result (IsRefusedAt entries.now fs) }
{
    let mut fs = fs;
    for i in 0..entries.len() {
        take(alloc, &mut fs, &entries[i], i as u32)?;
    }
    Ok(fs)
}

// Takes one step, that of the entry at place i.
fn take(alloc: Global, fs: &mut Fs, entry: &Entry, i: u32) -> Result<(), ReplayFault>
    requires { IsWhole fs.old }
    ensures allowed { OnOk result (IsAllowed fs.old entry.now) }
    ensures after { OnOk result (fs.new ≡ change_of fs.old entry.now.process entry.now.op entry.now.reply) }
    ensures whole { IsWhole fs.new }
    ensures refused { IfErr result (IsRefusedHere fs.old entry.now i) }
{
    match apply(alloc, fs, entry.process, &entry.op, &entry.reply) {
        Ok(()) => Ok(()),
        Err(Illegal::NoMemory) => Err(ReplayFault::NoMemory),
        Err(Illegal::Condition) => Err(ReplayFault::Place(i)),
        Err(Illegal::Reply) => Err(ReplayFault::Place(i)),
    }
}
