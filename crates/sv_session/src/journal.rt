// A journal that stands under a name, read and replayed.
ghost use Rattle.std.specs.Prelude.{◌≡◌, ◌≤◌, ◌⊎◌, length, take, IfOk, IfErr};
ghost use Rattle.sv_dev.specs.Causes.{Rose};
ghost use Rattle.sv_plain.specs.Fs.{begun};
ghost use Rattle.sv_plain.specs.History.{IsLegal, after};
ghost use Rattle.sv_plain.specs.Listing.{listing_text};
ghost use Rattle.sv_plain.specs.Whole.{IsWhole};
ghost use Rattle.sv_journal.specs.declared.journal_fault.JournalFault.TheVariants.{Line};
ghost use Rattle.sv_journal.specs.Reading.{IsJournalOf, IsNoJournal};
ghost use Rattle.sv_journal.specs.Replay.{IsFirstIllegal};
ghost use Rattle.sv_session.specs.Replay.{HasReplay, IsIllegalAt, IsRefusedOver, IsUnused, OnText, StopsReplay};

use crate::Stop;
use std::alloc::Global;
use std::fs::File;
use std::rt::Files;
use sv_dev::Host;
use sv_journal::{Journal, ReplayFault, TEXT_MAX, gather, read, replay};
use sv_plain::{Entry, Fs, begin, listing};

/// Reads the journal under a name, lets its processes begin on the tree, replays its entries, and gives the listing of
/// what they lead to.
pub fn journal_listing<R: Files<File = File>, H: Host>(
    rt: &R,
    alloc: Global,
    host: &mut H,
    name: &str,
    tree: Fs,
) -> Result<Vec<u8>, Stop>
    requires whole { IsWhole tree }
    requires unused { IsUnused tree }
    ensures listing { IfOk result (λ text. OnText (H.texts host.old) name.now (HasReplay tree (λ listing. text.items ≡ listing))) }
    ensures reason { IfErr result (StopsReplay (λ number place. ⊥) (λ line. OnText (H.texts host.old) name.now (IsRefusedOver tree line)) ⊥
        (Rose (H.faults host.old) (H.faults host.new) ⊎ Rose (H.source_faults host.old) (H.source_faults host.new)) ⊥) }
    ensures images { H.images host.new ≡ H.images host.old }
    ensures texts { H.texts host.new ≡ H.texts host.old }
    ensures disk_faults { H.disk_faults host.new ≡ H.disk_faults host.old }
{
    let journal = read_journal(rt, alloc, host, name)?;
    replayed_listing(alloc, tree, &journal)
}

// Reads the journal under a name.
fn read_journal<R: Files<File = File>, H: Host>(
    rt: &R,
    alloc: Global,
    host: &mut H,
    name: &str,
) -> Result<Journal, Stop>
    ensures read { IfOk result (λ j. OnText (H.texts host.old) name.now (λ text. IsJournalOf text j.processes j.table j.entries)) }
    ensures reason { IfErr result (StopsReplay (λ number place. ⊥) (λ line. OnText (H.texts host.old) name.now
        (λ text. IsNoJournal text (Line line))) ⊥
        (Rose (H.faults host.old) (H.faults host.new) ⊎ Rose (H.source_faults host.old) (H.source_faults host.new)) ⊥) }
    ensures images { H.images host.new ≡ H.images host.old }
    ensures texts { H.texts host.new ≡ H.texts host.old }
    ensures disk_faults { H.disk_faults host.new ≡ H.disk_faults host.old }
{
    let text = read_text(rt, alloc, host, name)?;
    let journal = read(alloc, &text)?;
    Ok(journal)
}

// The bytes of the text under a name, or one more than a journal has at most where they are more.
fn read_text<R: Files<File = File>, H: Host>(
    rt: &R,
    alloc: Global,
    host: &mut H,
    name: &str,
) -> Result<Vec<u8>, Stop>
    ensures text { IfOk result (λ bytes. OnText (H.texts host.old) name.now (λ text. bytes.items ≡ take 536870913 text)) }
    ensures reason { IfErr result (StopsReplay (λ number place. ⊥) (λ line. ⊥) ⊥
        (Rose (H.faults host.old) (H.faults host.new) ⊎ Rose (H.source_faults host.old) (H.source_faults host.new)) ⊥) }
    ensures images { H.images host.new ≡ H.images host.old }
    ensures texts { H.texts host.new ≡ H.texts host.old }
    ensures disk_faults { H.disk_faults host.new ≡ H.disk_faults host.old }
{
    let mut source = host.source(rt, alloc, name)?;
    let answer = gather(alloc, &mut source, TEXT_MAX);
    host.end_source(source);
    let text = answer?;
    Ok(text)
}

// The listing of what the journal's entries lead to from the tree.
fn replayed_listing(alloc: Global, tree: Fs, journal: &Journal) -> Result<Vec<u8>, Stop>
    requires whole { IsWhole tree }
    requires unused { IsUnused tree }
    requires some { 1 ≤ journal.now.table }
    requires few { length journal.now.entries ≤ 536870912 }
    ensures legal { IfOk result (λ text. IsLegal journal.now.entries (begun tree journal.now.processes journal.now.table)) }
    ensures listing { IfOk result (λ text. text.items ≡ listing_text (after journal.now.entries
        (begun tree journal.now.processes journal.now.table))) }
    ensures reason { IfErr result (StopsReplay (λ number place. ⊥) (IsIllegalAt journal.now.entries
        (begun tree journal.now.processes journal.now.table)) ⊥ ⊥ ⊥) }
{
    let mut fs = tree;
    begin(alloc, &mut fs, journal.processes, journal.table)?;
    let fs = replay_entries(alloc, fs, journal.entries.as_slice())?;
    let text = listing(alloc, &fs)?;
    Ok(text)
}

// What the entries lead to. The first of them stands on line 2.
fn replay_entries(alloc: Global, fs: Fs, entries: &[Entry]) -> Result<Fs, Stop>
    requires whole { IsWhole fs }
    requires few { length entries.now ≤ 536870912 }
    ensures legal { IfOk result (λ _. IsLegal entries.now fs) }
    ensures after { IfOk result (λ new. new ≡ after entries.now fs) }
    ensures reason { IfErr result (StopsReplay (λ number place. ⊥) (IsIllegalAt entries.now fs) ⊥ ⊥ ⊥) }
{
    match replay(alloc, fs, entries) {
        Ok(fs) => Ok(fs),
        Err(ReplayFault::Place(place)) => Err(Stop::JournalRefused { line: place + 2 }),
        Err(ReplayFault::NoMemory) => Err(Stop::NoMemory),
    }
}
