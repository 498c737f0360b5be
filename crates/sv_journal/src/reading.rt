// A whole journal, read.
ghost use Rattle.std.specs.Prelude.{◌≡◌, ◌<◌, ◌^◌, Some, length, IfOk, IfErr};
ghost use Rattle.sv_journal.specs.Grammar.{entry, head};
ghost use Rattle.sv_journal.specs.OneReading.{IsReadOneWay, IsReadOrRefused, IsRefusedOneWay};
ghost use Rattle.sv_journal.specs.Reading.{IsJournalOf, IsNoJournal, StopsAt};

use crate::JournalFault;
use crate::read_line::{entry, head};
use crate::refusal::Refusal;
use std::alloc::Global;
use sv_plain::{Entries, Entry};

/// The most bytes of a journal.
pub const TEXT_MAX: usize = 536870912;

/// A history, with the number of its processes and of the places of their table of in-core inodes.
#[derive(Drop)]
pub struct Journal {
    pub processes: u8,
    pub table: u32,
    pub entries: Entries,
}

/// Reads a journal whole, or answers the first line that is none of a journal. Each byte is looked at a few times.
pub fn read(alloc: Global, text: &[u8]) -> Result<Journal, JournalFault>
    ensures read { IfOk result (λ j. IsJournalOf text.now j.processes j.table j.entries) }
    ensures few { IfOk result (λ j. length j.entries < 2 ^ 32) }
    ensures refused { IfErr result (IsNoJournal text.now) }
{
    if text.len() > TEXT_MAX {
        return Err(JournalFault::Line(0));
    }
    let mut rest = text;
    let (processes, table) = first_line(&mut rest)?;
    let mut entries = Vec::new(alloc);
    while !rest.is_empty() {
        let line = entries.len() as u32 + 2;
        let entry = next_entry(alloc, &mut rest, processes, line)?;
        let Ok(()) = entries.push(entry) else {
            return Err(JournalFault::NoMemory);
        };
    }
    Ok(Journal {
        processes,
        table,
        entries: Entries::from_vec(entries),
    })
}

/// Memory aside, a text is a journal in one way, or refused at one line.
pub fn texts_have_one_reading()
    ensures read { IsReadOneWay }
    ensures refused { IsRefusedOneWay }
    ensures apart { IsReadOrRefused }
{}

fn first_line(rest: &mut &[u8]) -> Result<(u8, u32), JournalFault>
    ensures read { IfOk result (λ s. head rest.old.now ≡ Some ((s.0, s.1), rest.new.now)) }
    ensures stopped { IfErr result (StopsAt 1 (head rest.old.now)) }
{
    match head(rest) {
        Ok(sizes) => Ok(sizes),
        Err(Refusal::Grammar) => Err(JournalFault::Line(1)),
        Err(Refusal::NoMemory) => Err(JournalFault::NoMemory),
    }
}

// The entry on the line of this number.
fn next_entry(
    alloc: Global,
    rest: &mut &[u8],
    processes: u8,
    line: u32,
) -> Result<Entry, JournalFault>
    ensures read { IfOk result (λ e. entry processes rest.old.now ≡ Some (e, rest.new.now)) }
    ensures stopped { IfErr result (StopsAt line (entry processes rest.old.now)) }
{
    match entry(alloc, rest, processes) {
        Ok(entry) => Ok(entry),
        Err(Refusal::Grammar) => Err(JournalFault::Line(line)),
        Err(Refusal::NoMemory) => Err(JournalFault::NoMemory),
    }
}
