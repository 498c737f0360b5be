// A journal to a sink.
ghost use Rattle.std.specs.Prelude.{◌≡◌, ◌≤◌, IfErr, OnOk, OnErr, All};
ghost use Rattle.sv_dev.specs.Causes.{Rose};
ghost use Rattle.sv_dev.specs.Told.{grown, AppendsFront};
ghost use Rattle.sv_journal.specs.Allowed.{AreSizes, IsJournalEntry};
ghost use Rattle.sv_journal.specs.Cause.{HasCauseOf};
ghost use Rattle.sv_journal.specs.Spelling.{entry_line, head_line, journal_text};

use crate::{WriteFault, line};
use std::alloc::Global;
use sv_dev::Sink;
use sv_plain::Entry;

/// Appends the journal of 1 to 16 processes over a table of 2 to 400 in-core inodes. Each line is made and written by
/// itself. After an error some front of the text was appended.
pub fn write<O: Sink>(
    alloc: Global,
    entries: &[Entry],
    processes: u8,
    table: u32,
    out: &mut O,
) -> Result<(), WriteFault>
    requires sizes { AreSizes processes table }
    requires allowed { All (IsJournalEntry processes) entries.now }
    ensures ok { OnOk result (O.written out.new ≡ grown (O.written out.old) (journal_text processes table entries.now)) }
    ensures err { OnErr result (AppendsFront (O.written out.old) (O.written out.new) (journal_text processes table entries.now)) }
    ensures cause { IfErr result (HasCauseOf (Rose (O.faults out.old) (O.faults out.new))) }
    ensures no_less { O.faults out.old ≤ O.faults out.new }
{
    write_head(alloc, processes, table, out)?;
    for entry in entries {
        write_entry(alloc, entry, out)?;
    }
    Ok(())
}

fn write_head<O: Sink>(
    alloc: Global,
    processes: u8,
    table: u32,
    out: &mut O,
) -> Result<(), WriteFault>
    ensures ok { OnOk result (O.written out.new ≡ grown (O.written out.old) (head_line processes table)) }
    ensures err { OnErr result (AppendsFront (O.written out.old) (O.written out.new) (head_line processes table)) }
    ensures cause { IfErr result (HasCauseOf (Rose (O.faults out.old) (O.faults out.new))) }
    ensures no_less { O.faults out.old ≤ O.faults out.new }
{
    let Ok(text) = line::head_line(alloc, processes, table) else {
        return Err(WriteFault::NoMemory);
    };
    let Ok(()) = out.write(text.as_str().as_bytes()) else {
        return Err(WriteFault::Fault);
    };
    Ok(())
}

fn write_entry<O: Sink>(alloc: Global, entry: &Entry, out: &mut O) -> Result<(), WriteFault>
    ensures ok { OnOk result (O.written out.new ≡ grown (O.written out.old) (entry_line entry.now)) }
    ensures err { OnErr result (AppendsFront (O.written out.old) (O.written out.new) (entry_line entry.now)) }
    ensures cause { IfErr result (HasCauseOf (Rose (O.faults out.old) (O.faults out.new))) }
    ensures no_less { O.faults out.old ≤ O.faults out.new }
{
    let Ok(text) = line::entry_line(alloc, entry) else {
        return Err(WriteFault::NoMemory);
    };
    let Ok(()) = out.write(text.as_str().as_bytes()) else {
        return Err(WriteFault::Fault);
    };
    Ok(())
}
