// One line of a journal, read.
ghost use Rattle.std.specs.Prelude.{◌≡◌};
ghost use Rattle.sv_journal.specs.Grammar.{entry, head, said, sizes};
ghost use Rattle.sv_journal.specs.Outcome.{Takes};

use crate::allowed::is_allowed;
use crate::cut::{first_word, next_line, this_word};
use crate::field::{number, process};
use crate::read_op::op;
use crate::read_reply::reply;
use crate::refusal::Refusal;
use std::alloc::Global;
use sv_plain::Entry;

/// Takes the first line: how many processes a journal speaks of, and how many in-core inodes their table holds.
pub fn head(text: &mut &[u8]) -> Result<(u8, u32), Refusal>
    ensures { Takes (λ s. (s.0, s.1)) result text.new.now (head text.old.now) }
{
    let word = first_word(text);
    if word != b"svj".as_slice() {
        return Err(Refusal::Grammar);
    }
    this_word(text, b"1")?;
    sizes(text)
}

fn sizes(text: &mut &[u8]) -> Result<(u8, u32), Refusal>
    ensures { Takes (λ s. (s.0, s.1)) result text.new.now (sizes text.old.now) }
{
    let processes = number(text, 16)?;
    let table = number(text, 400)?;
    next_line(text)?;
    if processes < 1 {
        return Err(Refusal::Grammar);
    }
    if table < 2 {
        return Err(Refusal::Grammar);
    }
    Ok((processes as u8, table as u32))
}

/// Takes the line of an entry of one of so many processes, or of the system.
pub fn entry(alloc: Global, text: &mut &[u8], processes: u8) -> Result<Entry, Refusal>
    ensures { Takes (λ e. e) result text.new.now (entry processes text.old.now) }
{
    let entry = said(alloc, text)?;
    if !is_allowed(&entry, processes) {
        return Err(Refusal::Grammar);
    }
    Ok(entry)
}

fn said(alloc: Global, text: &mut &[u8]) -> Result<Entry, Refusal>
    ensures { Takes (λ e. e) result text.new.now (said text.old.now) }
{
    let process = process(text)?;
    let op = op(alloc, text)?;
    this_word(text, b"=")?;
    let reply = reply(alloc, text)?;
    next_line(text)?;
    Ok(Entry { process, op, reply })
}
