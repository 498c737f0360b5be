// What a line holds at its words: each is taken from the front of what is left of the text.
ghost use Rattle.std.specs.Prelude.{◌≡◌, ◌≤◌, IfOk};
ghost use Rattle.sv_journal.specs.Fields.{bytes, first_number, kind, made, mode_bits, name, number, offset, open_mode, place};
ghost use Rattle.sv_journal.specs.Outcome.{Takes};

use crate::cut::{first_word, next_word};
use crate::refusal::Refusal;
use crate::word::{bytes_of, kind_of, mode_of, name_of, offset_of};
use std::alloc::Global;
use sv_form::{Bytes, Kind, Name};
use sv_plain::{Mode, number_of};

/// The process that a line begins with.
pub fn process(text: &mut &[u8]) -> Result<u8, Refusal>
    ensures { Takes (λ n. n) result text.new.now (first_number 255 text.old.now) }
{
    let word = first_word(text);
    let Some(n) = number_of(word, 10, 255) else {
        return Err(Refusal::Grammar);
    };
    Ok(n as u8)
}

/// A number of at most so much.
pub fn number(text: &mut &[u8], most: u64) -> Result<u64, Refusal>
    ensures value { Takes (λ n. n) result text.new.now (number most text.old.now) }
    ensures most { IfOk result (λ n. n ≤ most) }
{
    let word = next_word(text)?;
    let Some(n) = number_of(word, 10, most) else {
        return Err(Refusal::Grammar);
    };
    Ok(n)
}

/// From where a seek counts.
pub fn byte(text: &mut &[u8]) -> Result<u8, Refusal>
    ensures { Takes (λ n. n) result text.new.now (number 255 text.old.now) }
{
    let n = number(text, 255)?;
    Ok(n as u8)
}

/// The number of an inode or a file, or a count of links.
pub fn short(text: &mut &[u8]) -> Result<u16, Refusal>
    ensures { Takes (λ n. n) result text.new.now (number 65535 text.old.now) }
{
    let n = number(text, 65535)?;
    Ok(n as u16)
}

/// A count of bytes or blocks, or a size.
pub fn long(text: &mut &[u8]) -> Result<u32, Refusal>
    ensures { Takes (λ n. n) result text.new.now (number 4294967295 text.old.now) }
{
    let n = number(text, 4294967295)?;
    Ok(n as u32)
}

pub fn offset(text: &mut &[u8]) -> Result<i64, Refusal>
    ensures { Takes (λ n. n) result text.new.now (offset text.old.now) }
{
    let word = next_word(text)?;
    let Some(offset) = offset_of(word) else {
        return Err(Refusal::Grammar);
    };
    Ok(offset)
}

/// The mode of an inode, in octal.
pub fn mode_bits(text: &mut &[u8]) -> Result<u16, Refusal>
    ensures { Takes (λ n. n) result text.new.now (mode_bits text.old.now) }
{
    let word = next_word(text)?;
    let Some(n) = number_of(word, 8, 65535) else {
        return Err(Refusal::Grammar);
    };
    Ok(n as u16)
}

pub fn kind(text: &mut &[u8]) -> Result<Kind, Refusal>
    ensures { Takes (λ k. k) result text.new.now (kind text.old.now) }
{
    let word = next_word(text)?;
    let Some(kind) = kind_of(word) else {
        return Err(Refusal::Grammar);
    };
    Ok(kind)
}

/// What a file is opened for.
pub fn open_mode(text: &mut &[u8]) -> Result<Mode, Refusal>
    ensures { Takes (λ m. m) result text.new.now (open_mode text.old.now) }
{
    let word = next_word(text)?;
    let Some(mode) = mode_of(word) else {
        return Err(Refusal::Grammar);
    };
    Ok(mode)
}

pub fn bytes(alloc: Global, text: &mut &[u8]) -> Result<Bytes, Refusal>
    ensures { Takes (λ b. b) result text.new.now (bytes text.old.now) }
{
    let word = next_word(text)?;
    bytes_of(alloc, word)
}

/// A directory, and a name in it.
pub fn place(alloc: Global, text: &mut &[u8]) -> Result<(u16, Name), Refusal>
    ensures { Takes (λ p. (p.0, p.1)) result text.new.now (place text.old.now) }
{
    let dir = short(text)?;
    let name = name(alloc, text)?;
    Ok((dir, name))
}

fn name(alloc: Global, text: &mut &[u8]) -> Result<Name, Refusal>
    ensures { Takes (λ n. n) result text.new.now (name text.old.now) }
{
    let word = next_word(text)?;
    name_of(alloc, word)
}

/// A kind and a mode, of what is made.
pub fn made(text: &mut &[u8]) -> Result<(Kind, u16), Refusal>
    ensures { Takes (λ m. (m.0, m.1)) result text.new.now (made text.old.now) }
{
    let kind = kind(text)?;
    let mode = mode_bits(text)?;
    Ok((kind, mode))
}
