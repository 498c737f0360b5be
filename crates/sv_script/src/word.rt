// What a single word of a line can be.
ghost use Rattle.std.specs.Prelude.{◌≡◌, ◌≤◌, IfOk};
ghost use Rattle.sv_script.specs.Outcome.{Gives};
ghost use Rattle.sv_script.specs.Word.{hex_of, mode_of, number_of, octal_of, offset_of};
ghost use Rattle.sv_script.specs.Grammar.{IsOffset};

use crate::fault::ScriptFault;
use hex::FromHexError;
use std::alloc::Global;
use sv_form::Bytes;
use sv_plain::{Mode, are_lower_hex, value_of};

/// The greatest number of a descriptor, a count or an offset without its sign.
pub const NUMBER_MAX: u32 = 4294967295;

/// The mode that a file is opened for.
pub fn mode_of(word: &[u8]) -> Result<Mode, ScriptFault>
    ensures { result ≡ mode_of word.now }
{
    if word == b"r".as_slice() {
        Ok(Mode::R)
    } else if word == b"w".as_slice() {
        Ok(Mode::W)
    } else if word == b"rw".as_slice() {
        Ok(Mode::RW)
    } else {
        Err(ScriptFault::Word)
    }
}

/// A decimal number of at most so much.
pub fn number_of(word: &[u8], most: u32) -> Result<u32, ScriptFault>
    ensures value { result ≡ number_of most word.now }
    ensures most { IfOk result (λ n. n ≤ most) }
{
    match sv_plain::number_of(word, 10, u64::from(most)) {
        Some(number) => Ok(number as u32),
        None => Err(ScriptFault::Number),
    }
}

/// The mode bits that one to four octal digits give.
pub fn octal_of(word: &[u8]) -> Result<u16, ScriptFault>
    ensures value { result ≡ octal_of word.now }
    ensures most { IfOk result (λ mode. mode ≤ 4095) }
{
    if word.len() > 4 {
        return Err(ScriptFault::Number);
    }
    match value_of(word, 8, 4095) {
        Some(mode) => Ok(mode as u16),
        None => Err(ScriptFault::Number),
    }
}

/// A number, with a minus sign before it if wanted.
pub fn offset_of(word: &[u8]) -> Result<i64, ScriptFault>
    ensures value { result ≡ offset_of word.now }
    ensures most { IfOk result IsOffset }
{
    if !word.is_empty() && word[0] == b'-' {
        let behind = number_of(&word[1..], NUMBER_MAX)?;
        return Ok(-i64::from(behind));
    }
    let ahead = number_of(word, NUMBER_MAX)?;
    Ok(i64::from(ahead))
}

/// The bytes that hexadecimal digits spell.
pub fn hex_of(alloc: Global, word: &[u8]) -> Result<Bytes, ScriptFault>
    ensures { Gives (λ bytes. bytes) result (hex_of word.now) }
{
    if !are_lower_hex(word) {
        return Err(ScriptFault::Hex);
    }
    match hex::decode(alloc, word) {
        Ok(bytes) => Ok(Bytes::from_vec(bytes)),
        Err(FromHexError::OutOfMemory) => Err(ScriptFault::NoMemory),
        Err(_) => Err(ScriptFault::Hex),
    }
}
