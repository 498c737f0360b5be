// What a single word of a line can be.
ghost use Rattle.std.specs.Prelude.{◌≡◌, ◌≤◌};
ghost use Rattle.sv_journal.specs.Outcome.{Gives};
ghost use Rattle.sv_journal.specs.Word.{below_zero, bytes_of, hex_of, kind_of, mode_of, name_from, name_of, offset_of};

use crate::refusal::Refusal;
use hex::FromHexError;
use std::alloc::Global;
use sv_form::{Bytes, Kind, Name};
use sv_plain::{Mode, are_lower_hex, number_of};

/// The greatest number that stands behind a minus sign.
const BELOW_ZERO_MAX: u64 = 9223372036854775808;

/// The offset that a word is, with a minus sign exactly where it is below zero.
pub fn offset_of(word: &[u8]) -> Option<i64>
    ensures { result ≡ offset_of word.now }
{
    if !word.is_empty() && word[0] == b'-' {
        return below_zero(number_of(&word[1..], 10, BELOW_ZERO_MAX)?);
    }
    let ahead = number_of(word, 10, BELOW_ZERO_MAX - 1)?;
    Some(ahead as i64)
}

fn below_zero(number: u64) -> Option<i64>
    requires { number ≤ 9223372036854775808 }
    ensures { result ≡ below_zero number }
{
    if number == 0 {
        return None;
    }
    Some(-1 - (number - 1) as i64)
}

/// The bytes that lower case hexadecimal digits spell, or none for a dash.
pub fn bytes_of(alloc: Global, word: &[u8]) -> Result<Bytes, Refusal>
    ensures { Gives (λ bytes. bytes) result (bytes_of word.now) }
{
    if word == b"-".as_slice() {
        return Ok(Bytes::from_vec(Vec::new(alloc)));
    }
    if word.is_empty() {
        return Err(Refusal::Grammar);
    }
    Ok(Bytes::from_vec(hex_of(alloc, word)?))
}

/// The name whose bytes these digits spell.
pub fn name_of(alloc: Global, word: &[u8]) -> Result<Name, Refusal>
    ensures { Gives (λ name. name) result (name_of word.now) }
{
    let bytes = hex_of(alloc, word)?;
    let Some(name) = name_from(bytes.as_slice()) else {
        return Err(Refusal::Grammar);
    };
    Ok(name)
}

fn name_from(bytes: &[u8]) -> Option<Name>
    ensures { result ≡ name_from bytes.now }
{
    Name::read(bytes)
}

fn hex_of(alloc: Global, word: &[u8]) -> Result<Vec<u8>, Refusal>
    ensures { Gives (λ bytes. bytes.items) result (hex_of word.now) }
{
    if !are_lower_hex(word) {
        return Err(Refusal::Grammar);
    }
    match hex::decode(alloc, word) {
        Ok(bytes) => Ok(bytes),
        Err(FromHexError::OutOfMemory) => Err(Refusal::NoMemory),
        Err(_) => Err(Refusal::Grammar),
    }
}

/// The kind that a letter names.
pub fn kind_of(word: &[u8]) -> Option<Kind>
    ensures { result ≡ kind_of word.now }
{
    if word == b"f".as_slice() {
        Some(Kind::File)
    } else if word == b"d".as_slice() {
        Some(Kind::Dir)
    } else {
        None
    }
}

/// The mode that a file is opened for, by its letters.
pub fn mode_of(word: &[u8]) -> Option<Mode>
    ensures { result ≡ mode_of word.now }
{
    if word == b"r".as_slice() {
        Some(Mode::R)
    } else if word == b"w".as_slice() {
        Some(Mode::W)
    } else if word == b"rw".as_slice() {
        Some(Mode::RW)
    } else {
        None
    }
}
