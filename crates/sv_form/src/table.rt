// Tables of numbers: so many places of one size, numbers in the first of them and 0 in those that are not used.
ghost use Rattle.std.specs.Prelude.{◌≡◌, ◌+◌, ◌*◌, ◌^◌, ◌<◌, ◌≤◌, ℕ, List, length, slice_index, IfSome, IfNone};
ghost use Rattle.sv_form.specs.Number.{number16, number24, number32, IsTable, IsBlockList, ChangesOnly};

use crate::number::{is_zero, number16, number32, write_number16, write_number24, write_number32};
use arrayvec::ArrayVec;

/// The most numbers that a list of free blocks has.
pub const LIST_MAX: usize = 50;

/// A list of 1 to 50 block numbers, whose count and whose table stand at these places.
pub fn read_block_list(from: &[u8], count_at: usize, at: usize) -> Option<ArrayVec<u32, 50>>
    requires count { count_at + 2 ≤ length from.now }
    requires table { at + 200 ≤ length from.now }
    ensures some { IfSome result (λ list. IsBlockList from.now count_at at list.items) }
    ensures none { IfNone result ((list : List ℕ) → IsBlockList from.now count_at at list → ⊥) }
{
    let count = usize::from(number16(from, count_at));
    if count == 0 {
        return None;
    }
    if count > LIST_MAX {
        return None;
    }
    if !is_zero(from, at + 4 * count, at + 200) {
        return None;
    }
    let mut list = ArrayVec::new();
    for place in 0..count {
        list.push(number32(from, at + 4 * place));
    }
    Some(list)
}

/// Writes a table of numbers of 4 bytes.
pub fn write_table32(numbers: &[u32], into: &mut [u8], at: usize, places: usize)
    requires { at + 4 * places ≤ length into.old }
    ensures table { IsTable (λ k. number32 into.new (at + 4 * k)) places numbers.now }
    ensures others { ChangesOnly into.old into.new at (at + 4 * places) }
{
    for place in 0..places {
        write_number32(into, at + 4 * place, number_at32(numbers, place));
    }
}

/// Writes a table of numbers of 3 bytes.
pub fn write_table24(numbers: &[u32], into: &mut [u8], at: usize, places: usize)
    requires room { at + 3 * places ≤ length into.old }
    requires fits { (k : ℕ) → slice_index numbers.now k < 2 ^ 24 }
    ensures table { IsTable (λ k. number24 into.new (at + 3 * k)) places numbers.now }
    ensures others { ChangesOnly into.old into.new at (at + 3 * places) }
{
    for place in 0..places {
        write_number24(into, at + 3 * place, number_at32(numbers, place));
    }
}

/// Writes a table of numbers of 2 bytes.
pub fn write_table16(numbers: &[u16], into: &mut [u8], at: usize, places: usize)
    requires { at + 2 * places ≤ length into.old }
    ensures table { IsTable (λ k. number16 into.new (at + 2 * k)) places numbers.now }
    ensures others { ChangesOnly into.old into.new at (at + 2 * places) }
{
    for place in 0..places {
        write_number16(into, at + 2 * place, number_at16(numbers, place));
    }
}

// The number at a place, and 0 past the last.
fn number_at32(numbers: &[u32], place: usize) -> u32
    ensures { result ≡ slice_index numbers.now place }
{
    if place < numbers.len() {
        numbers[place]
    } else {
        0
    }
}

fn number_at16(numbers: &[u16], place: usize) -> u16
    ensures { result ≡ slice_index numbers.now place }
{
    if place < numbers.len() {
        numbers[place]
    } else {
        0
    }
}
