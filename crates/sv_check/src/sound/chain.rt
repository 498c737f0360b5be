// The chain of free blocks (Bach, chapter 4.7): conditions 10 and 11 of a sound image.
ghost use Rattle.std.specs.Prelude.{◌≡◌, ◌≤◌, ◌<◌, ◌*◌, ⊤, ℕ, List, None, not, map, drop, find, length, true, false, slice_set};
ghost use Rattle.std.specs.Prelude.{slice_index, ◌-◌, ◌≢◌, IfOk, IfErr};
ghost use Rattle.std.specs.List.{range_with_len};
ghost use Rattle.std.specs.Bool.{OnTrue, OnFalse};
ghost use Rattle.sv_dev.specs.Causes.{Rose};
ghost use Rattle.sv_form.specs.Geometry.{IsGeometry};
ghost use Rattle.sv_check.specs.Blocks.{IsListRead};
ghost use Rattle.sv_check.specs.Chain.{number, chain_from, first_broken};
ghost use Rattle.sv_check.specs.ChainSteps.{Follows, met_in, met_of_list, numbers_of, with_each};
ghost use Rattle.sv_check.specs.Fault.{Says};
ghost use Rattle.sv_check.specs.Progress.{met_by};
ghost use Rattle.sv_check.specs.Walk.{is_new, with_met};

use crate::CheckFault;
use crate::walk::block_in_memory;
use std::alloc::Global;
use sv_dev::Disk;
use sv_form::{Geometry, LINK_BLOCK_SIZE, LinkBlock, NoMemory};

// The list of free blocks that stands in a block.
fn read_list(block: &[u8]) -> Option<LinkBlock>
    requires { 204 ≤ length block.now }
    ensures { IsListRead block.now result }
{
    LinkBlock::read(&block[..LINK_BLOCK_SIZE])
}

// The numbers of the list, in memory of their own.
fn copy_numbers(alloc: Global, list: &LinkBlock) -> Result<Vec<u32>, NoMemory>
    ensures { IfOk result (λ copy. copy.items ≡ list.now.numbers.items) }
{
    let mut copy = Vec::new(alloc);
    copy.extend_from_slice(list.numbers.as_slice())?;
    Ok(copy)
}

/// Whether each block was met, in the walk or in the chain; and the number at which the chain stopped.
#[derive(Drop)]
pub(crate) struct MetBlocks {
    pub(crate) met: Vec<bool>,
    pub(crate) bad: u32,
}

impl MetBlocks {
    /// The blocks that have an owner, which are those that the walk met.
    pub(crate) fn from_owners(alloc: Global, owners: &[u16]) -> Result<MetBlocks, NoMemory>
        ensures met { IfOk result (λ m. met_in m.met.items ≡ met_by (slice_index owners.now)) }
        ensures blocks { IfOk result (λ m. length m.met.items ≡ length owners.now) }
    {
        let met = owners.iter().map(|owner| *owner != 0).collect(alloc)?;
        Ok(MetBlocks { met, bad: 0 })
    }

    // Meets a number, if it is a data block that was not met before.
    fn take(&mut self, sizes: &Geometry, b: u32) -> bool
        requires blocks { length self.old.met.items ≡ sizes.now.blocks }
        ensures result { result ≡ is_new sizes.now (met_in self.old.met.items) b }
        ensures met { OnTrue result (self.new.met.items ≡ slice_set self.old.met.items b true) }
        ensures in_range { OnTrue result (b < sizes.now.blocks) }
        ensures bad { OnFalse result (self.new.bad ≡ b) }
        ensures blocks { length self.new.met.items ≡ sizes.now.blocks }
    {
        let is_data = sizes.first_data <= b && b < sizes.blocks;
        if !is_data {
            self.bad = b;
            return false;
        }
        if self.met[b as usize] {
            self.bad = b;
            return false;
        }
        self.met[b as usize] = true;
        true
    }

    // Meets numbers in order; false where one is bad.
    fn take_each(&mut self, sizes: &Geometry, numbers: &[u32]) -> bool
        requires blocks { length self.old.met.items ≡ sizes.now.blocks }
        ensures follows { (image : List ℕ) → Follows sizes.now image (met_in self.old.met.items) (map number numbers.now) result
            self.new.bad (met_in self.new.met.items) }
        ensures met { OnTrue result ((b : ℕ) → met_in self.new.met.items b ≡ with_each (met_in self.old.met.items) numbers.now b) }
        ensures inside { OnTrue result ((k : ℕ) → k < length numbers.now → slice_index numbers.now k < sizes.now.blocks) }
        ensures blocks { length self.new.met.items ≡ sizes.now.blocks }
    {
        for number in numbers {
            if !self.take(sizes, *number) {
                return false;
            }
        }
        true
    }

    // Meets the numbers of a list in order, a link of 0 passed over; false where one is bad.
    fn take_list(&mut self, sizes: &Geometry, numbers: &[u32]) -> bool
        requires blocks { length self.old.met.items ≡ sizes.now.blocks }
        ensures follows { (image : List ℕ) → Follows sizes.now image (met_in self.old.met.items) (met_of_list numbers.now) result
            self.new.bad (met_in self.new.met.items) }
        ensures met { OnTrue result ((b : ℕ) → met_in self.new.met.items b
            ≡ with_each (met_in self.old.met.items) (numbers_of (met_of_list numbers.now)) b) }
        ensures inside { OnTrue result (slice_index numbers.now 0 ≢ 0 → slice_index numbers.now 0 < sizes.now.blocks) }
        ensures blocks { length self.new.met.items ≡ sizes.now.blocks }
    {
        if link_of(numbers) == 0 {
            return self.take_each(sizes, after_first(numbers));
        }
        self.take_each(sizes, numbers)
    }

    /// The first data block that was not met.
    pub(crate) fn first_lost(&self, sizes: &Geometry) -> Option<u32>
        requires blocks { length self.now.met.items ≡ sizes.now.blocks }
        ensures lost { result ≡ find (λ b. not (met_in self.now.met.items b))
            (range_with_len sizes.now.first_data (sizes.now.blocks - sizes.now.first_data)) }
    {
        for b in sizes.first_data..sizes.blocks {
            if !self.met[b as usize] {
                return Some(b);
            }
        }
        None
    }
}

// The numbers after the first.
fn after_first(numbers: &[u32]) -> &[u32]
    ensures { result.now ≡ drop 1 numbers.now }
{
    if numbers.is_empty() {
        return numbers;
    }
    &numbers[1..]
}

// The first number of a list, 0 where it has none.
fn link_of(numbers: &[u32]) -> u32
    ensures { result ≡ slice_index numbers.now 0 }
{
    if numbers.is_empty() {
        return 0;
    }
    numbers[0]
}

/// Follows the chain that begins with these numbers, and meets each. It gives the first bad number, at which it stopped;
/// where there is none, the blocks that are met are those from before and all of the chain.
pub(crate) fn follow_chain<D: Disk>(
    alloc: Global,
    disk: &mut D,
    sizes: &Geometry,
    met: &mut MetBlocks,
    first: Vec<u32>,
) -> Result<Option<u32>, CheckFault>
    requires sizes { IsGeometry sizes.now }
    requires length { length (D.content disk.old) ≡ sizes.now.blocks * sizes.now.block_size }
    requires blocks { length met.old.met.items ≡ sizes.now.blocks }
    ensures broken { IfOk result (λ r. r ≡ first_broken sizes.now (D.content disk.old) (met_in met.old.met.items)
        (chain_from sizes.now (D.content disk.old) sizes.now.blocks first.items)) }
    ensures met { IfOk result (λ r. r ≡ None → (b : ℕ) → met_in met.new.met.items b ≡ with_each (met_in met.old.met.items)
        (numbers_of (chain_from sizes.now (D.content disk.old) sizes.now.blocks first.items)) b) }
    ensures blocks { IfOk result (λ r. length met.new.met.items ≡ sizes.now.blocks) }
    ensures err { IfErr result (Says (λ _ _. ⊥) (Rose (D.faults disk.old) (D.faults disk.new)) ⊤) }
    ensures content { D.content disk.new ≡ D.content disk.old }
    ensures faults { D.faults disk.old ≤ D.faults disk.new }
{
    let mut list = first;
    for turn in 0..sizes.blocks {
        if !met.take_list(sizes, &list) {
            return Ok(Some(met.bad));
        }
        let link = link_of(&list);
        if link == 0 {
            return Ok(None);
        }
        let block = block_in_memory(alloc, disk, sizes, link)?;
        let Some(next) = read_list(&block) else {
            return Ok(Some(link));
        };
        list = copy_numbers(alloc, &next)?;
    }
    Ok(None)
}
