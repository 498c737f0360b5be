// The blocks of the tree, in the order in which they can be given back.
ghost use Rattle.std.specs.Prelude.{◌≡◌, ◌<◌, ◌==◌, ◌++◌, ◌∷◌, [], ℕ, IfOk, OnOk, if◌then◌else◌, length, slice_index};
ghost use Rattle.std.specs.List.{flat_map, range_with_len};
ghost use Rattle.sv_form.specs.PagePath.{block_numbers, first_single};
ghost use Rattle.sv_store.specs.Frames.{Unchanged};
ghost use Rattle.sv_store.specs.Held.{nothing_lent};
ghost use Rattle.sv_bmap.specs.Causes.{HasReason};
ghost use Rattle.sv_bmap.specs.Order.{HeldBelow, blocks_below, blocks_of};
ghost use Rattle.sv_bmap.specs.Tree.{IsTree};

use crate::Addresses;
use crate::numbers::numbers_of;
use std::alloc::Global;
use std::sync::Wait;
use sv_form::{DOUBLE, SINGLE, TRIPLE};
use sv_store::{NoMemory, Refusal, Stake};

/// The blocks of the tree: pages ascending, each indirect block after all that is under it. Each indirect block is read
/// once. A refusal is a fault that the stake has counted, or want of memory.
pub fn collect<R: Wait, S: Stake>(
    rt: &R,
    alloc: Global,
    a: &Addresses,
    s: &mut S,
) -> Result<Vec<u32>, Refusal>
    requires tree { IsTree (S.origin s.old) (S.held s.old) a.now }
    requires lent { S.lent s.old ≡ nothing_lent }
    ensures blocks { IfOk result (λ blocks. blocks.items ≡ blocks_of (S.origin s.old).sizes (S.held s.old) a.now) }
    ensures stake { Unchanged S.held S.lent S.origin S.forced s.old s.new }
    ensures cause { HasReason (S.faults s.old) (S.faults s.new) result }
{
    let mut blocks = Vec::new(alloc);
    add_pages(a, &mut blocks)?;
    add_single(rt, alloc, s, a[SINGLE], &mut blocks)?;
    add_double(rt, alloc, s, a[DOUBLE], &mut blocks)?;
    add_triple(rt, alloc, s, a[TRIPLE], &mut blocks)?;
    Ok(blocks)
}

// Adds a page, unless it is a hole.
fn add_page(b: u32, blocks: &mut Vec<u32>) -> Result<(), NoMemory>
    ensures { OnOk result (blocks.new.items ≡ blocks.old.items ++ (if b == 0 then [] else b ∷ [])) }
{
    if b == 0 {
        return Ok(());
    }
    add(b, blocks)
}

// Adds a block.
fn add(b: u32, blocks: &mut Vec<u32>) -> Result<(), NoMemory>
    ensures { OnOk result (blocks.new.items ≡ blocks.old.items ++ b ∷ []) }
{
    blocks.push(b)?;
    Ok(())
}

// Adds the pages of the direct addresses.
fn add_pages(a: &Addresses, blocks: &mut Vec<u32>) -> Result<(), NoMemory>
    ensures { OnOk result (blocks.new.items ≡ blocks.old.items
        ++ flat_map (λ slot. if slice_index a.now slot == 0 then [] else slice_index a.now slot ∷ []) (range_with_len 0 first_single)) }
{
    for slot in 0..SINGLE {
        add_page(a[slot], blocks)?;
    }
    Ok(())
}

// Adds these pages, unless they are holes.
fn add_each(numbers: &[u32], blocks: &mut Vec<u32>) -> Result<(), NoMemory>
    ensures { OnOk result (blocks.new.items ≡ blocks.old.items ++ flat_map (λ b. if b == 0 then [] else b ∷ []) numbers.now) }
{
    for b in numbers {
        add_page(*b, blocks)?;
    }
    Ok(())
}

// Adds an indirect block and the pages under it, unless it is a hole.
fn add_single<R: Wait, S: Stake>(
    rt: &R,
    alloc: Global,
    s: &mut S,
    b: u32,
    blocks: &mut Vec<u32>,
) -> Result<(), Refusal>
    requires below { HeldBelow (S.origin s.old) (S.held s.old) 1 b }
    requires lent { S.lent s.old ≡ nothing_lent }
    ensures blocks { OnOk result (blocks.new.items ≡ blocks.old.items
        ++ blocks_below (block_numbers (S.origin s.old).sizes) (S.held s.old) 1 b) }
    ensures stake { Unchanged S.held S.lent S.origin S.forced s.old s.new }
    ensures cause { HasReason (S.faults s.old) (S.faults s.new) result }
{
    if b == 0 {
        return Ok(());
    }
    let numbers = numbers_of(rt, alloc, s, b)?;
    add_each(numbers.as_slice(), blocks)?;
    add(b, blocks)?;
    Ok(())
}

// Adds these single indirect blocks, each after the pages under it.
fn add_singles<R: Wait, S: Stake>(
    rt: &R,
    alloc: Global,
    s: &mut S,
    numbers: &[u32],
    blocks: &mut Vec<u32>,
) -> Result<(), Refusal>
    requires below { (k : ℕ) → k < length numbers.now → HeldBelow (S.origin s.old) (S.held s.old) 1 (slice_index numbers.now k) }
    requires lent { S.lent s.old ≡ nothing_lent }
    ensures blocks { OnOk result (blocks.new.items ≡ blocks.old.items
        ++ flat_map (blocks_below (block_numbers (S.origin s.old).sizes) (S.held s.old) 1) numbers.now) }
    ensures stake { Unchanged S.held S.lent S.origin S.forced s.old s.new }
    ensures cause { HasReason (S.faults s.old) (S.faults s.new) result }
{
    for b in numbers {
        add_single(rt, alloc, s, *b, blocks)?;
    }
    Ok(())
}

// Adds a double indirect block after all that is under it, unless it is a hole.
fn add_double<R: Wait, S: Stake>(
    rt: &R,
    alloc: Global,
    s: &mut S,
    b: u32,
    blocks: &mut Vec<u32>,
) -> Result<(), Refusal>
    requires below { HeldBelow (S.origin s.old) (S.held s.old) 2 b }
    requires lent { S.lent s.old ≡ nothing_lent }
    ensures blocks { OnOk result (blocks.new.items ≡ blocks.old.items
        ++ blocks_below (block_numbers (S.origin s.old).sizes) (S.held s.old) 2 b) }
    ensures stake { Unchanged S.held S.lent S.origin S.forced s.old s.new }
    ensures cause { HasReason (S.faults s.old) (S.faults s.new) result }
{
    if b == 0 {
        return Ok(());
    }
    let numbers = numbers_of(rt, alloc, s, b)?;
    add_singles(rt, alloc, s, numbers.as_slice(), blocks)?;
    add(b, blocks)?;
    Ok(())
}

// Adds these double indirect blocks, each after all that is under it.
fn add_doubles<R: Wait, S: Stake>(
    rt: &R,
    alloc: Global,
    s: &mut S,
    numbers: &[u32],
    blocks: &mut Vec<u32>,
) -> Result<(), Refusal>
    requires below { (k : ℕ) → k < length numbers.now → HeldBelow (S.origin s.old) (S.held s.old) 2 (slice_index numbers.now k) }
    requires lent { S.lent s.old ≡ nothing_lent }
    ensures blocks { OnOk result (blocks.new.items ≡ blocks.old.items
        ++ flat_map (blocks_below (block_numbers (S.origin s.old).sizes) (S.held s.old) 2) numbers.now) }
    ensures stake { Unchanged S.held S.lent S.origin S.forced s.old s.new }
    ensures cause { HasReason (S.faults s.old) (S.faults s.new) result }
{
    for b in numbers {
        add_double(rt, alloc, s, *b, blocks)?;
    }
    Ok(())
}

// Adds a triple indirect block after all that is under it, unless it is a hole.
fn add_triple<R: Wait, S: Stake>(
    rt: &R,
    alloc: Global,
    s: &mut S,
    b: u32,
    blocks: &mut Vec<u32>,
) -> Result<(), Refusal>
    requires below { HeldBelow (S.origin s.old) (S.held s.old) 3 b }
    requires lent { S.lent s.old ≡ nothing_lent }
    ensures blocks { OnOk result (blocks.new.items ≡ blocks.old.items
        ++ blocks_below (block_numbers (S.origin s.old).sizes) (S.held s.old) 3 b) }
    ensures stake { Unchanged S.held S.lent S.origin S.forced s.old s.new }
    ensures cause { HasReason (S.faults s.old) (S.faults s.new) result }
{
    if b == 0 {
        return Ok(());
    }
    let numbers = numbers_of(rt, alloc, s, b)?;
    add_doubles(rt, alloc, s, numbers.as_slice(), blocks)?;
    add(b, blocks)?;
    Ok(())
}
