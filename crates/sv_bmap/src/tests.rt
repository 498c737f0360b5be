ghost use Rattle.std.specs.Prelude.{◌≡◌, ◌<◌, ◌≤◌, ◌+◌, ℕ, IfOk, IsSome, length};
ghost use Rattle.std.specs.List.{All};
ghost use Rattle.sv_store.specs.Held.{nothing_lent};

use crate::{Addresses, collect, lookup, need};
use std::alloc::Global;
use std::sync::Wait;
use std::test::Fail;
use sv_form::Geometry;
use sv_store::{NoMemory, OwnStake, Refusal, Stake};

// 200 blocks of zero bytes.
fn zero_blocks(alloc: Global) -> Result<Vec<Vec<u8>>, NoMemory>
    ensures count { IfOk result (λ blocks. length blocks.items ≡ 200) }
    ensures bytes { IfOk result (λ blocks. All (λ bytes. length bytes.items ≡ 1024) blocks.items) }
{
    let mut blocks = Vec::new(alloc);
    for _block in 0..200usize {
        let bytes = vec![in alloc; 0u8; 1024]?;
        blocks.push(bytes)?;
    }
    Ok(blocks)
}

// A stake of 200 blocks of zero bytes, whose calls with these numbers fail.
pub(crate) fn zero_stake(alloc: Global, fails: Vec<u64>) -> Result<OwnStake, NoMemory>
    ensures held { IfOk result (λ s. (b l : ℕ) → b < 200 → l < 16 → IsSome (⟦<OwnStake as Stake>⟧.held s b l)) }
    ensures lent { IfOk result (λ s. ⟦<OwnStake as Stake>⟧.lent s ≡ nothing_lent) }
    ensures sizes { IfOk result (λ s. ⟦<OwnStake as Stake>⟧.origin s
        ≡ record { id = fails.items; sizes = record { block_size = 1024; blocks = 200; first_data = 3 } }) }
{
    let sizes = Geometry {
        block_size: 1024,
        blocks: 200,
        first_data: 3,
    };
    let content = zero_blocks(alloc)?;
    let stake = OwnStake::new(alloc, sizes, content, fails)?;
    Ok(stake)
}

// The addresses of a file without pages.
pub(crate) const NONE: Addresses = [0; 13];

// A page number that no file of the tests reaches. Each number in a row is below it.
pub(crate) const FAR: u32 = 500_000;

// The need of pages of a file without pages.
fn need_of<R: Wait>(rt: &R, alloc: Global, first: u32, count: u32) -> Result<u32, Refusal> {
    let mut stake = zero_stake(alloc, Vec::new(alloc))?;
    need(rt, &NONE, &mut stake, first.min(FAR), count.min(FAR))
}

// The block of a page of a file without pages.
fn block_of<R: Wait>(rt: &R, alloc: Global, page: u32) -> Result<Option<u32>, Refusal> {
    let mut stake = zero_stake(alloc, Vec::new(alloc))?;
    lookup(rt, &NONE, &mut stake, page.min(FAR))
}

// The first page, how many there are, and how many blocks are missing.
const NEEDS: [(u32, u32, u32); 6] = [
    (9, 2, 3),
    (65802, 1, 4),
    (65801, 2, 7),
    (10, 256, 257),
    (265, 2, 5),
    (5, 0, 0),
];

#[test]
fn the_need_counts_each_missing_block_once(rt: HostRuntime) -> Result<(), Fail> {
    for (first, count, missing) in NEEDS {
        assert_eq!(rt; need_of(&rt, rt.alloc(), first, count), Ok(missing));
    }
    Ok(())
}

#[test]
fn a_file_without_pages_has_holes_alone(rt: HostRuntime) -> Result<(), Fail> {
    for page in [9u32, 10, 266, 65802] {
        assert_eq!(rt; block_of(&rt, rt.alloc(), page), Ok(None));
    }
    Ok(())
}

// How many blocks a file without pages has.
fn count_of<R: Wait>(rt: &R, alloc: Global) -> Result<usize, Refusal> {
    let mut stake = zero_stake(alloc, Vec::new(alloc))?;
    let blocks = collect(rt, alloc, &NONE, &mut stake)?;
    Ok(blocks.len())
}

#[test]
fn a_file_without_pages_has_no_blocks(rt: HostRuntime) -> Result<(), Fail> {
    assert_eq!(rt; count_of(&rt, rt.alloc()), Ok(0));
    Ok(())
}

// The addresses of a file with one page, which is block 50.
const ONE: Addresses = [50, 0, 0, 0, 0, 0, 0, 0, 0, 0, 0, 0, 0];

// Of a file with one page: the blocks of two pages, and the need of both.
fn pages_of_one<R: Wait>(
    rt: &R,
    alloc: Global,
) -> Result<(Option<u32>, Option<u32>, u32), Refusal> {
    let mut stake = zero_stake(alloc, Vec::new(alloc))?;
    let first = lookup(rt, &ONE, &mut stake, 0)?;
    let second = lookup(rt, &ONE, &mut stake, 1)?;
    let missing = need(rt, &ONE, &mut stake, 0, 2)?;
    Ok((first, second, missing))
}

// Of a file with one page: its blocks, and the first of them.
fn blocks_of_one<R: Wait>(rt: &R, alloc: Global) -> Result<(usize, Option<u32>), Refusal> {
    let mut stake = zero_stake(alloc, Vec::new(alloc))?;
    let blocks = collect(rt, alloc, &ONE, &mut stake)?;
    let first = blocks.first().copied();
    Ok((blocks.len(), first))
}

#[test]
fn a_file_with_one_page_has_one_block(rt: HostRuntime) -> Result<(), Fail> {
    assert_eq!(rt; pages_of_one(&rt, rt.alloc()), Ok((Some(50), None, 1)));
    assert_eq!(rt; blocks_of_one(&rt, rt.alloc()), Ok((1, Some(50))));
    Ok(())
}
