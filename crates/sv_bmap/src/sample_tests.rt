// Tests over a file made by hand: a single indirect block with one page, and a triple one with one page.
ghost use Rattle.std.specs.Prelude.{◌≡◌, ◌∷◌, [], IfOk, map};
ghost use Rattle.std.specs.List.{range_with_len};
ghost use Rattle.sv_store.specs.Held.{nothing_lent};
ghost use Rattle.sv_bmap.specs.Sample.{sample_bytes, sample_number, sample_place};
ghost use Rattle.sv_bmap.specs.Tree.{IsTree};

use crate::tests::FAR;
use crate::{Addresses, collect, lookup, need};
use std::alloc::Global;
use std::sync::Wait;
use std::test::Fail;
use sv_form::Geometry;
use sv_store::{NoMemory, OwnStake, Refusal, Stake};

const FILE: Addresses = [0, 0, 0, 0, 0, 0, 0, 0, 0, 0, 50, 0, 60];

// Where the one number of a block stands, and the number.
fn number_in(block: usize) -> (usize, u8)
    ensures place { result.0 ≡ sample_place block }
    ensures number { result.1 ≡ sample_number block }
{
    if block == 50 {
        (12, 51)
    } else if block == 60 {
        (4, 61)
    } else if block == 61 {
        (8, 62)
    } else if block == 62 {
        (16, 63)
    } else {
        (0, 0)
    }
}

// The bytes of a block.
fn bytes_of(alloc: Global, block: usize) -> Result<Vec<u8>, NoMemory>
    ensures { IfOk result (λ bytes. bytes.items ≡ sample_bytes block) }
{
    let (place, number) = number_in(block);
    let mut bytes = vec![in alloc; 0u8; 1024]?;
    bytes[place] = number;
    Ok(bytes)
}

// The bytes of all blocks.
fn content(alloc: Global) -> Result<Vec<Vec<u8>>, NoMemory>
    ensures { IfOk result (λ blocks. map (λ bytes. bytes.items) blocks.items ≡ map sample_bytes (range_with_len 0 200)) }
{
    let mut blocks = Vec::new(alloc);
    for block in 0..200usize {
        let bytes = bytes_of(alloc, block)?;
        blocks.push(bytes)?;
    }
    Ok(blocks)
}

// A stake of the file, in which one call fails.
fn file(alloc: Global, failing: u64) -> Result<OwnStake, NoMemory>
    ensures tree { IfOk result (λ s. IsTree (⟦<OwnStake as Stake>⟧.origin s) (⟦<OwnStake as Stake>⟧.held s)
        (0 ∷ 0 ∷ 0 ∷ 0 ∷ 0 ∷ 0 ∷ 0 ∷ 0 ∷ 0 ∷ 0 ∷ 50 ∷ 0 ∷ 60 ∷ [])) }
    ensures lent { IfOk result (λ s. ⟦<OwnStake as Stake>⟧.lent s ≡ nothing_lent) }
    ensures sizes { IfOk result (λ s. ⟦<OwnStake as Stake>⟧.origin s
        ≡ record { id = failing ∷ []; sizes = record { block_size = 1024; blocks = 200; first_data = 3 } }) }
{
    let sizes = Geometry {
        block_size: 1024,
        blocks: 200,
        first_data: 3,
    };
    let content = content(alloc)?;
    let mut fails = Vec::new(alloc);
    fails.push(failing)?;
    let stake = OwnStake::new(alloc, sizes, content, fails)?;
    Ok(stake)
}

// What two look-ups of a page answer, one after the other.
type Lookups = [Result<Option<u32>, Refusal>; 2];

fn lookups<R: Wait>(rt: &R, alloc: Global, failing: u64, page: u32) -> Result<Lookups, NoMemory> {
    let mut stake = file(alloc, failing)?;
    let page = page.min(FAR);
    let first = lookup(rt, &FILE, &mut stake, page);
    let second = lookup(rt, &FILE, &mut stake, page);
    Ok([first, second])
}

// What the need of some pages is, asked twice.
type Needs = [Result<u32, Refusal>; 2];

fn needs<R: Wait>(
    rt: &R,
    alloc: Global,
    failing: u64,
    first: u32,
    count: u32,
) -> Result<Needs, NoMemory> {
    let mut stake = file(alloc, failing)?;
    let first = first.min(FAR);
    let count = count.min(FAR);
    let once = need(rt, &FILE, &mut stake, first, count);
    let again = need(rt, &FILE, &mut stake, first, count);
    Ok([once, again])
}

// Blocks as digits in a row, each of three places.
pub(crate) fn row(blocks: &[u32]) -> u64 {
    blocks.iter().fold(
        0u64,
        |sum, block| sum.wrapping_mul(1000).wrapping_add(u64::from(*block)),
    )
}

// What `collect` lists, asked twice.
type Collects = [Result<u64, Refusal>; 2];

fn collects<R: Wait>(rt: &R, alloc: Global, failing: u64) -> Result<Collects, NoMemory> {
    let mut stake = file(alloc, failing)?;
    let once = collect(rt, alloc, &FILE, &mut stake);
    let again = collect(rt, alloc, &FILE, &mut stake);
    Ok([
        once.map(|blocks| row(blocks.as_slice())),
        again.map(|blocks| row(blocks.as_slice())),
    ])
}

const PAGE: u32 = 131854;

const FAULT: Result<Option<u32>, Refusal> = Err(Refusal::Fault);

// The number of the call that fails, the page, and what is answered. Three blocks lead to the page far out, and one to page 13.
const LOOKUPS: [(u64, u32, Lookups); 9] = [
    (1, PAGE, [FAULT, Ok(Some(63))]),
    (2, PAGE, [FAULT, Ok(Some(63))]),
    (3, PAGE, [FAULT, Ok(Some(63))]),
    (1, 13, [FAULT, Ok(Some(51))]),
    (7, PAGE, [Ok(Some(63)), Ok(Some(63))]),
    (3, 13, [Ok(Some(51)), Ok(Some(51))]),
    (9, 12, [Ok(None), Ok(None)]),
    (9, PAGE + 1, [Ok(None), Ok(None)]),
    (9, PAGE + 256, [Ok(None), Ok(None)]),
];

#[test]
fn a_look_up_fails_at_each_of_its_calls_and_then_answers(rt: HostRuntime) -> Result<(), Fail> {
    for (failing, page, answers) in LOOKUPS {
        assert_eq!(rt; lookups(&rt, rt.alloc(), failing, page)?, answers);
    }
    Ok(())
}

const SHORT: Result<u32, Refusal> = Err(Refusal::Fault);

// The number of the call that fails, the first page, how many there are, and what is answered. Three blocks are read for the pages
// far out, and one for pages 12 to 14, however many of their numbers are looked at.
const NEEDS: [(u64, u32, u32, Needs); 14] = [
    (1, PAGE, 2, [SHORT, Ok(1)]),
    (2, PAGE, 2, [SHORT, Ok(1)]),
    (3, PAGE, 2, [SHORT, Ok(1)]),
    (4, PAGE, 2, [Ok(1), SHORT]),
    (5, PAGE, 2, [Ok(1), SHORT]),
    (6, PAGE, 2, [Ok(1), SHORT]),
    (7, PAGE, 2, [Ok(1), Ok(1)]),
    (13, PAGE, 2, [Ok(1), Ok(1)]),
    (1, 12, 3, [SHORT, Ok(2)]),
    (2, 12, 3, [Ok(2), SHORT]),
    (3, 12, 3, [Ok(2), Ok(2)]),
    (50, 12, 3, [Ok(2), Ok(2)]),
    (50, PAGE + 252, 1, [Ok(2), Ok(2)]),
    (50, PAGE + 251, 2, [Ok(3), Ok(3)]),
];

#[test]
fn the_need_fails_at_each_of_its_calls_and_then_answers(rt: HostRuntime) -> Result<(), Fail> {
    for (failing, first, count, answers) in NEEDS {
        assert_eq!(rt; needs(&rt, rt.alloc(), failing, first, count)?, answers);
    }
    Ok(())
}

const LISTED: u64 = 51_050_063_062_061_060;

// What is answered while the call with this number fails. Four indirect blocks are read, each once.
fn collected(failing: u64) -> Collects {
    match failing {
        1..=4 => [Err(Refusal::Fault), Ok(LISTED)],
        5..=8 => [Ok(LISTED), Err(Refusal::Fault)],
        _ => [Ok(LISTED), Ok(LISTED)],
    }
}

#[test]
fn a_collection_reads_each_indirect_block_once(rt: HostRuntime) -> Result<(), Fail> {
    for failing in 1..10u64 {
        assert_eq!(rt; collects(&rt, rt.alloc(), failing)?, collected(failing));
    }
    for failing in [257u64, 1024, 1025, 2049] {
        assert_eq!(rt; collects(&rt, rt.alloc(), failing)?, collected(failing));
    }
    Ok(())
}
