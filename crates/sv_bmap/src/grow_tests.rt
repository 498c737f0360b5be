// Tests of a page that is attached far out in a file without pages.
ghost use Rattle.std.specs.Prelude.{◌≡◌, ◌<◌, ◌+◌, ◌++◌, ◌∷◌, [], ℕ, IfOk, OnOk, IsSome, map};
ghost use Rattle.std.specs.List.{All};
ghost use Rattle.sv_store.specs.Held.{nothing_lent};
ghost use Rattle.sv_bmap.specs.Cut.{IsCut};
ghost use Rattle.sv_bmap.specs.Tree.{IsTree};

use crate::sample_tests::row;
use crate::tests::{NONE, zero_stake};
use crate::{Addresses, attach, collect, lookup, need};
use std::alloc::Global;
use std::sync::Wait;
use std::test::Fail;
use sv_store::{LineRange, NoMemory, OwnStake, Refusal, Stake};

// Adds a stake.
fn add_part(parts: &mut Vec<OwnStake>, part: OwnStake) -> Result<(), NoMemory>
    ensures { OnOk result (parts.new.items ≡ parts.old.items ++ part ∷ []) }
{
    parts.push(part)?;
    Ok(())
}

// Cuts blocks 100 to 103 off, each as a stake of its own.
fn cut(alloc: Global, stake: &mut OwnStake) -> Result<Vec<OwnStake>, Refusal>
    requires held { (b l : ℕ) → b < 200 → l < 16 → IsSome (⟦<OwnStake as Stake>⟧.held stake.old b l) }
    requires lent { ⟦<OwnStake as Stake>⟧.lent stake.old ≡ nothing_lent }
    ensures cut { IfOk result (λ parts. IsCut 4 (⟦<OwnStake as Stake>⟧.held stake.new) (map ⟦<OwnStake as Stake>⟧.held parts.items)) }
    ensures away { IfOk result (λ parts. All (λ part. ⟦<OwnStake as Stake>⟧.lent part ≡ nothing_lent) parts.items) }
    ensures home { IfOk result (λ parts. All (λ part. ⟦<OwnStake as Stake>⟧.origin part ≡ ⟦<OwnStake as Stake>⟧.origin stake.old)
        parts.items) }
    ensures lends { ⟦<OwnStake as Stake>⟧.lent stake.new ≡ nothing_lent }
    ensures origin { ⟦<OwnStake as Stake>⟧.origin stake.new ≡ ⟦<OwnStake as Stake>⟧.origin stake.old }
{
    let mut parts = Vec::new(alloc);
    for k in 0..4u32 {
        let lines = [LineRange {
            block: 100 + k,
            first: 0,
            count: 16,
        }];
        let part = stake.part(alloc, &lines)?;
        add_part(&mut parts, part)?;
    }
    Ok(parts)
}

const PAGE: u32 = 65802;

// A file without pages to which a page was attached, and what the call answered.
struct Grown {
    stake: OwnStake,
    addresses: Addresses,
    answer: Result<(), Refusal>,
}

// Attaches a page, while the call with this number fails in the stake and in each part.
fn grow_file<R: Wait>(rt: &R, alloc: Global, failing: u64) -> Result<Grown, Refusal>
    ensures tree { IfOk result (λ file. IsTree (⟦<OwnStake as Stake>⟧.origin file.stake)
        (⟦<OwnStake as Stake>⟧.held file.stake) file.addresses) }
    ensures lent { IfOk result (λ file. ⟦<OwnStake as Stake>⟧.lent file.stake ≡ nothing_lent) }
    ensures sizes { IfOk result (λ file. ⟦<OwnStake as Stake>⟧.origin file.stake
        ≡ record { id = failing ∷ []; sizes = record { block_size = 1024; blocks = 200; first_data = 3 } }) }
{
    let fails = vec![in alloc; failing; 1]?;
    let mut stake = zero_stake(alloc, fails)?;
    let parts = cut(alloc, &mut stake)?;
    let bytes = vec![in alloc; 7u8; 1024]?;
    let mut addresses = NONE;
    let blocks = [100, 101, 102, 103];
    match attach(
        rt,
        &mut addresses,
        &mut stake,
        PAGE,
        &blocks,
        parts,
        bytes.as_slice(),
    ) {
        Ok(()) => Ok(Grown {
            stake,
            addresses,
            answer: Ok(()),
        }),
        Err((refusal, _parts)) => Ok(Grown {
            stake,
            addresses,
            answer: Err(refusal),
        }),
    }
}

// What is seen of the file then: the blocks of the page and of the next one, the need of the next one, all blocks in a
// row, and the triple indirect address.
#[derive(PartialEq, Eq, Debug, Drop)]
struct Seen {
    answer: Result<(), Refusal>,
    page: Result<Option<u32>, Refusal>,
    next: Result<Option<u32>, Refusal>,
    need: Result<u32, Refusal>,
    blocks: Result<u64, Refusal>,
    triple: u32,
}

fn look_at<R: Wait>(rt: &R, alloc: Global, failing: u64) -> Result<Seen, Refusal> {
    let Grown {
        stake,
        addresses,
        answer,
    } = grow_file(rt, alloc, failing)?;
    let mut stake = stake;
    let page = lookup(rt, &addresses, &mut stake, PAGE);
    let next = lookup(rt, &addresses, &mut stake, PAGE + 1);
    let missing = need(rt, &addresses, &mut stake, PAGE + 1, 1);
    let listed = collect(rt, alloc, &addresses, &mut stake);
    Ok(Seen {
        answer,
        page,
        next,
        need: missing,
        blocks: listed.map(|blocks| row(blocks.as_slice())),
        triple: addresses[12],
    })
}

#[test]
fn a_page_far_out_is_attached_with_its_indirect_blocks(rt: HostRuntime) -> Result<(), Fail> {
    let file = look_at(&rt, rt.alloc(), 5000)?;
    assert_eq!(rt;
        file,
        Seen {
            answer: Ok(()),
            page: Ok(Some(103)),
            next: Ok(None),
            need: Ok(1),
            blocks: Ok(103_102_101_100),
            triple: 100,
        }
    );
    Ok(())
}

// The answer, and the block of the page, while the call with this number fails.
fn attached<R: Wait>(
    rt: &R,
    alloc: Global,
    failing: u64,
) -> Result<(Result<(), Refusal>, Result<Option<u32>, Refusal>, u32), Refusal> {
    let Grown {
        stake,
        addresses,
        answer,
    } = grow_file(rt, alloc, failing)?;
    let mut stake = stake;
    let page = lookup(rt, &addresses, &mut stake, PAGE);
    Ok((answer, page, addresses[12]))
}

#[test]
fn a_page_that_met_a_fault_is_still_a_hole(rt: HostRuntime) -> Result<(), Fail> {
    assert_eq!(rt;
        attached(&rt, rt.alloc(), 1)?,
        (Err(Refusal::Fault), Ok(None), 0)
    );
    for failing in 2..4u64 {
        assert_eq!(rt;
            attached(&rt, rt.alloc(), failing)?,
            (Ok(()), Err(Refusal::Fault), 100)
        );
    }
    for failing in 4..13u64 {
        assert_eq!(rt;
            attached(&rt, rt.alloc(), failing)?,
            (Ok(()), Ok(Some(103)), 100)
        );
    }
    Ok(())
}
