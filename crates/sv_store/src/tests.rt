ghost use Rattle.std.specs.Prelude.{◌≡◌, ◌<◌, ◌*◌, ℕ, IfOk, IsSome, length};
ghost use Rattle.std.specs.List.{All};
ghost use Rattle.sv_store.specs.Held.{nothing_lent};

use crate::clients::{cut_and_merge, make_and_write, set_and_read, set_byte};
use crate::{LineRange, NoMemory, OwnStake, Refusal, Stake};
use std::alloc::Global;
use std::sync::Wait;
use std::test::Fail;
use sv_form::Geometry;

// 200 blocks of zero bytes.
fn zero_blocks(alloc: Global) -> Result<Vec<Vec<u8>>, NoMemory>
    ensures count { IfOk result (λ blocks. length blocks.items ≡ 200) }
    ensures bytes { IfOk result (λ blocks. All (λ bytes. length bytes.items ≡ 1024) blocks.items) }
{
    let mut blocks = Vec::new(alloc);
    for _block in 0..200usize {
        let bytes = vec![in alloc; 0u8; 1024]?;
        blocks.push(bytes)?;
    }
    Ok(blocks)
}

// A stake of 200 blocks of zero bytes, whose calls with these numbers fail.
fn zero_stake(alloc: Global, fails: Vec<u64>) -> Result<OwnStake, NoMemory>
    ensures held { IfOk result (λ s. (b l : ℕ) → b < 200 → l < 16 → IsSome (⟦<OwnStake as Stake>⟧.held s b l)) }
    ensures lent { IfOk result (λ s. ⟦<OwnStake as Stake>⟧.lent s ≡ nothing_lent) }
    ensures sizes { IfOk result (λ s. ⟦<OwnStake as Stake>⟧.origin s ≡ record {
      id = fails.items;
      sizes =
          record { block_size = 1024; blocks = 200; first_data = 3 };
    }) }
{
    let sizes = Geometry {
        block_size: 1024,
        blocks: 200,
        first_data: 3,
    };
    let content = zero_blocks(alloc)?;
    let stake = OwnStake::new(alloc, sizes, content, fails)?;
    Ok(stake)
}

// What a byte is that was set, where the call with this number fails.
fn set_with_failing<R: Wait>(
    rt: &R,
    alloc: Global,
    number: u64,
) -> Result<Result<u8, Refusal>, NoMemory> {
    let mut fails = Vec::new(alloc);
    fails.push(number)?;
    let mut stake = zero_stake(alloc, fails)?;
    Ok(set_and_read(rt, &mut stake, 7, 100, 9))
}

#[test]
fn a_byte_that_was_set_is_read_back_unless_a_call_fails(rt: HostRuntime) -> Result<(), Fail> {
    assert_eq!(rt; set_with_failing(&rt, rt.alloc(), 1)?, Err(Refusal::Fault));
    assert_eq!(rt; set_with_failing(&rt, rt.alloc(), 2)?, Err(Refusal::Fault));
    assert_eq!(rt; set_with_failing(&rt, rt.alloc(), 3)?, Ok(9));
    Ok(())
}

#[test]
fn a_part_is_cut_off_and_merged(rt: HostRuntime) -> Result<(), Fail> {
    let lines = [LineRange {
        block: 5,
        first: 0,
        count: 16,
    }];
    let mut stake = zero_stake(rt.alloc(), Vec::new(rt.alloc()))?;
    assert_eq!(rt;
        cut_and_merge(&rt, rt.alloc(), &mut stake, &lines, 4, 5),
        Ok(())
    );
    Ok(())
}

// What making and writing answers, where the call with this number fails.
fn make_with_failing<R: Wait>(
    rt: &R,
    alloc: Global,
    number: u64,
) -> Result<Result<(), Refusal>, NoMemory> {
    let mut fails = Vec::new(alloc);
    fails.push(number)?;
    let mut stake = zero_stake(alloc, fails)?;
    Ok(make_and_write(rt, &mut stake, 7, 8))
}

#[test]
fn fresh_breada_and_bwrite_are_numbered_and_flush_is_not(rt: HostRuntime) -> Result<(), Fail> {
    assert_eq!(rt; make_with_failing(&rt, rt.alloc(), 1)?, Err(Refusal::Fault));
    assert_eq!(rt; make_with_failing(&rt, rt.alloc(), 2)?, Err(Refusal::Fault));
    assert_eq!(rt; make_with_failing(&rt, rt.alloc(), 3)?, Err(Refusal::Fault));
    assert_eq!(rt; make_with_failing(&rt, rt.alloc(), 4)?, Ok(()));
    Ok(())
}

// One byte of the content.
fn byte_at(content: &[Vec<u8>], block: usize, place: usize) -> Option<u8> {
    let bytes = content.get(block)?;
    let byte = bytes.get(place)?;
    Some(*byte)
}

// How many blocks the content has, and the bytes at two places, after one of them was set.
fn content_of<R: Wait>(rt: &R, alloc: Global) -> Result<(usize, Option<u8>, Option<u8>), NoMemory> {
    let mut stake = zero_stake(alloc, Vec::new(alloc))?;
    let _set = set_byte(rt, &mut stake, 7, 100, 9);
    match stake.into_content(alloc) {
        Ok(content) => {
            let seven = byte_at(content.as_slice(), 7, 100);
            let eight = byte_at(content.as_slice(), 8, 100);
            Ok((content.len(), seven, eight))
        }
        Err((_, refused)) => Err(refused),
    }
}

#[test]
fn the_content_is_what_was_put(rt: HostRuntime) -> Result<(), Fail> {
    assert_eq!(rt; content_of(&rt, rt.alloc())?, (200, Some(9), Some(0)));
    Ok(())
}
