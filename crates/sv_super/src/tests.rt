// A core over a stake in memory. Its blocks are freed from the last down, which is how the chain of a new image is made.
ghost use Rattle.std.specs.Prelude.{◌≡◌, ◌≢◌, ◌≤◌, ◌<◌, ◌+◌, ◌*◌, ◌∷◌, [], ℕ, IfOk, IfErr, OnOk, IsSome, Some, None};
ghost use Rattle.std.specs.Prelude.{length, replicate, slice_index, true};
ghost use Rattle.std.specs.List.{All};
ghost use Rattle.sv_form.specs.Geometry.{IsDataBlock};
ghost use Rattle.sv_store.specs.Calls.{CanGet};
ghost use Rattle.sv_store.specs.Held.{Apart, HoldsBlock, nothing_lent};
ghost use Rattle.sv_super.specs.Calls.{head_of};
ghost use Rattle.sv_super.specs.Core.{HoldsSuper, left_of};
ghost use Rattle.sv_super.specs.Sample.{IsSource, sample_sizes};

use crate::SuperCore;
use arrayvec::ArrayVec;
use std::alloc::Global;
use std::sync::Wait;
use std::test::Fail;
use sv_form::{Geometry, LineRange, Mounted, Owners, Super};
use sv_store::{NoMemory, OwnStake, Refusal, Stake};

const SIZES: Geometry = Geometry {
    block_size: 1024,
    blocks: 64,
    first_data: 4,
};

// The number of data blocks but the first, which is the root's page.
const FREE: u32 = 59;

// Blocks of zero bytes.
fn zero_blocks(alloc: Global) -> Result<Vec<Vec<u8>>, NoMemory>
    ensures count { IfOk result (λ blocks. length blocks.items ≡ 64) }
    ensures bytes { IfOk result (λ blocks. All (λ bytes. length bytes.items ≡ 1024) blocks.items) }
    ensures zeros { IfOk result (λ blocks. All (λ bytes. bytes.items ≡ replicate 1024 0) blocks.items) }
{
    let mut blocks = Vec::new(alloc);
    for _block in 0..64usize {
        let bytes = vec![in alloc; 0u8; 1024]?;
        blocks.push(bytes)?;
    }
    Ok(blocks)
}

// What the check leaves of an image of which every line belongs to an inode, and each inode is used.
fn mounted(alloc: Global) -> Result<Mounted, NoMemory>
    ensures geometry { IfOk result (λ m. m.owners.geometry ≡ sample_sizes) }
    ensures count { IfOk result (λ m. length m.owners.owners ≡ 1024) }
    ensures owners { IfOk result (λ m. (k : ℕ) → k < 1024 → slice_index m.owners.owners k ≡ 2) }
    ensures sizes { IfOk result (λ m. head_of m.head ≡ record { block_type = 2; first_data = 4; blocks = 64 }) }
    ensures list { IfOk result (λ m. m.head.free.items ≡ 0 ∷ []) }
    ensures used { IfOk result (λ m. m.used.items ≡ replicate 32 true) }
    ensures inodes { IfOk result (λ m. m.head.inodes.items ≡ []) }
{
    let owner = vec![in alloc; 2u16; 1024]?;
    let used = vec![in alloc; true; 32]?;
    let mut free = ArrayVec::new();
    free.push(0);
    let head = Super {
        block_type: 2,
        first_data: 4,
        blocks: 64,
        free,
        inodes: ArrayVec::new(),
    };
    Ok(Mounted {
        geometry: SIZES,
        head,
        owners: Owners::from_vec(SIZES, owner),
        used,
    })
}

// Frees one block, whose lines another stake holds.
fn free_one<R: Wait, S: Stake>(
    rt: &R,
    alloc: Global,
    core: &mut SuperCore<S>,
    source: &mut S,
    b: u32,
) -> Result<(), Refusal>
    requires source { IsSource (S.origin core.old.stake) (S.held core.old.stake)
        (S.origin source.old) (S.held source.old) (S.lent source.old) (b + 1) }
    requires spare { 1 ≤ core.old.spare }
    requires in_data { 4 ≤ b }
    ensures source { OnOk result (IsSource (S.origin core.new.stake) (S.held core.new.stake)
        (S.origin source.new) (S.held source.new) (S.lent source.new) b) }
    ensures spare { OnOk result (core.new.spare + 1 ≡ core.old.spare) }
    ensures left { OnOk result (left_of core.new ≡ left_of core.old + 1) }
{
    let _sizes = source.geometry();
    let lines = [LineRange {
        block: b,
        first: 0,
        count: 16,
    }];
    let part = source.part(alloc, &lines)?;
    core.free(rt, b, part);
    Ok(())
}

// Frees all blocks from the last down to block 5.
fn free_all<R: Wait, S: Stake>(
    rt: &R,
    alloc: Global,
    core: &mut SuperCore<S>,
    source: &mut S,
) -> Result<(), Refusal>
    requires source { IsSource (S.origin core.old.stake) (S.held core.old.stake)
        (S.origin source.old) (S.held source.old) (S.lent source.old) 64 }
    ensures left { OnOk result (left_of core.new ≡ left_of core.old + 59) }
{
    core.room(FREE)?;
    for k in 0..FREE {
        free_one(rt, alloc, core, source, 63 - k)?;
    }
    Ok(())
}

// The next blocks that are handed out, each in two digits.
fn take<R: Wait, S: Stake + Drop>(
    rt: &R,
    alloc: Global,
    core: &mut SuperCore<S>,
    count: u32,
) -> Result<u64, Refusal>
    requires { count ≤ left_of core.old }
    ensures left { OnOk result (left_of core.new + count ≡ left_of core.old) }
    ensures spare { core.new.spare ≡ core.old.spare }
    ensures kept { (b l : ℕ) → S.held core.old.stake b l ≡ None → S.held core.new.stake b l ≡ None }
    ensures origin { S.origin core.new.stake ≡ S.origin core.old.stake }
{
    let mut row = 0u64;
    for _taken in 0..count {
        let (block, _part) = core.alloc(rt, alloc)?;
        row = row.wrapping_mul(100).wrapping_add(u64::from(block));
    }
    Ok(row)
}

// Nine blocks, one more, and one more.
fn three_rows<R: Wait, S: Stake + Drop>(
    rt: &R,
    alloc: Global,
    core: &mut SuperCore<S>,
    source: &mut S,
) -> Result<(u64, u64, u64), Refusal>
    requires source { IsSource (S.origin core.old.stake) (S.held core.old.stake)
        (S.origin source.old) (S.held source.old) (S.lent source.old) 64 }
{
    free_all(rt, alloc, core, source)?;
    let nine = take(rt, alloc, core, 9)?;
    let tenth = take(rt, alloc, core, 1)?;
    let next = take(rt, alloc, core, 1)?;
    Ok((nine, tenth, next))
}

// The first block is taken, then nine more, and the first is freed again: how many are left before that and after it,
// and the next two blocks.
fn freed_again<R: Wait, S: Stake + Drop>(
    rt: &R,
    alloc: Global,
    core: &mut SuperCore<S>,
    source: &mut S,
) -> Result<(u32, u32, u32, u64), Refusal>
    requires source { IsSource (S.origin core.old.stake) (S.held core.old.stake)
        (S.origin source.old) (S.held source.old) (S.lent source.old) 64 }
{
    free_all(rt, alloc, core, source)?;
    core.room(1)?;
    let (first, part) = core.alloc(rt, alloc)?;
    let taken = take(rt, alloc, core, 9);
    let before = core.left();
    core.free(rt, first, part);
    let after = core.left();
    let _nine = taken?;
    let next = take(rt, alloc, core, 2)?;
    Ok((first, before, after, next))
}

// All blocks are freed, and the core is flushed: whether it failed, how many are left before that and after it, and the
// next two blocks.
fn flushed<R: Wait, S: Stake + Drop>(
    rt: &R,
    alloc: Global,
    core: &mut SuperCore<S>,
    source: &mut S,
) -> Result<(bool, u32, u32, u64), Refusal>
    requires source { IsSource (S.origin core.old.stake) (S.held core.old.stake)
        (S.origin source.old) (S.held source.old) (S.lent source.old) 64 }
{
    free_all(rt, alloc, core, source)?;
    let before = core.left();
    let failed = core.flush(rt).is_err();
    let after = core.left();
    let next = take(rt, alloc, core, 2)?;
    Ok((failed, before, after, next))
}

// Bytes of a block from a place on.
fn bytes_at<const N: usize>(bytes: &[u8], at: usize) -> [u8; N] {
    let mut row = [0u8; N];
    for (k, to) in row.iter_mut().enumerate() {
        *to = bytes.get(at.saturating_add(k)).copied().unwrap_or(0);
    }
    row
}

// The superblock that a stake holds, up to the ten free blocks.
fn super_begin<R: Wait, S: Stake>(rt: &R, stake: &mut S) -> Result<[u8; 56], Refusal>
    requires lines { HoldsSuper (S.origin stake.old) (S.held stake.old) }
    requires lent { S.lent stake.old ≡ nothing_lent }
{
    let place = stake.geometry().super_place();
    let buf = stake.bread(rt, place.block)?;
    let row = bytes_at(buf.bytes(), usize::from(place.line) * 64);
    stake.brelse(rt, buf);
    Ok(row)
}

// All blocks are freed, and the core is flushed.
fn free_and_flush<R: Wait, S: Stake>(
    rt: &R,
    alloc: Global,
    core: &mut SuperCore<S>,
    source: &mut S,
) -> Result<(), Refusal>
    requires source { IsSource (S.origin core.old.stake) (S.held core.old.stake)
        (S.origin source.old) (S.held source.old) (S.lent source.old) 64 }
{
    free_all(rt, alloc, core, source)?;
    core.flush(rt)
}

// The bytes of a list in a block that a stake holds.
fn list_bytes<R: Wait, S: Stake>(rt: &R, stake: &mut S, b: u32) -> Result<[u8; 204], Refusal>
    requires { CanGet (S.held stake.old) (S.lent stake.old) b }
{
    let buf = stake.bread(rt, b)?;
    let row = bytes_at(buf.bytes(), 0);
    stake.brelse(rt, buf);
    Ok(row)
}

// All blocks are freed, and nine are taken: the next one, which was freed into a full list, and the list in it.
fn read_back<R: Wait, S: Stake + Drop>(
    rt: &R,
    alloc: Global,
    core: &mut SuperCore<S>,
    source: &mut S,
) -> Result<(u32, [u8; 204]), Refusal>
    requires source { IsSource (S.origin core.old.stake) (S.held core.old.stake)
        (S.origin source.old) (S.held source.old) (S.lent source.old) 64 }
{
    free_all(rt, alloc, core, source)?;
    let _nine = take(rt, alloc, core, 9)?;
    let (block, part) = core.alloc(rt, alloc)?;
    let mut part = part;
    let _sizes = part.geometry();
    let bytes = list_bytes(rt, &mut part, block)?;
    Ok((block, bytes))
}

// Hands back all lines; they have those of the superblock, and nothing is lent.
fn take_back<S: Stake>(core: SuperCore<S>) -> S
    ensures lines { HoldsSuper (S.origin result) (S.held result) }
    ensures lent { S.lent result ≡ nothing_lent }
{
    let _left = core.left();
    core.give_up()
}

// The number of the next inode.
fn first_inode<S: Stake + Drop>(
    alloc: Global,
    core: &mut SuperCore<S>,
) -> Result<Option<u16>, Refusal> {
    match core.ialloc(alloc)? {
        Some((n, _part)) => Ok(Some(n)),
        None => Ok(None),
    }
}

// Inode 3 is freed: how many are free then, and the next two that are handed out.
fn inode_freed<S: Stake + Drop>(
    alloc: Global,
    core: &mut SuperCore<S>,
    source: &mut S,
) -> Result<(u32, Option<u16>, Option<u16>), Refusal>
    requires source { IsSource (S.origin core.old.stake) (S.held core.old.stake)
        (S.origin source.old) (S.held source.old) (S.lent source.old) 64 }
    requires used { core.old.inodes.used ≡ replicate 32 true }
    requires line { S.held source.old 2 2 ≡ Some (replicate 64 0) }
{
    let lines = [LineRange {
        block: 2,
        first: 2,
        count: 1,
    }];
    let part = source.part(alloc, &lines)?;
    core.ifree(3, part);
    let left = core.inodes_left();
    let first = first_inode(alloc, core)?;
    let second = first_inode(alloc, core)?;
    Ok((left, first, second))
}

// A stake of 64 blocks, in whose parts one call fails.
fn whole_stake(alloc: Global, failing: u64) -> Result<OwnStake, NoMemory>
    ensures held { IfOk result (λ s. (b l : ℕ) → b < 64 → l < 16 → IsSome (⟦<OwnStake as Stake>⟧.held s b l)) }
    ensures first { IfOk result (λ s. ⟦<OwnStake as Stake>⟧.held s 2 0 ≡ Some (replicate 64 0)) }
    ensures line { IfOk result (λ s. ⟦<OwnStake as Stake>⟧.held s 2 2 ≡ Some (replicate 64 0)) }
    ensures lent { IfOk result (λ s. ⟦<OwnStake as Stake>⟧.lent s ≡ nothing_lent) }
    ensures sizes { IfOk result (λ s. (⟦<OwnStake as Stake>⟧.origin s).sizes ≡ sample_sizes) }
{
    let content = zero_blocks(alloc)?;
    let mut fails = Vec::new(alloc);
    fails.push(failing)?;
    let stake = OwnStake::new(alloc, SIZES, content, fails)?;
    Ok(stake)
}

// The lines of the superblock and of inode 1, as a core without free blocks.
fn empty_core<S: Stake>(
    alloc: Global,
    source: &mut S,
) -> Result<Result<SuperCore<S>, (S, NoMemory)>, Refusal>
    requires held { (b l : ℕ) → b < 64 → l < 16 → IsSome (S.held source.old b l) }
    requires lent { S.lent source.old ≡ nothing_lent }
    requires sizes { (S.origin source.old).sizes ≡ sample_sizes }
    requires first { S.held source.old 2 0 ≡ Some (replicate 64 0) }
    requires line { S.held source.old 2 2 ≡ Some (replicate 64 0) }
    ensures source { IfOk result (λ made. IfOk made (λ core. IsSource (S.origin core.stake) (S.held core.stake)
        (S.origin source.new) (S.held source.new) (S.lent source.new) 64)) }
    ensures used { IfOk result (λ made. IfOk made (λ core. core.inodes.used ≡ replicate 32 true)) }
    ensures line { OnOk result (S.held source.new 2 2 ≡ Some (replicate 64 0)) }
{
    let lines = [
        LineRange {
            block: 0,
            first: 8,
            count: 8,
        },
        LineRange {
            block: 2,
            first: 0,
            count: 1,
        },
    ];
    let mounted = mounted(alloc)?;
    let stake = source.part(alloc, &lines)?;
    Ok(SuperCore::new(alloc, stake, &mounted))
}

fn run_three<R: Wait>(rt: &R, alloc: Global, failing: u64) -> Result<(u64, u64, u64), Refusal> {
    let mut source = whole_stake(alloc, failing)?;
    match empty_core(alloc, &mut source)? {
        Ok(mut core) => {
            let rows = three_rows(rt, alloc, &mut core, &mut source);
            let _stake = core.give_up();
            rows
        }
        Err(_) => Err(Refusal::NoMemory),
    }
}

fn run_again<R: Wait>(
    rt: &R,
    alloc: Global,
    failing: u64,
) -> Result<(u32, u32, u32, u64), Refusal> {
    let mut source = whole_stake(alloc, failing)?;
    match empty_core(alloc, &mut source)? {
        Ok(mut core) => {
            let rows = freed_again(rt, alloc, &mut core, &mut source);
            let _stake = core.give_up();
            rows
        }
        Err(_) => Err(Refusal::NoMemory),
    }
}

fn run_flushed<R: Wait>(
    rt: &R,
    alloc: Global,
    failing: u64,
) -> Result<(bool, u32, u32, u64), Refusal> {
    let mut source = whole_stake(alloc, failing)?;
    match empty_core(alloc, &mut source)? {
        Ok(mut core) => {
            let rows = flushed(rt, alloc, &mut core, &mut source);
            let _stake = core.give_up();
            rows
        }
        Err(_) => Err(Refusal::NoMemory),
    }
}

fn run_written<R: Wait>(rt: &R, alloc: Global) -> Result<[u8; 56], Refusal> {
    let mut source = whole_stake(alloc, 0)?;
    match empty_core(alloc, &mut source)? {
        Ok(mut core) => {
            let done = free_and_flush(rt, alloc, &mut core, &mut source);
            let mut stake = take_back(core);
            let row = super_begin(rt, &mut stake);
            done?;
            row
        }
        Err(_) => Err(Refusal::NoMemory),
    }
}

fn run_read_back<R: Wait>(rt: &R, alloc: Global) -> Result<(u32, [u8; 204]), Refusal> {
    let mut source = whole_stake(alloc, 0)?;
    match empty_core(alloc, &mut source)? {
        Ok(mut core) => {
            let rows = read_back(rt, alloc, &mut core, &mut source);
            let _stake = core.give_up();
            rows
        }
        Err(_) => Err(Refusal::NoMemory),
    }
}

fn run_inode(alloc: Global) -> Result<(u32, Option<u16>, Option<u16>), Refusal> {
    let mut source = whole_stake(alloc, 0)?;
    match empty_core(alloc, &mut source)? {
        Ok(mut core) => {
            let rows = inode_freed(alloc, &mut core, &mut source);
            let _stake = core.give_up();
            rows
        }
        Err(_) => Err(Refusal::NoMemory),
    }
}

// Fifty numbers: no link, and 63 down to 15.
const FULL: [u8; 204] = [
    50, 0, 0, 0, 0, 0, 0, 0, 63, 0, 0, 0, 62, 0, 0, 0, 61, 0, 0, 0, 60, 0, 0, 0, 59, 0, 0, 0, 58,
    0, 0, 0, 57, 0, 0, 0, 56, 0, 0, 0, 55, 0, 0, 0, 54, 0, 0, 0, 53, 0, 0, 0, 52, 0, 0, 0, 51, 0,
    0, 0, 50, 0, 0, 0, 49, 0, 0, 0, 48, 0, 0, 0, 47, 0, 0, 0, 46, 0, 0, 0, 45, 0, 0, 0, 44, 0, 0,
    0, 43, 0, 0, 0, 42, 0, 0, 0, 41, 0, 0, 0, 40, 0, 0, 0, 39, 0, 0, 0, 38, 0, 0, 0, 37, 0, 0, 0,
    36, 0, 0, 0, 35, 0, 0, 0, 34, 0, 0, 0, 33, 0, 0, 0, 32, 0, 0, 0, 31, 0, 0, 0, 30, 0, 0, 0, 29,
    0, 0, 0, 28, 0, 0, 0, 27, 0, 0, 0, 26, 0, 0, 0, 25, 0, 0, 0, 24, 0, 0, 0, 23, 0, 0, 0, 22, 0,
    0, 0, 21, 0, 0, 0, 20, 0, 0, 0, 19, 0, 0, 0, 18, 0, 0, 0, 17, 0, 0, 0, 16, 0, 0, 0, 15, 0, 0,
    0,
];

#[test]
fn a_block_freed_into_a_full_list_has_the_list(rt: HostRuntime) -> Result<(), Fail> {
    assert_eq!(rt; run_read_back(&rt, rt.alloc()), Ok((14, FULL)));
    Ok(())
}

#[test]
fn an_inode_that_was_freed_is_handed_out(rt: HostRuntime) -> Result<(), Fail> {
    assert_eq!(rt; run_inode(rt.alloc()), Ok((1, Some(3), None)));
    Ok(())
}

// The magic number, block type 2, the first data block 4, 64 blocks, ten free blocks, which are 14 down to 5, and no cached inode.
#[test]
fn a_flush_spells_the_superblock(rt: HostRuntime) -> Result<(), Fail> {
    let spelled = [
        0x53, 0x56, 0x35, 0x46, 2, 0, 4, 0, 64, 0, 0, 0, 10, 0, 0, 0, 14, 0, 0, 0, 13, 0, 0, 0, 12,
        0, 0, 0, 11, 0, 0, 0, 10, 0, 0, 0, 9, 0, 0, 0, 8, 0, 0, 0, 7, 0, 0, 0, 6, 0, 0, 0, 5, 0, 0,
        0,
    ];
    assert_eq!(rt; run_written(&rt, rt.alloc()), Ok(spelled));
    Ok(())
}

#[test]
fn a_flush_links_what_was_set_aside_and_loses_no_block(rt: HostRuntime) -> Result<(), Fail> {
    assert_eq!(rt; run_flushed(&rt, rt.alloc(), 0), Ok((false, 59, 59, 506)));
    assert_eq!(rt; run_flushed(&rt, rt.alloc(), 1), Ok((false, 59, 59, 1405)));
    assert_eq!(rt; run_flushed(&rt, rt.alloc(), 2), Ok((true, 59, 59, 506)));
    assert_eq!(rt; run_flushed(&rt, rt.alloc(), 3), Ok((false, 59, 59, 506)));
    Ok(())
}

#[test]
fn blocks_come_in_the_order_of_the_chain(rt: HostRuntime) -> Result<(), Fail> {
    let rows = (50_607_080_910_111_213, 14, 15);
    assert_eq!(rt; run_three(&rt, rt.alloc(), 0), Ok(rows));
    Ok(())
}

#[test]
fn a_link_block_that_cannot_be_read_is_not_handed_out(rt: HostRuntime) -> Result<(), Fail> {
    assert_eq!(rt; run_three(&rt, rt.alloc(), 2), Err(Refusal::Fault));
    Ok(())
}

#[test]
fn a_block_whose_list_cannot_be_written_is_set_aside(rt: HostRuntime) -> Result<(), Fail> {
    let rows = (140_506_070_809_101_112, 13, 15);
    assert_eq!(rt; run_three(&rt, rt.alloc(), 1), Ok(rows));
    Ok(())
}

#[test]
fn a_freed_block_comes_first_with_and_without_a_fault(rt: HostRuntime) -> Result<(), Fail> {
    for failing in [0u64, 3] {
        assert_eq!(rt; run_again(&rt, rt.alloc(), failing), Ok((5, 49, 50, 515)));
    }
    Ok(())
}
