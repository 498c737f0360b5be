ghost use Rattle.std.specs.Prelude.{◌≡◌, ◌≤◌, ◌<◌, ◌∷◌, [], ℕ, IfOk, IsSome, length};
ghost use Rattle.std.specs.List.{All};
ghost use Rattle.sv_form.specs.PagePath.{greatest_size};
ghost use Rattle.sv_store.specs.Held.{nothing_lent};
ghost use Rattle.sv_bmap.specs.Tree.{IsTree};

use crate::LockedInode;
use std::alloc::Global;
use std::sync::Wait;
use std::test::Fail;
use sv_form::{Geometry, InodeBody, Kind};
use sv_store::{NoMemory, OwnStake, Refusal, Stake};

// A block whose bytes are its number, but for the first, which is 201, and the last, which is 202.
fn block(alloc: Global, number: u8) -> Result<Vec<u8>, NoMemory>
    ensures { IfOk result (λ bytes. length bytes.items ≡ 1024) }
{
    let mut bytes = vec![in alloc; number; 1024]?;
    bytes[0] = 201;
    bytes[1023] = 202;
    Ok(bytes)
}

// 200 such blocks.
fn blocks(alloc: Global) -> Result<Vec<Vec<u8>>, NoMemory>
    ensures count { IfOk result (λ blocks. length blocks.items ≡ 200) }
    ensures bytes { IfOk result (λ blocks. All (λ bytes. length bytes.items ≡ 1024) blocks.items) }
{
    let mut blocks = Vec::new(alloc);
    for number in 0..200u8 {
        let bytes = block(alloc, number)?;
        blocks.push(bytes)?;
    }
    Ok(blocks)
}

// A stake of these blocks, whose call with this number fails.
fn stake(alloc: Global, failing: u64) -> Result<OwnStake, NoMemory>
    ensures held { IfOk result (λ s. (b l : ℕ) → b < 200 → l < 16 → IsSome (⟦<OwnStake as Stake>⟧.held s b l)) }
    ensures lent { IfOk result (λ s. ⟦<OwnStake as Stake>⟧.lent s ≡ nothing_lent) }
    ensures sizes { IfOk result (λ s. ⟦<OwnStake as Stake>⟧.origin s
        ≡ record { id = failing ∷ []; sizes = record { block_size = 1024; blocks = 200; first_data = 3 } }) }
{
    let sizes = Geometry {
        block_size: 1024,
        blocks: 200,
        first_data: 3,
    };
    let content = blocks(alloc)?;
    let mut fails = Vec::new(alloc);
    fails.push(failing)?;
    let stake = OwnStake::new(alloc, sizes, content, fails)?;
    Ok(stake)
}

// A file of 3,500 bytes: page 0 is block 50, page 1 is a hole, page 2 is block 52, and page 3 is block 53.
const FILE: InodeBody = InodeBody {
    kind: Kind::File,
    mode: 0o644,
    links: 1,
    owner: 0,
    group: 0,
    size: 3500,
    addresses: [50, 0, 52, 53, 0, 0, 0, 0, 0, 0, 0, 0, 0],
    times: [0; 3],
};

// What is read: how many bytes, and the one at a place of them.
type Read = Result<(usize, Option<u8>), Refusal>;

fn read_at<R: Wait, S: Stake>(
    rt: &R,
    alloc: Global,
    inode: &mut LockedInode<S>,
    at: u32,
    count: u32,
    place: usize,
) -> Read
    requires tree { IsTree (S.origin inode.old.stake) (S.held inode.old.stake) inode.old.body.addresses }
    requires size { inode.old.body.size ≤ greatest_size (S.origin inode.old.stake).sizes }
    requires lent { S.lent inode.old.stake ≡ nothing_lent }
{
    let bytes = inode.readi(rt, alloc, at, count)?;
    Ok((bytes.as_slice().len(), bytes.as_slice().get(place).copied()))
}

// What is read of the file, where the call with this number fails.
fn read_of<R: Wait>(
    rt: &R,
    alloc: Global,
    failing: u64,
    at: u32,
    count: u32,
    place: usize,
) -> Read {
    let stake = stake(alloc, failing)?;
    let mut inode = LockedInode {
        number: 3,
        body: FILE,
        stake,
    };
    let read = read_at(rt, alloc, &mut inode, at, count, place);
    let LockedInode {
        number: _,
        body: _,
        stake: _rest,
    } = inode;
    read
}

// The number of the call that fails, the first byte, how many are asked for, a place among those that are read, and the answer.
type Row = (u64, u32, u32, usize, Read);

// The first row whose answer is another one, and what was read.
fn wrong_row<R: Wait>(rt: &R, alloc: Global, rows: &[Row]) -> Option<(Row, Read)> {
    for row in rows {
        let (failing, at, count, place, answer) = *row;
        let read = read_of(rt, alloc, failing, at, count, place);
        if read != answer {
            return Some((*row, read));
        }
    }
    None
}

// No call has this number.
const NONE: u64 = 0;

const INSIDE: [Row; 5] = [
    (NONE, 0, 1, 0, Ok((1, Some(201)))),
    (NONE, 5, 10, 0, Ok((10, Some(50)))),
    (NONE, 2050, 10, 9, Ok((10, Some(52)))),
    (NONE, 1023, 1, 0, Ok((1, Some(202)))),
    (NONE, 100, 0, 0, Ok((0, None))),
];

#[test]
fn a_range_inside_a_page_is_read(rt: HostRuntime) -> Result<(), Fail> {
    assert_eq!(rt; wrong_row(&rt, rt.alloc(), &INSIDE), None);
    Ok(())
}

const HOLES: [Row; 4] = [
    (NONE, 1024, 1024, 0, Ok((1024, Some(0)))),
    (NONE, 1024, 1024, 1023, Ok((1024, Some(0)))),
    (NONE, 1022, 3, 1, Ok((3, Some(202)))),
    (NONE, 1022, 3, 2, Ok((3, Some(0)))),
];

#[test]
fn a_hole_is_read_as_zero_bytes(rt: HostRuntime) -> Result<(), Fail> {
    assert_eq!(rt; wrong_row(&rt, rt.alloc(), &HOLES), None);
    Ok(())
}

const ACROSS: [Row; 7] = [
    (NONE, 1000, 2100, 0, Ok((2100, Some(50)))),
    (NONE, 1000, 2100, 24, Ok((2100, Some(0)))),
    (NONE, 1000, 2100, 1048, Ok((2100, Some(201)))),
    (NONE, 1000, 2100, 1049, Ok((2100, Some(52)))),
    (NONE, 1000, 2100, 2071, Ok((2100, Some(202)))),
    (NONE, 1000, 2100, 2072, Ok((2100, Some(201)))),
    (NONE, 1000, 2100, 2099, Ok((2100, Some(53)))),
];

#[test]
fn a_range_across_pages_is_read_in_order(rt: HostRuntime) -> Result<(), Fail> {
    assert_eq!(rt; wrong_row(&rt, rt.alloc(), &ACROSS), None);
    Ok(())
}

const AT_END: [Row; 4] = [
    (NONE, 3400, 1000, 99, Ok((100, Some(53)))),
    (NONE, 3400, 4294967295, 100, Ok((100, None))),
    (NONE, 3500, 10, 0, Ok((0, None))),
    (NONE, 4294967295, 4294967295, 0, Ok((0, None))),
];

#[test]
fn a_range_ends_with_the_size(rt: HostRuntime) -> Result<(), Fail> {
    assert_eq!(rt; wrong_row(&rt, rt.alloc(), &AT_END), None);
    Ok(())
}

const FAILING: [Row; 5] = [
    (1, 0, 3500, 0, Err(Refusal::Fault)),
    (2, 0, 3500, 0, Err(Refusal::Fault)),
    (3, 0, 3500, 0, Err(Refusal::Fault)),
    (4, 0, 3500, 0, Ok((3500, Some(201)))),
    (1, 1024, 1024, 0, Ok((1024, Some(0)))),
];

#[test]
fn each_page_is_read_once_and_a_failed_read_is_a_fault(rt: HostRuntime) -> Result<(), Fail> {
    assert_eq!(rt; wrong_row(&rt, rt.alloc(), &FAILING), None);
    Ok(())
}
