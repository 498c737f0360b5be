// Tests of bytes that are put into a file and read back. The file has 3,000 bytes before, each 7; those that are put are each 8.
ghost use Rattle.std.specs.Prelude.{◌≡◌, ◌≤◌, ◌∷◌, [], IsSome};
ghost use Rattle.sv_form.specs.PagePath.{greatest_size};
ghost use Rattle.sv_store.specs.Held.{nothing_lent};
ghost use Rattle.sv_super.specs.Sample.{IsSource};
ghost use Rattle.sv_bmap.specs.Tree.{IsTree};
ghost use Rattle.sv_inode.specs.Ready.{IsReady};

use crate::LockedInode;
use crate::truncate_tests::{disk_with, let_go};
use crate::write_tests::{ENOUGH, FILE, MOST, free_each};
use std::alloc::Global;
use std::sync::Wait;
use std::test::Fail;
use sv_store::{Refusal, Stake};
use sv_super::SuperCore;

// Puts bytes at a place of the first twelve pages, where there are blocks enough for any file; whether all were put.
fn put_at<R: Wait, S: Stake>(
    rt: &R,
    alloc: Global,
    inode: &mut LockedInode<S>,
    core: &mut SuperCore<S>,
    at: u32,
    bytes: &[u8],
) -> bool
    requires ready { IsReady (S.origin inode.old.stake) (S.held inode.old.stake) (S.lent inode.old.stake) inode.old.number inode.old.body
        (S.origin core.old.stake) (S.held core.old.stake) }
    ensures ready { IsReady (S.origin inode.new.stake) (S.held inode.new.stake) (S.lent inode.new.stake) inode.new.number inode.new.body
        (S.origin core.new.stake) (S.held core.new.stake) }
{
    if bytes.len() > MOST || at as usize > MOST - bytes.len() {
        return false;
    }
    if core.left() < ENOUGH {
        return false;
    }
    let answer = inode.writei(rt, alloc, core, at, bytes);
    answer.is_ok()
}

// What is read: four bytes, those past the file's end as 255.
fn read_four<R: Wait, S: Stake>(
    rt: &R,
    alloc: Global,
    inode: &mut LockedInode<S>,
    at: u32,
) -> Result<[u8; 4], Refusal>
    requires tree { IsTree (S.origin inode.old.stake) (S.held inode.old.stake) inode.old.body.addresses }
    requires size { inode.old.body.size ≤ greatest_size (S.origin inode.old.stake).sizes }
    requires lent { S.lent inode.old.stake ≡ nothing_lent }
{
    let bytes = inode.readi(rt, alloc, at, 4)?;
    let mut four = [255u8; 4];
    for (k, to) in four.iter_mut().enumerate() {
        *to = bytes.as_slice().get(k).copied().unwrap_or(255);
    }
    Ok(four)
}

// The file's bytes are put, then others at a place, and four are read; none where not all could be put.
fn put_and_read<R: Wait, S: Stake>(
    rt: &R,
    alloc: Global,
    inode: &mut LockedInode<S>,
    core: &mut SuperCore<S>,
    all: &[u8],
    at: u32,
    others: &[u8],
    from: u32,
) -> Option<Result<[u8; 4], Refusal>>
    requires ready { IsReady (S.origin inode.old.stake) (S.held inode.old.stake) (S.lent inode.old.stake) inode.old.number inode.old.body
        (S.origin core.old.stake) (S.held core.old.stake) }
{
    let all_put = put_at(rt, alloc, inode, core, 0, all);
    let others_put = put_at(rt, alloc, inode, core, at, others);
    if !(all_put & others_put) || inode.body.size > 12288 {
        return None;
    }
    Some(read_four(rt, alloc, inode, from))
}

// The same, once all blocks are free.
fn free_put_and_read<R: Wait, S: Stake>(
    rt: &R,
    alloc: Global,
    inode: &mut LockedInode<S>,
    core: &mut SuperCore<S>,
    all: &[u8],
    at: u32,
    others: &[u8],
    from: u32,
) -> Result<Option<Result<[u8; 4], Refusal>>, Refusal>
    requires source { IsSource (S.origin core.old.stake) (S.held core.old.stake) (S.origin inode.old.stake) (S.held inode.old.stake)
        (S.lent inode.old.stake) 64 }
    requires line { IsSome (S.held inode.old.stake 2 2) }
    requires number { inode.old.number ≡ 3 }
    requires size { inode.old.body.size ≡ 0 }
    requires addresses { inode.old.body.addresses ≡ 0 ∷ 0 ∷ 0 ∷ 0 ∷ 0 ∷ 0 ∷ 0 ∷ 0 ∷ 0 ∷ 0 ∷ 0 ∷ 0 ∷ 0 ∷ [] }
{
    free_each(rt, alloc, core, &mut inode.stake)?;
    Ok(put_and_read(rt, alloc, inode, core, all, at, others, from))
}

// Where bytes are put, how many, from where on four are read, and those.
type Row = (u32, usize, u32, [u8; 4]);

type Read = Result<Option<Result<[u8; 4], Refusal>>, Refusal>;

fn read_of<R: Wait>(rt: &R, alloc: Global, at: u32, count: usize, from: u32) -> Read {
    let all = vec![in alloc; 7u8; 3000]?;
    let others = vec![in alloc; 8u8; count]?;
    let mut disk = disk_with(alloc, 0, FILE)?;
    let read = free_put_and_read(
        rt,
        alloc,
        &mut disk.inode,
        &mut disk.core,
        all.as_slice(),
        at,
        others.as_slice(),
        from,
    );
    let_go(disk);
    read
}

// The first row of which other bytes are read, and what was read.
fn wrong_row<R: Wait>(rt: &R, alloc: Global, rows: &[Row]) -> Option<(Row, Read)> {
    for row in rows {
        let (at, count, from, four) = *row;
        let read = read_of(rt, alloc, at, count, from);
        if read != Ok(Some(Ok(four))) {
            return Some((*row, read));
        }
    }
    None
}

const INSIDE: [Row; 4] = [
    (1500, 10, 1498, [7, 7, 8, 8]),
    (1500, 10, 1508, [8, 8, 7, 7]),
    (1020, 8, 1018, [7, 7, 8, 8]),
    (1020, 8, 1026, [8, 8, 7, 7]),
];

#[test]
fn bytes_put_in_the_middle_are_read_back(rt: HostRuntime) -> Result<(), Fail> {
    assert_eq!(rt; wrong_row(&rt, rt.alloc(), &INSIDE), None);
    Ok(())
}

const AT_END: [Row; 5] = [
    (2998, 10, 2996, [7, 7, 8, 8]),
    (2998, 10, 3006, [8, 8, 255, 255]),
    (3000, 100, 2998, [7, 7, 8, 8]),
    (5000, 4, 2998, [7, 7, 0, 0]),
    (5000, 4, 5002, [8, 8, 255, 255]),
];

#[test]
fn bytes_put_at_the_end_are_read_back(rt: HostRuntime) -> Result<(), Fail> {
    assert_eq!(rt; wrong_row(&rt, rt.alloc(), &AT_END), None);
    Ok(())
}

const SMALLER: [Row; 3] = [
    (0, 1500, 0, [8, 8, 8, 8]),
    (0, 1500, 1498, [8, 8, 7, 7]),
    (0, 1500, 2998, [7, 7, 255, 255]),
];

#[test]
fn fewer_bytes_than_the_file_has_leave_its_rest(rt: HostRuntime) -> Result<(), Fail> {
    assert_eq!(rt; wrong_row(&rt, rt.alloc(), &SMALLER), None);
    Ok(())
}
