// Tests of bytes that are put into an empty file. The core has the blocks 5 to 63.
ghost use Rattle.std.specs.Prelude.{◌≡◌, ◌≤◌, ◌+◌, ◌∷◌, [], OnOk, IsSome};
ghost use Rattle.sv_super.specs.Sample.{IsSource};
ghost use Rattle.sv_inode.specs.Ready.{IsReady};

use crate::truncate_tests::{disk_with, let_go};
use crate::{LockedInode, WriteStop};
use std::alloc::Global;
use std::sync::Wait;
use std::test::Fail;
use sv_form::{InodeBody, Kind, LineRange};
use sv_store::{Refusal, Stake};
use sv_super::SuperCore;

// A file without bytes.
pub(crate) const FILE: InodeBody = InodeBody {
    kind: Kind::File,
    mode: 0o644,
    links: 1,
    owner: 0,
    group: 0,
    size: 0,
    addresses: [0; 13],
    times: [0; 3],
};

// The number of data blocks but the first.
const FREE: u32 = 59;

// The bytes of twelve pages, and as many blocks as those can need.
pub(crate) const MOST: usize = 12288;

pub(crate) const ENOUGH: u32 = 48;

// Frees one block, whose lines another stake holds.
fn free_one<R: Wait, S: Stake>(
    rt: &R,
    alloc: Global,
    core: &mut SuperCore<S>,
    source: &mut S,
    b: u32,
) -> Result<(), Refusal>
    requires source { IsSource (S.origin core.old.stake) (S.held core.old.stake) (S.origin source.old) (S.held source.old)
        (S.lent source.old) (b + 1) }
    requires spare { 1 ≤ core.old.spare }
    requires in_data { 4 ≤ b }
    requires line { IsSome (S.held source.old 2 2) }
    ensures source { OnOk result (IsSource (S.origin core.new.stake) (S.held core.new.stake) (S.origin source.new) (S.held source.new)
        (S.lent source.new) b) }
    ensures spare { OnOk result (core.new.spare + 1 ≡ core.old.spare) }
    ensures line { OnOk result (IsSome (S.held source.new 2 2)) }
{
    let _sizes = source.geometry();
    let lines = [LineRange {
        block: b,
        first: 0,
        count: 16,
    }];
    let part = source.part(alloc, &lines)?;
    core.free(rt, b, part);
    Ok(())
}

// Frees all blocks from the last down to block 5.
pub(crate) fn free_each<R: Wait, S: Stake>(
    rt: &R,
    alloc: Global,
    core: &mut SuperCore<S>,
    source: &mut S,
) -> Result<(), Refusal>
    requires source { IsSource (S.origin core.old.stake) (S.held core.old.stake) (S.origin source.old) (S.held source.old)
        (S.lent source.old) 64 }
    requires line { IsSome (S.held source.old 2 2) }
    ensures source { OnOk result (IsSource (S.origin core.new.stake) (S.held core.new.stake) (S.origin source.new) (S.held source.new)
        (S.lent source.new) 5) }
    ensures line { OnOk result (IsSome (S.held source.new 2 2)) }
{
    core.room(FREE)?;
    for k in 0..FREE {
        free_one(rt, alloc, core, source, 63 - k)?;
    }
    Ok(())
}

// What a write answers, and how many blocks are free then.
pub(crate) type Written = (Result<(), WriteStop>, u32);

// Puts up to twelve pages of bytes at the begin of the file, where there are blocks enough for any file.
pub(crate) fn write<R: Wait, S: Stake>(
    rt: &R,
    alloc: Global,
    inode: &mut LockedInode<S>,
    core: &mut SuperCore<S>,
    bytes: &[u8],
) -> Option<Written>
    requires ready { IsReady (S.origin inode.old.stake) (S.held inode.old.stake) (S.lent inode.old.stake) inode.old.number inode.old.body
        (S.origin core.old.stake) (S.held core.old.stake) }
    ensures ready { IsReady (S.origin inode.new.stake) (S.held inode.new.stake) (S.lent inode.new.stake) inode.new.number inode.new.body
        (S.origin core.new.stake) (S.held core.new.stake) }
{
    if bytes.len() > MOST {
        return None;
    }
    if core.left() < ENOUGH {
        return None;
    }
    let answer = inode.writei(rt, alloc, core, 0, bytes);
    Some((answer, core.left()))
}

// What is seen of two writes at the begin of a file: what each answers, the file's size then, what it answers as it is made
// empty, and how many blocks are free in the end.
type Seen = (
    Option<Written>,
    Option<Written>,
    u32,
    Result<(), Refusal>,
    u32,
);

fn two_writes<R: Wait, S: Stake>(
    rt: &R,
    alloc: Global,
    inode: &mut LockedInode<S>,
    core: &mut SuperCore<S>,
    first: &[u8],
    second: &[u8],
) -> Seen
    requires ready { IsReady (S.origin inode.old.stake) (S.held inode.old.stake) (S.lent inode.old.stake) inode.old.number inode.old.body
        (S.origin core.old.stake) (S.held core.old.stake) }
{
    let first = write(rt, alloc, inode, core, first);
    let second = write(rt, alloc, inode, core, second);
    let size = inode.body.size;
    let emptied = inode.truncate(rt, alloc, core);
    (first, second, size, emptied, core.left())
}

// The writes, once all blocks are free.
fn free_and_write<R: Wait, S: Stake>(
    rt: &R,
    alloc: Global,
    inode: &mut LockedInode<S>,
    core: &mut SuperCore<S>,
    first: &[u8],
    second: &[u8],
) -> Result<Seen, Refusal>
    requires source { IsSource (S.origin core.old.stake) (S.held core.old.stake) (S.origin inode.old.stake) (S.held inode.old.stake)
        (S.lent inode.old.stake) 64 }
    requires line { IsSome (S.held inode.old.stake 2 2) }
    requires number { inode.old.number ≡ 3 }
    requires size { inode.old.body.size ≡ 0 }
    requires addresses { inode.old.body.addresses ≡ 0 ∷ 0 ∷ 0 ∷ 0 ∷ 0 ∷ 0 ∷ 0 ∷ 0 ∷ 0 ∷ 0 ∷ 0 ∷ 0 ∷ 0 ∷ [] }
{
    free_each(rt, alloc, core, &mut inode.stake)?;
    Ok(two_writes(rt, alloc, inode, core, first, second))
}

// Two writes, while one call of each stake fails.
fn writes_of<R: Wait>(
    rt: &R,
    alloc: Global,
    failing: u64,
    first: &[u8],
    second: &[u8],
) -> Result<Seen, Refusal> {
    let mut disk = disk_with(alloc, failing, FILE)?;
    let seen = free_and_write(rt, alloc, &mut disk.inode, &mut disk.core, first, second);
    let_go(disk);
    seen
}

// Two writes of so many bytes.
fn run_writes<R: Wait>(
    rt: &R,
    alloc: Global,
    failing: u64,
    first: usize,
    second: usize,
) -> Result<Seen, Refusal> {
    let first = vec![in alloc; 7u8; first]?;
    let second = vec![in alloc; 8u8; second]?;
    writes_of(rt, alloc, failing, first.as_slice(), second.as_slice())
}

#[test]
fn eleven_pages_take_twelve_blocks(rt: HostRuntime) -> Result<(), Fail> {
    assert_eq!(rt;
        run_writes(&rt, rt.alloc(), 0, 11264, 0),
        Ok((Some((Ok(()), 47)), None, 11264, Ok(()), 59))
    );
    Ok(())
}

// What the second of two writes answers while one call of each stake fails. The first is of ten pages, and makes no indirect
// block; the second is of twelve: it reads the ten pages, and then the new indirect block.
fn second_answer(failing: u64) -> Written {
    match failing {
        1 => (Err(WriteStop::Short { done: 0 }), 59),
        3..=10 => {
            let pages = failing as u32 - 1;
            (Err(WriteStop::Short { done: 1024 * pages }), 49)
        }
        _ => (Err(WriteStop::Short { done: 11264 }), 47),
    }
}

#[test]
fn a_write_that_fails_ends_with_a_page(rt: HostRuntime) -> Result<(), Fail> {
    for failing in 1..14u64 {
        let (_, second, _, _, _) = run_writes(&rt, rt.alloc(), failing, 10240, 12288)?;
        assert_eq!(rt; second, Some(second_answer(failing)));
    }
    Ok(())
}
