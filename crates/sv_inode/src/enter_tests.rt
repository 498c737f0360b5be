// Tests of names that are entered into a directory. The core has the blocks 5 to 63.
ghost use Rattle.std.specs.Prelude.{◌≡◌, ◌≤◌, ◌∷◌, [], IsSome};
ghost use Rattle.sv_store.specs.Held.{Held, Origin};
ghost use Rattle.sv_super.specs.Sample.{IsSource};
ghost use Rattle.sv_inode.specs.Ready.{IsReady};

use crate::LockedInode;
use crate::truncate_tests::{disk_with, let_go};
use crate::write_tests::{ENOUGH, MOST, free_each, write};
use std::alloc::Global;
use std::sync::Wait;
use std::test::Fail;
use sv_form::{InodeBody, Kind, Name};
use sv_store::{NoMemory, Refusal, Stake};
use sv_super::SuperCore;

// A directory without bytes.
const DIRECTORY: InodeBody = InodeBody {
    kind: Kind::Dir,
    mode: 0o755,
    links: 2,
    owner: 0,
    group: 0,
    size: 0,
    addresses: [0; 13],
    times: [0; 3],
};

// The inode that is entered.
const NUMBER: u16 = 513;

// Entries of inode 1799, whose bytes in this range are zero.
fn entries(alloc: Global, size: u32, empty: (u32, u32)) -> Result<Vec<u8>, NoMemory> {
    let mut bytes = Vec::new(alloc);
    for i in 0..size {
        let byte = if empty.0 <= i && i < empty.1 { 0 } else { 7 };
        bytes.push(byte)?;
    }
    Ok(bytes)
}

// Enters a name, where there are blocks enough for any entry.
fn enter<R: Wait, S: Stake>(
    rt: &R,
    alloc: Global,
    inode: &mut LockedInode<S>,
    core: &mut SuperCore<S>,
    name: &Name,
) -> Option<Result<(), Refusal>>
    requires ready { IsReady (S.origin inode.old.stake) (S.held inode.old.stake) (S.lent inode.old.stake) inode.old.number inode.old.body
        (S.origin core.old.stake) (S.held core.old.stake) }
    ensures ready { IsReady (S.origin inode.new.stake) (S.held inode.new.stake) (S.lent inode.new.stake) inode.new.number inode.new.body
        (S.origin core.new.stake) (S.held core.new.stake) }
{
    if inode.body.size as usize > MOST {
        return None;
    }
    if core.left() < ENOUGH {
        return None;
    }
    Some(inode.enter(rt, alloc, core, name, NUMBER))
}

// The inode that a name leads to.
fn look<R: Wait, S: Stake>(rt: &R, inode: &mut LockedInode<S>, name: &Name) -> Option<u16>
    requires ready { (p : Origin) × ((k : Held) × IsReady (S.origin inode.old.stake) (S.held inode.old.stake) (S.lent inode.old.stake)
        inode.old.number inode.old.body p k) }
{
    if inode.body.size as usize > MOST {
        return None;
    }
    match inode.look(rt, name) {
        Ok(found) => found,
        Err(_) => None,
    }
}

// What is seen as a name is entered: the answer, the directory's size then, how many blocks are free, and where the name leads.
type Seen = (Option<Result<(), Refusal>>, u32, u32, Option<u16>);

fn entered<R: Wait, S: Stake>(
    rt: &R,
    alloc: Global,
    inode: &mut LockedInode<S>,
    core: &mut SuperCore<S>,
    entries: &[u8],
    name: &Name,
) -> Seen
    requires ready { IsReady (S.origin inode.old.stake) (S.held inode.old.stake) (S.lent inode.old.stake) inode.old.number inode.old.body
        (S.origin core.old.stake) (S.held core.old.stake) }
{
    let _written = write(rt, alloc, inode, core, entries);
    let answer = enter(rt, alloc, inode, core, name);
    let found = look(rt, inode, name);
    (answer, inode.body.size, core.left(), found)
}

// Enters the name once all blocks are free.
fn free_and_enter<R: Wait, S: Stake>(
    rt: &R,
    alloc: Global,
    inode: &mut LockedInode<S>,
    core: &mut SuperCore<S>,
    entries: &[u8],
    name: &Name,
) -> Result<Seen, Refusal>
    requires source { IsSource (S.origin core.old.stake) (S.held core.old.stake) (S.origin inode.old.stake) (S.held inode.old.stake)
        (S.lent inode.old.stake) 64 }
    requires line { IsSome (S.held inode.old.stake 2 2) }
    requires number { inode.old.number ≡ 3 }
    requires size { inode.old.body.size ≡ 0 }
    requires addresses { inode.old.body.addresses ≡ 0 ∷ 0 ∷ 0 ∷ 0 ∷ 0 ∷ 0 ∷ 0 ∷ 0 ∷ 0 ∷ 0 ∷ 0 ∷ 0 ∷ 0 ∷ [] }
{
    free_each(rt, alloc, core, &mut inode.stake)?;
    Ok(entered(rt, alloc, inode, core, entries, name))
}

// A name is entered, while one call of each stake fails.
fn run_enter<R: Wait>(
    rt: &R,
    alloc: Global,
    failing: u64,
    entries: &[u8],
    name: &Name,
) -> Result<Seen, Refusal> {
    let mut disk = disk_with(alloc, failing, DIRECTORY)?;
    let seen = free_and_enter(rt, alloc, &mut disk.inode, &mut disk.core, entries, name);
    let_go(disk);
    seen
}

// The name "b" is entered into a directory of so many bytes, some of them zero.
fn run_row<R: Wait>(rt: &R, alloc: Global, row: &Row) -> Result<Seen, Refusal> {
    let Some(name) = Name::read(b"b") else {
        return Err(Refusal::NoMemory);
    };
    let entries = entries(alloc, row.size, row.empty)?;
    run_enter(rt, alloc, row.failing, entries.as_slice(), &name)
}

// A directory's size, the range of its bytes that are zero, the number of the call that fails, and what is seen.
#[derive(Clone, Copy)]
struct Row {
    size: u32,
    empty: (u32, u32),
    failing: u64,
    seen: Seen,
}

const ROWS: [Row; 6] = [
    // the first of two empty entries
    Row {
        size: 1040,
        empty: (32, 64),
        failing: 0,
        seen: (Some(Ok(())), 1040, 57, Some(NUMBER)),
    },
    // the only empty entry stands in the second page
    Row {
        size: 1040,
        empty: (1024, 1040),
        failing: 0,
        seen: (Some(Ok(())), 1040, 57, Some(NUMBER)),
    },
    // at the end, within a page
    Row {
        size: 1040,
        empty: (0, 0),
        failing: 0,
        seen: (Some(Ok(())), 1056, 57, Some(NUMBER)),
    },
    // at the end, with a new page
    Row {
        size: 1024,
        empty: (0, 0),
        failing: 0,
        seen: (Some(Ok(())), 1040, 57, Some(NUMBER)),
    },
    // at the end, with a new page and an indirect block
    Row {
        size: 10240,
        empty: (0, 0),
        failing: 0,
        seen: (Some(Ok(())), 10256, 47, Some(NUMBER)),
    },
    // the second page cannot be read
    Row {
        size: 1040,
        empty: (0, 0),
        failing: 2,
        seen: (Some(Err(Refusal::Fault)), 1040, 57, None),
    },
];

#[test]
fn a_name_is_entered_in_the_first_empty_place(rt: HostRuntime) -> Result<(), Fail> {
    for row in ROWS {
        assert_eq!(rt; run_row(&rt, rt.alloc(), &row), Ok(row.seen));
    }
    Ok(())
}
