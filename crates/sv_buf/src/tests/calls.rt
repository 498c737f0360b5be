//! Each call in each scenario that needs one thread alone, with transfers failing in turn: what it answers, and what the disk is asked.
ghost use Rattle.std.specs.Prelude.{◌≡◌, ◌<◌, IfOk, length};
ghost use Rattle.sv_turn.specs.Passes.{first_view};
ghost use Rattle.sv_buf.specs.Ending.{HasAll};
ghost use Rattle.sv_buf.specs.Sharing.{IsShare, KeepsLines};

use super::{SIZES, disk, end, exchange, open, stop_all};
use crate::NoMemory;
use crate::cache::{Cache, CachePass};
use std::alloc::Global;
use std::sync::Wait;
use std::test::Fail as TestFail;
use sv_dev::{Access, Disk, Fail};
use sv_store::{Refusal, Stake};

// A call on a block: its first byte is read, is made 9 by a delayed write, or is made 9 by a write at once; the block is made anew; the
// block is read and the next one read ahead; or all is flushed.
#[derive(Clone, Copy, Debug, PartialEq, Eq)]
pub(super) enum Call {
    Read,
    Set,
    SetNow,
    Zeros,
    Ahead,
    Flush,
}

use Call::{Ahead, Flush, Read, Set, SetNow, Zeros};

// Calls in their order with what they answer, the first byte that was there; the transfer that fails; what the disk was asked until the
// cache is closed; and whether the close wrote all.
#[derive(Drop)]
struct Row<'a> {
    calls: &'a [(Call, u32, Result<u8, Refusal>)],
    fails: &'a [Fail],
    log: &'a [Access],
    closed: bool,
}

fn read<R: Wait, S: Stake>(rt: &R, stake: &mut S, block: u32) -> Result<u8, Refusal>
    requires share { IsShare 0 16 (S.origin stake.old) (S.held stake.old) (S.lent stake.old) }
    requires block { block < 10 }
    ensures kept { KeepsLines S.held S.lent S.origin stake.old stake.new }
{
    let buf = stake.bread(rt, block)?;
    let got = buf.bytes()[0];
    stake.brelse(rt, buf);
    Ok(got)
}

fn read_ahead<R: Wait, S: Stake>(rt: &R, stake: &mut S, block: u32) -> Result<u8, Refusal>
    requires share { IsShare 0 16 (S.origin stake.old) (S.held stake.old) (S.lent stake.old) }
    requires block { block < 9 }
    ensures kept { KeepsLines S.held S.lent S.origin stake.old stake.new }
{
    let buf = stake.breada(rt, block, block + 1)?;
    let got = buf.bytes()[0];
    stake.brelse(rt, buf);
    Ok(got)
}

fn set_now<R: Wait, S: Stake>(rt: &R, stake: &mut S, block: u32) -> Result<u8, Refusal>
    requires share { IsShare 0 16 (S.origin stake.old) (S.held stake.old) (S.lent stake.old) }
    requires block { block < 10 }
    ensures kept { KeepsLines S.held S.lent S.origin stake.old stake.new }
{
    let mut buf = stake.bread(rt, block)?;
    let bytes = buf.bytes_mut();
    let was = bytes[0];
    bytes[0] = 9;
    stake.bwrite(rt, buf)?;
    Ok(was)
}

fn make_zeros<R: Wait, S: Stake>(rt: &R, stake: &mut S, block: u32) -> Result<u8, Refusal>
    requires share { IsShare 0 16 (S.origin stake.old) (S.held stake.old) (S.lent stake.old) }
    requires block { block < 10 }
    ensures kept { KeepsLines S.held S.lent S.origin stake.old stake.new }
{
    let buf = stake.fresh(rt, block)?;
    let got = buf.bytes()[0];
    stake.brelse(rt, buf);
    Ok(got)
}

fn make<R: Wait, S: Stake>(rt: &R, stake: &mut S, call: Call, block: u32) -> Result<u8, Refusal>
    requires share { IsShare 0 16 (S.origin stake.old) (S.held stake.old) (S.lent stake.old) }
    requires block { block < 9 }
    ensures kept { KeepsLines S.held S.lent S.origin stake.old stake.new }
{
    match call {
        Read => read(rt, stake, block),
        Set => exchange(rt, stake, block, 0, 9),
        SetNow => set_now(rt, stake, block),
        Zeros => make_zeros(rt, stake, block),
        Ahead => read_ahead(rt, stake, block),
        Flush => match stake.flush(rt) {
            Ok(()) => Ok(0),
            Err(refusal) => Err(refusal),
        },
    }
}

// Makes the calls, and tells whether each was answered as the row has it.
fn make_all<R: Wait, S: Stake>(
    rt: &R,
    stake: &mut S,
    calls: &[(Call, u32, Result<u8, Refusal>)],
) -> bool
    requires share { IsShare 0 16 (S.origin stake.old) (S.held stake.old) (S.lent stake.old) }
    ensures kept { KeepsLines S.held S.lent S.origin stake.old stake.new }
{
    let mut right = true;
    for (call, block, answer) in calls {
        right &= make(rt, stake, *call, *block % 9) == *answer;
    }
    right
}

// The calls over a pass that holds all lines.
pub(super) fn make_calls<R: Wait, D: Disk>(
    rt: &R,
    cache: &Cache<D>,
    first: CachePass<D>,
    calls: &[(Call, u32, Result<u8, Refusal>)],
) -> (CachePass<D>, bool)
    requires all { HasAll cache.now.turn first }
    requires sizes { (first_view cache.now.turn).opening.sizes ≡ record { block_size = 1024; blocks = 10; first_data = 3 } }
    ensures { HasAll cache.now.turn result.0 }
{
    let mut stake = cache.stake(first);
    let right = make_all(rt, &mut stake, calls);
    (stake.give_up(), right)
}

// Whether the answers, the log and the close are those of the row.
fn is_so<R: Wait>(rt: &R, alloc: Global, row: &Row<'_>) -> Result<(bool, bool, bool), NoMemory> {
    let disk = disk(alloc, row.fails)?;
    let (cache, first, worker, passes) = open(alloc, disk, 4, SIZES)?;
    let (mut first, right) = make_calls(rt, &cache, first, row.calls);
    stop_all(rt, &cache, &mut first);
    let worker = cache.worker(rt, worker);
    let (disk, closed) = end(passes, cache, first, worker);
    Ok((right, disk.log() == row.log, closed.is_ok() == row.closed))
}

const FAULT: Result<u8, Refusal> = Err(Refusal::Fault);

#[test]
fn reads(rt: HostRuntime) -> Result<(), TestFail> {
    let rows = [
        // The second read is a hit.
        Row {
            calls: &[(Read, 3, Ok(0)), (Read, 3, Ok(0))],
            fails: &[],
            log: &[Access::Read(3072)],
            closed: true,
        },
        // A read that failed leaves nothing behind.
        Row {
            calls: &[(Read, 3, FAULT), (Read, 3, Ok(0))],
            fails: &[Fail::Read(1)],
            log: &[Access::Read(3072), Access::Read(3072)],
            closed: true,
        },
        // A block that is made anew is not read, and is written in the end.
        Row {
            calls: &[(Zeros, 3, Ok(0)), (Read, 3, Ok(0))],
            fails: &[],
            log: &[Access::Write(3072)],
            closed: true,
        },
    ];
    for row in &rows {
        assert_eq!(rt; is_so(&rt, rt.alloc(), row)?, (true, true, true));
    }
    Ok(())
}

#[test]
fn writes(rt: HostRuntime) -> Result<(), TestFail> {
    let rows = [
        // A delayed write is written by the close.
        Row {
            calls: &[(Set, 3, Ok(0)), (Read, 3, Ok(9))],
            fails: &[],
            log: &[Access::Read(3072), Access::Write(3072)],
            closed: true,
        },
        Row {
            calls: &[(Set, 3, Ok(0))],
            fails: &[Fail::Write(1)],
            log: &[Access::Read(3072), Access::Write(3072)],
            closed: false,
        },
        // A write at once leaves nothing to the close, unless it fails.
        Row {
            calls: &[(SetNow, 3, Ok(0)), (Read, 3, Ok(9))],
            fails: &[],
            log: &[Access::Read(3072), Access::Write(3072)],
            closed: true,
        },
        Row {
            calls: &[(SetNow, 3, FAULT), (Read, 3, Ok(9))],
            fails: &[Fail::Write(1)],
            log: &[Access::Read(3072), Access::Write(3072), Access::Write(3072)],
            closed: true,
        },
    ];
    for row in &rows {
        assert_eq!(rt; is_so(&rt, rt.alloc(), row)?, (true, true, true));
    }
    Ok(())
}

#[test]
fn flushes(rt: HostRuntime) -> Result<(), TestFail> {
    let rows = [
        Row {
            calls: &[(Set, 3, Ok(0)), (Set, 4, Ok(0)), (Flush, 0, Ok(0))],
            fails: &[],
            log: &[
                Access::Read(3072),
                Access::Read(4096),
                Access::Write(3072),
                Access::Write(4096),
            ],
            closed: true,
        },
        // It goes on after a write that failed, and the close writes that block.
        Row {
            calls: &[(Set, 3, Ok(0)), (Set, 4, Ok(0)), (Flush, 0, FAULT)],
            fails: &[Fail::Write(1)],
            log: &[
                Access::Read(3072),
                Access::Read(4096),
                Access::Write(3072),
                Access::Write(4096),
                Access::Write(3072),
            ],
            closed: true,
        },
    ];
    for row in &rows {
        assert_eq!(rt; is_so(&rt, rt.alloc(), row)?, (true, true, true));
    }
    Ok(())
}

#[test]
fn marked_buffers(rt: HostRuntime) -> Result<(), TestFail> {
    let rows = [
        // Whoever meets the buffer of a write that failed writes it, and goes on.
        Row {
            calls: &[(SetNow, 3, FAULT), (Read, 4, Ok(0))],
            fails: &[Fail::Write(1)],
            log: &[
                Access::Read(3072),
                Access::Write(3072),
                Access::Write(3072),
                Access::Read(4096),
            ],
            closed: true,
        },
        // Where that fails too, the call is refused, and nothing of the other block is read.
        Row {
            calls: &[(SetNow, 3, FAULT), (Read, 4, FAULT), (Zeros, 4, FAULT)],
            fails: &[Fail::AllWrites],
            log: &[
                Access::Read(3072),
                Access::Write(3072),
                Access::Write(3072),
                Access::Write(3072),
                Access::Write(3072),
            ],
            closed: false,
        },
    ];
    for row in &rows {
        assert_eq!(rt; is_so(&rt, rt.alloc(), row)?, (true, true, true));
    }
    Ok(())
}

#[test]
fn reads_ahead(rt: HostRuntime) -> Result<(), TestFail> {
    let rows = [
        // The worker reads the second block.
        Row {
            calls: &[(Ahead, 4, Ok(0))],
            fails: &[],
            log: &[Access::Read(4096), Access::Read(5120)],
            closed: true,
        },
        // A read ahead that fails is told to nobody.
        Row {
            calls: &[(Ahead, 4, Ok(0))],
            fails: &[Fail::Read(2)],
            log: &[Access::Read(4096), Access::Read(5120)],
            closed: true,
        },
        // Where the first block is not read, nothing is read ahead.
        Row {
            calls: &[(Ahead, 4, FAULT)],
            fails: &[Fail::Read(1)],
            log: &[Access::Read(4096)],
            closed: true,
        },
        // A block that is cached is not read again.
        Row {
            calls: &[(Read, 5, Ok(0)), (Ahead, 4, Ok(0))],
            fails: &[],
            log: &[Access::Read(5120), Access::Read(4096)],
            closed: true,
        },
        // The read ahead meets the buffer of a write that failed, writes it, and goes on.
        Row {
            calls: &[(Read, 4, Ok(0)), (SetNow, 3, FAULT), (Ahead, 4, Ok(0))],
            fails: &[Fail::Write(1)],
            log: &[
                Access::Read(4096),
                Access::Read(3072),
                Access::Write(3072),
                Access::Write(3072),
                Access::Read(5120),
            ],
            closed: true,
        },
        // Where that fails too, the read ahead is left out.
        Row {
            calls: &[(Read, 4, Ok(0)), (SetNow, 3, FAULT), (Ahead, 4, Ok(0))],
            fails: &[Fail::AllWrites],
            log: &[
                Access::Read(4096),
                Access::Read(3072),
                Access::Write(3072),
                Access::Write(3072),
                Access::Write(3072),
            ],
            closed: false,
        },
    ];
    for row in &rows {
        assert_eq!(rt; is_so(&rt, rt.alloc(), row)?, (true, true, true));
    }
    Ok(())
}
