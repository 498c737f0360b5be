//! Sixteen threads over a few buffers: each has lines of its own, in ten blocks that are common to all. The seed of each random run
//! stands in its test, and is told where the run fails.
ghost use Rattle.std.specs.Prelude.{◌≡◌, ◌+◌, ◌-◌, ◌*◌, ◌/◌, ◌<◌, [], IfSome, IfNone, IsSome, length};
ghost use Rattle.std.specs.Thread.{IsSync};
ghost use Rattle.sv_cache.specs.Cache.{IsBufferCount};
ghost use Rattle.sv_turn.specs.Passes.{first_view};
ghost use Rattle.sv_buf.specs.Ending.{HasAll, IsWorkers};
ghost use Rattle.sv_buf.specs.Sharing.{AreCut, IsFew, IsShare, KeepsLines, lines_below};

use super::{SIZES, disk, end, exchange, open, stop_all};
use crate::NoMemory;
use crate::cache::{Cache, CachePass};
use std::alloc::Global;
use std::sync::Wait;
use std::test::Fail as TestFail;
use std::thread::{Threads, join};
use sv_dev::{Disk, MemDisk};
use sv_store::{LineRange, Stake};

// How often each thread puts a byte, and what its numbers begin with.
#[derive(Clone, Copy)]
struct Load {
    times: u32,
    seed: u64,
}

// Lines of one block.
fn lines_in(block: u32, first: u8, count: u8) -> LineRange
    ensures { result ≡ record { block = block; first = first; count = count } }
{
    LineRange {
        block,
        first,
        count,
    }
}

// The same lines of each of the ten blocks.
fn lines(first: u8, count: u8) -> [LineRange; 10]
    ensures { result ≡ lines_below first count 10 }
{
    [
        lines_in(9, first, count),
        lines_in(8, first, count),
        lines_in(7, first, count),
        lines_in(6, first, count),
        lines_in(5, first, count),
        lines_in(4, first, count),
        lines_in(3, first, count),
        lines_in(2, first, count),
        lines_in(1, first, count),
        lines_in(0, first, count),
    ]
}

// The next number of the row that a seed begins (a linear congruential row).
fn next_number(number: u64) -> u64 {
    number
        .wrapping_mul(6364136223846793005)
        .wrapping_add(1442695040888963407)
}

// Puts the number of its line, from 1, into that line of each block. It answers how often that failed.
fn sign<R: Wait, S: Stake>(rt: &R, stake: &mut S, line: u8) -> u32
    requires share { IsShare line 1 (S.origin stake.old) (S.held stake.old) (S.lent stake.old) }
    requires line { line < 16 }
    ensures kept { KeepsLines S.held S.lent S.origin stake.old stake.new }
{
    let mut wrong = 0u32;
    for block in 0..10u32 {
        let put = exchange(rt, stake, block, usize::from(line) * 64, line + 1);
        wrong = wrong.saturating_add(u32::from(put.is_err()));
    }
    wrong
}

// Puts bytes at its line of blocks in a random order, and counts those that are not found again.
fn exchange_often<R: Wait, S: Stake>(rt: &R, stake: &mut S, line: u8, load: Load) -> u32
    requires share { IsShare line 1 (S.origin stake.old) (S.held stake.old) (S.lent stake.old) }
    requires line { line < 16 }
    ensures kept { KeepsLines S.held S.lent S.origin stake.old stake.new }
{
    let mut last = [0u8; 10];
    let mut number = load.seed.wrapping_add(u64::from(line));
    let mut wrong = 0u32;
    for _ in 0..load.times {
        number = next_number(number);
        let block = ((number >> 33) % 10) as u32;
        let byte = ((number >> 40) % 256) as u8;
        let found = exchange(rt, stake, block, usize::from(line) * 64, byte);
        if found != Ok(last[block as usize]) {
            wrong = wrong.saturating_add(1);
        }
        last[block as usize] = byte;
    }
    wrong
}

// Cuts the last lines off, and keeps the first ones.
fn cut<S: Stake>(alloc: Global, stake: &mut S, first: u8, half: u8, rest: u8) -> Option<S>
    requires share { IsShare first (half + rest) (S.origin stake.old) (S.held stake.old) (S.lent stake.old) }
    requires few { IsFew first half × IsFew (first + half) rest }
    ensures parts { IfSome result (AreCut S.held S.origin stake.old stake.new) }
    ensures kept { IfSome result (λ other. IsShare first half (S.origin stake.new) (S.held stake.new) (S.lent stake.new)) }
    ensures given { IfSome result (λ other. IsShare (first + half) rest (S.origin other) (S.held other) (S.lent other)) }
    ensures whole { IfNone result (KeepsLines S.held S.lent S.origin stake.old stake.new) }
{
    match stake.part(alloc, &lines(first + half, rest)) {
        Ok(other) => Some(other),
        Err(_) => None,
    }
}

// Shares lines out to as many threads, and counts what they have not found again.
fn share<R: Threads + Wait + Sync, S: Stake + Drop>(
    rt: &R,
    alloc: Global,
    mut stake: S,
    first: u8,
    count: u8,
    load: Load,
) -> (S, Result<u32, NoMemory>)
    requires share { IsShare first count (S.origin stake) (S.held stake) (S.lent stake) }
    requires few { IsFew first count }
    ensures kept { KeepsLines S.held S.lent S.origin stake result.0 }
{
    if count == 1 {
        let wrong = exchange_often(rt, &mut stake, first, load);
        let unsigned = sign(rt, &mut stake, first);
        return (stake, Ok(wrong.saturating_add(unsigned)));
    }
    let half = count / 2;
    let rest = count - half;
    let from = first + half;
    let Some(other) = cut(alloc, &mut stake, first, half, rest) else {
        return (stake, Err(NoMemory));
    };
    let ((mut stake, mine), (other, theirs)) = join(
        rt,
        move || -> (S, Result<u32, NoMemory>)
            requires { IsSync R.row × IsShare first half (S.origin stake) (S.held stake) (S.lent stake) × IsFew first half }
            ensures { KeepsLines S.held S.lent S.origin stake result.0 }
        { share(rt, alloc, stake, first, half, load) },
        move || -> (S, Result<u32, NoMemory>)
            requires { IsSync R.row × IsShare from rest (S.origin other) (S.held other) (S.lent other) × IsFew from rest }
            ensures { KeepsLines S.held S.lent S.origin other result.0 }
        { share(rt, alloc, other, from, rest, load) },
    );
    stake.merge(other);
    (stake, both(mine, theirs))
}

// The sum of both counts, or the first refusal.
fn both(mine: Result<u32, NoMemory>, theirs: Result<u32, NoMemory>) -> Result<u32, NoMemory> {
    Ok(mine?.saturating_add(theirs?))
}

// The work of the threads over the first pass.
fn work<R: Threads + Wait + Sync>(
    rt: &R,
    alloc: Global,
    cache: &Cache<MemDisk>,
    first: CachePass<MemDisk>,
    load: Load,
) -> (CachePass<MemDisk>, Result<u32, NoMemory>)
    requires all { HasAll cache.now.turn first }
    requires sizes { (first_view cache.now.turn).opening.sizes ≡ record { block_size = 1024; blocks = 10; first_data = 3 } }
    ensures { HasAll cache.now.turn result.0 }
{
    let stake = cache.stake(first);
    let (stake, wrong) = share(rt, alloc, stake, 0, 16, load);
    let mut first = stake.give_up();
    stop_all(rt, cache, &mut first);
    (first, wrong)
}

// A run of all threads, and of the worker.
fn run<R: Threads + Wait + Sync>(
    rt: &R,
    alloc: Global,
    cache: &Cache<MemDisk>,
    first: CachePass<MemDisk>,
    worker: CachePass<MemDisk>,
    load: Load,
) -> (
    CachePass<MemDisk>,
    CachePass<MemDisk>,
    Result<u32, NoMemory>,
)
    requires all { HasAll cache.now.turn first }
    requires worker { IsWorkers cache.now.turn worker }
    requires sizes { (first_view cache.now.turn).opening.sizes ≡ record { block_size = 1024; blocks = 10; first_data = 3 } }
    ensures all { HasAll cache.now.turn result.0 }
    ensures worker { IsWorkers cache.now.turn result.1 }
{
    let ((first, wrong), worker) = join(
        rt,
        move || -> (CachePass<MemDisk>, Result<u32, NoMemory>)
            requires { IsSync R.row × HasAll cache.now.turn first
                × ((first_view cache.now.turn).opening.sizes ≡ record { block_size = 1024; blocks = 10; first_data = 3 }) }
            ensures { HasAll cache.entry.now.turn result.0 }
        { work(rt, alloc, cache, first, load) },
        move || -> CachePass<MemDisk>
            requires { IsSync R.row × IsWorkers cache.now.turn worker }
            ensures { IsWorkers cache.entry.now.turn result }
        { cache.worker(rt, worker) },
    );
    (first, worker, wrong)
}

// Whether the line of each thread begins with its number, in each block of the disk.
fn is_signed<D: Disk>(disk: &mut D) -> bool
    requires { length (D.content disk.old) ≡ 10240 }
{
    let mut right = true;
    for block in 0..10u64 {
        let mut bytes = [0u8; 1024];
        right &= disk.read(block * 1024, &mut bytes).is_ok();
        for line in 0..16u8 {
            right &= bytes[usize::from(line) * 64] == line + 1;
        }
    }
    right
}

// How many bytes were not found again, whether the close wrote all, and whether each line on the disk is what its thread last put.
fn played<R: Threads + Wait + Sync>(
    rt: &R,
    alloc: Global,
    buffers: u32,
    load: Load,
) -> Result<(u32, bool, bool), NoMemory>
    requires { IsBufferCount buffers }
{
    let disk = disk(alloc, &[])?;
    let (cache, first, worker, passes) = open(alloc, disk, buffers, SIZES)?;
    let (first, worker, wrong) = run(rt, alloc, &cache, first, worker, load);
    let (mut disk, closed) = end(passes, cache, first, worker);
    Ok((wrong?, closed.is_ok(), is_signed(&mut disk)))
}

#[test]
fn sixteen_threads_share_one_cache(rt: HostRuntime) -> Result<(), TestFail> {
    let load = Load { times: 0, seed: 0 };
    let seed = load.seed;
    assert_eq!(rt;
        (seed, played(&rt, rt.alloc(), 4, load)?),
        (seed, (0, true, true))
    );
    Ok(())
}

#[test]
fn sixteen_threads_over_four_buffers(rt: HostRuntime) -> Result<(), TestFail> {
    let load = Load {
        times: 1000,
        seed: 20261202,
    };
    let seed = load.seed;
    assert_eq!(rt;
        (seed, played(&rt, rt.alloc(), 4, load)?),
        (seed, (0, true, true))
    );
    Ok(())
}

#[test]
fn sixteen_threads_over_six_buffers(rt: HostRuntime) -> Result<(), TestFail> {
    let load = Load {
        times: 2250,
        seed: 20261203,
    };
    let seed = load.seed;
    assert_eq!(rt;
        (seed, played(&rt, rt.alloc(), 6, load)?),
        (seed, (0, true, true))
    );
    Ok(())
}

#[test]
fn sixteen_threads_over_eight_buffers(rt: HostRuntime) -> Result<(), TestFail> {
    let load = Load {
        times: 3000,
        seed: 20261204,
    };
    let seed = load.seed;
    assert_eq!(rt;
        (seed, played(&rt, rt.alloc(), 8, load)?),
        (seed, (0, true, true))
    );
    Ok(())
}
