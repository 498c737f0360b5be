//! Two threads while the worker's read of block 5 is held: another thread goes on with a cached block, or waits for the block that is read.
ghost use Rattle.std.specs.Prelude.{◌≡◌};
ghost use Rattle.std.specs.Thread.{IsSync};
ghost use Rattle.sv_turn.specs.Passes.{first_view};
ghost use Rattle.sv_buf.specs.Ending.{HasAll, IsWorkers};

use super::calls::Call::{Ahead, Read, Set};
use super::calls::{Call, make_calls};
use super::{SIZES, disk, end, open, stop_all};
use crate::NoMemory;
use crate::cache::{Cache, CachePass};
use crate::medium::Medium;
use std::alloc::Global;
use std::marker::Brand;
use std::sync::atomic::AtomicBool;
use std::sync::atomic::Ordering::SeqCst;
use std::sync::{Arc, Wait};
use std::test::Fail as TestFail;
use std::thread::{Threads, join, yield_now};
use sv_cache::CacheCore;
use sv_dev::{Access, HoldDisk};
use sv_store::Refusal;

// Whether the device is at home. It is taken out for this, and put back.
fn has_device<D>(core: &mut CacheCore<D>) -> bool
    ensures { core.new ≡ core.old }
{
    match core.take_device() {
        Some(disk) => {
            core.put_device(disk);
            true
        }
        None => false,
    }
}

// A visit of the turn, which tells whether the device is out.
fn is_out<R: Wait, D: Medium>(rt: &R, cache: &Cache<D>, pass: &mut CachePass<D>) -> bool
    requires all { HasAll cache.now.turn pass.old }
    ensures all { HasAll cache.now.turn pass.new }
{
    let mut state = cache.turn.enter(rt, pass);
    let home = has_device(&mut state.core);
    cache.turn.leave::<Brand>(pass, state);
    !home
}

// Visits the turn until the device is out.
fn wait_until_out<R: Wait, D: Medium>(rt: &R, cache: &Cache<D>, pass: &mut CachePass<D>)
    requires all { HasAll cache.now.turn pass.old }
    ensures all { HasAll cache.now.turn pass.new }
{
    for _ in rt.forever() {
        if is_out(rt, cache, pass) {
            return;
        }
        yield_now();
    }
    unreachable!()
}

// Makes the first calls, waits until the worker has the device, makes the others, and sets the flag.
fn work<R: Wait>(
    rt: &R,
    cache: &Cache<HoldDisk>,
    first: CachePass<HoldDisk>,
    before: &[(Call, u32, Result<u8, Refusal>)],
    meanwhile: &[(Call, u32, Result<u8, Refusal>)],
    flag: &AtomicBool,
) -> (CachePass<HoldDisk>, bool)
    requires all { HasAll cache.now.turn first }
    requires sizes { (first_view cache.now.turn).opening.sizes ≡ record { block_size = 1024; blocks = 10; first_data = 3 } }
    ensures { HasAll cache.now.turn result.0 }
{
    let (mut first, right) = make_calls(rt, cache, first, before);
    wait_until_out(rt, cache, &mut first);
    let (mut first, also) = make_calls(rt, cache, first, meanwhile);
    flag.store(true, SeqCst);
    stop_all(rt, cache, &mut first);
    (first, right & also)
}

// The calls in one thread, and the worker in another.
fn run<R: Threads + Wait + Sync>(
    rt: &R,
    cache: &Cache<HoldDisk>,
    first: CachePass<HoldDisk>,
    worker: CachePass<HoldDisk>,
    before: &[(Call, u32, Result<u8, Refusal>)],
    meanwhile: &[(Call, u32, Result<u8, Refusal>)],
    flag: &AtomicBool,
) -> (CachePass<HoldDisk>, CachePass<HoldDisk>, bool)
    requires all { HasAll cache.now.turn first }
    requires worker { IsWorkers cache.now.turn worker }
    requires sizes { (first_view cache.now.turn).opening.sizes ≡ record { block_size = 1024; blocks = 10; first_data = 3 } }
    ensures all { HasAll cache.now.turn result.0 }
    ensures worker { IsWorkers cache.now.turn result.1 }
{
    let ((first, right), worker) = join(
        rt,
        move || -> (CachePass<HoldDisk>, bool)
            requires { IsSync R.row × HasAll cache.now.turn first
                × ((first_view cache.now.turn).opening.sizes ≡ record { block_size = 1024; blocks = 10; first_data = 3 }) }
            ensures { HasAll cache.entry.now.turn result.0 }
        { work(rt, cache, first, before, meanwhile, flag) },
        move || -> CachePass<HoldDisk>
            requires { IsSync R.row × IsWorkers cache.now.turn worker }
            ensures { IsWorkers cache.entry.now.turn result }
        { cache.worker(rt, worker) },
    );
    (first, worker, right)
}

// Over a disk that holds the first read of block 5 for so many looks at the flag: whether all was answered as it should be, how the hold
// ended, whether the disk was asked for this, and whether the close wrote all.
fn played<R: Threads + Wait + Sync>(
    rt: &R,
    alloc: Global,
    looks: u64,
    before: &[(Call, u32, Result<u8, Refusal>)],
    meanwhile: &[(Call, u32, Result<u8, Refusal>)],
    log: &[Access],
) -> Result<(bool, Option<bool>, bool, bool), NoMemory> {
    let flag = Arc::new(alloc, AtomicBool::new(false))?;
    let disk = HoldDisk::new(disk(alloc, &[])?, 5120, flag.clone()?, looks);
    let (cache, first, worker, passes) = open(alloc, disk, 4, SIZES)?;
    let (first, worker, right) = run(rt, &cache, first, worker, before, meanwhile, &flag);
    let (disk, closed) = end(passes, cache, first, worker);
    Ok((
        right,
        disk.ended_by_flag(),
        disk.log() == log,
        closed.is_ok(),
    ))
}

// The worker reads block 5 ahead. While this read is held, block 1, which is cached, is got, put and released twice, and only then the hold
// ends: a call that waited for the read would end it by the looks.
#[test]
fn a_put_during_a_read(rt: HostRuntime) -> Result<(), TestFail> {
    let before = [(Read, 1, Ok(0)), (Ahead, 4, Ok(0))];
    let meanwhile = [(Set, 1, Ok(0)), (Read, 1, Ok(9))];
    let log = [
        Access::Read(1024),
        Access::Read(4096),
        Access::Read(5120),
        Access::Write(1024),
    ];
    let all = played(&rt, rt.alloc(), 10_000_000, &before, &meanwhile, &log)?;
    assert_eq!(rt; all, (true, Some(true), true, true));
    Ok(())
}

// A thread asks for block 5 while the worker reads it. It waits for that read, so the hold ends by the looks, and reads nothing itself.
#[test]
fn one_read_for_two(rt: HostRuntime) -> Result<(), TestFail> {
    let before = [(Ahead, 4, Ok(0))];
    let meanwhile = [(Read, 5, Ok(0))];
    let log = [Access::Read(4096), Access::Read(5120)];
    let all = played(&rt, rt.alloc(), 100_000, &before, &meanwhile, &log)?;
    assert_eq!(rt; all, (true, Some(false), true, true));
    Ok(())
}
