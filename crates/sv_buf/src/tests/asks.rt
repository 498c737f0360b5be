//! A caller that meets buffers which are still to be written: it asks the worker, and sleeps until one is free.
ghost use Rattle.std.specs.Prelude.{◌≡◌};
ghost use Rattle.std.specs.Thread.{IsSync};
ghost use Rattle.sv_turn.specs.Passes.{first_view};
ghost use Rattle.sv_buf.specs.Ending.{HasAll, IsWorkers};

use super::calls::Call::{Read, Set};
use super::calls::make_calls;
use super::{SIZES, disk, end, open, stop_all};
use crate::NoMemory;
use crate::cache::{Cache, CachePass};
use crate::medium::Medium;
use std::alloc::Global;
use std::marker::Brand;
use std::sync::Wait;
use std::sync::atomic::AtomicBool;
use std::sync::atomic::Ordering::SeqCst;
use std::test::Fail as TestFail;
use std::thread::{Threads, join, yield_now};
use sv_dev::{Access, MemDisk};

// A visit of the turn, which tells whether no buffer that is still to be written is free.
fn is_none_delayed<R: Wait, D: Medium>(rt: &R, cache: &Cache<D>, worker: &mut CachePass<D>) -> bool
    requires worker { IsWorkers cache.now.turn worker.old }
    ensures worker { IsWorkers cache.now.turn worker.new }
{
    let state = cache.turn.enter(rt, worker);
    let none = state.core.next_delayed().is_none();
    cache.turn.leave::<Brand>(worker, state);
    none
}

// Where the worker is late: visits the turn until the flag is set and no buffer that is still to be written is free.
fn wait_until_asked<R: Wait, D: Medium>(
    rt: &R,
    cache: &Cache<D>,
    worker: &mut CachePass<D>,
    flag: &AtomicBool,
    late: bool,
)
    requires worker { IsWorkers cache.now.turn worker.old }
    ensures worker { IsWorkers cache.now.turn worker.new }
{
    for _ in rt.forever() {
        let set = flag.load(SeqCst);
        let none = is_none_delayed(rt, cache, worker);
        if !late | (set & none) {
            return;
        }
        yield_now();
    }
    unreachable!()
}

// The worker, which may be late.
fn serve<R: Wait>(
    rt: &R,
    cache: &Cache<MemDisk>,
    mut worker: CachePass<MemDisk>,
    flag: &AtomicBool,
    late: bool,
) -> CachePass<MemDisk>
    requires { IsWorkers cache.now.turn worker }
    ensures { IsWorkers cache.now.turn result }
{
    wait_until_asked(rt, cache, &mut worker, flag, late);
    cache.worker(rt, worker)
}

// Puts a byte into as many blocks as there are buffers, sets the flag, and reads another block.
fn work<R: Wait>(
    rt: &R,
    cache: &Cache<MemDisk>,
    first: CachePass<MemDisk>,
    flag: &AtomicBool,
) -> (CachePass<MemDisk>, bool)
    requires all { HasAll cache.now.turn first }
    requires sizes { (first_view cache.now.turn).opening.sizes ≡ record { block_size = 1024; blocks = 10; first_data = 3 } }
    ensures { HasAll cache.now.turn result.0 }
{
    let puts = [
        (Set, 0, Ok(0)),
        (Set, 1, Ok(0)),
        (Set, 2, Ok(0)),
        (Set, 3, Ok(0)),
    ];
    let (first, put) = make_calls(rt, cache, first, &puts);
    flag.store(true, SeqCst);
    let (mut first, read) = make_calls(rt, cache, first, &[(Read, 4, Ok(0))]);
    stop_all(rt, cache, &mut first);
    (first, put & read)
}

// The calls in one thread, and the worker in another.
fn run<R: Threads + Wait + Sync>(
    rt: &R,
    cache: &Cache<MemDisk>,
    first: CachePass<MemDisk>,
    worker: CachePass<MemDisk>,
    flag: &AtomicBool,
    late: bool,
) -> (CachePass<MemDisk>, CachePass<MemDisk>, bool)
    requires all { HasAll cache.now.turn first }
    requires worker { IsWorkers cache.now.turn worker }
    requires sizes { (first_view cache.now.turn).opening.sizes ≡ record { block_size = 1024; blocks = 10; first_data = 3 } }
    ensures all { HasAll cache.now.turn result.0 }
    ensures worker { IsWorkers cache.now.turn result.1 }
{
    let ((first, right), worker) = join(
        rt,
        move || -> (CachePass<MemDisk>, bool)
            requires { IsSync R.row × HasAll cache.now.turn first
                × ((first_view cache.now.turn).opening.sizes ≡ record { block_size = 1024; blocks = 10; first_data = 3 }) }
            ensures { HasAll cache.entry.now.turn result.0 }
        { work(rt, cache, first, flag) },
        move || -> CachePass<MemDisk>
            requires { IsSync R.row × IsWorkers cache.now.turn worker }
            ensures { IsWorkers cache.entry.now.turn result }
        { serve(rt, cache, worker, flag, late) },
    );
    (first, worker, right)
}

// What the disk is asked: four reads, then the four writes in the order of the puts, and the read once a buffer was written.
const ORDERS: [[Access; 9]; 4] = [
    [
        Access::Read(0),
        Access::Read(1024),
        Access::Read(2048),
        Access::Read(3072),
        Access::Write(0),
        Access::Read(4096),
        Access::Write(1024),
        Access::Write(2048),
        Access::Write(3072),
    ],
    [
        Access::Read(0),
        Access::Read(1024),
        Access::Read(2048),
        Access::Read(3072),
        Access::Write(0),
        Access::Write(1024),
        Access::Read(4096),
        Access::Write(2048),
        Access::Write(3072),
    ],
    [
        Access::Read(0),
        Access::Read(1024),
        Access::Read(2048),
        Access::Read(3072),
        Access::Write(0),
        Access::Write(1024),
        Access::Write(2048),
        Access::Read(4096),
        Access::Write(3072),
    ],
    [
        Access::Read(0),
        Access::Read(1024),
        Access::Read(2048),
        Access::Read(3072),
        Access::Write(0),
        Access::Write(1024),
        Access::Write(2048),
        Access::Write(3072),
        Access::Read(4096),
    ],
];

fn is_in_order(log: &[Access]) -> bool {
    let mut found = false;
    for order in &ORDERS {
        found |= log == order.as_slice();
    }
    found
}

// Whether all was answered as it should be, whether the disk was asked so, and whether the close wrote all.
fn played<R: Threads + Wait + Sync>(
    rt: &R,
    alloc: Global,
    late: bool,
) -> Result<(bool, bool, bool), NoMemory> {
    let flag = AtomicBool::new(false);
    let (cache, first, worker, passes) = open(alloc, disk(alloc, &[])?, 4, SIZES)?;
    let (first, worker, right) = run(rt, &cache, first, worker, &flag, late);
    let (disk, closed) = end(passes, cache, first, worker);
    Ok((right, is_in_order(disk.log()), closed.is_ok()))
}

// All four buffers are still to be written when a fifth block is read: the worker writes them, and the caller never does. Each is written
// once, so the close has nothing to write.
#[test]
fn asks_the_worker(rt: HostRuntime) -> Result<(), TestFail> {
    assert_eq!(rt; played(&rt, rt.alloc(), false)?, (true, true, true));
    Ok(())
}

// The worker begins only once no buffer is free. Who reads the fifth block has announced its sleep by then, and goes on when the worker
// releases a buffer.
#[test]
fn no_buffer_is_free(rt: HostRuntime) -> Result<(), TestFail> {
    assert_eq!(rt; played(&rt, rt.alloc(), true)?, (true, true, true));
    Ok(())
}
