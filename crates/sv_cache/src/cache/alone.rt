// The cache core taken alone: what another kernel has to add to it. One thread, a device in memory, and a driver of thirty lines.
ghost use Rattle.std.specs.Prelude.{◌≡◌, None, length, vec_len};
ghost use Rattle.sv_cache.specs.Cache.{buffer_at, IsBusy};

use crate::{CacheCore, NoMemory, Release, Scenario};
use std::alloc::Global;
use std::process::Abort;
use std::test::Fail;
use sv_dev::{Disk, MemDisk};
use sv_form::Geometry;

const BLOCK_SIZE: u32 = 1024;

const BLOCKS: u32 = 8;

const BUFFERS: u32 = 4;

/// Moves the device out for one transfer: a read into the bytes, or a write of them.
fn transfer(
    rt: &impl Abort,
    core: &mut CacheCore<MemDisk>,
    block: u32,
    bytes: &mut [u8],
    writes: bool,
)
    ensures buffers { core.new.buffers ≡ core.old.buffers }
    ensures free { core.new.free ≡ core.old.free }
    ensures sizes { core.new.geometry ≡ core.old.geometry }
    ensures length { length bytes.new ≡ length bytes.old }
{
    let Some(mut disk) = core.take_device() else {
        panic!(rt; "the device is out");
    };
    let place = u64::from(block) * 1024;
    assert!(rt; bytes.len() == 1024);
    assert!(rt; place % 512 == 0);
    assert!(rt; place + 1024 <= disk.length());
    let done = if writes {
        disk.write(place, bytes)
    } else {
        disk.read(place, bytes)
    };
    assert!(rt; done.is_ok());
    core.put_device(disk);
}

/// Bach's `bread`: the buffer of the block, with its bytes, which are out.
fn bread(rt: &impl Abort, core: &mut CacheCore<MemDisk>, block: u32) -> (u32, Vec<u8>)
    ensures busy { IsBusy core.new result.0 }
    ensures out { (buffer_at core.new result.0).bytes ≡ None }
    ensures size { vec_len result.1 ≡ core.new.geometry.block_size }
{
    for _ in 0..=BUFFERS {
        match core.attempt(block) {
            Scenario::Hit(buffer) => return (buffer, core.lend(buffer)),
            Scenario::Taken(buffer) => {
                let mut bytes = core.lend(buffer);
                transfer(rt, core, block, &mut bytes, false);
                return (buffer, bytes);
            }
            Scenario::Delayed(buffer) => {
                let mut bytes = core.lend(buffer);
                let Some(named) = core.block_of(buffer) else {
                    panic!(rt; "a delayed buffer names a block");
                };
                transfer(rt, core, named, &mut bytes, true);
                core.give_back(buffer, bytes, Release::Old);
            }
            Scenario::Empty | Scenario::Busy(_) => panic!(rt;
                "one thread holds one buffer at a time"
            ),
        }
    }
    panic!(rt; "each delayed buffer was written once");
}

/// Puts a byte into the block, and leaves the write for later (Bach's delayed write).
fn put(rt: &impl Abort, core: &mut CacheCore<MemDisk>, block: u32, byte: u8) {
    let (buffer, mut bytes) = bread(rt, core, block);
    bytes.fill(byte);
    core.give_back(buffer, bytes, Release::Delayed);
}

fn first_byte(rt: &impl Abort, core: &mut CacheCore<MemDisk>, block: u32) -> Option<u8> {
    let (buffer, bytes) = bread(rt, core, block);
    let byte = bytes.first().copied();
    core.give_back(buffer, bytes, Release::Valid);
    byte
}

fn make_cache(alloc: Global) -> Result<CacheCore<MemDisk>, NoMemory> {
    let geometry = Geometry {
        block_size: BLOCK_SIZE,
        blocks: BLOCKS,
        first_data: 3,
    };
    let disk = MemDisk::new(vec![in alloc; 0u8; 8192]?, Vec::new(alloc));
    match CacheCore::new(alloc, disk, BUFFERS, geometry) {
        Ok(core) => Ok(core),
        Err((_, refusal)) => Err(refusal),
    }
}

#[test]
fn a_program_over_the_cache_alone(rt: HostRuntime) -> Result<(), Fail> {
    let mut core = make_cache(rt.alloc())?;
    for block in 0..BLOCKS {
        put(&rt, &mut core, block, 65 + block as u8);
    }
    for block in 0..BLOCKS {
        assert_eq!(rt; first_byte(&rt, &mut core, block), Some(65 + block as u8));
    }
    let Some(disk) = core.into_device() else {
        panic!(rt; "the device is at home");
    };
    // Four buffers for eight blocks: each round reads all eight. Each block is written once, when its buffer is wanted for another:
    // blocks 0 to 3 in the first round, 4 to 7 in the second.
    assert_eq!(rt; disk.log().len(), 24);
    Ok(())
}
