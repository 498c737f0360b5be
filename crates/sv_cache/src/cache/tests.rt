// Four buffers: the scenarios and the releases one after another.
ghost use Rattle.std.specs.Prelude.{◌≡◌, ◌≢◌, ◌<◌, ℕ, Some, None, IfOk, length};
ghost use Rattle.sv_cache.specs.Held.{IsHeld, given};

use crate::{CacheCore, NoMemory, Release, Scenario};
use std::alloc::Global;
use std::process::Abort;
use std::test::Fail;
use sv_dev::{Disk, MemDisk};
use sv_form::Geometry;

fn four_buffers(alloc: Global) -> Result<CacheCore<MemDisk>, NoMemory> {
    let geometry = Geometry {
        block_size: 1024,
        blocks: 4,
        first_data: 3,
    };
    let disk = MemDisk::new(vec![in alloc; 0u8; 4096]?, Vec::new(alloc));
    match CacheCore::new(alloc, disk, 4, geometry) {
        Ok(core) => Ok(core),
        Err((_, refusal)) => Err(refusal),
    }
}

/// A search that is to give a buffer.
fn get(rt: &impl Abort, core: &mut CacheCore<MemDisk>, block: u32, expected: Scenario) -> u32
    ensures told { given expected ≡ Some result }
    ensures held { IsHeld core.new result }
    ensures keeps { (k : ℕ) → IsHeld core.old k → IsHeld core.new k }
{
    let found = core.attempt(block);
    assert_eq!(rt; found, expected);
    let Some(buffer) = buffer_given(found) else {
        panic!(rt; "a search gave no buffer");
    };
    buffer
}

fn buffer_given(found: Scenario) -> Option<u32>
    ensures { result ≡ given found }
{
    match found {
        Scenario::Hit(buffer) | Scenario::Taken(buffer) | Scenario::Delayed(buffer) => Some(buffer),
        Scenario::Empty | Scenario::Busy(_) => None,
    }
}

/// A search that is to give none.
fn seek(rt: &impl Abort, core: &mut CacheCore<MemDisk>, block: u32, expected: Scenario)
    ensures keeps { (k : ℕ) → IsHeld core.old k → IsHeld core.new k }
{
    assert_eq!(rt; core.attempt(block), expected);
}

/// A release after the bytes were lent.
fn release(core: &mut CacheCore<MemDisk>, buffer: u32, how: Release)
    requires { IsHeld core.old buffer }
    ensures there { buffer < length core.new.buffers }
    ensures keeps { (k : ℕ) → k ≢ buffer → IsHeld core.old k → IsHeld core.new k }
{
    let bytes = core.lend(buffer);
    core.give_back(buffer, bytes, how);
}

#[test]
fn four_buffers_in_a_row(rt: HostRuntime) -> Result<(), Fail> {
    let mut core = four_buffers(rt.alloc())?;
    let zero = get(&rt, &mut core, 7, Scenario::Taken(0));
    seek(&rt, &mut core, 7, Scenario::Busy(0));
    release(&mut core, zero, Release::Valid);

    // The free list is 1, 2, 3, 0.
    let zero = get(&rt, &mut core, 7, Scenario::Hit(0));
    release(&mut core, zero, Release::Delayed);
    let one = get(&rt, &mut core, 8, Scenario::Taken(1));
    let _two = get(&rt, &mut core, 9, Scenario::Taken(2));
    let _three = get(&rt, &mut core, 10, Scenario::Taken(3));
    let zero = get(&rt, &mut core, 11, Scenario::Delayed(0));
    seek(&rt, &mut core, 11, Scenario::Empty);
    release(&mut core, one, Release::Valid);
    release(&mut core, zero, Release::FailedWrite);

    // The free list is 0, 1.
    let zero = get(&rt, &mut core, 11, Scenario::Delayed(0));
    assert!(rt; core.is_marked(zero));
    release(&mut core, zero, Release::Old);
    let _zero = get(&rt, &mut core, 11, Scenario::Taken(0));
    let _disk = core.into_device();
    Ok(())
}

/// What a release of the first of four buffers leaves.
#[derive(Clone, Copy)]
struct Left {
    how: Release,
    next: Scenario,
    valid: bool,
    delayed: bool,
    marked: bool,
}

fn check_release(rt: &impl Abort, alloc: Global, left: Left) -> Result<(), NoMemory> {
    let mut core = four_buffers(alloc)?;
    let zero = get(rt, &mut core, 7, Scenario::Taken(0));
    release(&mut core, zero, left.how);
    assert_eq!(rt; core.block_of(zero), Some(7));
    assert!(rt; core.is_free(zero));
    assert_eq!(rt; core.is_valid(zero), left.valid);
    assert_eq!(rt; core.is_delayed(zero), left.delayed);
    assert_eq!(rt; core.is_marked(zero), left.marked);
    assert_eq!(rt; core.next_delayed().is_some(), left.delayed);
    assert_eq!(rt; core.attempt(20), left.next);
    let _disk = core.into_device();
    Ok(())
}

#[test]
fn each_release(rt: HostRuntime) -> Result<(), Fail> {
    let rows = [
        Left {
            how: Release::Valid,
            next: Scenario::Taken(1),
            valid: true,
            delayed: false,
            marked: false,
        },
        Left {
            how: Release::Old,
            next: Scenario::Taken(0),
            valid: true,
            delayed: false,
            marked: false,
        },
        Left {
            how: Release::Invalid,
            next: Scenario::Taken(0),
            valid: false,
            delayed: false,
            marked: false,
        },
        Left {
            how: Release::Delayed,
            next: Scenario::Taken(1),
            valid: true,
            delayed: true,
            marked: false,
        },
        Left {
            how: Release::FailedWrite,
            next: Scenario::Delayed(0),
            valid: true,
            delayed: true,
            marked: true,
        },
    ];
    for left in rows {
        check_release(&rt, rt.alloc(), left)?;
    }
    Ok(())
}

#[test]
fn three_blocks_on_one_hash_queue(rt: HostRuntime) -> Result<(), Fail> {
    let mut core = four_buffers(rt.alloc())?;
    // 7, 71 and 135 are 7 mod 64.
    let zero = get(&rt, &mut core, 7, Scenario::Taken(0));
    let one = get(&rt, &mut core, 71, Scenario::Taken(1));
    let two = get(&rt, &mut core, 135, Scenario::Taken(2));
    seek(&rt, &mut core, 71, Scenario::Busy(1));
    seek(&rt, &mut core, 7, Scenario::Busy(0));
    release(&mut core, one, Release::Valid);
    release(&mut core, zero, Release::Valid);
    release(&mut core, two, Release::Valid);

    // The free list is 3, 1, 0, 2. Block 8 takes 3, block 9 takes 1 from between the two others on the queue.
    let _three = get(&rt, &mut core, 8, Scenario::Taken(3));
    let _one = get(&rt, &mut core, 9, Scenario::Taken(1));
    let _two = get(&rt, &mut core, 135, Scenario::Hit(2));
    let _zero = get(&rt, &mut core, 7, Scenario::Hit(0));
    seek(&rt, &mut core, 71, Scenario::Empty);
    let _disk = core.into_device();
    Ok(())
}

#[test]
fn a_mark_outlives_a_delayed_release(rt: HostRuntime) -> Result<(), Fail> {
    let mut core = four_buffers(rt.alloc())?;
    let zero = get(&rt, &mut core, 7, Scenario::Taken(0));
    release(&mut core, zero, Release::FailedWrite);
    let zero = get(&rt, &mut core, 7, Scenario::Hit(0));
    release(&mut core, zero, Release::Delayed);
    assert!(rt; core.is_marked(zero));
    let _disk = core.into_device();
    Ok(())
}

#[test]
fn the_device_goes_out_and_comes_home(rt: HostRuntime) -> Result<(), Fail> {
    let mut core = four_buffers(rt.alloc())?;
    let device = core.take_device();
    assert!(rt; core.take_device().is_none());
    if let Some(disk) = device {
        assert_eq!(rt; disk.length(), 4096);
        core.put_device(disk);
    }
    assert!(rt; core.into_device().is_some());
    Ok(())
}
