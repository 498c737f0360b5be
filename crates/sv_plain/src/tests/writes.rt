// Writes at a file's offset, and what they need.
ghost use Rattle.std.specs.Prelude.{◌≡◌, ◌≤◌, None};
ghost use Rattle.std.specs.FinMap as map;

use super::empty_fs;
use crate::{Fs, Illegal, Mode, NoMemory, Opening, Reply};
use std::alloc::Global;
use sv_form::{Bytes, Kind};

// Adds inode 3, an empty regular file, which file 0 has open at this offset, and a promise of process 1.
fn add_empty_file(fs: &mut Fs, alloc: Global, offset: u32, promise: u32) -> Result<(), NoMemory>
    requires inodes { 3 ≤ fs.old.inodes }
    requires node { map.get fs.old.nodes 3 ≡ None }
    requires file { map.get fs.old.files 0 ≡ None }
{
    fs.add_node(alloc, 3, Kind::File, 0o644, 1, 0)?;
    let opening = Opening {
        inode: 3,
        mode: Mode::RW,
        offset,
        count: 1,
    };
    fs.add_file(0, opening)?;
    fs.promise(1, promise)
}

// What the device does with the bytes.
#[derive(Clone, Copy)]
enum Told {
    Wrote(u32),
    FaultAfter(u32),
    Fault,
}

fn reply(told: Told) -> Reply {
    match told {
        Told::Wrote(n) => Reply::Wrote(n),
        Told::FaultAfter(k) => Reply::FaultAfter(k),
        Told::Fault => Reply::Fault,
    }
}

// The bytes 1 to 8.
fn eight_bytes(alloc: Global) -> Result<Bytes, NoMemory> {
    let bytes = [1u8, 2, 3, 4, 5, 6, 7, 8].to_vec(alloc)?;
    Ok(Bytes::from_vec(bytes))
}

// Byte r of a page, where inode 3 has that page.
fn byte_at(fs: &Fs, page: u32, r: usize) -> Option<u8> {
    let bytes = fs.node(3)?.page(page)?;
    bytes.get(r).copied()
}

fn size(fs: &Fs) -> Option<u32> {
    Some(fs.node(3)?.size)
}

fn offset(fs: &Fs) -> Option<u32> {
    Some(fs.file(0)?.offset)
}

// Bytes of the first two pages, at the ends of eight from 1020 on.
fn ends_of_eight(fs: &Fs) -> [Option<u8>; 6] {
    [
        byte_at(fs, 0, 1019),
        byte_at(fs, 0, 1020),
        byte_at(fs, 0, 1023),
        byte_at(fs, 1, 0),
        byte_at(fs, 1, 3),
        byte_at(fs, 1, 4),
    ]
}

// What the write was answered, and what it left: the size, the offset, the promise, and what a byte more takes.
type Written = (Result<(), Illegal>, Option<u32>, Option<u32>, u32, u32);

// Writes the bytes 1 to 8 at the offset.
fn write_eight(fs: &mut Fs, alloc: Global, told: Told) -> Result<Written, NoMemory> {
    let bytes = eight_bytes(alloc)?;
    let outcome = fs.step_write(alloc, 1, 0, &bytes, &reply(told));
    let need = fs.write_need(0, 1);
    Ok((outcome, size(fs), offset(fs), fs.promise_of(1), need))
}

// What `count` bytes at the offset take before, what the write of eight leaves, and bytes of the pages then.
#[derive(Clone, Copy)]
struct Seen {
    need: u32,
    written: Written,
    ends: [Option<u8>; 6],
}

// A file at this offset, a promise, what is asked for first, and what the device does with the eight bytes.
#[derive(Clone, Copy)]
struct Trial {
    offset: u32,
    promise: u32,
    count: u32,
    told: Told,
}

fn try_in(fs: &mut Fs, alloc: Global, trial: Trial) -> Result<Seen, NoMemory>
    requires inodes { 3 ≤ fs.old.inodes }
    requires node { map.get fs.old.nodes 3 ≡ None }
    requires file { map.get fs.old.files 0 ≡ None }
{
    add_empty_file(fs, alloc, trial.offset, trial.promise)?;
    let need = fs.write_need(0, trial.count);
    let written = write_eight(fs, alloc, trial.told)?;
    Ok(Seen {
        need,
        written,
        ends: ends_of_eight(fs),
    })
}

// The same in the empty file system.
fn tried(alloc: Global, trial: Trial) -> Result<Seen, NoMemory> {
    let mut fs = empty_fs(alloc)?;
    try_in(&mut *fs, alloc, trial)
}

fn need_at(alloc: Global, offset: u32, count: u32) -> Result<u32, NoMemory> {
    let trial = Trial {
        offset,
        promise: 0,
        count,
        told: Told::Fault,
    };
    Ok(tried(alloc, trial)?.need)
}

fn written(alloc: Global, offset: u32, promise: u32, told: Told) -> Result<Written, NoMemory> {
    let trial = Trial {
        offset,
        promise,
        count: 0,
        told,
    };
    Ok(tried(alloc, trial)?.written)
}

fn ends_in_two_pages(alloc: Global) -> Result<[Option<u8>; 6], NoMemory> {
    let trial = Trial {
        offset: 1020,
        promise: 8,
        count: 0,
        told: Told::Wrote(8),
    };
    Ok(tried(alloc, trial)?.ends)
}

#[test]
fn needs(rt: HostRuntime) {
    for (offset, count, need) in [
        (9 * 1024, 2048, 3),
        (65_802 * 1024, 1, 4),
        (65_802 * 1024, 0, 0),
        (0, 1, 1),
    ] {
        assert!(rt; need_at(rt.alloc(), offset, count) == Ok(need));
    }
}

#[test]
fn need_where_a_page_is(rt: HostRuntime) {
    let at = 65_802 * 1024 + 1016;
    let want = (Ok(()), Some(at + 8), Some(at + 8), 0, 1);
    assert!(rt; written(rt.alloc(), at, 4, Told::Wrote(8)) == Ok(want));
}

#[test]
fn writes_across_two_pages(rt: HostRuntime) {
    let ends = [Some(0), Some(1), Some(4), Some(5), Some(8), Some(0)];
    assert!(rt; ends_in_two_pages(rt.alloc()) == Ok(ends));
    let want = (Ok(()), Some(1028), Some(1028), 6, 0);
    assert!(rt; written(rt.alloc(), 1020, 8, Told::Wrote(8)) == Ok(want));
}

// What is answered, and the size then, where the device failed after so many bytes.
fn after_fault(
    alloc: Global,
    promise: u32,
    k: u32,
) -> Result<(Result<(), Illegal>, Option<u32>), NoMemory> {
    let written = written(alloc, 1020, promise, Told::FaultAfter(k))?;
    Ok((written.0, written.1))
}

#[test]
fn ends_at_a_page_after_a_fault(rt: HostRuntime) {
    for (k, outcome, size) in [
        (4, Ok(()), 1024),
        (0, Ok(()), 0),
        (3, Err(Illegal::Reply), 0),
        (8, Err(Illegal::Reply), 0),
    ] {
        assert!(rt; after_fault(rt.alloc(), 2, k) == Ok((outcome, Some(size))));
    }
}

// A write of fewer bytes, a fault that says of no bytes, and a promise of a block too few.
#[test]
fn refused_writes(rt: HostRuntime) {
    for (promise, told, cause) in [
        (2, Told::Wrote(7), Illegal::Reply),
        (2, Told::Fault, Illegal::Reply),
        (1, Told::Wrote(8), Illegal::Condition),
    ] {
        let want = (Err(cause), Some(0), Some(1020), promise, 1);
        assert!(rt; written(rt.alloc(), 1020, promise, told) == Ok(want));
    }
}
