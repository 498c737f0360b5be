// Worked rows: images made anew.
ghost use Rattle.std.specs.Prelude.{◌≤◌, ℕ, List};
ghost use Rattle.sv_check.specs.Sound.{IsMountedFrom};

use crate::tests::images::{MADE, bytes_of};
use crate::{MakeFault, check, free_count, mkfs, used_count};
use std::alloc::{AllocError, Global};
use std::process::Abort;
use std::test::Fail as Failure;
use sv_dev::{Access, Disk, Fail, MemDisk};
use sv_form::Mounted;

// A disk of so many blocks, in which all bits are set.
fn set_disk(alloc: Global, blocks: usize) -> Result<MemDisk, AllocError> {
    let content = vec![in alloc; 0xff; blocks.saturating_mul(1_024)]?;
    Ok(MemDisk::new(content, Vec::new(alloc)))
}

// Whether these bytes stand in that block of the disk, from that place on.
fn shows(disk: &mut MemDisk, number: u16, at: usize, bytes: &[u8]) -> bool
    requires { at ≤ 1024 }
{
    let start = u64::from(number) * 1_024;
    let mut block = [0; 1_024];
    if disk.length() < start + 1_024 {
        return false;
    }
    let Ok(()) = disk.read(start, &mut block) else {
        return false;
    };
    block[at..].starts_with(bytes)
}

// Whether the disk has the vectors of an image of 64 blocks and 32 inodes, once it is made there.
fn has_vectors(disk: &mut MemDisk) -> bool {
    let is_made = mkfs(disk, 64, 32).is_ok();
    let head = b"\x53\x56\x35\x46\x02\x00\x04\x00\x40\x00\x00\x00\x0a\x00\x1e\x00\x0e\x00\x00\x00";
    let has_head = shows(disk, 0, 512, head);
    let root = b"\xed\x41\x02\x00\x00\x00\x00\x00\x20\x00\x00\x00\x04\x00\x00";
    let has_root = shows(disk, 2, 64, root);
    let list = b"\x32\x00\x00\x00\x00\x00\x00\x00\x3f\x00\x00\x00\x3e\x00\x00\x00";
    is_made & has_head & has_root & shows(disk, 14, 0, list)
}

#[test]
fn vectors(rt: HostRuntime) -> Result<(), Failure> {
    let mut disk = set_disk(rt.alloc(), 64)?;
    assert!(rt; has_vectors(&mut disk));
    Ok(())
}

// Whether each block of the disk is that of the image.
fn is_image(disk: &mut MemDisk, image: &[u8]) -> bool {
    if disk.length() != image.len() as u64 {
        return false;
    }
    for (number, block) in image.chunks_exact(1_024).enumerate() {
        if number >= 65_536 {
            return false;
        }
        if !shows(disk, number as u16, 0, block) {
            return false;
        }
    }
    true
}

// All 64 blocks are those of the image that was put together by hand.
#[test]
fn whole_image(rt: HostRuntime) -> Result<(), Failure> {
    assert!(rt; makes_image(rt.alloc())?);
    Ok(())
}

fn makes_image(alloc: Global) -> Result<bool, AllocError> {
    let mut disk = set_disk(alloc, 64)?;
    let is_made = mkfs(&mut disk, 64, 32).is_ok();
    Ok(is_made & is_made_image(alloc, &mut disk)?)
}

fn is_made_image(alloc: Global, disk: &mut MemDisk) -> Result<bool, AllocError> {
    let image = bytes_of(alloc, MADE)?;
    Ok(is_image(disk, &image))
}

// The blocks, free blocks, inodes and used inodes of the image that was made on a disk of so many blocks.
fn counts(alloc: Global, blocks: u16, inodes: u32) -> Result<(u32, u32, u32, u32), Failure> {
    let mut disk = set_disk(alloc, usize::from(blocks))?;
    make_and_count(alloc, &mut disk, u32::from(blocks), inodes)
}

fn make_and_count(
    alloc: Global,
    disk: &mut MemDisk,
    blocks: u32,
    inodes: u32,
) -> Result<(u32, u32, u32, u32), Failure> {
    match mkfs(disk, blocks, inodes) {
        Ok(()) => count(alloc, disk),
        Err(_) => Err("not made")?,
    }
}

fn count(alloc: Global, disk: &mut MemDisk) -> Result<(u32, u32, u32, u32), Failure> {
    match check(alloc, disk) {
        Ok(mounted) => Ok(counts_of(&mounted)),
        Err(_) => Err("unsound")?,
    }
}

fn counts_of(mounted: &Mounted) -> (u32, u32, u32, u32)
    requires { (image : List ℕ) × IsMountedFrom image mounted.now }
{
    (
        mounted.geometry.blocks,
        free_count(mounted),
        mounted.geometry.inode_count(),
        used_count(mounted),
    )
}

// Whether the numbers are refused on a disk of so many blocks.
fn is_refused(alloc: Global, on: usize, blocks: u32, inodes: u32) -> Result<bool, AllocError> {
    let mut disk = set_disk(alloc, on)?;
    Ok(mkfs(&mut disk, blocks, inodes) == Err(MakeFault::Limits))
}

// How many blocks and inodes an image is made with, and the counts of what is made: also where chains are long and where no
// block is free.
const SOUND: &[(u16, u32, (u32, u32, u32, u32))] = &[
    (64, 32, (64, 59, 32, 1)),
    (4, 2, (4, 0, 16, 1)),
    (8, 80, (8, 0, 80, 1)),
    (8, 16, (8, 4, 16, 1)),
    (55, 32, (55, 50, 32, 1)),
    (256, 200, (256, 240, 208, 1)),
];

// The check finds each image that is made sound.
#[test]
fn sound_images(rt: HostRuntime) -> Result<(), Failure> {
    for (blocks, inodes, made) in SOUND {
        assert_eq!(rt; counts(rt.alloc(), *blocks, *inodes)?, *made);
    }
    Ok(())
}

// Blocks of a disk, and numbers of blocks and inodes that are refused there: too few blocks and too many, a first data block
// that is none of the image, too few inodes, and a disk of another length.
const REFUSED: &[(usize, u32, u32)] = &[
    (3, 3, 2),
    (65_537, 65_537, 2),
    (8, 8, 81),
    (8, 8, 1),
    (5, 4, 2),
];

#[test]
fn limits(rt: HostRuntime) -> Result<(), Failure> {
    for (on, blocks, inodes) in REFUSED {
        assert!(rt; is_refused(rt.alloc(), *on, *blocks, *inodes)?);
    }
    Ok(())
}

// Each block is read once, and is written where it reads as another one. Each of these calls may fail.
#[test]
fn reads_writes_and_faults(rt: HostRuntime) -> Result<(), Failure> {
    let alloc = rt.alloc();
    assert!(rt; asks_exactly(alloc, 0xff, &[0, 1, 2, 3])?);
    assert!(rt; asks_exactly(alloc, 0, &[0, 2, 3])?);
    for k in 1..=4 {
        assert!(rt; says_fault(alloc, Fail::Read(k))?);
        assert!(rt; says_fault(alloc, Fail::Write(k))?);
    }
    Ok(())
}

// Whether making an image of four blocks, in place of bytes that are all this one, writes these blocks alone.
fn asks_exactly(alloc: Global, byte: u8, written: &[u64]) -> Result<bool, AllocError> {
    let content = vec![in alloc; byte; 4_096]?;
    let mut disk = MemDisk::new(content, Vec::new(alloc));
    let is_made = mkfs(&mut disk, 4, 2).is_ok();
    Ok(is_made & has_log(disk.log(), written))
}

// Whether the log has a read of each of the four blocks, and behind it a write where the block is one of these.
fn has_log(log: &[Access], written: &[u64]) -> bool {
    let mut left = log.iter().copied();
    for block in 0..4u64 {
        if left.next() != Some(Access::Read(block * 1_024)) {
            return false;
        }
        if written.contains(&block) && left.next() != Some(Access::Write(block * 1_024)) {
            return false;
        }
    }
    left.next().is_none()
}

// An image is made again with no write.
#[test]
fn made_again(rt: HostRuntime) -> Result<(), Failure> {
    let mut disk = set_disk(rt.alloc(), 64)?;
    assert!(rt; is_written_once(&mut disk));
    Ok(())
}

fn is_written_once(disk: &mut MemDisk) -> bool {
    let is_made = mkfs(disk, 64, 32).is_ok();
    let once = writes_of(disk.log());
    let is_made_again = mkfs(disk, 64, 32).is_ok();
    is_made & is_made_again & (once == 64) & (writes_of(disk.log()) == 64)
}

fn writes_of(log: &[Access]) -> usize {
    log.iter()
        .filter(|access| matches!(access, Access::Write(_)))
        .count()
}

// A disk of four blocks, in which all bits are set, where this call fails.
fn failing_disk(alloc: Global, fail: Fail) -> Result<MemDisk, AllocError> {
    let fails = vec![in alloc; fail]?;
    let content = vec![in alloc; 0xff; 4_096]?;
    Ok(MemDisk::new(content, fails))
}

// Whether the making tells that the disk failed, where this call fails.
fn says_fault(alloc: Global, fail: Fail) -> Result<bool, AllocError> {
    let mut disk = failing_disk(alloc, fail)?;
    Ok(mkfs(&mut disk, 4, 2) == Err(MakeFault::Fault))
}
