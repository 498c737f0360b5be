// A worked row of the tree of an image.
ghost use Rattle.sv_check.specs.Sound.{IsMountedFrom};

use crate::tests::images::{WITH_HOLE, disk_that_fails, disk_with, says_fault};
use crate::{LoadFault, check, load};
use std::alloc::{AllocError, Global};
use std::process::Abort;
use std::test::Fail as Failure;
use sv_dev::{Access, MemDisk};
use sv_form::Mounted;
use sv_plain::{Fs, listing};

// The text of the tree, or why there is none; None where the check finds the image unsound or fails.
fn tree_text(alloc: Global, disk: &mut MemDisk) -> Option<Result<Vec<u8>, LoadFault>> {
    match check(alloc, disk) {
        Ok(mounted) => Some(loaded_text(alloc, disk, &mounted)),
        Err(_) => None,
    }
}

fn loaded_text(alloc: Global, disk: &mut MemDisk, mounted: &Mounted) -> Result<Vec<u8>, LoadFault>
    requires { IsMountedFrom disk.old.content mounted.now }
{
    let fs = load(alloc, disk, mounted)?;
    text_of(alloc, &fs)
}

fn text_of(alloc: Global, fs: &Fs) -> Result<Vec<u8>, LoadFault> {
    Ok(listing(alloc, fs)?)
}

// Whether the text of the tree is this, and these places are read in this order.
fn loads_exactly(alloc: Global, lines: &[u8], log: &[Access]) -> Result<bool, AllocError> {
    let mut disk = disk_with(alloc, WITH_HOLE, &[])?;
    let is_text = has_text(alloc, &mut disk, lines);
    Ok(is_text & (disk.log() == log))
}

fn has_text(alloc: Global, disk: &mut MemDisk, lines: &[u8]) -> bool {
    match tree_text(alloc, disk) {
        Some(Ok(text)) => text.as_slice() == lines,
        _ => false,
    }
}

// Whether the disk failed after the check, where the k-th read fails.
fn is_stopped(alloc: Global, k: u64) -> Result<bool, AllocError> {
    let mut disk = disk_that_fails(alloc, WITH_HOLE, k)?;
    let outcome = tree_text(alloc, &mut disk);
    Ok(matches!(outcome, Some(Err(LoadFault::Fault))))
}

const LINES: &[u8] =
    b"inode 2 d 755 links 2 size 48 pages 1\ninode 3 f 644 links 1 size 10246 pages 2\n";

// Each block is read once after the seven reads of the check: the inode list, the root's page, and of the file a page, the
// indirect block and the page below it.
const READS: &[Access] = &[
    Access::Read(512),
    Access::Read(2_048),
    Access::Read(2_048),
    Access::Read(3_072),
    Access::Read(5_120),
    Access::Read(6_144),
    Access::Read(3_072),
    Access::Read(2_048),
    Access::Read(3_072),
    Access::Read(4_096),
    Access::Read(5_120),
    Access::Read(6_144),
];

// The text and the reads. Each read after those of the check may fail.
#[test]
fn tree_of_an_image(rt: HostRuntime) -> Result<(), Failure> {
    assert!(rt; loads_exactly(rt.alloc(), LINES, READS)?);
    for k in 8..=12 {
        assert!(rt; is_stopped(rt.alloc(), k)?);
    }
    Ok(())
}

// Each of the seven reads of the check may fail, that of the indirect block among them.
#[test]
fn faults_of_the_check(rt: HostRuntime) -> Result<(), Failure> {
    for k in 1..=7 {
        assert!(rt; says_fault(rt.alloc(), WITH_HOLE, k)?);
    }
    Ok(())
}
