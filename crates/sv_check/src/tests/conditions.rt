// Worked rows: small sound images, and changes of them for each of the sixteen conditions.
ghost use Rattle.std.specs.Prelude.{◌≡◌, length, IfOk};

use crate::sound::chain::{MetBlocks, follow_chain};
use crate::tests::images::{
    INODE_1, INODE_3, INODE_4, Image, LINK_BLOCK, MADE, NESTED, Patch, SMALL, disk_with, says_fault,
};
use crate::{CheckFault, check};
use std::alloc::{AllocError, Global};
use std::process::Abort;
use std::test::Fail as Failure;
use sv_dev::{Access, Disk, MemDisk};
use sv_form::{Geometry, LineRange, Mounted};

// Changes of an image, and the number and the place of the first condition that fails then; no number where none does.
type Row = (&'static [Patch], (u8, u32));

// The number and the place of the first condition that fails on the image with these changes, and no number where none
// does. None where there is no answer.
fn first_failing(
    alloc: Global,
    image: Image,
    changes: &[Patch],
) -> Result<Option<(u8, u32)>, AllocError> {
    let mut disk = disk_with(alloc, image, changes)?;
    Ok(answer(alloc, &mut disk))
}

fn answer(alloc: Global, disk: &mut MemDisk) -> Option<(u8, u32)> {
    match check(alloc, disk) {
        Ok(_) => Some((0, 0)),
        Err(CheckFault::Refused { condition, place }) => Some((condition.number(), place)),
        Err(_) => None,
    }
}

// Ends the test at the first row that says something else of this image.
fn hold(rt: &impl Abort, alloc: Global, image: Image, rows: &[Row]) -> Result<(), Failure> {
    for (changes, flaw) in rows {
        assert_eq!(rt; first_failing(alloc, image, changes)?, Some(*flaw));
    }
    Ok(())
}

const NAME_A: usize = 3_106;

// An inode of a regular file.
const FILE: &[u8] = b"\xa4\x81\x01\0\0\0\0\0\x06\0\0\0\x04";

// Changes of the small image for each of the conditions.
const CHANGES: &[Row] = &[
    (&[], (0, 0)),
    (&[(512, b"\0")], (1, 0)),
    (&[(516, b"\x03")], (2, 3)),
    (&[(520, b"\x06")], (3, 0)),
    (&[(INODE_1, FILE)], (4, 1)),
    (&[(2_120, b"\x28")], (5, 2)),
    (&[(INODE_3 + 12, b"\x05")], (6, 3)),
    (&[(INODE_3 + 12, b"\x02")], (6, 3)),
    (&[(INODE_3 + 12, b"\x03")], (7, 3)),
    (&[(INODE_3 + 8, b"\0")], (8, 3)),
    (&[(4_196, b"\x01")], (9, 3)),
    (&[(524, b"\x02\0\0\0\0\0\0\0\x03")], (10, 3)),
    (&[(INODE_3 + 12, b"\0")], (11, 4)),
    (&[(526, b"\x01"), (728, b"\x03")], (12, 3)),
    (&[(2_113, b"\x81")], (13, 2)),
    (&[(NAME_A, b"/")], (14, 2)),
    (&[(3_088, b"\x03")], (15, 2)),
    (&[(2_114, b"\x03")], (16, 2)),
];

#[test]
fn sixteen_conditions(rt: HostRuntime) -> Result<(), Failure> {
    hold(&rt, rt.alloc(), SMALL, CHANGES)
}

// Fourth entries of the root: another name of inode 3, none, the name that is there already, names of a free inode, of none
// in the list and of inode 1, bytes after a name, and a name without an inode. Last, a root that is a page too long.
const FOURTH_ENTRIES: &[Row] = &[
    (&[(2_120, b"@"), (3_120, b"\x03\0b")], (16, 3)),
    (&[(2_120, b"@"), (3_120, b"\0\0")], (0, 0)),
    (&[(2_120, b"@"), (3_120, b"\x03\0a")], (14, 2)),
    (&[(2_120, b"@"), (3_120, b"\x04\0b")], (14, 2)),
    (&[(2_120, b"@"), (3_120, b"\x11\0b")], (14, 2)),
    (&[(2_120, b"@"), (3_120, b"\x01\0b")], (14, 2)),
    (&[(2_120, b"@"), (3_120, b"\x03\0b\0c")], (14, 2)),
    (&[(2_120, b"@"), (3_120, b"\x03\0\0")], (14, 2)),
    (&[(2_120, b"@"), (3_120, b"\0\0b")], (14, 2)),
    (&[(2_120, b"\x10\x04")], (14, 2)),
];

#[test]
fn entries(rt: HostRuntime) -> Result<(), Failure> {
    hold(&rt, rt.alloc(), SMALL, FOURTH_ENTRIES)
}

const fn lines(block: u32, first: u8, count: u8) -> LineRange {
    LineRange {
        block,
        first,
        count,
    }
}

// Whether these are the lines of an inode of the small image; of inode 0 those without an owner.
fn has_lines(alloc: Global, n: u16, want: &[LineRange]) -> Result<bool, AllocError> {
    let mut disk = disk_with(alloc, SMALL, &[])?;
    match check(alloc, &mut disk) {
        Ok(mounted) => are_lines(alloc, &mounted, n, want),
        Err(_) => Ok(false),
    }
}

fn are_lines(
    alloc: Global,
    mounted: &Mounted,
    n: u16,
    want: &[LineRange],
) -> Result<bool, AllocError> {
    let lines = owned_lines(alloc, mounted, n)?;
    Ok(lines.as_slice() == want)
}

fn owned_lines(alloc: Global, mounted: &Mounted, n: u16) -> Result<Vec<LineRange>, AllocError> {
    if n == 0 {
        return mounted.owners.rest(alloc);
    }
    mounted.owners.lines(alloc, n)
}

// Each of the two inodes has its own line and its page; the first two blocks and the lines of free inodes are nobody's.
#[test]
fn owners(rt: HostRuntime) -> Result<(), Failure> {
    let alloc = rt.alloc();
    let root = [lines(2, 1, 1), lines(3, 0, 16)];
    let file = [lines(2, 2, 1), lines(4, 0, 16)];
    let rest = [
        lines(0, 0, 16),
        lines(1, 0, 16),
        lines(2, 0, 1),
        lines(2, 3, 13),
    ];
    assert!(rt; has_lines(alloc, 2, &root)?);
    assert!(rt; has_lines(alloc, 3, &file)?);
    assert!(rt; has_lines(alloc, 4, &[])?);
    assert!(rt; has_lines(alloc, 0, &rest)?);
    Ok(())
}

// The `..` of 4 names the root; the `.` of 4 names 3; entry 1 of 3 has another name; the root names 4 in place of 3; 3 names
// the root; `..` stands twice; a directory has a link too many, none, and more than there may be. Last, directories 3 and 4
// stand in one another, and no way leads from them to the root.
const NESTED_CHANGES: &[Row] = &[
    (&[], (0, 0)),
    (&[(5_136, b"\x02")], (15, 4)),
    (&[(5_120, b"\x03")], (15, 4)),
    (&[(4_114, b"x")], (15, 3)),
    (&[(3_104, b"\x04")], (15, 3)),
    (&[(4_128, b"\x02")], (15, 2)),
    (&[(4_130, b"..")], (14, 3)),
    (&[(INODE_4 + 2, b"\x03")], (16, 4)),
    (&[(INODE_4 + 2, b"\0")], (16, 4)),
    (&[(INODE_3 + 2, b"\xe9\x03")], (16, 3)),
    (
        &[(3_104, b"\0\0\0"), (4_112, b"\x04"), (5_152, b"\x03\0d")],
        (15, 3),
    ),
];

#[test]
fn nested_directories(rt: HostRuntime) -> Result<(), Failure> {
    hold(&rt, rt.alloc(), NESTED, NESTED_CHANGES)
}

// Counts of the inode cache, and the numbers in it: no number but that of a free inode, once; inode 16 is the last.
const CACHES: &[Row] = &[
    (&[(526, b"\x02"), (728, b"\x10\0\x04")], (0, 0)),
    (&[(526, b"\x01"), (728, b"\0")], (12, 0)),
    (&[(526, b"\x01"), (728, b"\x01")], (12, 1)),
    (&[(526, b"\x02"), (728, b"\x05\0\x02")], (12, 2)),
    (&[(526, b"\x02"), (728, b"\x05\0\x05")], (12, 5)),
    (&[(526, b"\x01"), (728, b"\x11")], (12, 17)),
    (&[(526, b"\x01"), (728, b"\x10\x01")], (12, 272)),
];

#[test]
fn inode_caches(rt: HostRuntime) -> Result<(), Failure> {
    hold(&rt, rt.alloc(), SMALL, CACHES)
}

// Inode 3 with a size of 256 MiB and no page 0.
const LONG: Patch = (INODE_3 + 8, b"\0\0\0\x10\0");

// Block 4 with no number but maybe its last.
const NO_NUMBER: Patch = (4_096, b"\0\0\0\0\0\0");

// Block 4 as the single, the double and the triple indirect block of inode 3, with no number, its own, and one that is no
// data block.
const INDIRECT: &[Row] = &[
    (&[LONG, (INODE_3 + 42, b"\x04"), NO_NUMBER], (8, 3)),
    (
        &[LONG, (INODE_3 + 42, b"\x04"), NO_NUMBER, (5_116, b"\x04")],
        (7, 4),
    ),
    (
        &[LONG, (INODE_3 + 42, b"\x04"), NO_NUMBER, (5_116, b"\x05")],
        (6, 3),
    ),
    (&[LONG, (INODE_3 + 45, b"\x04"), NO_NUMBER], (8, 3)),
    (
        &[LONG, (INODE_3 + 45, b"\x04"), NO_NUMBER, (5_116, b"\x04")],
        (7, 4),
    ),
    (
        &[LONG, (INODE_3 + 45, b"\x04"), NO_NUMBER, (5_116, b"\x05")],
        (6, 3),
    ),
    (&[LONG, (INODE_3 + 48, b"\x04"), NO_NUMBER], (8, 3)),
    (
        &[LONG, (INODE_3 + 48, b"\x04"), NO_NUMBER, (5_116, b"\x04")],
        (7, 4),
    ),
    (
        &[LONG, (INODE_3 + 48, b"\x04"), NO_NUMBER, (5_116, b"\x05")],
        (6, 3),
    ),
];

#[test]
fn indirect_blocks(rt: HostRuntime) -> Result<(), Failure> {
    hold(&rt, rt.alloc(), SMALL, INDIRECT)
}

// Whether the check finds the image sound, and reads these places in this order.
fn reads_exactly(alloc: Global, image: Image, log: &[Access]) -> Result<bool, AllocError> {
    let mut disk = disk_with(alloc, image, &[])?;
    let is_sound = check(alloc, &mut disk).is_ok();
    Ok(is_sound & (disk.log() == log))
}

// The superblock, the inode list twice, the last page of each file, and the root's page once more.
const READS: &[Access] = &[
    Access::Read(512),
    Access::Read(2_048),
    Access::Read(2_048),
    Access::Read(3_072),
    Access::Read(4_096),
    Access::Read(3_072),
];

#[test]
fn reads_and_faults(rt: HostRuntime) -> Result<(), Failure> {
    assert!(rt; reads_exactly(rt.alloc(), SMALL, READS)?);
    for k in 1..=6 {
        assert!(rt; says_fault(rt.alloc(), SMALL, k)?);
    }
    Ok(())
}

// Both blocks of the inode list twice, the root's page, the link block, and the root's page once more.
const READS_OF_THE_CHAIN: &[Access] = &[
    Access::Read(512),
    Access::Read(2_048),
    Access::Read(3_072),
    Access::Read(2_048),
    Access::Read(4_096),
    Access::Read(3_072),
    Access::Read(14_336),
    Access::Read(4_096),
];

#[test]
fn reads_of_the_chain(rt: HostRuntime) -> Result<(), Failure> {
    assert!(rt; reads_exactly(rt.alloc(), MADE, READS_OF_THE_CHAIN)?);
    for k in 1..=8 {
        assert!(rt; says_fault(rt.alloc(), MADE, k)?);
    }
    Ok(())
}

// A list that leads to itself, one of 51 numbers, one with a hole, one that ends in a number of the other list, and one
// in which a block of the walk stands. Last, the list in the superblock ends before its last number, which is block 5.
const LISTS: &[Row] = &[
    (&[], (0, 0)),
    (&[(LINK_BLOCK + 4, b"\x0e")], (10, 14)),
    (&[(LINK_BLOCK, b"\x33")], (10, 14)),
    (&[(LINK_BLOCK + 8, b"\0")], (10, 14)),
    (&[(LINK_BLOCK + 8, b"\x0d")], (10, 13)),
    (&[(LINK_BLOCK + 8, b"\x04")], (10, 4)),
    (&[(524, b"\x09"), (564, b"\0")], (11, 5)),
];

#[test]
fn link_blocks(rt: HostRuntime) -> Result<(), Failure> {
    hold(&rt, rt.alloc(), MADE, LISTS)
}

// Eight blocks, of which block 4 has a list of the link 0 and block 6.
const LISTED: Image = Image {
    len: 8_192,
    bytes: &[(4_096, b"\x02"), (4_104, b"\x06")],
    numbers: &[],
};

// The blocks that were met: block 3.
fn third_met(alloc: Global) -> Result<MetBlocks, AllocError>
    ensures { IfOk result (λ m. length m.met.items ≡ 8) }
{
    let mut met = vec![in alloc; false; 8]?;
    met[3] = true;
    Ok(MetBlocks { met, bad: 0 })
}

// The first bad number of the chain that begins with these numbers, in these blocks.
fn chain_stops_on(
    alloc: Global,
    disk: &mut MemDisk,
    met: &mut MetBlocks,
    numbers: &[u32],
) -> Result<Option<u32>, Failure>
    requires { length met.old.met.items ≡ 8 }
{
    let sizes = Geometry {
        block_size: 1_024,
        blocks: 8,
        first_data: 3,
    };
    if disk.length() != 8_192 {
        return Err("length")?;
    }
    let first = numbers.to_vec(alloc)?;
    match follow_chain(alloc, disk, &sizes, met, first) {
        Ok(bad) => Ok(bad),
        Err(_) => Err("no answer")?,
    }
}

// The same, where block 3 was met in the walk, and block 4 has this link.
fn chain_stops(alloc: Global, numbers: &[u32], link: &[Patch]) -> Result<Option<u32>, Failure> {
    let mut met = third_met(alloc)?;
    let mut disk = disk_with(alloc, LISTED, link)?;
    chain_stops_on(alloc, &mut disk, &mut met, numbers)
}

// The numbers that a chain begins with, the link of block 4, and the number at which it stops.
const CHAINS: &[(&[u32], &[Patch], Option<u32>)] = &[
    (&[0], &[], None),
    (&[4, 5], &[], None),
    (&[4, 5], &[(4_100, b"\x07")], Some(7)),
    (&[4, 5], &[(4_100, b"\x04")], Some(4)),
    (&[4, 6], &[], Some(6)),
    (&[0, 3], &[], Some(3)),
    (&[0, 0], &[], Some(0)),
    (&[5, 8], &[], Some(8)),
    (&[5, 6], &[], Some(5)),
];

#[test]
fn chains(rt: HostRuntime) -> Result<(), Failure> {
    for (numbers, link, bad) in CHAINS {
        assert_eq!(rt; chain_stops(rt.alloc(), numbers, link)?, *bad);
    }
    Ok(())
}
