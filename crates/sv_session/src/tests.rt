// The program over the forms in memory.
mod deep_file;
mod made_images;

use crate::Stop;
use crate::cat::cat_disk;
use crate::check::check_disk;
use crate::test_images::{INODE_2, INODE_3, Patch, SMALL, SMALL_CUT, bytes_of};
use crate::test_runs::{Row, Stage, hold_over, run};
use std::alloc::{AllocError, Global};
use std::fs::File;
use std::process::Abort;
use std::rt::Files;
use std::sync::Wait;
use std::test::Fail as Failure;
use std::thread::Threads;
use sv_dev::{Access, Fail, MemDisk, MemSink};

const CAT: &[&str] = &["cat", "E", "3"];

const CHECK: &[&str] = &["check", "E"];

const MISSING: &[u8] = b"svfs: no such file\n";

const UNREAD: &[u8] = b"svfs: words not understood\n";

const FILE_FAULT: &[u8] = b"svfs: file fault\n";

const WORDS: &[Row] = &[
    (CAT, (0, b"hello\n", b"")),
    (&["cat", "E", "0"], (9, b"", MISSING)),
    (&["cat", "E", "2"], (9, b"", MISSING)),
    (&["cat", "E", "4"], (9, b"", MISSING)),
    (&["cat", "E", "17"], (9, b"", MISSING)),
    (&["cat", "E", "4294967295"], (9, b"", MISSING)),
    (&["cat", "E", "03"], (1, b"", UNREAD)),
    (&["cat", "E", ""], (1, b"", UNREAD)),
    (&["cat", "E", "+3"], (1, b"", UNREAD)),
    (&["cat", "E", "3 "], (1, b"", UNREAD)),
    (&["cat", "E", "4294967296"], (1, b"", UNREAD)),
    (&["cat", "E"], (1, b"", UNREAD)),
    (&[], (1, b"", UNREAD)),
    (&["check"], (1, b"", UNREAD)),
    (&["check", "E", "3"], (1, b"", UNREAD)),
    (&["cat", "F", "3"], (5, b"", FILE_FAULT)),
    (&["check", "F"], (5, b"", FILE_FAULT)),
];

#[test]
fn words_and_numbers(rt: HostRuntime) -> Result<(), Failure> {
    hold_over(&rt, SMALL, &[], WORDS)
}

const SOUND: &[Row] = &[(CHECK, (0, b"ok blocks 5 free 0 inodes 16 used 2\n", b""))];

#[test]
fn sound_image(rt: HostRuntime) -> Result<(), Failure> {
    hold_over(&rt, SMALL, &[], SOUND)
}

// Changes of the small image, and what is noted then, by `check` and by `cat` alike.
type Damage = (&'static [Patch], &'static [u8]);

const DAMAGED_SIZES_AND_INODES: &[Damage] = &[
    (&[(512, b"\0")], b"svfs: image refused: 1 Magic 0\n"),
    (&[(516, b"\x03")], b"svfs: image refused: 2 BlockSize 3\n"),
    (&[(520, b"\x06")], b"svfs: image refused: 3 Sizes 0\n"),
    (
        &[(2_048, b"\xa4\x81\x01\0\0\0\0\0\x06\0\0\0\x04")],
        b"svfs: image refused: 4 Kind 1\n",
    ),
    (
        &[(INODE_3 + 51, b"\x01")],
        b"svfs: image refused: 4 Kind 3\n",
    ),
    (
        &[(INODE_2 + 8, b"\x28")],
        b"svfs: image refused: 5 Size 2\n",
    ),
    (
        &[(INODE_3 + 12, b"\x05")],
        b"svfs: image refused: 6 Range 3\n",
    ),
    (
        &[(INODE_3 + 12, b"\x02")],
        b"svfs: image refused: 6 Range 3\n",
    ),
    (
        &[(INODE_3 + 12, b"\x03")],
        b"svfs: image refused: 7 Twice 3\n",
    ),
    (
        &[(INODE_3 + 8, b"\0")],
        b"svfs: image refused: 8 PastSize 3\n",
    ),
    (&[(4_196, b"\x01")], b"svfs: image refused: 9 Tail 3\n"),
];

const DAMAGED_LISTS_AND_DIRECTORIES: &[Damage] = &[
    (
        &[(524, b"\x02\0\0\0\0\0\0\0\x03")],
        b"svfs: image refused: 10 FreeChain 3\n",
    ),
    (
        &[(INODE_3 + 12, b"\0")],
        b"svfs: image refused: 11 Lost 4\n",
    ),
    (
        &[(526, b"\x01"), (728, b"\x03")],
        b"svfs: image refused: 12 CachedInode 3\n",
    ),
    (
        &[(INODE_2 + 1, b"\x81")],
        b"svfs: image refused: 13 Root 2\n",
    ),
    (&[(3_106, b"/")], b"svfs: image refused: 14 Entry 2\n"),
    (&[(3_088, b"\x03")], b"svfs: image refused: 15 Dots 2\n"),
    (
        &[(INODE_2 + 2, b"\x03")],
        b"svfs: image refused: 16 Links 2\n",
    ),
];

fn refuse<R: Files<File = File> + AllocGlobal + Threads + Wait + Abort>(
    rt: &R,
    damages: &[Damage],
) -> Result<(), Failure> {
    for (changes, note) in damages {
        hold_over(
            rt,
            SMALL,
            changes,
            &[(CHECK, (2, b"", note)), (CAT, (2, b"", note))],
        )?;
    }
    Ok(())
}

#[test]
fn damaged_sizes_and_inodes(rt: HostRuntime) -> Result<(), Failure> {
    refuse(&rt, DAMAGED_SIZES_AND_INODES)
}

#[test]
fn damaged_lists_and_directories(rt: HostRuntime) -> Result<(), Failure> {
    refuse(&rt, DAMAGED_LISTS_AND_DIRECTORIES)
}

const CUT_SHORT: &[Row] = &[(CHECK, (2, b"", b"svfs: image refused: 3 Sizes 0\n"))];

#[test]
fn image_cut_short(rt: HostRuntime) -> Result<(), Failure> {
    hold_over(&rt, SMALL_CUT, &[], CUT_SHORT)
}

// Whether these are so many bytes, that begin so and are zero from there on.
fn begin_and_are_zero(bytes: &[u8], front: &[u8], len: usize) -> bool {
    bytes.len() == len
        && bytes.starts_with(front)
        && bytes.iter().skip(front.len()).all(|byte| *byte == 0)
}

// What `cat` writes of the file of the stage's image is the six bytes, and zeros up to that length.
fn cats_with_zeros<R: Files<File = File> + AllocGlobal + Threads + Wait + Abort>(
    rt: &R,
    stage: &mut Stage,
    len: usize,
) -> Result<(), Failure> {
    stage.put(rt.alloc(), "E", SMALL, &[(INODE_3 + 8, b"\x01\x28")])?;
    assert_eq!(rt; run(rt, stage, CAT)?, 0);
    assert!(rt; begin_and_are_zero(stage.out.written(), b"hello\n", len));
    Ok(())
}

// Eleven pages, of which the first is block 4 and the others are holes.
#[test]
fn holes(rt: HostRuntime) -> Result<(), Failure> {
    let mut stage = Stage::new(rt.alloc(), Vec::new(rt.alloc()));
    cats_with_zeros(&rt, &mut stage, 10_241)
}

// A disk with the small image, and a sink.
#[derive(Drop)]
struct Bench {
    disk: MemDisk,
    out: MemSink,
}

fn small_bench(alloc: Global) -> Result<Bench, AllocError> {
    let bytes = bytes_of(alloc, SMALL, &[])?;
    Ok(Bench {
        disk: MemDisk::new(bytes, Vec::new(alloc)),
        out: MemSink::new(Vec::new(alloc)),
    })
}

// How many reads a `cat` of the file makes.
fn reads_of_cat(rt: &impl Abort, alloc: Global, bench: &mut Bench) -> u64 {
    assert_eq!(rt; cat_disk(alloc, &mut bench.disk, 3, &mut bench.out), Ok(()));
    bench.disk.log().len() as u64
}

fn fail_each_read<R: Files<File = File> + AllocGlobal + Threads + Wait + Abort>(
    rt: &R,
    stage: &mut Stage,
    reads: u64,
) -> Result<(), Failure> {
    for failing in 1..=reads.saturating_add(1) {
        stage.put_failing(rt.alloc(), "E", SMALL, Fail::Read(failing))?;
        let status = if failing <= reads { 4 } else { 0 };
        assert_eq!(rt; run(rt, stage, CAT)?, status, "read {failing}");
    }
    Ok(())
}

// Each read that `cat` makes may fail.
#[test]
fn each_read_failing(rt: HostRuntime) -> Result<(), Failure> {
    let alloc = rt.alloc();
    let reads = reads_of_cat(&rt, alloc, &mut small_bench(alloc)?);
    let mut stage = Stage::new(alloc, Vec::new(alloc));
    fail_each_read(&rt, &mut stage, reads)
}

// Commands whose first write fails.
const UNWRITTEN: &[Row] = &[
    (CAT, (6, b"", b"svfs: write fault\n")),
    (CHECK, (6, b"", b"svfs: write fault\n")),
];

fn fail_first_write<R: Files<File = File> + AllocGlobal + Threads + Wait + Abort>(
    rt: &R,
    stage: &mut Stage,
) -> Result<(), Failure> {
    stage.put(rt.alloc(), "E", SMALL, &[])?;
    for (words, told) in UNWRITTEN {
        stage.clear_failing(rt.alloc(), 1)?;
        let status = run(rt, stage, words)?;
        assert_eq!(rt; stage.told(status), *told);
    }
    Ok(())
}

// The first write to `out` fails.
#[test]
fn sink_failing(rt: HostRuntime) -> Result<(), Failure> {
    let mut stage = Stage::new(rt.alloc(), Vec::new(rt.alloc()));
    fail_first_write(&rt, &mut stage)
}

// How often a block was read.
fn reads_of(log: &[Access], block: u64) -> usize {
    let is_read = |access: &&Access| match access {
        Access::Read(at) => at / 1_024 == block,
        Access::Write(_) => false,
    };
    log.iter().filter(is_read).count()
}

fn read_blocks_twice_at_most(rt: &impl Abort, alloc: Global, bench: &mut Bench) {
    assert_eq!(rt; check_disk(alloc, &mut bench.disk, &mut bench.out), Ok(()));
    for block in 0..5 {
        assert!(rt; reads_of(bench.disk.log(), block) <= 2, "block {block}");
    }
}

// A check reads no block more than twice.
#[test]
fn no_block_read_three_times(rt: HostRuntime) -> Result<(), Failure> {
    let alloc = rt.alloc();
    read_blocks_twice_at_most(&rt, alloc, &mut small_bench(alloc)?);
    Ok(())
}

// A free inode is no file.
#[test]
fn free_inode(rt: HostRuntime) -> Result<(), Failure> {
    let alloc = rt.alloc();
    let mut bench = small_bench(alloc)?;
    assert_eq!(rt;
        cat_disk(alloc, &mut bench.disk, 4, &mut bench.out),
        Err(Stop::NoSuchFile)
    );
    Ok(())
}
