//! Journals in which each op has each reply that it can have without a device fault.
ghost use Rattle.std.specs.Prelude.{◌≤◌};

use crate::test_runs::{Stage, Told, hold};
use std::alloc::{AllocError, Global};
use std::fs::File;
use std::process::Abort;
use std::rt::Files;
use std::sync::Wait;
use std::test::Fail as Failure;
use std::thread::Threads;

// Three processes over an image of 16 blocks and 16 inodes, with a table of four places. What is missing here is in the
// journal below: directories and files with the most links, and a directory whose next entry has no room.
const REPLIES: &str = "svj 1 3 4
1 promise make 2 64 = granted 1
1 create 2 64 d 755 = made 3
1 forgo = done
1 promise enter 3 66 = granted 0
1 create 3 66 f 644 = made 4
1 create 3 66 f 600 = found 4
1 forgo = done
1 create 4 67 f 644 = notdir
1 look 4 67 = notdir
1 look 3 67 = notfound
1 look 3 66 = found 4
1 drop 4 = kept
1 unlink 4 66 = notdir
1 rmdir 4 66 = notdir
1 promise enter 4 67 = granted 0
1 forgo = done
1 addlink 3 = isdir
1 addlink 4 = raised
1 enter 4 67 4 = notdir
1 enter 3 66 4 = exists
1 enter 3 67 4 = entered
1 addlink 4 = raised
1 sublink 4 = lowered
1 open 3 rw = isdir
1 open 4 rw = opened 0
1 open 3 r = opened 1
1 dup 0 = dupped
1 close 0 = kept
1 promise write 0 2500 = granted 3
1 write 0 68656c6c6f = wrote 5
1 forgo = done
1 seek 0 1 0 = at 1
1 read 0 3 = got 656c6c
1 seek 0 0 2 = at 5
1 seek 0 -6 1 = bad
1 seek 0 2147483647 0 = at 2147483647
1 promise write 0 1 = toobig
1 promise write 0 0 = granted 0
1 write 0 - = wrote 0
1 forgo = done
1 seek 0 20480 0 = at 20480
1 promise write 0 11000 = nospace
1 promise write 0 1 = granted 2
1 write 0 2a = wrote 1
1 forgo = done
1 stat 4 = is f 644 2 20481
1 stat 3 = is d 755 2 64
1 sync = done
1 trunc 2 = isdir
1 trunc 4 = done
1 seek 0 0 0 = at 0
1 promise write 0 10240 = granted 10
2 promise make 2 71 = granted 1
3 promise make 2 71 = nospace
2 forgo = done
1 forgo = done
1 promise enter 2 69 = granted 0
1 create 2 69 f 0 = made 5
1 drop 5 = kept
1 forgo = done
1 promise make 2 6a = granted 1
1 create 2 6a d 700 = made 6
1 drop 6 = kept
1 forgo = done
1 promise make 2 68 = granted 1
1 create 2 68 d 711 = made 7
1 forgo = done
1 look 2 69 = full
1 create 2 69 f 644 = full
1 create 2 6b f 644 = full
1 unlink 2 69 = full
1 rmdir 2 6a = full
1 unlink 2 68 = isdir
1 look 2 64 = found 3
1 rmdir 3 66 = plain
1 rmdir 2 64 = notempty
1 unlink 3 61 = notfound
1 rmdir 3 61 = notfound
1 rmdir 2 68 = removed 7
1 look 7 61 = gone
1 create 7 61 f 644 = gone
1 unlink 7 61 = gone
1 rmdir 7 61 = gone
1 promise make 7 61 = granted 0
1 forgo = done
1 addlink 4 = raised
1 enter 7 61 4 = gone
1 sublink 4 = lowered
1 drop 7 = kept
1 drop 7 = freed
1 unlink 3 67 = removed 4
1 unlink 3 66 = removed 4
1 addlink 4 = gone
1 drop 4 = kept
1 drop 4 = kept
1 drop 4 = kept
1 close 0 = latememory
1 unlink 2 69 = removed 5
1 drop 5 = latememory
1 rmdir 2 6a = removed 6
1 drop 6 = late
1 create 2 6c f 7777 = made 7
1 open 7 w = opened 0
1 unlink 2 6c = removed 7
1 drop 7 = kept
1 close 0 = freed
1 create 2 6d f 7777 = made 7
1 open 7 w = opened 0
1 unlink 2 6d = removed 7
1 drop 7 = kept
1 close 0 = late
1 create 2 6e f 644 = made 8
1 drop 8 = kept
1 create 2 6f f 644 = made 9
1 drop 9 = kept
1 create 2 70 f 644 = made 10
1 drop 10 = kept
1 create 2 71 f 644 = made 11
1 drop 11 = kept
1 create 2 72 f 644 = made 12
1 drop 12 = kept
1 create 2 73 f 644 = made 13
1 drop 13 = kept
1 create 2 74 f 644 = made 14
1 drop 14 = kept
1 create 2 75 f 644 = made 15
1 drop 15 = kept
1 create 2 76 f 644 = made 16
1 drop 16 = kept
1 create 2 77 f 644 = noinode
2 look 2 64 = found 3
2 stat 3 = is d 755 2 64
2 drop 3 = kept
1 close 1 = kept
1 drop 3 = kept
1 drop 2 = kept
1 drop 2 = kept
2 drop 2 = kept
2 drop 2 = kept
3 drop 2 = kept
3 drop 2 = kept
0 purge = late
0 purge = latememory
0 purge = done
";

// Every node whose removal came late is gone after the last purge: 4 to 7. The root has twelve entries, empty ones too.
const REPLIES_LISTING: &str = "inode 2 d 755 links 3 size 192 pages 1
inode 3 d 755 links 2 size 64 pages 1
inode 8 f 644 links 1 size 0 pages 0
inode 9 f 644 links 1 size 0 pages 0
inode 10 f 644 links 1 size 0 pages 0
inode 11 f 644 links 1 size 0 pages 0
inode 12 f 644 links 1 size 0 pages 0
inode 13 f 644 links 1 size 0 pages 0
inode 14 f 644 links 1 size 0 pages 0
inode 15 f 644 links 1 size 0 pages 0
inode 16 f 644 links 1 size 0 pages 0
";

const REPLAY: &[&str] = &["replay", "B", "J"];

const MADE_SO: &Told = &(0, b"", b"");

fn listed(listing: &[u8]) -> Told<'_> {
    (0, listing, b"")
}

// Over the image that these words make, this text leads to this listing.
fn leads_to<R: Files<File = File> + AllocGlobal + Threads + Wait + Abort>(
    rt: &R,
    making: &[&str],
    text: &[u8],
    listing: &[u8],
) -> Result<(), Failure> {
    let mut stage = Stage::new(rt.alloc(), Vec::new(rt.alloc()));
    leads_on_to(rt, &mut stage, making, text, listed(listing))
}

fn leads_on_to<R: Files<File = File> + AllocGlobal + Threads + Wait + Abort>(
    rt: &R,
    stage: &mut Stage,
    making: &[&str],
    text: &[u8],
    told: Told,
) -> Result<(), Failure> {
    stage
        .host
        .put_text("J", Vec::from_slice(rt.alloc(), text)?)?;
    hold(rt, stage, &[(making, *MADE_SO)])?;
    hold(rt, stage, &[(REPLAY, told)])
}

#[test]
fn each_reply_of_each_op(rt: HostRuntime) -> Result<(), Failure> {
    let (text, listing) = (REPLIES.as_bytes(), REPLIES_LISTING.as_bytes());
    leads_to(&rt, &["mkfs", "B", "16", "16"], text, listing)
}

// The name of four digits, as a journal spells it.
fn name(alloc: Global, k: u32) -> Result<String, AllocError> {
    format!(in alloc;
        "3{}3{}3{}3{}",
        k / 1_000 % 10,
        k / 100 % 10,
        k / 10 % 10,
        k % 10
    )
}

// How many blocks a directory with that many entries, none of them empty, needs for one more: page 10 comes with an indirect one.
fn page_need(entries: u32) -> u32
    ensures { result ≤ 2 }
{
    if entries % 64 != 0 {
        0
    } else if entries == 640 {
        2
    } else {
        1
    }
}

// The root gets 998 directories, 3 to 1000, and a file, 1001.
fn add_directories(alloc: Global, text: &mut String) -> Result<(), AllocError> {
    for k in 0..998u32 {
        let (name, need, made) = (name(alloc, k)?, 1 + page_need(2 + k), k + 3);
        text.push_str(&format!(in alloc; "1 promise make 2 {name} = granted {need}\n")?)?;
        text.push_str(&format!(in alloc; "1 create 2 {name} d 755 = made {made}\n")?)?;
        text.push_str(&format!(in alloc; "1 drop {made} = kept\n1 forgo = done\n")?)?;
    }
    text.push_str(
        "1 promise make 2 6d = granted 1\n1 create 2 6d d 755 = manylinks\n1 forgo = done\n",
    )?;
    text.push_str("1 create 2 66 f 644 = made 1001\n1 look 2 30303030 = found 3\n")
}

// The file gets 999 names more, in directory 3, and that 23 files more, until its sixteen pages are full.
fn add_names(alloc: Global, text: &mut String) -> Result<(), AllocError> {
    for k in 0..999u32 {
        let (name, need) = (name(alloc, k)?, page_need(2 + k));
        text.push_str(&format!(in alloc;
            "1 addlink 1001 = raised\n1 promise enter 3 {name} = granted {need}\n"
        )?)?;
        text.push_str(&format!(in alloc; "1 enter 3 {name} 1001 = entered\n1 forgo = done\n")?)?;
    }
    text.push_str("1 addlink 1001 = manylinks\n")?;
    for k in 999..1_022u32 {
        let (name, made) = (name(alloc, k)?, k + 3);
        text.push_str(&format!(in alloc;
            "1 create 3 {name} f 644 = made {made}\n1 drop {made} = kept\n"
        )?)?;
    }
    Ok(())
}

// 951 blocks are left, and one process is promised all of them.
const NO_ROOM: &str = "1 open 1001 rw = opened 0
1 promise write 0 968704 = granted 951
2 look 2 30303030 = found 3
2 promise enter 3 6d = nospace
2 promise make 3 6d = nospace
2 drop 3 = kept
";

fn most_links(alloc: Global) -> Result<String, AllocError> {
    let mut text = String::from_str(alloc, "svj 1 2 400\n")?;
    add_directories(alloc, &mut text)?;
    add_names(alloc, &mut text)?;
    text.push_str(NO_ROOM)?;
    Ok(text)
}

fn most_links_listing(alloc: Global) -> Result<String, AllocError> {
    let front =
        "inode 2 d 755 links 1000 size 16016 pages 16\ninode 3 d 755 links 2 size 16384 pages 16\n";
    let mut text = String::from_str(alloc, front)?;
    for inode in 4..1_001u32 {
        text.push_str(&format!(in alloc; "inode {inode} d 755 links 2 size 32 pages 1\n")?)?;
    }
    text.push_str("inode 1001 f 644 links 1000 size 0 pages 0\n")?;
    for inode in 1_002..1_025u32 {
        text.push_str(&format!(in alloc; "inode {inode} f 644 links 1 size 0 pages 0\n")?)?;
    }
    Ok(text)
}

#[test]
fn as_many_links_as_there_can_be(rt: HostRuntime) -> Result<(), Failure> {
    let text = most_links(rt.alloc())?;
    let listing = most_links_listing(rt.alloc())?;
    leads_to(
        &rt,
        &["mkfs", "B", "2048", "1024"],
        text.as_bytes(),
        listing.as_bytes(),
    )
}
