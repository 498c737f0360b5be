// Journals over a new image, by the program over the forms in memory.
ghost use Rattle.std.specs.Prelude.{◌≡◌, ◌≢◌, List, ℕ, Option, Some, IsNone, IsSome};

mod replies;

use crate::replay_image;
use crate::test_images::{EMPTY, MADE, bytes_of};
use crate::test_runs::{Row, Stage, Told, hold, run};
use std::alloc::{AllocError, Global};
use std::fs::File;
use std::process::Abort;
use std::rt::Files;
use std::sync::Wait;
use std::test::Fail as Failure;
use std::thread::Threads;
use sv_dev::{Fail, Host, MemHost, Sink};

// What a run wrote that makes a directory and a file, writes, reads and looks at it.
const WORKED: &[&str] = &[
    "svj 1 1 100\n",
    "1 promise make 2 686f6d65 = granted 1\n",
    "1 create 2 686f6d65 d 755 = made 3\n",
    "1 forgo = done\n",
    "1 drop 3 = kept\n",
    "1 look 2 686f6d65 = found 3\n",
    "1 promise enter 3 61 = granted 0\n",
    "1 create 3 61 f 644 = made 4\n",
    "1 forgo = done\n",
    "1 drop 3 = kept\n",
    "1 open 4 w = opened 0\n",
    "1 promise write 0 6 = granted 1\n",
    "1 write 0 68656c6c6f0a = wrote 6\n",
    "1 forgo = done\n",
    "1 close 0 = kept\n",
    "1 look 2 686f6d65 = found 3\n",
    "1 look 3 61 = found 4\n",
    "1 drop 3 = kept\n",
    "1 open 4 rw = opened 0\n",
    "1 seek 0 1 0 = at 1\n",
    "1 read 0 4 = got 656c6c6f\n",
    "1 stat 4 = is f 644 1 6\n",
    "1 close 0 = kept\n",
    "1 look 2 686f6d65 = found 3\n",
    "1 stat 3 = is d 755 2 48\n",
    "1 drop 3 = kept\n",
    "1 drop 2 = kept\n",
    "1 drop 2 = kept\n",
    "0 purge = done\n",
];

// Lines of that journal by their places from 0, and the text in place of each.
type Change = (usize, &'static str);

fn line_after(changes: &[Change], place: usize, line: &'static str) -> &'static str {
    match changes.iter().find(|change| change.0 == place) {
        Some(change) => change.1,
        None => line,
    }
}

fn write_journal(text: &mut Vec<u8>, changes: &[Change]) -> Result<(), AllocError> {
    for (place, line) in WORKED.iter().enumerate() {
        text.extend_from_slice(line_after(changes, place, line).as_bytes())?;
    }
    Ok(())
}

// The journal after these changes.
fn journal(alloc: Global, changes: &[Change]) -> Result<Vec<u8>, AllocError> {
    let mut text = Vec::new(alloc);
    write_journal(&mut text, changes)?;
    Ok(text)
}

// Puts the journal after these changes under the name J, and the new image under the name A.
fn put_both(alloc: Global, stage: &mut Stage, changes: &[Change]) -> Result<(), Failure> {
    let text = journal(alloc, changes)?;
    stage.host.put_text("J", text)?;
    stage.put(alloc, "A", MADE, &[])
}

const REPLAY: &[&str] = &["replay", "A", "J"];

// The replay of the journal after these changes is answered so.
fn gives<R: Files<File = File> + AllocGlobal + Threads + Wait + Abort>(
    rt: &R,
    changes: &[Change],
    told: Told,
) -> Result<(), Failure> {
    let mut stage = Stage::new(rt.alloc(), Vec::new(rt.alloc()));
    gives_on(rt, &mut stage, changes, told)
}

fn gives_on<R: Files<File = File> + AllocGlobal + Threads + Wait + Abort>(
    rt: &R,
    stage: &mut Stage,
    changes: &[Change],
    told: Told,
) -> Result<(), Failure> {
    put_both(rt.alloc(), stage, changes)?;
    hold(rt, stage, &[(REPLAY, told)])
}

const LISTING: &[u8] = b"inode 2 d 755 links 3 size 48 pages 1
inode 3 d 755 links 2 size 48 pages 1
inode 4 f 644 links 1 size 6 pages 1
";

#[test]
fn worked_journal(rt: HostRuntime) -> Result<(), Failure> {
    gives(&rt, &[], (0, LISTING, b""))
}

// Bytes that were never written, a making cut out, and a promise asked twice: each is refused where it is illegal.
const ILLEGAL: &[(&[Change], &[u8])] = &[
    (
        &[(20, "1 read 0 4 = got 656c6c70\n")],
        b"svfs: journal line 21 refused\n",
    ),
    (&[(2, "")], b"svfs: journal line 4 refused\n"),
    (
        &[(0, "svj 1 1 100\n1 promise make 2 686f6d65 = granted 1\n")],
        b"svfs: journal line 3 refused\n",
    ),
];

#[test]
fn illegal_entries(rt: HostRuntime) -> Result<(), Failure> {
    for (changes, note) in ILLEGAL {
        gives(&rt, changes, (8, b"", note))?;
    }
    Ok(())
}

// A line that does not read is refused before an illegal entry above it.
const UNENDED: &[&[Change]] = &[
    &[(28, "0 purge = done")],
    &[(28, "0 purge = done"), (20, "1 read 0 4 = got 656c6c70\n")],
];

#[test]
fn lines_that_do_not_read(rt: HostRuntime) -> Result<(), Failure> {
    for changes in UNENDED {
        gives(&rt, changes, (8, b"", b"svfs: journal line 29 refused\n"))?;
    }
    Ok(())
}

const FIRST_LINE_REFUSED: &[Row] = &[(REPLAY, (8, b"", b"svfs: journal line 1 refused\n"))];

fn replay_no_byte<R: Files<File = File> + AllocGlobal + Threads + Wait + Abort>(
    rt: &R,
    stage: &mut Stage,
) -> Result<(), Failure> {
    stage.put(rt.alloc(), "A", MADE, &[])?;
    stage.host.put_text("J", Vec::new(rt.alloc()))?;
    hold(rt, stage, FIRST_LINE_REFUSED)
}

#[test]
fn journal_of_no_byte(rt: HostRuntime) -> Result<(), Failure> {
    let mut stage = Stage::new(rt.alloc(), Vec::new(rt.alloc()));
    replay_no_byte(&rt, &mut stage)
}

// A host that tells its texts, and has none under any name: whatever else it does, `replay` is not done.
fn replay_of_nothing<R: Files<File = File>, H: Host, O: Sink>(
    rt: &R,
    alloc: Global,
    host: &mut H,
    out: &mut O,
    note: &mut O,
) -> u8
    requires images { IsSome (H.images host.old) }
    requires texts { (under : List ℕ → Option (List ℕ)) × (H.texts host.old ≡ Some under) × ((name : List ℕ) → IsNone (under name)) }
    ensures { result ≢ 0 }
{
    replay_image(rt, alloc, host, "A", "J", out, note)
}

const NOT_THERE: &Told = &(5, b"", FILE_FAULT);

fn replay_without_a_journal<R: Files<File = File> + AllocGlobal + Threads + Wait + Abort>(
    rt: &R,
    stage: &mut Stage,
) -> Result<(), Failure> {
    let alloc = rt.alloc();
    let image = bytes_of(alloc, MADE, &[])?;
    let mut host = MemHost::new(Vec::new(alloc));
    host.put_image("A", image, Vec::new(alloc))?;
    let status = replay_of_nothing(rt, alloc, &mut host, &mut stage.out, &mut stage.note);
    assert_eq!(rt; stage.told(status), *NOT_THERE);
    Ok(())
}

#[test]
fn journal_that_is_not_there(rt: HostRuntime) -> Result<(), Failure> {
    let mut stage = Stage::new(rt.alloc(), Vec::new(rt.alloc()));
    replay_without_a_journal(&rt, &mut stage)
}

// A write of `out` that fails, and what is answered.
const WRITES: &[(u64, Told)] = &[
    (1, (6, b"", b"svfs: write fault\n")),
    (2, (0, LISTING, b"")),
];

fn fail_each_write<R: Files<File = File> + AllocGlobal + Threads + Wait + Abort>(
    rt: &R,
    stage: &mut Stage,
) -> Result<(), Failure> {
    put_both(rt.alloc(), stage, &[])?;
    for (call, told) in WRITES {
        stage.clear_failing(rt.alloc(), *call)?;
        let status = run(rt, stage, REPLAY)?;
        assert_eq!(rt; stage.told(status), *told);
    }
    Ok(())
}

// `out` fails at its first write, which is the whole listing; there is no second.
#[test]
fn sink_failing(rt: HostRuntime) -> Result<(), Failure> {
    let mut stage = Stage::new(rt.alloc(), Vec::new(rt.alloc()));
    fail_each_write(&rt, &mut stage)
}

const FILE_FAULT: &[u8] = b"svfs: file fault\n";

const FAULT: &[Row] = &[(REPLAY, (5, b"", FILE_FAULT))];

const REFUSAL: &[Row] = &[(REPLAY, (2, b"", b"svfs: image refused: 1 Magic 0\n"))];

fn replay_with_neither_and_without_one<
    R: Files<File = File> + AllocGlobal + Threads + Wait + Abort,
>(rt: &R, stage: &mut Stage) -> Result<(), Failure> {
    hold(rt, stage, FAULT)?;
    stage.put(rt.alloc(), "A", EMPTY, &[])?;
    hold(rt, stage, REFUSAL)?;
    stage.put(rt.alloc(), "A", MADE, &[])?;
    hold(rt, stage, FAULT)
}

// The image comes before the journal, and both have to be there.
#[test]
fn image_before_journal(rt: HostRuntime) -> Result<(), Failure> {
    let mut stage = Stage::new(rt.alloc(), Vec::new(rt.alloc()));
    replay_with_neither_and_without_one(&rt, &mut stage)
}

const DISK_FAULT: &[Row] = &[(REPLAY, (4, b"", b"svfs: device fault\n"))];

fn fail_each_read<R: Files<File = File> + AllocGlobal + Threads + Wait + Abort>(
    rt: &R,
    stage: &mut Stage,
) -> Result<(), Failure> {
    for read in 1..=12 {
        stage.put_failing(rt.alloc(), "A", MADE, Fail::Read(read))?;
        hold(rt, stage, if read <= 11 { DISK_FAULT } else { FAULT })?;
    }
    Ok(())
}

// Each read of the image may fail: the check makes eight (the superblock, twice each of the two blocks of the inode list,
// twice the root's page, and the link block), and the load three. There is no twelfth, and the journal is not there.
#[test]
fn failing_reads(rt: HostRuntime) -> Result<(), Failure> {
    let mut stage = Stage::new(rt.alloc(), Vec::new(rt.alloc()));
    fail_each_read(&rt, &mut stage)
}
