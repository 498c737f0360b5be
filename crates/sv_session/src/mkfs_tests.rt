// Images made anew, by the program over the forms in memory.
use crate::test_images::{FIVE_SEVENS, MADE, bytes_of};
use crate::test_runs::{Row, Stage, hold};
use std::alloc::Global;
use std::fs::File;
use std::process::Abort;
use std::rt::Files;
use std::sync::Wait;
use std::test::Fail as Failure;
use std::thread::Threads;
use sv_dev::{Fail, MemHost};

const UNREAD: &[u8] = b"svfs: words not understood\n";

const FILE_FAULT: &[u8] = b"svfs: file fault\n";

const SMALLEST: &[&str] = &["mkfs", "i", "4", "2"];

// Images made under names that nothing stands under, and the check of each.
const MAKINGS: &[Row] = &[
    (&["mkfs", "i", "4", "2"], (0, b"", b"")),
    (
        &["check", "i"],
        (0, b"ok blocks 4 free 0 inodes 16 used 1\n", b""),
    ),
    (&["mkfs", "j", "8", "80"], (0, b"", b"")),
    (
        &["check", "j"],
        (0, b"ok blocks 8 free 0 inodes 80 used 1\n", b""),
    ),
    (&["mkfs", "k", "64", "32"], (0, b"", b"")),
    (
        &["check", "k"],
        (0, b"ok blocks 64 free 59 inodes 32 used 1\n", b""),
    ),
];

#[test]
fn made_ones(rt: HostRuntime) -> Result<(), Failure> {
    let mut stage = Stage::new(rt.alloc(), Vec::new(rt.alloc()));
    hold(&rt, &mut stage, MAKINGS)
}

// Numbers out of the limits, and words that are too few, too many or no numbers.
const REFUSED: &[Row] = &[
    (&["mkfs", "i", "3", "2"], (1, b"", UNREAD)),
    (&["mkfs", "i", "65537", "2"], (1, b"", UNREAD)),
    (&["mkfs", "i", "8", "81"], (1, b"", UNREAD)),
    (&["mkfs", "i", "8", "1"], (1, b"", UNREAD)),
    (&["mkfs", "i", "65536", "65521"], (1, b"", UNREAD)),
    (&["mkfs", "i", "08", "16"], (1, b"", UNREAD)),
    (&["mkfs", "i", "8", "+16"], (1, b"", UNREAD)),
    (&["mkfs", "i", "8", ""], (1, b"", UNREAD)),
    (&["mkfs", "i", "8"], (1, b"", UNREAD)),
    (&["mkfs", "i", "8", "16", "1"], (1, b"", UNREAD)),
    (&["mkfs"], (1, b"", UNREAD)),
    (&[], (1, b"", UNREAD)),
];

fn refuse_words<R: Files<File = File> + AllocGlobal + Threads + Wait + Abort>(
    rt: &R,
    stage: &mut Stage,
) -> Result<(), Failure> {
    hold(rt, stage, REFUSED)?;
    assert!(rt; stage.host.image("i").is_none());
    Ok(())
}

// Nothing is made where the words are refused.
#[test]
fn refused_words(rt: HostRuntime) -> Result<(), Failure> {
    let mut stage = Stage::new(rt.alloc(), Vec::new(rt.alloc()));
    refuse_words(&rt, &mut stage)
}

// Whether these bytes stand under the name.
fn has_bytes(host: &MemHost, name: &str, bytes: &[u8]) -> bool {
    match host.image(name) {
        Some(image) => image == bytes,
        None => false,
    }
}

// Whether the bytes of the image of 64 blocks and 32 inodes stand under the name.
fn has_made_bytes(alloc: Global, host: &MemHost, name: &str) -> Result<bool, Failure> {
    let made = bytes_of(alloc, MADE, &[])?;
    Ok(has_bytes(host, name, &made))
}

// Whether the four blocks under the name are zero bytes.
fn has_zeros(host: &MemHost) -> bool {
    match host.image("i") {
        Some(image) => image.len() == 4_096 && image.iter().all(|byte| *byte == 0),
        None => false,
    }
}

fn make_beside_another<R: Files<File = File> + AllocGlobal + Threads + Wait + Abort>(
    rt: &R,
    stage: &mut Stage,
) -> Result<(), Failure> {
    let alloc = rt.alloc();
    stage.put(alloc, "i", FIVE_SEVENS, &[])?;
    stage.put(alloc, "A", FIVE_SEVENS, &[])?;
    hold(rt, stage, &[(&["mkfs", "A", "64", "32"], (0, b"", b""))])?;
    assert!(rt; has_made_bytes(alloc, &stage.host, "A")?);
    assert!(rt; has_bytes(&stage.host, "i", &[7; 5]));
    Ok(())
}

// Each byte of the image of 64 blocks and 32 inodes. It takes the place of what stood there, and another image stays. There
// is no third call of the host.
#[test]
fn whole_image(rt: HostRuntime) -> Result<(), Failure> {
    let mut stage = Stage::new(rt.alloc(), vec![in rt.alloc(); 3]?);
    make_beside_another(&rt, &mut stage)
}

const FAULT_OF_THE_HOST: &[Row] = &[(SMALLEST, (5, b"", FILE_FAULT))];

fn make_over_sevens<R: Files<File = File> + AllocGlobal + Threads + Wait + Abort>(
    rt: &R,
    stage: &mut Stage,
) -> Result<(), Failure> {
    stage.put(rt.alloc(), "i", FIVE_SEVENS, &[])?;
    hold(rt, stage, FAULT_OF_THE_HOST)
}

// A disk that is not given leaves what stood there.
#[test]
fn disk_not_given(rt: HostRuntime) -> Result<(), Failure> {
    let mut stage = Stage::new(rt.alloc(), vec![in rt.alloc(); 1]?);
    make_over_sevens(&rt, &mut stage)?;
    assert!(rt; has_bytes(&stage.host, "i", &[7; 5]));
    Ok(())
}

// A disk that is not kept leaves zero bytes.
#[test]
fn disk_not_kept(rt: HostRuntime) -> Result<(), Failure> {
    let mut stage = Stage::new(rt.alloc(), vec![in rt.alloc(); 2]?);
    make_over_sevens(&rt, &mut stage)?;
    assert!(rt; has_zeros(&stage.host));
    Ok(())
}

// Each transfer of a making may fail: there are four reads, and three writes, as block 1 has zero bytes.
const TRANSFERS: &[Fail] = &[
    Fail::Read(1),
    Fail::Read(2),
    Fail::Read(3),
    Fail::Read(4),
    Fail::Write(1),
    Fail::Write(2),
    Fail::Write(3),
];

const DISK_FAULT: &[Row] = &[(SMALLEST, (4, b"", b"svfs: device fault\n"))];

// A failing transfer is answered by a device fault. What was written before it is not kept.
fn fail_each_transfer<R: Files<File = File> + AllocGlobal + Threads + Wait + Abort>(
    rt: &R,
    stage: &mut Stage,
) -> Result<(), Failure> {
    for fail in TRANSFERS {
        stage.put_failing(rt.alloc(), "i", FIVE_SEVENS, *fail)?;
        hold(rt, stage, DISK_FAULT)?;
        assert!(rt; has_zeros(&stage.host));
    }
    Ok(())
}

const MAKING: &[Row] = &[(SMALLEST, (0, b"", b""))];

fn fail_none<R: Files<File = File> + AllocGlobal + Threads + Wait + Abort>(
    rt: &R,
    stage: &mut Stage,
) -> Result<(), Failure> {
    for fail in [Fail::Read(5), Fail::Write(4)] {
        stage.put_failing(rt.alloc(), "i", FIVE_SEVENS, fail)?;
        hold(rt, stage, MAKING)?;
    }
    Ok(())
}

#[test]
fn each_transfer_failing(rt: HostRuntime) -> Result<(), Failure> {
    let mut stage = Stage::new(rt.alloc(), Vec::new(rt.alloc()));
    fail_each_transfer(&rt, &mut stage)?;
    fail_none(&rt, &mut stage)
}
