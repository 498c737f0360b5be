// Worked rows over each form of the outside.
use super::{
    Access, Disk, Fail, Failed, FileSink, FlagWatch, HoldDisk, Host, HostFault, MemDisk, MemHost,
    MemSink, MemSource, RealHost, Sink, Source, Watch,
};
use std::alloc::{Alloc, AllocError, Global};
use std::fs;
use std::fs::File;
use std::process::Abort;
use std::rt::Files;
use std::sync::Arc;
use std::sync::atomic::AtomicBool;
use std::test::Fail as TestFail;

// Reads 512 bytes, which are all the same, and gives that one.
fn read_byte<D: Disk>(rt: &impl Abort, disk: &mut D, at: u64) -> Result<u8, Failed> {
    assert!(rt; at % 512 == 0);
    assert!(rt; disk.length() >= 512);
    assert!(rt; at <= disk.length() - 512);
    let mut bytes = [0; 512];
    disk.read(at, &mut bytes)?;
    let first = bytes[0];
    assert!(rt; bytes.iter().all(|byte| *byte == first));
    Ok(first)
}

// Writes 512 bytes that are all the same.
fn write_byte<D: Disk>(rt: &impl Abort, disk: &mut D, at: u64, byte: u8) -> Result<(), Failed> {
    assert!(rt; at % 512 == 0);
    assert!(rt; disk.length() >= 512);
    assert!(rt; at <= disk.length() - 512);
    disk.write(at, &[byte; 512])
}

// A disk of 1,024 bytes 7: which of two reads and two writes fail, in this order, and the two halves after them.
fn check_disk(
    rt: &impl Abort,
    alloc: Global,
    fail: Fail,
    failed: [bool; 4],
    halves: [Result<u8, Failed>; 2],
) -> Result<(), AllocError> {
    let content = vec![in alloc; 7; 1024]?;
    let mut disk = MemDisk::new(content, vec![in alloc; fail]?);
    let first = read_byte(rt, &mut disk, 0).is_err();
    let second = read_byte(rt, &mut disk, 512).is_err();
    let third = write_byte(rt, &mut disk, 0, 8).is_err();
    let fourth = write_byte(rt, &mut disk, 512, 9).is_err();
    assert!(rt; [first, second, third, fourth] == failed);
    let log = [
        Access::Read(0),
        Access::Read(512),
        Access::Write(0),
        Access::Write(512),
    ];
    assert!(rt; disk.log() == log.as_slice());
    assert!(rt; [read_byte(rt, &mut disk, 0), read_byte(rt, &mut disk, 512)] == halves);
    Ok(())
}

#[test]
fn disks_in_memory(rt: HostRuntime) -> Result<(), TestFail> {
    let alloc = rt.alloc();
    let written = [Ok(8), Ok(9)];
    check_disk(&rt, alloc, Fail::Read(0), [false; 4], written)?;
    check_disk(
        &rt,
        alloc,
        Fail::Read(1),
        [true, false, false, false],
        written,
    )?;
    check_disk(
        &rt,
        alloc,
        Fail::Read(2),
        [false, true, false, false],
        written,
    )?;
    check_disk(&rt, alloc, Fail::Read(4), [false; 4], [Ok(8), Err(Failed)])?;
    check_disk(
        &rt,
        alloc,
        Fail::Write(1),
        [false, false, true, false],
        [Ok(7), Ok(9)],
    )?;
    check_disk(
        &rt,
        alloc,
        Fail::Write(2),
        [false, false, false, true],
        [Ok(8), Ok(7)],
    )?;
    check_disk(
        &rt,
        alloc,
        Fail::AllReads,
        [true, true, false, false],
        [Err(Failed); 2],
    )?;
    check_disk(
        &rt,
        alloc,
        Fail::AllWrites,
        [false, false, true, true],
        [Ok(7), Ok(7)],
    )?;
    Ok(())
}

#[test]
fn sinks_in_memory(rt: HostRuntime) -> Result<(), TestFail> {
    let mut sink = MemSink::new(vec![in rt.alloc(); 2]?);
    let answers = [sink.write(b"ab"), sink.write(b"cd"), sink.write(b"ef")];
    assert!(rt; answers == [Ok(()), Err(Failed), Ok(())]);
    assert_eq!(rt; sink.written(), b"abef".as_slice());
    Ok(())
}

// A disk of the image under the name is read at its begin, twice.
fn read_twice<R: Files<File = File> + Abort>(
    rt: &R,
    alloc: Global,
    host: &mut MemHost,
    name: &str,
) -> Result<[Result<u8, Failed>; 2], HostFault> {
    let mut disk = host.disk(rt, alloc, name)?;
    let bytes = [read_byte(rt, &mut disk, 0), read_byte(rt, &mut disk, 0)];
    host.end_disk(disk);
    Ok(bytes)
}

// A disk of the image under the name is written at its begin, and read there.
fn write_and_read<R: Files<File = File> + Abort>(
    rt: &R,
    alloc: Global,
    host: &mut MemHost,
    name: &str,
    byte: u8,
) -> Result<(Result<(), Failed>, Result<u8, Failed>), HostFault> {
    let mut disk = host.disk(rt, alloc, name)?;
    let written = write_byte(rt, &mut disk, 0, byte);
    let read = read_byte(rt, &mut disk, 0);
    host.end_disk(disk);
    Ok((written, read))
}

// The second numbered call of this host fails.
fn check_images<R: Files<File = File> + Abort>(
    rt: &R,
    alloc: Global,
    host: &mut MemHost,
) -> Result<(), TestFail> {
    assert!(rt; host.image("e").is_none());
    host.put_image("e", vec![in alloc; 3; 512]?, vec![in alloc; Fail::Read(1)]?)?;
    assert!(rt; read_twice(rt, alloc, host, "e") == Ok([Err(Failed), Ok(3)]));
    assert!(rt; read_twice(rt, alloc, host, "e") == Err(HostFault::Failed));
    assert!(rt; read_twice(rt, alloc, host, "f") == Err(HostFault::Failed));
    host.put_image("e", vec![in alloc; 4; 512]?, Vec::new(alloc))?;
    assert!(rt; write_and_read(rt, alloc, host, "e", 5) == Ok((Ok(()), Ok(5))));
    assert!(rt; host.image("e") == Some([4; 512].as_slice()));
    Ok(())
}

#[test]
fn images_in_memory(rt: HostRuntime) -> Result<(), TestFail> {
    let alloc = rt.alloc();
    let mut host = MemHost::new(vec![in alloc; 2]?);
    check_images(&rt, alloc, &mut host)
}

#[test]
fn real_disks(rt: HostRuntime) -> Result<(), TestFail> {
    let alloc = rt.alloc();
    let mut host = RealHost::new();
    assert!(rt; host.disk(&rt, alloc, "absent").err() == Some(HostFault::Failed));
    let mut content = vec![in alloc; 1; 200_000]?;
    fs::write(&rt, "image", content.as_slice())?;
    let mut disk = host.disk(&rt, alloc, "image").ok().ok_or("disk")?;
    assert_eq!(rt; disk.length(), 200_000);
    assert_eq!(rt; write_byte(&rt, &mut disk, 150_016, 2), Ok(()));
    assert_eq!(rt; read_byte(&rt, &mut disk, 150_016), Ok(2));
    assert_eq!(rt; read_byte(&rt, &mut disk, 149_504), Ok(1));
    host.end_disk(disk);
    (&mut content[150_016..150_528]).copy_from_slice(&[2; 512]);
    assert!(rt; fs::read(&rt, "image")?.as_slice() == content.as_slice());
    fs::remove_file(&rt, "image")?;
    Ok(())
}

#[test]
fn real_disks_past_the_limit(rt: HostRuntime) -> Result<(), TestFail> {
    File::create(&rt, "long")?.set_len(70_000_000)?;
    let disk = RealHost::new()
        .disk(&rt, rt.alloc(), "long")
        .ok()
        .ok_or("disk")?;
    assert_eq!(rt; disk.length(), 67_108_865);
    fs::remove_file(&rt, "long")?;
    Ok(())
}

#[test]
fn real_sinks(rt: HostRuntime) -> Result<(), TestFail> {
    let mut text = vec![in rt.alloc(); 1; 200_000]?;
    let mut sink = FileSink::from(File::create(&rt, "text")?);
    assert_eq!(rt; sink.write(text.as_slice()), Ok(()));
    assert_eq!(rt; sink.write(b"end"), Ok(()));
    text.extend_from_slice(b"end")?;
    assert!(rt; fs::read(&rt, "text")?.as_slice() == text.as_slice());
    fs::remove_file(&rt, "text")?;
    Ok(())
}

// Reads up to four bytes: as many as came, and what they are.
fn read_four<S: Source>(source: &mut S) -> Result<(usize, [u8; 4]), Failed> {
    let mut bytes = [0; 4];
    let count = source.read(&mut bytes)?;
    Ok((count, bytes))
}

#[test]
fn sources_in_memory(rt: HostRuntime) -> Result<(), TestFail> {
    let alloc = rt.alloc();
    let mut source = MemSource::new(vec![in alloc; 1, 2, 3, 4, 5]?, vec![in alloc; 2]?);
    assert_eq!(rt; source.read(&mut []), Ok(0));
    assert_eq!(rt; read_four(&mut source), Err(Failed));
    assert_eq!(rt; read_four(&mut source), Ok((4, [1, 2, 3, 4])));
    assert_eq!(rt; read_four(&mut source), Ok((1, [5, 0, 0, 0])));
    assert_eq!(rt; read_four(&mut source), Ok((0, [0; 4])));
    Ok(())
}

// Keeps a sink that was given five bytes, under the name.
fn keep_five<R: Files<File = File> + Abort, H: Host>(
    rt: &R,
    alloc: Global,
    host: &mut H,
    name: &str,
) -> Result<(), HostFault> {
    let mut sink = host.sink(rt, alloc, name)?;
    assert!(rt; sink.write(b"abcde").is_ok());
    host.keep_text(rt, alloc, name, sink)
}

// What three reads of up to four bytes give of the text under the name.
fn read_fours<R: Files<File = File> + Abort, H: Host>(
    rt: &R,
    alloc: Global,
    host: &mut H,
    name: &str,
) -> Result<[Result<(usize, [u8; 4]), Failed>; 3], HostFault> {
    let mut source = host.source(rt, alloc, name)?;
    let fours = [
        read_four(&mut source),
        read_four(&mut source),
        read_four(&mut source),
    ];
    host.end_source(source);
    Ok(fours)
}

// The text that `keep_five` keeps, by fours.
const FIVE: [Result<(usize, [u8; 4]), Failed>; 3] = [
    Ok((4, *b"abcd")),
    Ok((1, *b"e\0\0\0")),
    Ok((0, [0; 4])),
];

// The fourth numbered call of this host fails.
fn check_texts<R: Files<File = File> + Abort>(
    rt: &R,
    alloc: Global,
    host: &mut MemHost,
) -> Result<(), TestFail> {
    assert!(rt; read_fours(rt, alloc, host, "t") == Err(HostFault::Failed));
    assert!(rt; keep_five(rt, alloc, host, "t").is_ok());
    assert!(rt; host.text("t") == Some(b"abcde".as_slice()));
    assert!(rt; keep_five(rt, alloc, host, "t") == Err(HostFault::Failed));
    assert!(rt; read_fours(rt, alloc, host, "t") == Ok(FIVE));
    host.put_text("t", vec![in alloc; 9]?)?;
    assert!(rt; host.text("t") == Some([9].as_slice()));
    assert!(rt; host.text("u").is_none());
    Ok(())
}

#[test]
fn texts_in_memory(rt: HostRuntime) -> Result<(), TestFail> {
    let alloc = rt.alloc();
    let mut host = MemHost::new(vec![in alloc; 4]?);
    check_texts(&rt, alloc, &mut host)
}

// Makes a disk of 1,024 bytes under the name, writes its second half twice, and keeps it: what the writes answer, and whether the image
// under the name was all zeros before them, and after them.
fn keep_half<R: Files<File = File> + Abort>(
    rt: &R,
    alloc: Global,
    host: &mut MemHost,
    name: &str,
) -> Result<([Result<(), Failed>; 2], [bool; 2]), HostFault> {
    let mut disk = host.fresh(rt, alloc, name, 1024)?;
    let before = host.image(name) == Some([0; 1024].as_slice());
    let answers = [
        write_byte(rt, &mut disk, 512, 8),
        write_byte(rt, &mut disk, 512, 8),
    ];
    let after = host.image(name) == Some([0; 1024].as_slice());
    host.keep(rt, alloc, name, disk)?;
    Ok((answers, [before, after]))
}

// A disk of the image under one name is kept under another.
fn copy_image<R: Files<File = File> + Abort, H: Host>(
    rt: &R,
    alloc: Global,
    host: &mut H,
    from: &str,
    to: &str,
) -> Result<(), HostFault> {
    let disk = host.disk(rt, alloc, from)?;
    host.keep(rt, alloc, to, disk)
}

// Are these the 1,024 bytes of a fresh disk whose second half was written?
fn is_half_written(bytes: &[u8]) -> bool {
    bytes.len() == 1024 && bytes[511] == 0 && bytes[512] == 8
}

// The first write of a disk under this name fails.
fn check_kept<R: Files<File = File> + Abort>(
    rt: &R,
    alloc: Global,
    host: &mut MemHost,
) -> Result<(), TestFail> {
    host.put_image(
        "e",
        vec![in alloc; 3; 512]?,
        vec![in alloc; Fail::Write(1)]?,
    )?;
    let kept = keep_half(rt, alloc, host, "e");
    assert!(rt; kept == Ok(([Err(Failed), Ok(())], [true, true])));
    assert!(rt; is_half_written(host.image("e").ok_or("image")?));
    assert!(rt; copy_image(rt, alloc, host, "e", "f").is_ok());
    assert!(rt; host.image("f") == host.image("e"));
    Ok(())
}

#[test]
fn kept_disks_in_memory(rt: HostRuntime) -> Result<(), TestFail> {
    let alloc = rt.alloc();
    let mut host = MemHost::new(Vec::new(alloc));
    check_kept(&rt, alloc, &mut host)
}

#[test]
fn real_texts(rt: HostRuntime) -> Result<(), TestFail> {
    let alloc = rt.alloc();
    let mut host = RealHost::new();
    assert!(rt; read_fours(&rt, alloc, &mut host, "absent") == Err(HostFault::Failed));
    assert!(rt; keep_five(&rt, alloc, &mut host, "source").is_ok());
    assert!(rt; fs::read(&rt, "source")?.as_slice() == b"abcde".as_slice());
    assert!(rt; read_fours(&rt, alloc, &mut host, "source") == Ok(FIVE));
    let sink = host.sink(&rt, alloc, "source").ok().ok_or("sink again")?;
    host.end_sink(sink);
    assert!(rt; fs::read(&rt, "source")?.is_empty());
    fs::remove_file(&rt, "source")?;
    Ok(())
}

// Makes a disk of 1,024 bytes under the name, writes its second half, and keeps it: whether the file was all zeros before the write.
fn keep_real_half<R: Files<File = File> + Alloc + Abort>(
    rt: &R,
    alloc: Global,
    host: &mut RealHost,
    name: &str,
) -> Result<bool, TestFail> {
    let mut disk = host.fresh(rt, alloc, name, 1024).ok().ok_or("fresh")?;
    let made = fs::read(rt, name);
    let written = write_byte(rt, &mut disk, 512, 8);
    let kept = host.keep(rt, alloc, name, disk);
    assert!(rt; written.is_ok() && kept.is_ok());
    Ok(made?.as_slice() == [0; 1024].as_slice())
}

#[test]
fn real_fresh_disks(rt: HostRuntime) -> Result<(), TestFail> {
    let alloc = rt.alloc();
    let mut host = RealHost::new();
    fs::write(&rt, "fresh", b"old bytes, and more of them")?;
    assert!(rt; keep_real_half(&rt, alloc, &mut host, "fresh")?);
    assert!(rt; copy_image(&rt, alloc, &mut host, "fresh", "copy").is_ok());
    let kept = fs::read(&rt, "fresh")?;
    assert!(rt; is_half_written(kept.as_slice()));
    assert!(rt; fs::read(&rt, "copy")?.as_slice() == kept.as_slice());
    fs::remove_file(&rt, "fresh")?;
    fs::remove_file(&rt, "copy")?;
    Ok(())
}

// The hold after a read at the place.
fn ended_after(rt: &impl Abort, disk: &mut HoldDisk, at: u64) -> Option<bool> {
    let _ = read_byte(rt, disk, at);
    disk.ended_by_flag()
}

// A disk of 1,024 bytes holds the first read of its second half, for at most three looks at a flag that the answer of process 2's line 1
// sets. Before the first read and before the second one, process and line have an answer. The hold after a read of the first half, and
// after two of the second.
fn check_hold(
    rt: &impl Abort,
    alloc: Global,
    answers: [(u8, u32); 2],
    holds: [Option<bool>; 3],
) -> Result<(), AllocError> {
    let flag = Arc::new(alloc, AtomicBool::new(false))?;
    let watch = FlagWatch::new(flag.clone()?, 2, 1);
    let inner = MemDisk::new(vec![in alloc; 7; 1024]?, Vec::new(alloc));
    let mut disk = HoldDisk::new(inner, 512, flag, 3);
    watch.answered(answers[0].0, answers[0].1);
    let before = ended_after(rt, &mut disk, 0);
    let first = ended_after(rt, &mut disk, 512);
    watch.answered(answers[1].0, answers[1].1);
    let second = ended_after(rt, &mut disk, 512);
    assert!(rt; [before, first, second] == holds);
    let log = [Access::Read(0), Access::Read(512), Access::Read(512)];
    assert!(rt; disk.log() == log.as_slice());
    Ok(())
}

#[test]
fn held_reads(rt: HostRuntime) -> Result<(), TestFail> {
    let alloc = rt.alloc();
    check_hold(&rt, alloc, [(2, 1), (2, 1)], [None, Some(true), Some(true)])?;
    check_hold(
        &rt,
        alloc,
        [(1, 1), (2, 1)],
        [None, Some(false), Some(false)],
    )?;
    check_hold(
        &rt,
        alloc,
        [(2, 2), (2, 1)],
        [None, Some(false), Some(false)],
    )?;
    Ok(())
}
