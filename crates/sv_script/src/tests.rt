use crate::{Answer, Call, Errno, ScriptFault, answer_text, parse};
use std::alloc::{AllocError, Global};
use std::test::Fail;
use sv_form::{Bytes, Kind};
use sv_plain::Mode;

fn fault(alloc: Global, text: &[u8]) -> Option<(u32, ScriptFault)> {
    parse(alloc, text).err()
}

#[test]
fn faulty_lines(rt: HostRuntime) {
    let rows: [(&[u8], u32, ScriptFault); 31] = [
        (b"frob 1", 1, ScriptFault::Word),
        (b"\n#\nfrob 1\nopen", 3, ScriptFault::Word),
        (b" sync", 1, ScriptFault::Word),
        (b"SYNC", 1, ScriptFault::Word),
        (b"\rsync", 1, ScriptFault::Word),
        (b"sync\n\r\nsync", 2, ScriptFault::Word),
        (b"\r#", 1, ScriptFault::Word),
        (b"open /a", 1, ScriptFault::Count),
        (b"sync ", 1, ScriptFault::Count),
        (b"open  /a r", 1, ScriptFault::Count),
        (b"link a", 1, ScriptFault::Count),
        (b"read 0 x", 1, ScriptFault::Number),
        (b"read 0 ", 1, ScriptFault::Number),
        (b"read 00 1", 1, ScriptFault::Number),
        (b"read 01 1", 1, ScriptFault::Number),
        (b"read +1 1", 1, ScriptFault::Number),
        (b"read 4294967296 1", 1, ScriptFault::Number),
        (b"fill 0 1 256", 1, ScriptFault::Number),
        (b"lseek 0 0 3", 1, ScriptFault::Number),
        (b"lseek 0 -4294967296 0", 1, ScriptFault::Number),
        (b"lseek 0 - 0", 1, ScriptFault::Number),
        (b"lseek 0 --1 0", 1, ScriptFault::Number),
        (b"creat a 8", 1, ScriptFault::Number),
        (b"creat a 00000", 1, ScriptFault::Number),
        (b"creat a ", 1, ScriptFault::Number),
        (b"write 0 abc", 1, ScriptFault::Hex),
        (b"write 0 AB", 1, ScriptFault::Hex),
        (b"write 0 0g", 1, ScriptFault::Hex),
        (b"open /a x", 1, ScriptFault::Word),
        (b"open /a ", 1, ScriptFault::Word),
        (b"read 0 4194305", 1, ScriptFault::Volume),
    ];
    let alloc = rt.alloc();
    for (text, line, wanted) in rows {
        assert_eq!(rt; fault(alloc, text), Some((line, wanted)));
    }
}

// Each pair of faults that one line can have: in both orders, where the grammar leaves room for both.
#[test]
fn two_faults_on_one_line(rt: HostRuntime) {
    let rows: [(&[u8], ScriptFault); 19] = [
        (b"frob x y z", ScriptFault::Word),
        (b"frob 0 4194305", ScriptFault::Word),
        (b"open x y /a", ScriptFault::Count),
        (b"open /a x y", ScriptFault::Count),
        (b"read x", ScriptFault::Count),
        (b"read x 0 0", ScriptFault::Count),
        (b"read 0 0 x", ScriptFault::Count),
        (b"write abc", ScriptFault::Count),
        (b"write 0 abc 0", ScriptFault::Count),
        (b"write 0 00 abc", ScriptFault::Count),
        (b"read 4194305", ScriptFault::Count),
        (b"read 0 4194305 0", ScriptFault::Count),
        (b"write x abc", ScriptFault::Number),
        (b"write x AB", ScriptFault::Number),
        (b"read x 4194305", ScriptFault::Number),
        (b"fill x 4194305 0", ScriptFault::Number),
        (b"fill 0 4194305 256", ScriptFault::Number),
        (b"fill x 0 y", ScriptFault::Number),
        (b"lseek x 0 3", ScriptFault::Number),
    ];
    let alloc = rt.alloc();
    for (text, wanted) in rows {
        assert_eq!(rt; fault(alloc, text), Some((1, wanted)));
    }
}

// A fault on the first line and another on the second: the first line's is told, in whichever order they stand.
#[test]
fn two_faulty_lines(rt: HostRuntime) {
    let rows: [(&[u8], ScriptFault); 10] = [
        (b"frob\nopen", ScriptFault::Word),
        (b"open\nfrob", ScriptFault::Count),
        (b"open\nread x 0", ScriptFault::Count),
        (b"read x 0\nopen", ScriptFault::Number),
        (b"read x 0\nwrite 0 abc", ScriptFault::Number),
        (b"write 0 abc\nread x 0", ScriptFault::Hex),
        (b"write 0 abc\nopen /a x", ScriptFault::Hex),
        (b"open /a x\nwrite 0 abc", ScriptFault::Word),
        (b"open /a x\nread 0 4194305", ScriptFault::Word),
        (b"read 0 4194305\nopen /a x", ScriptFault::Volume),
    ];
    let alloc = rt.alloc();
    for (text, wanted) in rows {
        assert_eq!(rt; fault(alloc, text), Some((1, wanted)));
    }
}

// So many times these bytes, then the last ones.
fn repeated(
    alloc: Global,
    first: &[u8],
    bytes: &[u8],
    times: u32,
    last: &[u8],
) -> Result<Vec<u8>, AllocError> {
    let mut text = Vec::from_slice(alloc, first)?;
    for _ in 0..times {
        text.extend_from_slice(bytes)?;
    }
    text.extend_from_slice(last)?;
    Ok(text)
}

#[test]
fn limits(rt: HostRuntime) -> Result<(), Fail> {
    let rows: [(&[u8], &[u8], u32, &[u8], Option<(u32, ScriptFault)>); 18] = [
        (b"", b"\n", 16384, b"", None),
        (b"", b"\n", 16383, b"sync", None),
        (b"", b"\n", 16384, b"\n", Some((16385, ScriptFault::Lines))),
        (b"", b"\n", 16384, b"#", Some((16385, ScriptFault::Lines))),
        (
            b"",
            b"\n",
            16384,
            b"sync",
            Some((16385, ScriptFault::Lines)),
        ),
        (b"", b"\n", 16384, b"frob", Some((16385, ScriptFault::Word))),
        (
            b"",
            b"\n",
            16384,
            b"read 0 4194305",
            Some((16385, ScriptFault::Lines)),
        ),
        (b"stat ", b"/a", 65536, b"", None),
        (b"stat ", b"/a", 65536, b"/a", Some((1, ScriptFault::Lines))),
        (
            b"stat ",
            b"/a",
            65536,
            b"\nlink b /",
            Some((2, ScriptFault::Lines)),
        ),
        (b"stat ", b"/a", 65537, b"/abcdefghijklmno", None),
        (b"read 0 4194304\n", b"write 0 \n", 9, b"", None),
        (
            b"read 0 4194304\n",
            b"#\n",
            1,
            b"write 0 00",
            Some((3, ScriptFault::Volume)),
        ),
        (b"write 0 ", b"ff", 4194304, b"", None),
        (
            b"write 0 ",
            b"ff",
            4194304,
            b"ff",
            Some((1, ScriptFault::Volume)),
        ),
        (
            b"fill 0 4194304 7\n",
            b"",
            0,
            b"read 0 1",
            Some((2, ScriptFault::Volume)),
        ),
        (b"#", b"0123456789abcde", 1118481, b"", None),
        (
            b"#",
            b"0123456789abcde",
            1118481,
            b"f",
            Some((0, ScriptFault::Volume)),
        ),
    ];
    let alloc = rt.alloc();
    for (first, bytes, times, last, wanted) in rows {
        let text = repeated(alloc, first, bytes, times, last)?;
        assert_eq!(rt; fault(alloc, text.as_slice()), wanted);
    }
    Ok(())
}

// A line that passes a limit and has another fault besides.
#[test]
fn limits_and_another_fault(rt: HostRuntime) -> Result<(), Fail> {
    let rows: [(&[u8], &[u8], u32, &[u8], u32, ScriptFault); 11] = [
        (b"", b"\n", 16384, b"open", 16385, ScriptFault::Count),
        (b"", b"\n", 16384, b"read 0 x", 16385, ScriptFault::Number),
        (b"", b"\n", 16384, b"write 0 a", 16385, ScriptFault::Hex),
        (b"", b"\n", 16384, b"open a x", 16385, ScriptFault::Word),
        (b"open ", b"/a", 65537, b" r", 1, ScriptFault::Lines),
        (b"open ", b"/a", 65537, b" x", 1, ScriptFault::Word),
        (b"open ", b"/a", 65537, b"", 1, ScriptFault::Count),
        (b"creat ", b"/a", 65537, b" 8", 1, ScriptFault::Number),
        (b"write 0 ", b"ff", 4194305, b"f", 1, ScriptFault::Hex),
        (b"write 0 g0", b"ff", 4194305, b"", 1, ScriptFault::Hex),
        (b"write x ", b"ff", 4194305, b"", 1, ScriptFault::Number),
    ];
    let alloc = rt.alloc();
    for (first, bytes, times, last, line, wanted) in rows {
        let text = repeated(alloc, first, bytes, times, last)?;
        assert_eq!(rt; fault(alloc, text.as_slice()), Some((line, wanted)));
    }
    Ok(())
}

fn bytes(alloc: Global, from: &[u8]) -> Result<Bytes, AllocError> {
    Ok(Bytes::from_vec(Vec::from_slice(alloc, from)?))
}

// Whether the text is read as one line with this number and call.
fn reads_as(alloc: Global, text: &[u8], number: u32, call: &Call) -> bool {
    match parse(alloc, text) {
        Ok(script) => match script.as_slice() {
            [line] => line.number == number && line.call == *call,
            _ => false,
        },
        Err(_) => false,
    }
}

#[test]
fn calls(rt: HostRuntime) -> Result<(), Fail> {
    let alloc = rt.alloc();
    let rw = Call::Open {
        path: bytes(alloc, b"/a\0b")?,
        mode: Mode::RW,
    };
    assert!(rt; reads_as(alloc, b"#\n\nopen /a\0b rw\n", 3, &rw));
    let bits = Call::Creat {
        path: bytes(alloc, b"a")?,
        mode: 0o7777,
    };
    assert!(rt; reads_as(alloc, b"creat a 7777", 1, &bits));
    let few = Call::Mkdir {
        path: bytes(alloc, b"")?,
        mode: 5,
    };
    assert!(rt; reads_as(alloc, b"mkdir  0005", 1, &few));
    let read = Call::Read {
        fd: 4294967295,
        count: 0,
    };
    assert!(rt; reads_as(alloc, b"read 4294967295 0", 1, &read));
    let write = Call::Write {
        fd: 0,
        bytes: bytes(alloc, &[0x0a, 0xf9])?,
    };
    assert!(rt; reads_as(alloc, b"write 0 0af9", 1, &write));
    let fill = Call::Fill {
        fd: 1,
        count: 2,
        byte: 255,
    };
    assert!(rt; reads_as(alloc, b"fill 1 2 255", 1, &fill));
    let back = Call::Lseek {
        fd: 0,
        offset: -4294967295,
        whence: 2,
    };
    assert!(rt; reads_as(alloc, b"lseek 0 -4294967295 2", 1, &back));
    let still = Call::Lseek {
        fd: 0,
        offset: 0,
        whence: 0,
    };
    assert!(rt; reads_as(alloc, b"lseek 0 -0 0", 1, &still));
    let link = Call::Link {
        first: bytes(alloc, b"")?,
        second: bytes(alloc, b"b")?,
    };
    assert!(rt; reads_as(alloc, b"link  b", 1, &link));
    let unlink = Call::Unlink {
        path: bytes(alloc, b"")?,
    };
    assert!(rt; reads_as(alloc, b"unlink ", 1, &unlink));
    assert!(rt; reads_as(alloc, b"sync", 1, &Call::Sync));
    assert!(rt; reads_as(alloc, b"close 7", 1, &Call::Close { fd: 7 }));
    assert!(rt; reads_as(alloc, b"dup 7", 1, &Call::Dup { fd: 7 }));
    assert!(rt; reads_as(alloc, b"fstat 7", 1, &Call::Fstat { fd: 7 }));
    let rmdir = Call::Rmdir {
        path: bytes(alloc, b"/")?,
    };
    assert!(rt; reads_as(alloc, b"rmdir /", 1, &rmdir));
    let chdir = Call::Chdir {
        path: bytes(alloc, b"//..")?,
    };
    assert!(rt; reads_as(alloc, b"chdir //..", 1, &chdir));
    let stat = Call::Stat {
        path: bytes(alloc, b"abcdefghijklmno")?,
    };
    assert!(rt; reads_as(alloc, b"stat abcdefghijklmno", 1, &stat));
    Ok(())
}

// Whether the call's answer is written so.
fn writes_as(alloc: Global, text: &[u8], number: u32, call: &Call, answer: &Answer) -> bool {
    match answer_text(alloc, number, call, answer) {
        Ok(written) => written.as_slice() == text,
        Err(_) => false,
    }
}

#[test]
fn answers(rt: HostRuntime) -> Result<(), Fail> {
    let alloc = rt.alloc();
    let fstat = Call::Fstat { fd: 0 };
    let read = Call::Read { fd: 0, count: 4 };
    let fill = Call::Fill {
        fd: 0,
        count: 9,
        byte: 0,
    };
    let file = Answer::Stat {
        ino: 4,
        kind: Kind::File,
        mode: 0o644,
        links: 1,
        size: 6,
    };
    let dir = Answer::Stat {
        ino: 3,
        kind: Kind::Dir,
        mode: 0,
        links: 2,
        size: 48,
    };
    let bytes = Answer::Read(bytes(alloc, b"ello")?);
    let none = Answer::Read(Bytes::from_vec(Vec::new(alloc)));
    assert!(rt; writes_as(alloc, b"16384 sync = 0", 16384, &Call::Sync, &Answer::Zero));
    assert!(rt;
        writes_as(
            alloc,
            b"3 fill = 4294967295",
            3,
            &fill,
            &Answer::Number(4294967295)
        )
    );
    assert!(rt; writes_as(alloc, b"8 fstat = 4 f 644 1 6", 8, &fstat, &file));
    assert!(rt; writes_as(alloc, b"8 fstat = 3 d 0 2 48", 8, &fstat, &dir));
    assert!(rt; writes_as(alloc, b"7 read = 4 656c6c6f", 7, &read, &bytes));
    assert!(rt; writes_as(alloc, b"7 read = 0 -", 7, &read, &none));
    assert!(rt; writes_as(alloc, b"1 fill = EIO", 1, &fill, &Answer::Error(Errno::EIO)));
    assert!(rt; writes_as(alloc, b"1 fill = EIO 0", 1, &fill, &Answer::ErrorAfter(0)));
    assert!(rt;
        writes_as(
            alloc,
            b"1 fill = ENOTEMPTY",
            1,
            &fill,
            &Answer::Error(Errno::ENOTEMPTY)
        )
    );
    Ok(())
}

#[test]
fn errno_names(rt: HostRuntime) {
    let rows: [(Errno, &[u8]); 14] = [
        (Errno::EIO, b"9 sync = EIO"),
        (Errno::ENOSPC, b"9 sync = ENOSPC"),
        (Errno::ENOENT, b"9 sync = ENOENT"),
        (Errno::EEXIST, b"9 sync = EEXIST"),
        (Errno::ENOTDIR, b"9 sync = ENOTDIR"),
        (Errno::EISDIR, b"9 sync = EISDIR"),
        (Errno::ENFILE, b"9 sync = ENFILE"),
        (Errno::EMFILE, b"9 sync = EMFILE"),
        (Errno::EBADF, b"9 sync = EBADF"),
        (Errno::EINVAL, b"9 sync = EINVAL"),
        (Errno::EMLINK, b"9 sync = EMLINK"),
        (Errno::EFBIG, b"9 sync = EFBIG"),
        (Errno::ENOTEMPTY, b"9 sync = ENOTEMPTY"),
        (Errno::ENOMEM, b"9 sync = ENOMEM"),
    ];
    let alloc = rt.alloc();
    for (errno, text) in rows {
        assert!(rt; writes_as(alloc, text, 9, &Call::Sync, &Answer::Error(errno)));
    }
}

#[test]
fn fault_words(rt: HostRuntime) -> Result<(), Fail> {
    let rows = [
        (ScriptFault::Word, "Word"),
        (ScriptFault::Count, "Count"),
        (ScriptFault::Number, "Number"),
        (ScriptFault::Hex, "Hex"),
        (ScriptFault::Lines, "Lines"),
        (ScriptFault::Volume, "Volume"),
        (ScriptFault::NoMemory, "NoMemory"),
    ];
    for (fault, word) in rows {
        let text = format!(in rt.alloc(); "{fault}")?;
        assert_eq!(rt; text.as_str(), word);
    }
    Ok(())
}
