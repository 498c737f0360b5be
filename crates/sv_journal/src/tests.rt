ghost use Rattle.std.specs.Prelude.{◌≡◌, IfOk, OnOk, All, true, false};
ghost use Rattle.sv_journal.specs.Allowed.{IsJournalEntry, is_purge, is_reply_of};

use crate::{WriteFault, write};
use std::alloc::{AllocError, Global};
use std::test::Fail;
use sv_dev::MemSink;
use sv_form::{Bytes, Kind, Name};
use sv_plain::{Entry, Mode, Need, Op, Reply, number_of};

// What a run wrote that makes a directory and a file, writes, reads and looks at it.
pub(crate) const WORKED: &[u8] = b"svj 1 1 100
1 promise make 2 686f6d65 = granted 1
1 create 2 686f6d65 d 755 = made 3
1 forgo = done
1 drop 3 = kept
1 look 2 686f6d65 = found 3
1 promise enter 3 61 = granted 0
1 create 3 61 f 644 = made 4
1 forgo = done
1 drop 3 = kept
1 open 4 w = opened 0
1 promise write 0 6 = granted 1
1 write 0 68656c6c6f0a = wrote 6
1 forgo = done
1 close 0 = kept
1 look 2 686f6d65 = found 3
1 look 3 61 = found 4
1 drop 3 = kept
1 open 4 rw = opened 0
1 seek 0 1 0 = at 1
1 read 0 4 = got 656c6c6f
1 stat 4 = is f 644 1 6
1 close 0 = kept
1 look 2 686f6d65 = found 3
1 stat 3 = is d 755 2 48
1 drop 3 = kept
1 drop 2 = kept
1 drop 2 = kept
0 purge = done
";

fn put(entries: &mut Vec<Entry>, entry: Entry) -> Result<(), AllocError>
    requires before { All (IsJournalEntry 1) entries.old.items }
    requires allowed { IsJournalEntry 1 entry }
    ensures { OnOk result (All (IsJournalEntry 1) entries.new.items) }
{
    entries.push(entry)?;
    Ok(())
}

// One entry more, of process 1.
fn add(entries: &mut Vec<Entry>, op: Op, reply: Reply) -> Result<(), AllocError>
    requires before { All (IsJournalEntry 1) entries.old.items }
    requires system { is_purge op ≡ false }
    requires reply { is_reply_of op reply ≡ true }
    ensures { OnOk result (All (IsJournalEntry 1) entries.new.items) }
{
    let entry = Entry {
        process: 1,
        op,
        reply,
    };
    put(entries, entry)
}

fn bytes(alloc: Global, from: &[u8]) -> Result<Bytes, AllocError> {
    Ok(Bytes::from_vec(Vec::from_slice(alloc, from)?))
}

// The directory `home`, and a file `a` in it.
fn make(entries: &mut Vec<Entry>, home: Name, a: Name) -> Result<(), AllocError>
    requires { All (IsJournalEntry 1) entries.old.items }
    ensures { OnOk result (All (IsJournalEntry 1) entries.new.items) }
{
    let need = Need::Make { dir: 2, name: home };
    add(entries, Op::Promise { need }, Reply::Granted(1))?;
    let op = Op::Create {
        dir: 2,
        name: home,
        kind: Kind::Dir,
        mode: 0o755,
    };
    add(entries, op, Reply::Made(3))?;
    add(entries, Op::Forgo, Reply::Done)?;
    add(entries, Op::Drop { ino: 3 }, Reply::Kept)?;
    add(entries, Op::Look { dir: 2, name: home }, Reply::Found(3))?;
    let need = Need::Enter { dir: 3, name: a };
    add(entries, Op::Promise { need }, Reply::Granted(0))?;
    let op = Op::Create {
        dir: 3,
        name: a,
        kind: Kind::File,
        mode: 0o644,
    };
    add(entries, op, Reply::Made(4))?;
    add(entries, Op::Forgo, Reply::Done)?;
    add(entries, Op::Drop { ino: 3 }, Reply::Kept)
}

// Six bytes into the file.
fn fill(entries: &mut Vec<Entry>, hello: Bytes) -> Result<(), AllocError>
    requires { All (IsJournalEntry 1) entries.old.items }
    ensures { OnOk result (All (IsJournalEntry 1) entries.new.items) }
{
    let mode = Mode::W;
    add(entries, Op::OpenFile { ino: 4, mode }, Reply::Opened(0))?;
    let need = Need::Write { file: 0, count: 6 };
    add(entries, Op::Promise { need }, Reply::Granted(1))?;
    let op = Op::Write {
        file: 0,
        bytes: hello,
    };
    add(entries, op, Reply::Wrote(6))?;
    add(entries, Op::Forgo, Reply::Done)?;
    add(entries, Op::CloseFile { file: 0 }, Reply::Kept)
}

// Four of them back, and what the file's inode says.
fn look(entries: &mut Vec<Entry>, home: Name, a: Name, ello: Bytes) -> Result<(), AllocError>
    requires { All (IsJournalEntry 1) entries.old.items }
    ensures { OnOk result (All (IsJournalEntry 1) entries.new.items) }
{
    add(entries, Op::Look { dir: 2, name: home }, Reply::Found(3))?;
    add(entries, Op::Look { dir: 3, name: a }, Reply::Found(4))?;
    add(entries, Op::Drop { ino: 3 }, Reply::Kept)?;
    let mode = Mode::RW;
    add(entries, Op::OpenFile { ino: 4, mode }, Reply::Opened(0))?;
    let op = Op::Seek {
        file: 0,
        offset: 1,
        whence: 0,
    };
    add(entries, op, Reply::At(1))?;
    add(entries, Op::Read { file: 0, count: 4 }, Reply::Got(ello))?;
    let status = Reply::Status {
        kind: Kind::File,
        mode: 0o644,
        links: 1,
        size: 6,
    };
    add(entries, Op::Stat { ino: 4 }, status)?;
    add(entries, Op::CloseFile { file: 0 }, Reply::Kept)
}

// What the directory's inode says, and the end.
fn end(entries: &mut Vec<Entry>, home: Name) -> Result<(), AllocError>
    requires { All (IsJournalEntry 1) entries.old.items }
    ensures { OnOk result (All (IsJournalEntry 1) entries.new.items) }
{
    add(entries, Op::Look { dir: 2, name: home }, Reply::Found(3))?;
    let status = Reply::Status {
        kind: Kind::Dir,
        mode: 0o755,
        links: 2,
        size: 48,
    };
    add(entries, Op::Stat { ino: 3 }, status)?;
    add(entries, Op::Drop { ino: 3 }, Reply::Kept)?;
    add(entries, Op::Drop { ino: 2 }, Reply::Kept)?;
    add(entries, Op::Drop { ino: 2 }, Reply::Kept)?;
    let purge = Entry {
        process: 0,
        op: Op::Purge,
        reply: Reply::Done,
    };
    put(entries, purge)
}

pub(crate) fn worked(alloc: Global, home: Name, a: Name) -> Result<Vec<Entry>, AllocError>
    ensures { IfOk result (λ entries. All (IsJournalEntry 1) entries.items) }
{
    let mut entries = Vec::new(alloc);
    make(&mut entries, home, a)?;
    fill(&mut entries, bytes(alloc, b"hello\n")?)?;
    look(&mut entries, home, a, bytes(alloc, b"ello")?)?;
    end(&mut entries, home)?;
    Ok(entries)
}

// What is answered and what the sink then holds, where its calls with these numbers, from 1, fail.
fn written(alloc: Global, fails: &[u64]) -> Result<(Result<(), WriteFault>, MemSink), Fail> {
    let (Some(home), Some(a)) = (Name::read(b"home"), Name::read(b"a")) else {
        return Err(Fail::from(AllocError));
    };
    let entries = worked(alloc, home, a)?;
    let mut out = MemSink::new(Vec::from_slice(alloc, fails)?);
    let result = write(alloc, &entries, 1, 100, &mut out);
    Ok((result, out))
}

#[test]
fn worked_journal(rt: HostRuntime) -> Result<(), Fail> {
    let (result, out) = written(rt.alloc(), &[])?;
    assert_eq!(rt; result, Ok(()));
    assert_eq!(rt; out.written(), WORKED);
    Ok(())
}

// The first line, a line on the way, and the last one fail: all lines before are there.
#[test]
fn faults_of_the_sink(rt: HostRuntime) -> Result<(), Fail> {
    for (call, count) in [(1u64, 0usize), (3, 50), (29, 633)] {
        let (result, out) = written(rt.alloc(), &[call])?;
        assert_eq!(rt; result, Err(WriteFault::Fault));
        assert_eq!(rt; Some(out.written()), WORKED.get(..count));
    }
    Ok(())
}

// Numbers have no sign and no leading zero, and are at most what is asked.
#[test]
fn words_that_are_numbers(rt: HostRuntime) {
    let rows: [(&[u8], Option<u64>); 10] = [
        (b"0", Some(0)),
        (b"65535", Some(65_535)),
        (b"65536", None),
        (b"99999999999999999999999999999999999999999", None),
        (b"", None),
        (b"00", None),
        (b"01", None),
        (b"+1", None),
        (b"-0", None),
        (b"1 ", None),
    ];
    for (word, wanted) in rows {
        assert_eq!(rt; number_of(word, 10, 65_535), wanted);
    }
    assert_eq!(rt;
        number_of(b"18446744073709551615", 10, u64::MAX),
        Some(u64::MAX)
    );
    assert_eq!(rt; number_of(b"18446744073709551616", 10, u64::MAX), None);
}
