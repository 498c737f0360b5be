// A whole history, step by step.
ghost use Rattle.std.specs.Prelude.{◌≡◌, ◌≤◌, IfOk};
ghost use Rattle.std.specs.FinMap as map;
ghost use Rattle.sv_plain.specs.Whole.{IsWhole};

use super::empty_fs;
use crate::{Fs, Illegal, Mode, Need, NoMemory, Op, Reply, apply, begin, listing};
use std::alloc::Global;
use sv_form::{Bytes, Kind, Name};

// The tree of a new image of 64 blocks and 32 inodes: the root alone.
fn new_tree(alloc: Global) -> Result<Box<Fs>, NoMemory>
    ensures whole { IfOk result (λ fs. IsWhole fs.value) }
    ensures references { IfOk result (λ fs. fs.value.references ≡ map.empty) }
    ensures files { IfOk result (λ fs. fs.value.files ≡ map.empty) }
    ensures promises { IfOk result (λ fs. fs.value.promises ≡ map.empty) }
    ensures pending { IfOk result (λ fs. fs.value.pending ≡ map.empty) }
{
    let mut fs = empty_fs(alloc)?;
    fs.add_directory(alloc, 2, 2, 0o755)?;
    Ok(fs)
}

// The same, with one process and so many places in the table.
pub(super) fn begun(alloc: Global, table: u32) -> Result<Box<Fs>, NoMemory>
    requires { 1 ≤ table }
    ensures { IfOk result (λ fs. IsWhole fs.value) }
{
    let mut fs = new_tree(alloc)?;
    begin(alloc, &mut *fs, 1, table)?;
    Ok(fs)
}

// Steps of process 1, one after another.
fn take_all(fs: &mut Fs, alloc: Global, steps: &[(Op, Reply)]) -> Result<(), Illegal>
    requires { IsWhole fs.old }
    ensures { IsWhole fs.new }
{
    for (op, reply) in steps {
        apply(alloc, fs, 1, op, reply)?;
    }
    Ok(())
}

// The same of a table, which ends with the call.
pub(super) fn take<const N: usize>(
    fs: &mut Fs,
    alloc: Global,
    steps: [(Op, Reply); N],
) -> Result<(), Illegal>
    requires { IsWhole fs.old }
    ensures { IsWhole fs.new }
{
    take_all(fs, alloc, &steps)
}

fn promise(need: Need) -> Op {
    Op::Promise { need }
}

// What becomes directory 3 in the root, `home`.
fn home_made(home: Name) -> [(Op, Reply); 4] {
    let create = Op::Create {
        dir: 2,
        name: home,
        kind: Kind::Dir,
        mode: 0o755,
    };
    [
        (
            promise(Need::Make { dir: 2, name: home }),
            Reply::Granted(1),
        ),
        (create, Reply::Made(3)),
        (Op::Forgo, Reply::Done),
        (Op::Drop { ino: 3 }, Reply::Kept),
    ]
}

// What becomes file 4 in it, `a`.
fn file_made(home: Name, a: Name) -> [(Op, Reply); 5] {
    let create = Op::Create {
        dir: 3,
        name: a,
        kind: Kind::File,
        mode: 0o644,
    };
    [
        (Op::Look { dir: 2, name: home }, Reply::Found(3)),
        (promise(Need::Enter { dir: 3, name: a }), Reply::Granted(0)),
        (create, Reply::Made(4)),
        (Op::Forgo, Reply::Done),
        (Op::Drop { ino: 3 }, Reply::Kept),
    ]
}

// The directory `home` and the file `a` in it.
pub(super) fn make(fs: &mut Fs, alloc: Global, home: Name, a: Name) -> Result<(), Illegal>
    requires { IsWhole fs.old }
    ensures { IsWhole fs.new }
{
    take(fs, alloc, home_made(home))?;
    take(fs, alloc, file_made(home, a))
}

// Six bytes into the file.
fn filled(hello: Bytes) -> [(Op, Reply); 5] {
    let mode = Mode::W;
    let write = Op::Write {
        file: 0,
        bytes: hello,
    };
    [
        (Op::OpenFile { ino: 4, mode }, Reply::Opened(0)),
        (
            promise(Need::Write { file: 0, count: 6 }),
            Reply::Granted(1),
        ),
        (write, Reply::Wrote(6)),
        (Op::Forgo, Reply::Done),
        (Op::CloseFile { file: 0 }, Reply::Kept),
    ]
}

// The file is found, and opened.
fn found(home: Name, a: Name) -> [(Op, Reply); 4] {
    let mode = Mode::RW;
    [
        (Op::Look { dir: 2, name: home }, Reply::Found(3)),
        (Op::Look { dir: 3, name: a }, Reply::Found(4)),
        (Op::Drop { ino: 3 }, Reply::Kept),
        (Op::OpenFile { ino: 4, mode }, Reply::Opened(0)),
    ]
}

// Four of its bytes, and what its inode says.
fn looked_at(ello: Bytes) -> [(Op, Reply); 4] {
    let seek = Op::Seek {
        file: 0,
        offset: 1,
        whence: 0,
    };
    let status = Reply::Status {
        kind: Kind::File,
        mode: 0o644,
        links: 1,
        size: 6,
    };
    [
        (seek, Reply::At(1)),
        (Op::Read { file: 0, count: 4 }, Reply::Got(ello)),
        (Op::Stat { ino: 4 }, status),
        (Op::CloseFile { file: 0 }, Reply::Kept),
    ]
}

// What the directory's inode says, and the end of the process.
fn ended(home: Name) -> [(Op, Reply); 5] {
    let status = Reply::Status {
        kind: Kind::Dir,
        mode: 0o755,
        links: 2,
        size: 48,
    };
    [
        (Op::Look { dir: 2, name: home }, Reply::Found(3)),
        (Op::Stat { ino: 3 }, status),
        (Op::Drop { ino: 3 }, Reply::Kept),
        (Op::Drop { ino: 2 }, Reply::Kept),
        (Op::Drop { ino: 2 }, Reply::Kept),
    ]
}

pub(super) fn name(from: &[u8]) -> Result<Name, Illegal> {
    Name::read(from).ok_or(Illegal::Condition)
}

pub(super) fn bytes(alloc: Global, from: &[u8]) -> Result<Bytes, Illegal> {
    match Vec::from_slice(alloc, from) {
        Ok(bytes) => Ok(Bytes::from_vec(bytes)),
        Err(_) => Err(Illegal::NoMemory),
    }
}

// All 28 steps.
fn run(fs: &mut Fs, alloc: Global) -> Result<(), Illegal>
    requires { IsWhole fs.old }
    ensures { IsWhole fs.new }
{
    let (home, a) = (name(b"home")?, name(b"a")?);
    make(fs, alloc, home, a)?;
    let hello = bytes(alloc, b"hello\n")?;
    take(fs, alloc, filled(hello))?;
    take(fs, alloc, found(home, a))?;
    let ello = bytes(alloc, b"ello")?;
    take(fs, alloc, looked_at(ello))?;
    take(fs, alloc, ended(home))?;
    apply(alloc, fs, 0, &Op::Purge, &Reply::Done)
}

// The text of the tree is this one.
pub(super) fn lists_as(fs: &Fs, alloc: Global, want: &[u8]) -> Result<bool, Illegal> {
    match listing(alloc, fs) {
        Ok(text) => Ok(text.as_slice() == want),
        Err(_) => Err(Illegal::NoMemory),
    }
}

fn run_and_list(fs: &mut Fs, alloc: Global, want: &[u8]) -> Result<bool, Illegal>
    requires { IsWhole fs.old }
{
    run(fs, alloc)?;
    lists_as(fs, alloc, want)
}

// The history leaves this listing.
fn leaves(alloc: Global, want: &[u8]) -> Result<bool, Illegal> {
    let Ok(mut fs) = begun(alloc, 100) else {
        return Err(Illegal::NoMemory);
    };
    run_and_list(&mut *fs, alloc, want)
}

#[test]
fn a_history_leaves_its_listing(rt: HostRuntime) {
    let want = b"inode 2 d 755 links 3 size 48 pages 1
inode 3 d 755 links 2 size 48 pages 1
inode 4 f 644 links 1 size 6 pages 1
";
    assert!(rt; leaves(rt.alloc(), want.as_slice()) == Ok(true));
}
