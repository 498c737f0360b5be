// Every reply of every op is taken where it is due, none with want of memory.
ghost use Rattle.sv_plain.specs.Whole.{IsWhole};

use super::history::{begun, bytes, lists_as, make, name, take};
use crate::{Fs, Illegal, Mode, Need, Op, Reply, apply};
use std::alloc::Global;
use sv_form::{Bytes, Kind, Name};

// A step of process 1.
type Step = (Op, Reply);

// The making of a file in the root.
fn create(name: Name) -> Op {
    Op::Create {
        dir: 2,
        name,
        kind: Kind::File,
        mode: 0o644,
    }
}

// A further name of inode `ino` in a directory.
fn enter(dir: u16, name: Name, ino: u16) -> Op {
    Op::Enter { dir, name, ino }
}

fn unlink(dir: u16, name: Name) -> Op {
    Op::Unlink { dir, name }
}

fn rmdir(dir: u16, name: Name) -> Op {
    Op::Rmdir { dir, name }
}

fn promise(need: Need) -> Op {
    Op::Promise { need }
}

fn promise_write(count: u32) -> Op {
    promise(Need::Write { file: 0, count })
}

// File 4 of the directory `home` gets the name `b` in the root.
fn linked(b: Name) -> [Step; 7] {
    let need = Need::Enter { dir: 2, name: b };
    [
        (Op::AddLink { ino: 4 }, Reply::Raised),
        (promise(need), Reply::Granted(0)),
        (enter(2, b, 4), Reply::Entered),
        (Op::Forgo, Reply::Done),
        (Op::AddLink { ino: 4 }, Reply::Raised),
        (enter(2, b, 4), Reply::Exists),
        (Op::SubLink { ino: 4 }, Reply::Lowered),
    ]
}

// What is no name, no directory, and no file.
fn unfit(home: Name, b: Name, c: Name) -> [Step; 7] {
    [
        (Op::AddLink { ino: 2 }, Reply::IsDir),
        (Op::Look { dir: 2, name: c }, Reply::NotFound),
        (unlink(2, c), Reply::NotFound),
        (rmdir(2, c), Reply::NotFound),
        (unlink(2, home), Reply::IsDir),
        (rmdir(2, home), Reply::NotEmpty),
        (rmdir(2, b), Reply::Plain),
    ]
}

// Both names of the file are removed, while process 1 has references to it.
fn unlinked(home: Name, a: Name, b: Name) -> [Step; 5] {
    [
        (unlink(2, b), Reply::Removed(4)),
        (Op::Look { dir: 2, name: home }, Reply::Found(3)),
        (unlink(3, a), Reply::Removed(4)),
        (Op::AddLink { ino: 4 }, Reply::Gone),
        (Op::Look { dir: 4, name: a }, Reply::NotDir),
    ]
}

// The last reference to it goes.
fn freed(a: Name) -> [Step; 6] {
    let create = Op::Create {
        dir: 4,
        name: a,
        kind: Kind::File,
        mode: 0o644,
    };
    [
        (unlink(4, a), Reply::NotDir),
        (rmdir(4, a), Reply::NotDir),
        (create, Reply::NotDir),
        (Op::Drop { ino: 4 }, Reply::Kept),
        (Op::Drop { ino: 4 }, Reply::Kept),
        (Op::Drop { ino: 4 }, Reply::Freed),
    ]
}

// The empty directory is removed, and nothing can be found or made in it.
fn removed(home: Name, a: Name) -> [Step; 5] {
    let create = Op::Create {
        dir: 3,
        name: a,
        kind: Kind::File,
        mode: 0o644,
    };
    [
        (rmdir(2, home), Reply::Removed(3)),
        (Op::Look { dir: 3, name: a }, Reply::Gone),
        (unlink(3, a), Reply::Gone),
        (rmdir(3, a), Reply::Gone),
        (create, Reply::Gone),
    ]
}

// A new file, whose further name cannot be entered there, nor in a file.
fn unentered(a: Name, b: Name) -> [Step; 7] {
    [
        (create(a), Reply::Made(5)),
        (Op::AddLink { ino: 5 }, Reply::Raised),
        (enter(3, b, 5), Reply::Gone),
        (enter(5, b, 5), Reply::NotDir),
        (Op::SubLink { ino: 5 }, Reply::Lowered),
        (Op::Drop { ino: 3 }, Reply::Kept),
        (Op::Drop { ino: 3 }, Reply::Freed),
    ]
}

// The file is found again, opened and shared.
fn opened(a: Name) -> [Step; 6] {
    let open = Op::OpenFile {
        ino: 5,
        mode: Mode::RW,
    };
    let write_directory = Op::OpenFile {
        ino: 2,
        mode: Mode::W,
    };
    [
        (create(a), Reply::Found(5)),
        (open, Reply::Opened(0)),
        (write_directory, Reply::IsDir),
        (Op::DupFile { file: 0 }, Reply::Dupped),
        (Op::CloseFile { file: 0 }, Reply::Kept),
        (promise_write(70 * 1024), Reply::NoSpace),
    ]
}

// Six bytes are written, and a promise goes past the greatest size.
fn filled(hello: Bytes) -> [Step; 5] {
    let write = Op::Write {
        file: 0,
        bytes: hello,
    };
    let seek = Op::Seek {
        file: 0,
        offset: -7,
        whence: 2,
    };
    [
        (promise_write(6), Reply::Granted(1)),
        (write, Reply::Wrote(6)),
        (seek, Reply::Bad),
        (Op::Forgo, Reply::Done),
        (promise_write(0x7fff_ffff), Reply::TooBig),
    ]
}

// Steps over the open file that met a failing device, and what stands in it then.
fn file_faults() -> [Step; 5] {
    let status = Reply::Status {
        kind: Kind::File,
        mode: 0o644,
        links: 1,
        size: 6,
    };
    let read = Op::Read { file: 0, count: 1 };
    [
        (Op::AddLink { ino: 5 }, Reply::Fault),
        (Op::Trunc { ino: 5 }, Reply::Fault),
        (Op::Stat { ino: 5 }, Reply::Fault),
        (read, Reply::Fault),
        (Op::Stat { ino: 5 }, status),
    ]
}

// A further name of the file, which a failing device keeps from being entered.
fn enter_faults(b: Name) -> [Step; 6] {
    let need = Need::Enter { dir: 2, name: b };
    [
        (Op::AddLink { ino: 5 }, Reply::Raised),
        (promise(need), Reply::Granted(0)),
        (enter(2, b, 5), Reply::Fault),
        (Op::Forgo, Reply::Done),
        (Op::SubLink { ino: 5 }, Reply::Lowered),
        (Op::Look { dir: 2, name: b }, Reply::NotFound),
    ]
}

// The bytes are taken away, and the file goes with its descriptor.
fn emptied(a: Name) -> [Step; 7] {
    let status = Reply::Status {
        kind: Kind::File,
        mode: 0o644,
        links: 1,
        size: 0,
    };
    [
        (Op::Trunc { ino: 5 }, Reply::Done),
        (Op::Stat { ino: 5 }, status),
        (Op::Trunc { ino: 2 }, Reply::IsDir),
        (unlink(2, a), Reply::Removed(5)),
        (Op::Drop { ino: 5 }, Reply::Kept),
        (Op::Drop { ino: 5 }, Reply::Kept),
        (Op::CloseFile { file: 0 }, Reply::Freed),
    ]
}

// Steps that met a failing device, and changed nothing.
fn faults(a: Name) -> [Step; 7] {
    let open = Op::OpenFile {
        ino: 2,
        mode: Mode::R,
    };
    let need = Need::Make { dir: 2, name: a };
    [
        (Op::Look { dir: 2, name: a }, Reply::Fault),
        (create(a), Reply::Fault),
        (unlink(2, a), Reply::Fault),
        (rmdir(2, a), Reply::Fault),
        (open, Reply::Fault),
        (promise(need), Reply::Fault),
        (Op::Sync, Reply::Fault),
    ]
}

// One file is left behind for a failing device, one for want of memory.
fn left_behind(a: Name, b: Name) -> [Step; 6] {
    let open = Op::OpenFile {
        ino: 6,
        mode: Mode::R,
    };
    [
        (create(a), Reply::Made(5)),
        (create(b), Reply::Made(6)),
        (unlink(2, a), Reply::Removed(5)),
        (open, Reply::Opened(0)),
        (unlink(2, b), Reply::Removed(6)),
        (Op::Drop { ino: 5 }, Reply::Kept),
    ]
}

fn closed_late() -> [Step; 6] {
    [
        (Op::Drop { ino: 5 }, Reply::Late),
        (Op::Drop { ino: 6 }, Reply::Kept),
        (Op::CloseFile { file: 0 }, Reply::LateMemory),
        (Op::Sync, Reply::Done),
        (Op::Drop { ino: 2 }, Reply::Kept),
        (Op::Drop { ino: 2 }, Reply::Kept),
    ]
}

// Names that come and go.
fn names_taken(fs: &mut Fs, alloc: Global) -> Result<(), Illegal>
    requires { IsWhole fs.old }
    ensures { IsWhole fs.new }
{
    let (home, a, b, c) = (name(b"home")?, name(b"a")?, name(b"b")?, name(b"c")?);
    make(fs, alloc, home, a)?;
    take(fs, alloc, linked(b))?;
    take(fs, alloc, unfit(home, b, c))?;
    take(fs, alloc, unlinked(home, a, b))?;
    take(fs, alloc, freed(a))?;
    take(fs, alloc, removed(home, a))?;
    take(fs, alloc, unentered(a, b))
}

// The file that they leave, and what is left behind.
fn files_taken(fs: &mut Fs, alloc: Global) -> Result<(), Illegal>
    requires { IsWhole fs.old }
    ensures { IsWhole fs.new }
{
    let (a, b) = (name(b"a")?, name(b"b")?);
    take(fs, alloc, opened(a))?;
    let hello = bytes(alloc, b"hello\n")?;
    take(fs, alloc, filled(hello))?;
    take(fs, alloc, file_faults())?;
    take(fs, alloc, enter_faults(b))?;
    take(fs, alloc, emptied(a))?;
    take(fs, alloc, faults(a))?;
    take(fs, alloc, left_behind(a, b))?;
    take(fs, alloc, closed_late())
}

// The free blocks and inodes, three times.
type Numbers = ((u32, u32), (u32, u32), (u32, u32));

// The free blocks and inodes before and after the end, and whether the text then is this one.
fn purged(fs: &mut Fs, alloc: Global, want: &[u8]) -> Result<(Numbers, bool), Illegal>
    requires { IsWhole fs.old }
{
    let before = fs.numbers();
    apply(alloc, fs, 0, &Op::Purge, &Reply::LateMemory)?;
    let late = fs.numbers();
    apply(alloc, fs, 0, &Op::Purge, &Reply::Done)?;
    let after = fs.numbers();
    let is_so = lists_as(fs, alloc, want)?;
    Ok(((before, late, after), is_so))
}

fn all_taken(fs: &mut Fs, alloc: Global, want: &[u8]) -> Result<(Numbers, bool), Illegal>
    requires { IsWhole fs.old }
{
    names_taken(fs, alloc)?;
    files_taken(fs, alloc)?;
    purged(fs, alloc, want)
}

fn taken_in_new_tree(alloc: Global, want: &[u8]) -> Result<(Numbers, bool), Illegal> {
    let Ok(mut fs) = begun(alloc, 100) else {
        return Err(Illegal::NoMemory);
    };
    all_taken(&mut *fs, alloc, want)
}

// 60 data blocks, of which the root has one, and 31 numbers from 2 on. Two files without names stay until the end.
#[test]
fn each_reply(rt: HostRuntime) {
    let want = b"inode 2 d 755 links 2 size 64 pages 1\n";
    let numbers = ((59, 28), (59, 28), (59, 30));
    assert!(rt; taken_in_new_tree(rt.alloc(), want.as_slice()) == Ok((numbers, true)));
}

// Two places in the table, of the root and of one file; then of the root and of another.
fn full(a: Name, b: Name) -> [Step; 7] {
    [
        (create(a), Reply::Made(3)),
        (create(b), Reply::Full),
        (Op::Drop { ino: 3 }, Reply::Kept),
        (create(b), Reply::Made(4)),
        (Op::Look { dir: 2, name: a }, Reply::Full),
        (create(a), Reply::Full),
        (unlink(2, a), Reply::Full),
    ]
}

fn full_taken(fs: &mut Fs, alloc: Global) -> Result<(), Illegal>
    requires { IsWhole fs.old }
    ensures { IsWhole fs.new }
{
    let (a, b) = (name(b"a")?, name(b"b")?);
    take(fs, alloc, full(a, b))?;
    take(fs, alloc, [(rmdir(2, a), Reply::Full)])
}

fn full_in_new_tree(alloc: Global) -> Result<(), Illegal> {
    let Ok(mut fs) = begun(alloc, 2) else {
        return Err(Illegal::NoMemory);
    };
    full_taken(&mut *fs, alloc)
}

#[test]
fn full_table(rt: HostRuntime) {
    assert_eq!(rt; full_in_new_tree(rt.alloc()), Ok(()));
}

// A name for each number below 4,096.
fn numbered(k: u16) -> Result<Name, Illegal> {
    let (low, high) = (128 + (k % 64) as u8, 128 + (k / 64 % 64) as u8);
    name(&[b'f', low, high])
}

fn made_and_dropped(k: u16, name: Name) -> [Step; 2] {
    [
        (create(name), Reply::Made(k)),
        (Op::Drop { ino: k }, Reply::Kept),
    ]
}

// Inodes 3 to 32 are made and dropped, and then there is no number left.
fn all_inodes(fs: &mut Fs, alloc: Global) -> Result<(), Illegal>
    requires { IsWhole fs.old }
    ensures { IsWhole fs.new }
{
    for k in 3..33 {
        let name = numbered(k)?;
        take(fs, alloc, made_and_dropped(k, name))?;
    }
    take(fs, alloc, [(create(name(b"more")?), Reply::NoInode)])
}

fn inodes_in_new_tree(alloc: Global) -> Result<(), Illegal> {
    let Ok(mut fs) = begun(alloc, 100) else {
        return Err(Illegal::NoMemory);
    };
    all_inodes(&mut *fs, alloc)
}

#[test]
fn no_inode(rt: HostRuntime) {
    assert_eq!(rt; inodes_in_new_tree(rt.alloc()), Ok(()));
}

// A directory in the root, for further names of inode 3.
fn directory_made(k: u16, name: Name) -> [Step; 3] {
    let need = Need::Make { dir: 2, name };
    let create = Op::Create {
        dir: 2,
        name,
        kind: Kind::Dir,
        mode: 0o755,
    };
    [
        (promise(need), Reply::Granted(1)),
        (create, Reply::Made(k)),
        (Op::Forgo, Reply::Done),
    ]
}

// A further name of inode 3 in a directory with `count` names besides its own two: a page holds 64.
fn linked_again(dir: u16, count: u16, name: Name) -> [Step; 4] {
    let need = Need::Enter { dir, name };
    let blocks = u32::from(count == 62);
    [
        (Op::AddLink { ino: 3 }, Reply::Raised),
        (promise(need), Reply::Granted(blocks)),
        (enter(dir, name, 3), Reply::Entered),
        (Op::Forgo, Reply::Done),
    ]
}

// Directory `dir`, and a hundred names of inode 3 in it, but for the first of directory 4.
fn hundred_links(fs: &mut Fs, alloc: Global, dir: u16) -> Result<(), Illegal>
    requires { IsWhole fs.old }
    ensures { IsWhole fs.new }
{
    take(fs, alloc, directory_made(dir, numbered(dir)?))?;
    let skipped = u16::from(dir == 4);
    for k in skipped..100 {
        let name = numbered(k)?;
        take(fs, alloc, linked_again(dir, k - skipped, name))?;
    }
    Ok(())
}

// The 999 further names of a file that has one, and then one too many.
fn all_links(fs: &mut Fs, alloc: Global) -> Result<(), Illegal>
    requires { IsWhole fs.old }
    ensures { IsWhole fs.new }
{
    take(fs, alloc, [(create(name(b"a")?), Reply::Made(3))])?;
    for k in 4..14 {
        hundred_links(fs, alloc, k)?;
    }
    take(fs, alloc, [(Op::AddLink { ino: 3 }, Reply::ManyLinks)])
}

fn links_in_new_tree(alloc: Global) -> Result<(), Illegal> {
    let Ok(mut fs) = begun(alloc, 100) else {
        return Err(Illegal::NoMemory);
    };
    all_links(&mut *fs, alloc)
}

#[test]
fn many_links(rt: HostRuntime) {
    assert_eq!(rt; links_in_new_tree(rt.alloc()), Ok(()));
}
