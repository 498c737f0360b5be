// Steps that are refused, each with its cause: a condition that does not hold, or a reply that never comes.
ghost use Rattle.sv_plain.specs.Whole.{IsWhole};

use super::history::{begun, make, name, take};
use crate::{Fs, Illegal, Mode, Need, Op, Reply, apply};
use std::alloc::Global;
use sv_form::{Bytes, Kind, Name};

// A step, and why it is refused.
type Refusal = (Op, Reply, Illegal);

const CONDITION: Illegal = Illegal::Condition;

const REPLY: Illegal = Illegal::Reply;

// The first of these steps of process 1 that is not refused for this cause.
fn first_unlike(fs: &mut Fs, alloc: Global, steps: &[Refusal]) -> Option<usize>
    requires { IsWhole fs.old }
    ensures { IsWhole fs.new }
{
    for i in 0..steps.len() {
        let (op, reply, cause) = &steps[i];
        if apply(alloc, fs, 1, op, reply) != Err(*cause) {
            return Some(i);
        }
    }
    None
}

// The same of a table, which ends with the call.
fn unlike<const N: usize>(fs: &mut Fs, alloc: Global, steps: [Refusal; N]) -> Option<usize>
    requires { IsWhole fs.old }
    ensures { IsWhole fs.new }
{
    first_unlike(fs, alloc, &steps)
}

// A name looked up, and a reference given back.
fn looks(home: Name, a: Name) -> [Refusal; 5] {
    [
        (Op::Look { dir: 3, name: a }, Reply::Found(4), CONDITION),
        (Op::Look { dir: 2, name: home }, Reply::NotFound, REPLY),
        (Op::Look { dir: 2, name: home }, Reply::Found(4), REPLY),
        (Op::Drop { ino: 3 }, Reply::Kept, CONDITION),
        (Op::Drop { ino: 4 }, Reply::Freed, REPLY),
    ]
}

// The making of a file or a directory in the root.
fn create(name: Name, kind: Kind, mode: u16) -> Op {
    Op::Create {
        dir: 2,
        name,
        kind,
        mode,
    }
}

// What is made: nothing under a name that is there, none with a number that is taken, and no directory without a promise.
fn makings(home: Name, b: Name) -> [Refusal; 4] {
    let (file, dir) = (Kind::File, Kind::Dir);
    [
        (create(b, file, 0o10000), Reply::Made(5), CONDITION),
        (create(b, dir, 0o755), Reply::Made(5), CONDITION),
        (create(b, file, 0o644), Reply::Made(4), REPLY),
        (create(home, file, 0o644), Reply::Made(5), REPLY),
    ]
}

// Names of files removed.
fn unlinks(home: Name, a: Name, dot: Name) -> [Refusal; 4] {
    [
        (Op::Unlink { dir: 2, name: dot }, Reply::IsDir, CONDITION),
        (Op::Unlink { dir: 3, name: a }, Reply::Removed(4), CONDITION),
        (Op::Unlink { dir: 2, name: home }, Reply::Removed(3), REPLY),
        (Op::Unlink { dir: 2, name: a }, Reply::Gone, REPLY),
    ]
}

// Directories removed.
fn rmdirs(home: Name, dots: Name) -> [Refusal; 3] {
    [
        (
            Op::Rmdir { dir: 2, name: dots },
            Reply::Removed(2),
            CONDITION,
        ),
        (Op::Rmdir { dir: 2, name: home }, Reply::Removed(3), REPLY),
        (Op::Rmdir { dir: 2, name: home }, Reply::Plain, REPLY),
    ]
}

// The entering of a name into the root.
fn enter(name: Name, ino: u16) -> Op {
    Op::Enter { dir: 2, name, ino }
}

// Links, where none is pending.
fn links(b: Name) -> [Refusal; 5] {
    [
        (Op::AddLink { ino: 3 }, Reply::IsDir, CONDITION),
        (Op::AddLink { ino: 2 }, Reply::Raised, REPLY),
        (Op::AddLink { ino: 4 }, Reply::Gone, REPLY),
        (enter(b, 4), Reply::Entered, CONDITION),
        (Op::SubLink { ino: 4 }, Reply::Lowered, CONDITION),
    ]
}

// Links, where one on file 4 is pending.
fn pending_links(home: Name, b: Name) -> [Refusal; 6] {
    [
        (Op::AddLink { ino: 4 }, Reply::Raised, CONDITION),
        (enter(b, 2), Reply::Entered, CONDITION),
        (enter(home, 4), Reply::Entered, REPLY),
        (enter(b, 4), Reply::Exists, REPLY),
        (Op::SubLink { ino: 2 }, Reply::Lowered, CONDITION),
        (Op::SubLink { ino: 4 }, Reply::Gone, REPLY),
    ]
}

// A promise of what a directory of that name in the root takes.
fn promise_make(name: Name) -> Op {
    let need = Need::Make { dir: 2, name };
    Op::Promise { need }
}

// What has no condition, and what the system alone does.
fn others(a: Name) -> [Refusal; 7] {
    [
        (promise_make(a), Reply::Granted(0), REPLY),
        (Op::Forgo, Reply::Kept, REPLY),
        (Op::Forgo, Reply::Fault, REPLY),
        (Op::Sync, Reply::Late, REPLY),
        (Op::Sync, Reply::Kept, REPLY),
        (Op::Purge, Reply::Done, CONDITION),
        (Op::Purge, Reply::Late, CONDITION),
    ]
}

fn open(ino: u16, mode: Mode) -> Op {
    Op::OpenFile { ino, mode }
}

// Files opened, shared and closed, where file 0 has file 4 open.
fn openings() -> [Refusal; 7] {
    [
        (open(4, Mode::R), Reply::Opened(1), CONDITION),
        (open(2, Mode::R), Reply::Opened(0), REPLY),
        (open(2, Mode::W), Reply::Opened(1), REPLY),
        (Op::CloseFile { file: 1 }, Reply::Kept, CONDITION),
        (Op::CloseFile { file: 0 }, Reply::Freed, REPLY),
        (Op::DupFile { file: 1 }, Reply::Dupped, CONDITION),
        (Op::DupFile { file: 0 }, Reply::Kept, REPLY),
    ]
}

// An offset of the open file.
fn seek(offset: i64, whence: u8) -> Op {
    Op::Seek {
        file: 0,
        offset,
        whence,
    }
}

// What inode 4 would say if it had so many links.
fn status(links: u16) -> Reply {
    Reply::Status {
        kind: Kind::File,
        mode: 0o644,
        links,
        size: 0,
    }
}

// Offsets, bytes taken away, and what inodes say.
fn offsets() -> [Refusal; 7] {
    [
        (seek(0, 3), Reply::At(0), CONDITION),
        (seek(-1, 0), Reply::At(0), REPLY),
        (seek(0, 0), Reply::Bad, REPLY),
        (Op::Trunc { ino: 3 }, Reply::Done, CONDITION),
        (Op::Trunc { ino: 2 }, Reply::Done, REPLY),
        (Op::Stat { ino: 3 }, Reply::Fault, CONDITION),
        (Op::Stat { ino: 4 }, status(2), REPLY),
    ]
}

fn sevens(alloc: Global, count: usize) -> Result<Bytes, Illegal> {
    match vec![in alloc; 7; count] {
        Ok(bytes) => Ok(Bytes::from_vec(bytes)),
        Err(_) => Err(Illegal::NoMemory),
    }
}

// A promise of what so many bytes written to the open file take.
fn promise_write(count: u32) -> Op {
    let need = Need::Write { file: 0, count };
    Op::Promise { need }
}

// Reads, and promises, where file 4 has no byte.
fn reads(more: Bytes) -> [Refusal; 3] {
    [
        (promise_write(1), Reply::Granted(1), CONDITION),
        (Op::Read { file: 1, count: 4 }, Reply::Fault, CONDITION),
        (Op::Read { file: 0, count: 4 }, Reply::Got(more), REPLY),
    ]
}

fn write(bytes: Bytes) -> Op {
    Op::Write { file: 0, bytes }
}

// Writes of more than the promised block, of fewer bytes than asked, and up to the middle of a page.
fn writes(long: Bytes, six: Bytes, others: Bytes) -> [Refusal; 3] {
    [
        (write(long), Reply::Wrote(1025), CONDITION),
        (write(six), Reply::Wrote(5), REPLY),
        (write(others), Reply::FaultAfter(3), REPLY),
    ]
}

fn unlike_read(fs: &mut Fs, alloc: Global) -> Result<Option<usize>, Illegal>
    requires { IsWhole fs.old }
    ensures { IsWhole fs.new }
{
    let more = sevens(alloc, 1)?;
    Ok(unlike(fs, alloc, reads(more)))
}

fn unlike_write(fs: &mut Fs, alloc: Global) -> Result<Option<usize>, Illegal>
    requires { IsWhole fs.old }
    ensures { IsWhole fs.new }
{
    let long = sevens(alloc, 1025)?;
    let six = sevens(alloc, 6)?;
    let others = sevens(alloc, 6)?;
    Ok(unlike(fs, alloc, writes(long, six, others)))
}

// Where directory 3 is `home` in the root, and file 4 is `a` in it, and process 1 refers to the root twice and to file 4:
// the tables of names, and in each the first step that is not refused.
fn names_refused(fs: &mut Fs, alloc: Global) -> Result<[Option<usize>; 6], Illegal>
    requires { IsWhole fs.old }
    ensures { IsWhole fs.new }
{
    let (home, a, b) = (name(b"home")?, name(b"a")?, name(b"b")?);
    let (dot, dots) = (name(b".")?, name(b"..")?);
    make(fs, alloc, home, a)?;
    Ok([
        unlike(fs, alloc, looks(home, a)),
        unlike(fs, alloc, makings(home, b)),
        unlike(fs, alloc, unlinks(home, a, dot)),
        unlike(fs, alloc, rmdirs(home, dots)),
        unlike(fs, alloc, links(b)),
        unlike(fs, alloc, others(a)),
    ])
}

// The same, with a pending link on file 4.
fn pending_refused(fs: &mut Fs, alloc: Global) -> Result<Option<usize>, Illegal>
    requires { IsWhole fs.old }
    ensures { IsWhole fs.new }
{
    let (home, a, b) = (name(b"home")?, name(b"a")?, name(b"b")?);
    make(fs, alloc, home, a)?;
    take(fs, alloc, [(Op::AddLink { ino: 4 }, Reply::Raised)])?;
    Ok(unlike(fs, alloc, pending_links(home, b)))
}

// The same, where file 4 is open as file 0, with a block promised.
fn files_refused(fs: &mut Fs, alloc: Global) -> Result<[Option<usize>; 4], Illegal>
    requires { IsWhole fs.old }
    ensures { IsWhole fs.new }
{
    let (home, a) = (name(b"home")?, name(b"a")?);
    make(fs, alloc, home, a)?;
    let opened = [
        (open(4, Mode::RW), Reply::Opened(0)),
        (promise_write(6), Reply::Granted(1)),
    ];
    take(fs, alloc, opened)?;
    let (opening, offset) = (unlike(fs, alloc, openings()), unlike(fs, alloc, offsets()));
    let read = unlike_read(fs, alloc)?;
    let write = unlike_write(fs, alloc)?;
    Ok([opening, offset, read, write])
}

// A purge that came late, where nothing is referred to and nothing is lost.
fn late_purge(fs: &mut Fs, alloc: Global) -> Result<Option<Illegal>, Illegal>
    requires { IsWhole fs.old }
    ensures { IsWhole fs.new }
{
    let ended = [
        (Op::Drop { ino: 2 }, Reply::Kept),
        (Op::Drop { ino: 2 }, Reply::Kept),
    ];
    take(fs, alloc, ended)?;
    Ok(apply(alloc, fs, 0, &Op::Purge, &Reply::Late).err())
}

// The first step of each table of names that is not refused.
fn names_in_new_tree(alloc: Global) -> Result<[Option<usize>; 6], Illegal> {
    let Ok(mut fs) = begun(alloc, 100) else {
        return Err(Illegal::NoMemory);
    };
    names_refused(&mut *fs, alloc)
}

fn pending_in_new_tree(alloc: Global) -> Result<Option<usize>, Illegal> {
    let Ok(mut fs) = begun(alloc, 100) else {
        return Err(Illegal::NoMemory);
    };
    pending_refused(&mut *fs, alloc)
}

fn files_in_new_tree(alloc: Global) -> Result<[Option<usize>; 4], Illegal> {
    let Ok(mut fs) = begun(alloc, 100) else {
        return Err(Illegal::NoMemory);
    };
    files_refused(&mut *fs, alloc)
}

fn late_in_new_tree(alloc: Global) -> Result<Option<Illegal>, Illegal> {
    let Ok(mut fs) = begun(alloc, 100) else {
        return Err(Illegal::NoMemory);
    };
    late_purge(&mut *fs, alloc)
}

#[test]
fn names_and_links(rt: HostRuntime) {
    assert_eq!(rt; names_in_new_tree(rt.alloc()), Ok([None; 6]));
}

#[test]
fn pending_link(rt: HostRuntime) {
    assert_eq!(rt; pending_in_new_tree(rt.alloc()), Ok(None));
}

#[test]
fn open_file(rt: HostRuntime) {
    assert_eq!(rt; files_in_new_tree(rt.alloc()), Ok([None; 4]));
}

#[test]
fn purge_that_came_late(rt: HostRuntime) {
    assert_eq!(rt; late_in_new_tree(rt.alloc()), Ok(Some(REPLY)));
}
