ghost use Rattle.std.specs.Prelude.{◌≡◌, ◌-◌, ◌++◌, [], ◌∷◌, IfOk, replicate};
ghost use Rattle.std.specs.FinMap as map;
ghost use Rattle.sv_plain.specs.Change.{entry_bytes};
ghost use Rattle.sv_plain.specs.Whole.{IsWhole};

use crate::tests::worked;
use crate::{ReplayFault, replay};
use std::alloc::{AllocError, Global};
use std::test::Fail;
use sv_form::{Bytes, Geometry, Kind, Name};
use sv_plain::{Entry, Fs, Reply, begin, listing};

// The page of a root in which there is nothing yet: `.` and `..`, both inode 2.
fn root_page(alloc: Global) -> Result<Bytes, AllocError>
    ensures { IfOk result (λ page. page ≡ entry_bytes 2 (46 ∷ []) ++ entry_bytes 2 (46 ∷ 46 ∷ []) ++ replicate (1024 - 32) 0) }
{
    let front = [
        2, 0, 46, 0, 0, 0, 0, 0, 0, 0, 0, 0, 0, 0, 0, 0, 2, 0, 46, 46, 0, 0, 0, 0, 0, 0, 0, 0, 0,
        0, 0, 0,
    ];
    let mut page = Vec::from_slice(alloc, &front)?;
    page.resize(1024, 0)?;
    Ok(Bytes::from_vec(page))
}

// The tree of a new image of 64 blocks and 32 inodes: the root alone.
fn new_tree(alloc: Global) -> Result<Fs, AllocError>
    ensures whole { IfOk result IsWhole }
    ensures references { IfOk result (λ fs. fs.references ≡ map.empty) }
    ensures files { IfOk result (λ fs. fs.files ≡ map.empty) }
    ensures promises { IfOk result (λ fs. fs.promises ≡ map.empty) }
    ensures pending { IfOk result (λ fs. fs.pending ≡ map.empty) }
{
    let page = root_page(alloc)?;
    let geometry = Geometry {
        block_size: 1024,
        blocks: 64,
        first_data: 4,
    };
    let mut fs = Fs::new(alloc, geometry)?;
    fs.add_node(alloc, 2, Kind::Dir, 0o755, 2, 32)?;
    fs.put_page(alloc, 2, 0, page)?;
    Ok(fs)
}

// The listing of what these entries of one process lead to, with 100 places in the table.
fn replayed(alloc: Global, entries: &[Entry]) -> Result<Vec<u8>, ReplayFault> {
    let Ok(mut fs) = new_tree(alloc) else {
        return Err(ReplayFault::NoMemory);
    };
    let Ok(()) = begin(alloc, &mut fs, 1, 100) else {
        return Err(ReplayFault::NoMemory);
    };
    let entries = &entries[..entries.len().min(28)];
    let fs = replay(alloc, fs, entries)?;
    let Ok(text) = listing(alloc, &fs) else {
        return Err(ReplayFault::NoMemory);
    };
    Ok(text)
}

// All entries of the worked journal.
fn all(alloc: Global) -> Result<Vec<Entry>, AllocError> {
    let (Some(home), Some(a)) = (Name::read(b"home"), Name::read(b"a")) else {
        return Err(AllocError);
    };
    worked(alloc, home, a)
}

#[test]
fn worked_history(rt: HostRuntime) -> Result<(), Fail> {
    let entries = all(rt.alloc())?;
    let want = b"inode 2 d 755 links 3 size 48 pages 1
inode 3 d 755 links 2 size 48 pages 1
inode 4 f 644 links 1 size 6 pages 1
";
    match replayed(rt.alloc(), &entries) {
        Ok(text) => assert_eq!(rt; text.as_slice(), want.as_slice()),
        Err(_) => assert!(rt; false),
    }
    Ok(())
}

// Without the making of the directory its reference cannot be given back.
#[test]
fn entry_left_out(rt: HostRuntime) -> Result<(), Fail> {
    let mut entries = all(rt.alloc())?;
    if entries.len() > 1 {
        let _made = entries.remove(1);
    }
    assert_eq!(rt;
        replayed(rt.alloc(), &entries).err(),
        Some(ReplayFault::Place(2))
    );
    Ok(())
}

// Other bytes than those that were written are never read.
#[test]
fn other_bytes_read(rt: HostRuntime) -> Result<(), Fail> {
    let other = Bytes::from_vec(Vec::from_slice(rt.alloc(), b"ellp")?);
    let mut entries = all(rt.alloc())?;
    match entries.get_mut(19) {
        Some(entry) => entry.reply = Reply::Got(other),
        None => drop(other),
    }
    assert_eq!(rt;
        replayed(rt.alloc(), &entries).err(),
        Some(ReplayFault::Place(19))
    );
    Ok(())
}
