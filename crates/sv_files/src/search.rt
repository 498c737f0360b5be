// How a name is looked up in a directory that is locked (Bach, chapter 4.4, one turn of algorithm namei).
ghost use Rattle.std.specs.Prelude.{◌≡◌, ◌≤◌, Err, IfOk};
ghost use Rattle.sv_form.specs.Node.{Node};
ghost use Rattle.sv_form.specs.NodeNames.{child_of};
ghost use Rattle.sv_form.specs.PagePath.{greatest_size};
ghost use Rattle.sv_dev.specs.Causes.{Rose};
ghost use Rattle.sv_store.specs.Causes.{HasFault};
ghost use Rattle.sv_store.specs.Frames.{Unchanged};
ghost use Rattle.sv_store.specs.Held.{Origin, nothing_lent};
ghost use Rattle.sv_bmap.specs.Tree.{IsTree};
ghost use Rattle.sv_inode.specs.StandsFor.{StandsFor};
ghost use Rattle.sv_files.specs.View.{seen_by};
ghost use Rattle.sv_files.specs.FileRule.{StandsAs};
ghost use Rattle.sv_files.specs.Adding.{StandsForSome};
ghost use Rattle.sv_files.specs.Looking.{Searches, closed_of, miss_reply, told_of};
ghost use Rattle.sv_files.specs.declared.search.Miss.TheVariants as miss;

use crate::body::body_of;
use crate::lock::Locked;
use std::sync::Wait;
use sv_form::{InodeBody, Kind, Name};
use sv_inode::LockedInode;
use sv_plain::Reply;
use sv_store::{Refusal, Stake};

/// Why a name leads nowhere: its place is no directory, or one that has no links any more; it has no such entry; or the device failed.
#[derive(Clone, Copy)]
pub enum Miss {
    NotDir,
    Gone,
    NotFound,
    Fault,
}

impl Miss {
    // What a Look answers then.
    pub fn reply(self) -> Reply
        ensures { result ≡ miss_reply self }
    {
        match self {
            Miss::NotDir => Reply::NotDir,
            Miss::Gone => Reply::Gone,
            Miss::NotFound => Reply::NotFound,
            Miss::Fault => Reply::Fault,
        }
    }
}

// Why no name can be looked up in an inode with this body.
fn closed(body: &InodeBody) -> Option<Miss>
    ensures { result ≡ closed_of body.now }
{
    match body.kind {
        Kind::File => Some(Miss::NotDir),
        Kind::Dir if body.links == 0 => Some(Miss::Gone),
        Kind::Dir => None,
    }
}

// Reads the directory with this body until the name is found.
fn find<R: Wait, S: Stake>(
    rt: &R,
    locked: Locked<S>,
    body: InodeBody,
    name: &Name,
) -> (Locked<S>, Result<Option<u16>, Refusal>)
    requires tree { IsTree (S.origin locked.stake) (S.held locked.stake) body.addresses }
    requires size { body.size ≤ greatest_size (S.origin locked.stake).sizes }
    requires lent { S.lent locked.stake ≡ nothing_lent }
    ensures number { result.0.number ≡ locked.number }
    ensures core { result.0.core ≡ locked.core }
    ensures found { (node : Node) → StandsFor (S.origin locked.stake) (S.held locked.stake) body node
        → IfOk result.1 (λ found. found ≡ child_of (S.origin locked.stake).sizes.block_size node name.now) }
    ensures stake { Unchanged S.held S.lent S.origin S.forced locked.stake result.0.stake }
    ensures cause { HasFault (S.faults locked.stake) (S.faults result.0.stake) result.1 }
{
    let Locked {
        number,
        core,
        stake,
    } = locked;
    let mut inode = LockedInode {
        number,
        body,
        stake,
    };
    let found = inode.look(rt, name);
    let LockedInode {
        number,
        body: _,
        stake,
    } = inode;
    let locked = Locked {
        number,
        core,
        stake,
    };
    (locked, found)
}

// What is told of a search that was made.
fn told(found: Result<Option<u16>, Refusal>) -> Result<u16, Miss>
    ensures { result ≡ told_of found }
{
    match found {
        Ok(Some(child)) => Ok(child),
        Ok(None) => Err(Miss::NotFound),
        Err(_) => Err(Miss::Fault),
    }
}

// Looks a name up in a locked inode. That the device failed is told only where the inode's stake has counted it.
pub fn search<R: Wait, S: Stake>(
    rt: &R,
    locked: Locked<S>,
    name: &Name,
) -> (Locked<S>, Result<u16, Miss>)
    requires stands { StandsForSome locked.number locked.core (seen_by S.held S.lent S.origin S.faults S.forced locked.stake) }
    ensures number { result.0.number ≡ locked.number }
    ensures core { result.0.core ≡ locked.core }
    ensures found { (o : Origin) (node : Node)
        → StandsAs o locked.number locked.core (seen_by S.held S.lent S.origin S.faults S.forced locked.stake) node
        → Searches o.sizes.block_size node name.now result.1 }
    ensures stake { Unchanged S.held S.lent S.origin S.forced locked.stake result.0.stake }
    ensures no_less { S.faults locked.stake ≤ S.faults result.0.stake }
    ensures cause { result.1 ≡ Err miss.Fault → Rose (S.faults locked.stake) (S.faults result.0.stake) }
{
    let mut locked = locked;
    let body = match body_of(rt, &mut locked) {
        Ok(body) => body,
        Err(_) => return (locked, Err(Miss::Fault)),
    };
    match closed(&body) {
        Some(miss) => (locked, Err(miss)),
        None => {
            let (locked, found) = find(rt, locked, body, name);
            (locked, told(found))
        }
    }
}
