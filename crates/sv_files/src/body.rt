// What a locked inode is (Bach, chapter 4, the second part of algorithm iget): what is kept of it in core, or what its line says.
ghost use Rattle.std.specs.Prelude.{◌≡◌, ◌≤◌, ◌+◌, ◌*◌, ℕ, List, Some, IfOk, length, slice_range};
ghost use Rattle.sv_form.specs.Geometry.{inode_place};
ghost use Rattle.sv_form.specs.Inode.{IsInode};
ghost use Rattle.sv_form.specs.Node.{Node};
ghost use Rattle.sv_form.specs.declared.inode.InodeBody.{InodeBody};
ghost use Rattle.sv_form.specs.declared.inode.DiskInode.TheVariants.{Used};
ghost use Rattle.sv_store.specs.Causes.{HasFault};
ghost use Rattle.sv_store.specs.Frames.{Unchanged};
ghost use Rattle.sv_store.specs.Held.{Origin, nothing_lent};
ghost use Rattle.sv_inode.specs.StandsFor.{StandsFor};
ghost use Rattle.sv_files.specs.View.{seen_by};
ghost use Rattle.sv_files.specs.FileRule.{StandsAs};
ghost use Rattle.sv_files.specs.Adding.{HoldsUsedLine, StandsForSome};

use crate::lock::Locked;
use std::sync::Wait;
use sv_form::{DiskInode, InodeBody};
use sv_store::{Refusal, Stake};

// The bytes of a line.
const LINE_SIZE: usize = 64;

// The used inode that a line of these bytes spells.
fn read_line(bytes: &[u8], line: u8) -> Option<InodeBody>
    requires { line * 64 + 64 ≤ length bytes.now }
    ensures { (body : InodeBody) → IsInode (slice_range bytes.now (line * 64) (line * 64 + 64)) (Used body) → result ≡ Some body }
{
    let at = usize::from(line) * LINE_SIZE;
    match DiskInode::read(&bytes[at..at + LINE_SIZE]) {
        Some(DiskInode::Used(body)) => Some(body),
        Some(DiskInode::Free) => None,
        None => None,
    }
}

// Reads the line of a used inode.
fn read_body<R: Wait, S: Stake>(rt: &R, s: &mut S, number: u16) -> Result<InodeBody, Refusal>
    requires line { HoldsUsedLine (S.origin s.old) (S.held s.old) number }
    requires lent { S.lent s.old ≡ nothing_lent }
    ensures body { IfOk result (λ b. (line : List ℕ) (body : InodeBody)
        → S.held s.old (inode_place (S.origin s.old).sizes number).block (inode_place (S.origin s.old).sizes number).line ≡ Some line
        → IsInode line (Used body) → b ≡ body) }
    ensures stake { Unchanged S.held S.lent S.origin S.forced s.old s.new }
    ensures cause { HasFault (S.faults s.old) (S.faults s.new) result }
{
    let place = s.geometry().inode_place(number);
    let buf = s.bread(rt, place.block)?;
    let body = read_line(buf.bytes(), place.line);
    s.brelse(rt, buf);
    Ok(body.unwrap())
}

// The body of a locked inode. A refusal is a fault that the inode's stake has counted.
pub fn body_of<R: Wait, S: Stake>(rt: &R, locked: &mut Locked<S>) -> Result<InodeBody, Refusal>
    requires stands { StandsForSome locked.old.number locked.old.core
        (seen_by S.held S.lent S.origin S.faults S.forced locked.old.stake) }
    ensures node { IfOk result (λ body. (o : Origin) (node : Node)
        → StandsAs o locked.old.number locked.old.core (seen_by S.held S.lent S.origin S.faults S.forced locked.old.stake) node
        → StandsFor o (S.held locked.old.stake) body node) }
    ensures number { locked.new.number ≡ locked.old.number }
    ensures core { locked.new.core ≡ locked.old.core }
    ensures stake { Unchanged S.held S.lent S.origin S.forced locked.old.stake locked.new.stake }
    ensures cause { HasFault (S.faults locked.old.stake) (S.faults locked.new.stake) result }
{
    match locked.core {
        Some(kept) => Ok(kept.body),
        None => read_body(rt, &mut locked.stake, locked.number),
    }
}
