// A name is entered into a directory.
ghost use Rattle.std.specs.Prelude.{◌≡◌, ◌≤◌, ◌+◌, ◌*◌, ◌⊎◌, ℕ, IfOk, IsErrOf, OnErr, OnOk, length, replicate};
ghost use Rattle.sv_form.specs.Entry.{filled};
ghost use Rattle.sv_form.specs.Node.{Node};
ghost use Rattle.sv_form.specs.NodeChanges as changes;
ghost use Rattle.sv_form.specs.NodeNames.{spelling, with_entry};
ghost use Rattle.sv_form.specs.PagePath.{greatest_size};
ghost use Rattle.sv_store.specs.Causes.{HasFault};
ghost use Rattle.sv_store.specs.Frames.{Unchanged};
ghost use Rattle.sv_store.specs.Held.{Apart, nothing_lent};
ghost use Rattle.sv_store.specs.declared.refusal.Refusal.TheVariants.{Fault};
ghost use Rattle.sv_super.specs.Core.{left_of};
ghost use Rattle.sv_bmap.specs.Tree.{IsTree};
ghost use Rattle.sv_inode.specs.Enter.{FitsEntry, entered_by, entry_place, if_entered};
ghost use Rattle.sv_inode.specs.Frames.{KeepsCore, KeepsFront, KeepsRoom};
ghost use Rattle.sv_inode.specs.StandsFor.{StandsFor};
ghost use Rattle.sv_inode.specs.Truncate.{HoldsInode, HoldsOnly};
ghost use Rattle.sv_inode.specs.Write.{HasRisen, MovesBlocks, write_need};

use crate::LockedInode;
use crate::names::find_entry;
use crate::stop::refusal_of;
use std::alloc::Global;
use std::sync::Wait;
use sv_form::{ENTRY_SIZE, InodeBody, Name};
use sv_store::{Refusal, Stake};
use sv_super::SuperCore;

// Spells a name in the bytes that an entry has for it.
fn spell_name(name: &Name, into: &mut [u8])
    requires { length into.old ≡ 14 }
    ensures { into.new ≡ filled name.now }
{
    into.fill(0);
    let bytes = name.as_slice();
    into[..bytes.len()].copy_from_slice(bytes);
}

// Spells an entry.
fn spell(name: &Name, inode: u16, into: &mut [u8])
    requires { length into.old ≡ 16 }
    ensures { into.new ≡ spelling inode name.now }
{
    let (number, field) = into.split_at_mut(2);
    number.copy_from_slice(&inode.to_le_bytes());
    spell_name(name, field);
}

// The first empty entry of the directory, or the place after its last one.
fn find_place<R: Wait, S: Stake>(rt: &R, body: &InodeBody, s: &mut S) -> Result<u32, Refusal>
    requires tree { IsTree (S.origin s.old) (S.held s.old) body.now.addresses }
    requires size { body.now.size ≤ greatest_size (S.origin s.old).sizes }
    requires lent { S.lent s.old ≡ nothing_lent }
    ensures place { (node : Node) → StandsFor (S.origin s.old) (S.held s.old) body.now node
        → IfOk result (λ place. place ≡ entry_place (S.origin s.old).sizes.block_size node) }
    ensures within { IfOk result (λ place. 16 * place ≤ body.now.size) }
    ensures stake { Unchanged S.held S.lent S.origin S.forced s.old s.new }
    ensures cause { HasFault (S.faults s.old) (S.faults s.new) result }
{
    let empty = None;
    match find_entry(rt, body, s, &empty)? {
        Some((place, _)) => Ok(place),
        None => Ok(body.size / 16),
    }
}

// Puts the bytes of an entry at its place, all or none.
fn put_entry<R: Wait, S: Stake>(
    rt: &R,
    alloc: Global,
    inode: &mut LockedInode<S>,
    core: &mut SuperCore<S>,
    place: u32,
    bytes: &[u8],
) -> Result<(), Refusal>
    requires stands { (node : Node) × StandsFor (S.origin inode.old.stake) (S.held inode.old.stake) inode.old.body node }
    requires bytes { length bytes.now ≡ 16 }
    requires end { 16 * place + 16 ≤ greatest_size (S.origin inode.old.stake).sizes }
    requires left { write_need (S.origin inode.old.stake).sizes
        (S.held inode.old.stake) inode.old.body.addresses (16 * place) 16 ≤ left_of core.old }
    requires apart { Apart (S.held core.old.stake) (S.held inode.old.stake) }
    requires lent { S.lent inode.old.stake ≡ nothing_lent }
    requires origin { S.origin core.old.stake ≡ S.origin inode.old.stake }
    ensures node { (node : Node) → StandsFor (S.origin inode.old.stake) (S.held inode.old.stake) inode.old.body node
        → StandsFor (S.origin inode.new.stake) (S.held inode.new.stake) inode.new.body
        (if_entered result node (changes.put (S.origin inode.old.stake).sizes.block_size node (16 * place) bytes.now)) }
    ensures moves { MovesBlocks S.held
        (write_need (S.origin inode.old.stake).sizes
        (S.held inode.old.stake) inode.old.body.addresses (16 * place) (entered_by result))
        core.old core.new (S.held inode.old.stake) (S.held inode.new.stake) }
    ensures apart { Apart (S.held core.new.stake) (S.held inode.new.stake) }
    ensures inode { HoldsInode (S.origin inode.old.stake) (S.held inode.old.stake) inode.old.number
        → HoldsInode (S.origin inode.new.stake) (S.held inode.new.stake) inode.new.number }
    ensures only { (n : ℕ) → HoldsOnly (S.origin inode.old.stake) (S.held inode.old.stake) n inode.old.body.addresses
        → HoldsOnly (S.origin inode.old.stake) (S.held inode.new.stake) n inode.new.body.addresses }
    ensures spare { KeepsRoom (write_need (S.origin inode.old.stake).sizes
        (S.held inode.old.stake) inode.old.body.addresses (16 * place) 16)
        (write_need (S.origin inode.old.stake).sizes
        (S.held inode.old.stake) inode.old.body.addresses (16 * place) (entered_by result)) core.old.spare core.new.spare }
    ensures body { inode.new.body ≡ record inode.old.body { size = inode.new.body.size; addresses = inode.new.body.addresses } }
    ensures number { inode.new.number ≡ inode.old.number }
    ensures front { KeepsFront S.held S.lent S.origin S.forced S.faults inode.old.stake inode.new.stake }
    ensures core { KeepsCore S.lent S.origin S.forced S.faults core.old core.new }
    ensures cause { IsErrOf result Fault → HasRisen (S.faults inode.old.stake) (S.faults inode.new.stake)
        ⊎ HasRisen (S.faults core.old.stake) (S.faults core.new.stake) }
{
    let _sizes = inode.stake.geometry();
    match inode.writei(rt, alloc, core, 16 * place, bytes) {
        Ok(()) => Ok(()),
        Err(stop) => Err(refusal_of(stop)),
    }
}

impl<S: Stake> LockedInode<S> {
    /// Enters a name with its inode into the directory (Bach, chapter 5.7): the entry's sixteen bytes are put into the first
    /// empty place, or else at the end. The blocks that this takes are taken first. A refusal, a fault that the inode's
    /// stake or the core's has counted, or want of memory, changes neither the node nor which blocks are free.
    pub fn enter<R: Wait>(
        &mut self,
        rt: &R,
        alloc: Global,
        core: &mut SuperCore<S>,
        name: &Name,
        inode: u16,
    ) -> Result<(), Refusal>
        requires fits { FitsEntry (S.origin self.old.stake) (S.held self.old.stake) self.old.body (left_of core.old) }
        requires size { self.old.body.size ≤ greatest_size (S.origin self.old.stake).sizes }
        requires apart { Apart (S.held core.old.stake) (S.held self.old.stake) }
        requires lent { S.lent self.old.stake ≡ nothing_lent }
        requires origin { S.origin core.old.stake ≡ S.origin self.old.stake }
        ensures node { (node : Node) → StandsFor (S.origin self.old.stake) (S.held self.old.stake) self.old.body node
            → StandsFor (S.origin self.new.stake) (S.held self.new.stake) self.new.body
            (if_entered result node (with_entry (S.origin self.old.stake).sizes.block_size inode name.now node)) }
        ensures moves { (node : Node) → StandsFor (S.origin self.old.stake) (S.held self.old.stake) self.old.body node
            → MovesBlocks S.held
            (write_need (S.origin self.old.stake).sizes (S.held self.old.stake) self.old.body.addresses
            (16 * entry_place (S.origin self.old.stake).sizes.block_size node) (entered_by result))
            core.old core.new (S.held self.old.stake) (S.held self.new.stake) }
        ensures apart { Apart (S.held core.new.stake) (S.held self.new.stake) }
        ensures inode { HoldsInode (S.origin self.old.stake) (S.held self.old.stake) self.old.number
            → HoldsInode (S.origin self.new.stake) (S.held self.new.stake) self.new.number }
        ensures only { (n : ℕ) → HoldsOnly (S.origin self.old.stake) (S.held self.old.stake) n self.old.body.addresses
            → HoldsOnly (S.origin self.old.stake) (S.held self.new.stake) n self.new.body.addresses }
        ensures spare { (node : Node) → StandsFor (S.origin self.old.stake) (S.held self.old.stake) self.old.body node
            → KeepsRoom (write_need (S.origin self.old.stake).sizes (S.held self.old.stake) self.old.body.addresses
            (16 * entry_place (S.origin self.old.stake).sizes.block_size node) 16)
            (write_need (S.origin self.old.stake).sizes (S.held self.old.stake) self.old.body.addresses
            (16 * entry_place (S.origin self.old.stake).sizes.block_size node) (entered_by result)) core.old.spare core.new.spare }
        ensures body { self.new.body ≡ record self.old.body { size = self.new.body.size; addresses = self.new.body.addresses } }
        ensures number { self.new.number ≡ self.old.number }
        ensures front { KeepsFront S.held S.lent S.origin S.forced S.faults self.old.stake self.new.stake }
        ensures core { KeepsCore S.lent S.origin S.forced S.faults core.old core.new }
        ensures cause { IsErrOf result Fault → HasRisen (S.faults self.old.stake) (S.faults self.new.stake)
            ⊎ HasRisen (S.faults core.old.stake) (S.faults core.new.stake) }
    {
        let _left = core.left();
        match find_place(rt, &self.body, &mut self.stake) {
            Ok(place) => {
                let mut bytes = [0; ENTRY_SIZE];
                spell(name, inode, &mut bytes);
                put_entry(rt, alloc, self, core, place, &bytes)
            }
            Err(refusal) => Err(refusal),
        }
    }
}
