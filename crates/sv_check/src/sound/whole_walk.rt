// The walk over the blocks of all inodes: conditions 6 to 9 of a sound image.
ghost use Rattle.std.specs.Prelude.{◌≡◌, ◌≤◌, ◌*◌, ◌++◌, ◌∷◌, [], ⊤, ℕ, None, true, map, length, replicate, slice_index, if◌then◌else◌};
ghost use Rattle.std.specs.Prelude.{IfOk, IfErr, OnOk};
ghost use Rattle.sv_dev.specs.Causes.{Rose};
ghost use Rattle.sv_form.specs.Geometry.{IsGeometry};
ghost use Rattle.sv_plain.specs.Front.{size_of};
ghost use Rattle.sv_check.specs.BlockOwners.{block_owner};
ghost use Rattle.sv_check.specs.Directories.{directories};
ghost use Rattle.sv_check.specs.Fault.{Says};
ghost use Rattle.sv_check.specs.InodeList.{is_directory, kind_flaw, reads_inode};
ghost use Rattle.sv_check.specs.Pages.{directory_in, kept_of};
ghost use Rattle.sv_check.specs.PastSize.{past_size_flaw, tail_flaw};
ghost use Rattle.sv_check.specs.Chain.{walked};
ghost use Rattle.sv_check.specs.Progress.{met_by};
ghost use Rattle.sv_check.specs.FreshWalk.{IsFresh};
ghost use Rattle.sv_check.specs.Walk.{is_among, first_bad, nothing_met, walk};

use crate::CheckFault;
use crate::inodes::{directory_size, is_free, read_line, turn_to_inode};
use crate::pages::{Directory, PageBlock};
use crate::sound::met::Met;
use crate::walk::Walk;
use std::alloc::Global;
use std::mem;
use sv_dev::Disk;
use sv_form::{Geometry, NoMemory};

/// What the walk over the blocks of all inodes shows: the first bad number, at which it stopped; and where there is none,
/// the first inodes that fail the conditions PastSize and Tail, and the directories, ascending.
#[derive(Drop)]
pub(crate) struct BlockWalk {
    pub(crate) walk: Walk,
    pub(crate) bad: Option<Met>,
    pub(crate) past: Option<u16>,
    pub(crate) tail: Option<u16>,
    pub(crate) directories: Vec<Directory>,
}

/// Walks over the used inodes, ascending, and the blocks of each. Where no number is bad, the blocks with an owner are those
/// that the walk met. It reads each block of the inode list once, each
/// indirect block once, and the last page of each inode once. The slice has a block's length.
pub(crate) fn walk_blocks<D: Disk>(
    alloc: Global,
    disk: &mut D,
    sizes: &Geometry,
    block: &mut [u8],
) -> Result<BlockWalk, CheckFault>
    requires sizes { IsGeometry sizes.now }
    requires length { length (D.content disk.old) ≡ sizes.now.blocks * sizes.now.block_size }
    requires kind { kind_flaw sizes.now (D.content disk.old) ≡ None }
    requires block { length block.old ≡ sizes.now.block_size }
    ensures bad { IfOk result (λ w. w.bad ≡ first_bad sizes.now nothing_met (walk sizes.now (D.content disk.old))) }
    ensures past { IfOk result (λ w. w.bad ≡ None → w.past ≡ past_size_flaw sizes.now (D.content disk.old)) }
    ensures tail { IfOk result (λ w. w.bad ≡ None → w.tail ≡ tail_flaw sizes.now (D.content disk.old)) }
    ensures directories { IfOk result (λ w. w.bad ≡ None
        → map kept_of w.directories.items ≡ map (directory_in sizes.now (D.content disk.old))
        (directories sizes.now (D.content disk.old))) }
    ensures owners { IfOk result (λ w. length w.walk.owner.items ≡ sizes.now.blocks) }
    ensures met { IfOk result (λ w. w.bad ≡ None → (b : ℕ) → met_by (slice_index w.walk.owner.items) b
        ≡ is_among (walked sizes.now (D.content disk.old)) b) }
    ensures owner { IfOk result (λ w. w.bad ≡ None → (b : ℕ) → slice_index w.walk.owner.items b
        ≡ block_owner sizes.now (D.content disk.old) b) }
    ensures err { IfErr result (Says (λ _ _. ⊥) (Rose (D.faults disk.old) (D.faults disk.new)) ⊤) }
    ensures content { D.content disk.new ≡ D.content disk.old }
    ensures faults { D.faults disk.old ≤ D.faults disk.new }
{
    let walk = Walk {
        owner: no_owners(alloc, sizes.blocks)?,
        past: false,
        tail: false,
        pages: Vec::new(alloc),
        bad: 0,
    };
    let mut found = BlockWalk {
        walk,
        bad: None,
        past: None,
        tail: None,
        directories: Vec::new(alloc),
    };
    found.walk_inodes(alloc, disk, sizes, block)?;
    Ok(found)
}

impl BlockWalk {
    // Walks over the used inodes, where nothing was walked over yet.
    fn walk_inodes<D: Disk>(
        &mut self,
        alloc: Global,
        disk: &mut D,
        sizes: &Geometry,
        block: &mut [u8],
    ) -> Result<(), CheckFault>
        requires sizes { IsGeometry sizes.now }
        requires length { length (D.content disk.old) ≡ sizes.now.blocks * sizes.now.block_size }
        requires kind { kind_flaw sizes.now (D.content disk.old) ≡ None }
        requires block { length block.old ≡ sizes.now.block_size }
        requires fresh { IsFresh sizes.now.blocks self.old }
        ensures bad { OnOk result (self.new.bad ≡ first_bad sizes.now nothing_met (walk sizes.now (D.content disk.old))) }
        ensures past { OnOk result (self.new.bad ≡ None → self.new.past ≡ past_size_flaw sizes.now (D.content disk.old)) }
        ensures tail { OnOk result (self.new.bad ≡ None → self.new.tail ≡ tail_flaw sizes.now (D.content disk.old)) }
        ensures directories { OnOk result (self.new.bad ≡ None
            → map kept_of self.new.directories.items ≡ map (directory_in sizes.now (D.content disk.old))
            (directories sizes.now (D.content disk.old))) }
        ensures owners { OnOk result (length self.new.walk.owner.items ≡ sizes.now.blocks) }
        ensures met { OnOk result (self.new.bad ≡ None
            → (b : ℕ) → met_by (slice_index self.new.walk.owner.items) b ≡ is_among (walked sizes.now (D.content disk.old)) b) }
        ensures owner { OnOk result (self.new.bad ≡ None
            → (b : ℕ) → slice_index self.new.walk.owner.items b ≡ block_owner sizes.now (D.content disk.old) b) }
        ensures err { IfErr result (Says (λ _ _. ⊥) (Rose (D.faults disk.old) (D.faults disk.new)) ⊤) }
        ensures content { D.content disk.new ≡ D.content disk.old }
        ensures faults { D.faults disk.old ≤ D.faults disk.new }
    {
        for before in 0..sizes.inode_count() {
            let n = (before + 1) as u16;
            turn_to_inode(disk, sizes, n, block)?;
            let at = 64 * usize::from(sizes.inode_place(n).line);
            let inode = &block[at..at + 64];
            if is_free(inode) {
                continue;
            }
            if !self.walk.walk_inode(alloc, disk, sizes, n, inode)? {
                self.bad = Some(Met {
                    inode: n,
                    block: self.walk.bad,
                });
                return Ok(());
            }
            let past = self.past.or(self.walk.past.then_some(n));
            let tail = self.tail.or(self.walk.tail.then_some(n));
            self.past = past;
            self.tail = tail;
            keep_directory(alloc, &mut self.directories, &mut self.walk.pages, n, inode)?;
            self.walk.clear();
        }
        Ok(())
    }
}

// Keeps the pages of inode n, which were met, if it is a directory.
fn keep_directory(
    alloc: Global,
    directories: &mut Vec<Directory>,
    pages: &mut Vec<PageBlock>,
    n: u16,
    inode: &[u8],
) -> Result<(), NoMemory>
    requires inode { length inode.now ≡ 64 }
    ensures { OnOk result (reads_inode inode.now ≡ true → map kept_of directories.new.items
        ≡ map kept_of directories.old.items
        ++ (if is_directory inode.now then record { inode = n; size = size_of inode.now; pages = pages.old.items } ∷ [] else [])) }
{
    let Some(size) = directory_size(&read_line(inode)) else {
        return Ok(());
    };
    let pages = mem::replace(pages, Vec::new(alloc));
    directories.push(Directory {
        inode: n,
        size,
        pages,
    })?;
    Ok(())
}

/// An owner for each block: none.
pub(crate) fn no_owners(alloc: Global, blocks: u32) -> Result<Vec<u16>, NoMemory>
    ensures owners { IfOk result (λ o. o.items ≡ replicate blocks 0) }
    ensures len { IfOk result (λ o. length o.items ≡ blocks) }
{
    vec![in alloc; 0; blocks as usize]
}
