// One file of a sound image: its size and its pages.
ghost use Rattle.std.specs.Prelude.{◌≡◌, ◌≤◌, ⊤, ℕ, List, false, true, length, IfOk, IfErr};
ghost use Rattle.sv_dev.specs.Causes.{HasCause, Rose};
ghost use Rattle.sv_form.specs.Geometry.{IsNumber};
ghost use Rattle.sv_form.specs.Image.{geometry_of, inode_of};
ghost use Rattle.sv_check.specs.Blocks.{IsInodeRead};
ghost use Rattle.sv_check.specs.Fault.{Says};
ghost use Rattle.sv_check.specs.FilePages.{AreInData, AreInOrder, IsFileSize, ShowsFile, file_pages};
ghost use Rattle.sv_check.specs.InodeList.{is_free, reads_inode};
ghost use Rattle.sv_check.specs.Sound.{IsSound};

use crate::pages::PageBlock;
use crate::sound::whole_walk::no_owners;
use crate::walk::Walk;
use crate::{CheckFault, read_block, read_inode};
use std::alloc::Global;
use sv_dev::{Disk, Failed};
use sv_form::{DiskInode, Geometry, Kind};

/// How many bytes an inode of a sound image has, if it is a regular file. It reads the inode's block, into a slice of a
/// block's length.
pub fn file_size<D: Disk>(
    disk: &mut D,
    sizes: &Geometry,
    inode: u16,
    block: &mut [u8],
) -> Result<Option<u32>, Failed>
    requires sound { IsSound (D.content disk.old) }
    requires sizes { sizes.now ≡ geometry_of (D.content disk.old) }
    requires number { IsNumber sizes.now inode }
    requires block { length block.old ≡ sizes.now.block_size }
    ensures size { IfOk result (λ size. IsFileSize (D.content disk.old) inode size) }
    ensures content { D.content disk.new ≡ D.content disk.old }
    ensures cause { HasCause (D.faults disk.old) (D.faults disk.new) result }
{
    let read = read_inode(disk, sizes, inode, block)?;
    Ok(regular_size(&read))
}

// The size of a regular file, from what was read of its inode.
fn regular_size(read: &Option<DiskInode>) -> Option<u32>
    ensures { (bytes : List ℕ) → IsInodeRead bytes read.now → reads_inode bytes ≡ true → ShowsFile bytes result }
{
    match read {
        Some(DiskInode::Used(body)) => match body.kind {
            Kind::File => Some(body.size),
            Kind::Dir => None,
        },
        _ => None,
    }
}

/// The pages of a used inode of a sound image that are present, ascending, each with the block in which it stands. It
/// reads the inode's block, each of its indirect blocks, and its last page, each once. The slice has a block's length.
pub fn read_pages<D: Disk>(
    alloc: Global,
    disk: &mut D,
    sizes: &Geometry,
    inode: u16,
    block: &mut [u8],
) -> Result<Vec<PageBlock>, CheckFault>
    requires sound { IsSound (D.content disk.old) }
    requires sizes { sizes.now ≡ geometry_of (D.content disk.old) }
    requires number { IsNumber sizes.now inode }
    requires used { is_free (inode_of sizes.now (D.content disk.old) inode) ≡ false }
    requires block { length block.old ≡ sizes.now.block_size }
    ensures pages { IfOk result (λ p. p.items ≡ file_pages sizes.now (D.content disk.old) inode) }
    ensures data { IfOk result (λ p. AreInData sizes.now p.items) }
    ensures ascending { IfOk result (λ p. AreInOrder p.items) }
    ensures err { IfErr result (Says (λ _ _. ⊥) (Rose (D.faults disk.old) (D.faults disk.new)) ⊤) }
    ensures content { D.content disk.new ≡ D.content disk.old }
    ensures faults { D.faults disk.old ≤ D.faults disk.new }
{
    let place = sizes.inode_place(inode);
    read_block(disk, sizes, place.block, block)?;
    let at = 64 * usize::from(place.line);
    let mut walk = Walk {
        owner: no_owners(alloc, sizes.blocks)?,
        past: false,
        tail: false,
        pages: Vec::new(alloc),
        bad: 0,
    };
    if !walk.walk_inode(alloc, disk, sizes, inode, &block[at..at + 64])? {
        unreachable!();
    }
    Ok(walk.pages)
}
