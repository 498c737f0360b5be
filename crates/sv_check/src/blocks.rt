// Blocks and inodes of an image, read from a disk.
ghost use Rattle.std.specs.Prelude.{◌≡◌, ◌<◌, ◌*◌, ℕ, length, IfOk, OnOk, IfSome, IfNone};
ghost use Rattle.sv_dev.specs.Causes.{HasCause};
ghost use Rattle.sv_form.specs.Geometry.{IsGeometry, IsNumber};
ghost use Rattle.sv_form.specs.Image.{block_of, inode_of};
ghost use Rattle.sv_check.specs.Blocks.{IsInodeRead};

use crate::inodes::read_line;
use sv_dev::{Disk, Failed};
use sv_form::{DiskInode, Geometry};

#[tactic(auto, unfolding(sv_form::specs::Image::block_of))]
/// Reads one block into a slice of a block's length.
pub fn read_block<D: Disk>(
    disk: &mut D,
    sizes: &Geometry,
    number: u32,
    block: &mut [u8],
) -> Result<(), Failed>
    requires sizes { IsGeometry sizes.now }
    requires length { length (D.content disk.old) ≡ sizes.now.blocks * sizes.now.block_size }
    requires number { number < sizes.now.blocks }
    requires block { length block.old ≡ sizes.now.block_size }
    ensures bytes { OnOk result (block.new ≡ block_of sizes.now (D.content disk.old) number) }
    ensures content { D.content disk.new ≡ D.content disk.old }
    ensures cause { HasCause (D.faults disk.old) (D.faults disk.new) result }
{
    disk.read(u64::from(number) * u64::from(sizes.block_size), block)
}

/// Reads one inode of the inode list, by way of a slice of a block's length. None where its bytes are no inode.
pub fn read_inode<D: Disk>(
    disk: &mut D,
    sizes: &Geometry,
    number: u16,
    block: &mut [u8],
) -> Result<Option<DiskInode>, Failed>
    requires sizes { IsGeometry sizes.now }
    requires length { length (D.content disk.old) ≡ sizes.now.blocks * sizes.now.block_size }
    requires number { IsNumber sizes.now number }
    requires block { length block.old ≡ sizes.now.block_size }
    ensures inode { IfOk result (IsInodeRead (inode_of sizes.now (D.content disk.old) number)) }
    ensures content { D.content disk.new ≡ D.content disk.old }
    ensures cause { HasCause (D.faults disk.old) (D.faults disk.new) result }
{
    let place = sizes.inode_place(number);
    read_block(disk, sizes, place.block, block)?;
    let at = 64 * usize::from(place.line);
    Ok(read_line(&block[at..at + 64]))
}
