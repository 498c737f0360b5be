// An image made anew.
ghost use Rattle.std.specs.Prelude.{◌≡◌, ◌≤◌, ◌*◌, ◌↔◌, length, IfErr, OnOk, IsErrOf, if◌then◌else◌};
ghost use Rattle.sv_dev.specs.Causes.{HasCause, Rose, counted};
ghost use Rattle.sv_dev.specs.Transfer.{CanTransfer, overwritten};
ghost use Rattle.sv_form.specs.Geometry.{IsGeometry};
ghost use Rattle.sv_check.specs.Mkfs.{made_geometry};
ghost use Rattle.sv_check.specs.MadeBlocks.{FitsOn, SaysWhy, made_blocks, made_image};
ghost use Rattle.sv_check.specs.MadeSizes.{AreSound, HaveTheirBlocks, HaveTheirRoot, HaveTheirSizes};
ghost use Rattle.sv_check.specs.MadeWrites.{HasCounted, stands_at, unlike_blocks};
ghost use Rattle.sv_check.specs.Sound.{IsSound};
ghost use Rattle.sv_check.specs.declared.make.image.MakeFault.TheVariants.{Limits};

use crate::make::blocks::made_block;
use crate::make::lists::made_geometry;
use sv_dev::{Disk, Failed};
use sv_form::Geometry;

/// Why no image was made.
#[derive(Clone, Copy, Debug, PartialEq, Eq)]
pub enum MakeFault {
    /// No image has so many blocks and inodes, or the disk has another length.
    Limits,
    /// The disk failed.
    Fault,
    /// Never answered: no memory is taken.
    NoMemory,
}

/// Makes an image of so many blocks for so many inodes: a root with nothing in it, and all other data blocks free. Each
/// block is read once, and written once where it reads as another one. After a fault the disk has any bytes; where the numbers
/// are refused it is not asked.
pub fn mkfs<D: Disk>(disk: &mut D, blocks: u32, inodes: u32) -> Result<(), MakeFault>
    ensures made { OnOk result (D.content disk.new ≡ made_image blocks inodes) }
    ensures sound { OnOk result (IsSound (D.content disk.new)) }
    ensures fits { OnOk result (FitsOn (D.content disk.old) blocks inodes) }
    ensures limits { IsErrOf result Limits ↔ (FitsOn (D.content disk.old) blocks inodes → ⊥) }
    ensures err { IfErr result (SaysWhy (FitsOn (D.content disk.old) blocks inodes → ⊥) (Rose (D.faults disk.old) (D.faults disk.new))) }
    ensures refused { IsErrOf result Limits → disk.new ≡ disk.old }
    ensures length { length (D.content disk.new) ≡ length (D.content disk.old) }
    ensures writes { OnOk result (HasCounted (D.writes disk.old)
        (unlike_blocks (made_geometry blocks inodes) (D.content disk.old) blocks) (D.writes disk.new)) }
    ensures reads { OnOk result (D.reads disk.new ≡ counted (D.reads disk.old) blocks) }
    ensures faults { D.faults disk.old ≤ D.faults disk.new }
{
    let Some(sizes) = made_geometry(blocks, inodes) else {
        return Err(MakeFault::Limits);
    };
    if disk.length() != u64::from(blocks) * 1024 {
        return Err(MakeFault::Limits);
    }
    let Ok(()) = write_blocks(disk, &sizes) else {
        return Err(MakeFault::Fault);
    };
    Ok(())
}

/// The first three conditions of a sound image hold of each image that is made, and its sizes are those that were asked.
/// What stands in each of its blocks is what is made for that block.
pub fn made_images_have_their_sizes()
    ensures sizes { HaveTheirSizes }
    ensures blocks { HaveTheirBlocks }
{}

/// Each image that is made is sound. Its inode list has a root with one page, and nothing else.
pub fn made_images_are_sound()
    ensures sound { AreSound }
    ensures root { HaveTheirRoot }
{}

// Puts each block of the image on the disk.
fn write_blocks<D: Disk>(disk: &mut D, sizes: &Geometry) -> Result<(), Failed>
    requires sizes { IsGeometry sizes.now }
    requires length { length (D.content disk.old) ≡ sizes.now.blocks * 1024 }
    ensures made { OnOk result (D.content disk.new ≡ made_blocks sizes.now sizes.now.blocks) }
    ensures length { length (D.content disk.new) ≡ length (D.content disk.old) }
    ensures writes { OnOk result (HasCounted (D.writes disk.old)
        (unlike_blocks sizes.now (D.content disk.old) sizes.now.blocks) (D.writes disk.new)) }
    ensures reads { OnOk result (D.reads disk.new ≡ counted (D.reads disk.old) sizes.now.blocks) }
    ensures cause { HasCause (D.faults disk.old) (D.faults disk.new) result }
{
    for number in 0..sizes.blocks {
        let block = made_block(sizes, number);
        put_block(disk, u64::from(number) * 1024, block.as_slice())?;
    }
    Ok(())
}

// Reads what stands there, and writes the block where it is another one.
fn put_block<D: Disk>(disk: &mut D, at: u64, block: &[u8]) -> Result<(), Failed>
    requires can { CanTransfer (D.content disk.old) at (length block.now) }
    requires size { length block.now ≡ 1024 }
    ensures written { OnOk result (D.content disk.new ≡ overwritten (D.content disk.old) at block.now) }
    ensures length { length (D.content disk.new) ≡ length (D.content disk.old) }
    ensures writes { OnOk result (D.writes disk.new
        ≡ (if stands_at (D.content disk.old) at block.now then D.writes disk.old else counted (D.writes disk.old) 1)) }
    ensures reads { OnOk result (D.reads disk.new ≡ counted (D.reads disk.old) 1) }
    ensures cause { HasCause (D.faults disk.old) (D.faults disk.new) result }
{
    let mut found = [0; 1024];
    disk.read(at, &mut found)?;
    if found.as_slice() == block {
        return Ok(());
    }
    disk.write(at, block)
}
