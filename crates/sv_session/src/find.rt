// The regular file that an inode number names.
ghost use Rattle.std.specs.Prelude.{◌≡◌, ◌≤◌, None, Some, length, IfErr, IfOk, IfSome, IfNone};
ghost use Rattle.sv_dev.specs.Causes.{Rose};
ghost use Rattle.sv_form.specs.Geometry.{IsGeometry, IsNumber};
ghost use Rattle.sv_form.specs.Image.{geometry_of};
ghost use Rattle.sv_check.specs.FilePages.{IsFileSize, file_of};
ghost use Rattle.sv_check.specs.Sound.{IsSound};
ghost use Rattle.sv_session.specs.Answer.{HasReason};

use crate::Stop;
use sv_check::file_size;
use sv_dev::Disk;
use sv_form::Geometry;

/// Finds the regular file that an inode number of a sound image names: its number and its size. The slice has a block's
/// length.
pub fn find_file<D: Disk>(
    disk: &mut D,
    sizes: &Geometry,
    inode: u32,
    block: &mut [u8],
) -> Result<(u16, u32), Stop>
    requires sound { IsSound (D.content disk.old) }
    requires sizes { sizes.now ≡ geometry_of (D.content disk.old) }
    requires block { length block.old ≡ sizes.now.block_size }
    ensures number { IfOk result (λ f. (f.0 ≡ inode) × IsNumber sizes.now inode) }
    ensures size { IfOk result (λ f. IsFileSize (D.content disk.old) inode (Some f.1)) }
    ensures reason { IfErr result (HasReason (λ P. P (D.content disk.old)) (file_of (D.content disk.old) inode ≡ None)
        (Rose (D.faults disk.old) (D.faults disk.new)) ⊥ ⊥) }
    ensures content { D.content disk.new ≡ D.content disk.old }
    ensures faults { D.faults disk.old ≤ D.faults disk.new }
{
    let Some(number) = inode_number(sizes, inode) else {
        return Err(Stop::NoSuchFile);
    };
    let Ok(found) = file_size(disk, sizes, number, block) else {
        return Err(Stop::DeviceFault);
    };
    let Some(size) = found else {
        return Err(Stop::NoSuchFile);
    };
    Ok((number, size))
}

// The number as one of the inode list, if it is one.
fn inode_number(sizes: &Geometry, inode: u32) -> Option<u16>
    requires { IsGeometry sizes.now }
    ensures some { IfSome result (λ n. (n ≡ inode) × IsNumber sizes.now inode) }
    ensures none { IfNone result (IsNumber sizes.now inode → ⊥) }
{
    if inode > sizes.inode_count() {
        return None;
    }
    if inode == 0 {
        return None;
    }
    u16::try_from(inode).ok()
}
