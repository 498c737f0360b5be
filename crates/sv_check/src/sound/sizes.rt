// Conditions 1 to 3 of a sound image.
ghost use Rattle.std.specs.Prelude.{◌≡◌, ◌≤◌, ◌*◌, ◌↔◌, length, IfOk, IfErr, IsTrue};
ghost use Rattle.sv_dev.specs.Causes.{HasCause, Rose};
ghost use Rattle.sv_form.specs.Geometry.{IsGeometry};
ghost use Rattle.sv_form.specs.Superblock.{IsSuper, sizes_of};
ghost use Rattle.sv_form.specs.Image.{superblock_of};
ghost use Rattle.sv_check.specs.Fault.{Says};
ghost use Rattle.sv_check.specs.Sizes.{IsSized, SizesFlaw};

use crate::{CheckFault, Condition};
use sv_dev::{Disk, Failed};
use sv_form::{MAGIC, Super, number16, number32};

const BLOCK_TYPE: u16 = 2;

/// Reads the superblock of an image whose first three conditions hold. It makes one read at most.
pub fn read_sizes<D: Disk>(disk: &mut D) -> Result<Super, CheckFault>
    ensures sized { IfOk result (λ s. IsSized (D.content disk.old)) }
    ensures head { IfOk result (λ s. IsSuper (superblock_of (D.content disk.old)) s) }
    ensures err { IfErr result (Says (SizesFlaw (D.content disk.old)) (Rose (D.faults disk.old) (D.faults disk.new)) ⊥) }
    ensures content { D.content disk.new ≡ D.content disk.old }
    ensures faults { D.faults disk.old ≤ D.faults disk.new }
{
    let length = disk.length();
    if length < 1024 {
        return Err(CheckFault::Refused {
            condition: Condition::Magic,
            place: 0,
        });
    }
    let bytes = read_superblock(disk)?;
    if number32(&bytes, 0) != MAGIC {
        return Err(CheckFault::Refused {
            condition: Condition::Magic,
            place: 0,
        });
    }
    let block_type = number16(&bytes, 4);
    if block_type != BLOCK_TYPE {
        return Err(CheckFault::Refused {
            condition: Condition::BlockSize,
            place: u32::from(block_type),
        });
    }
    let Some(head) = Super::read(&bytes) else {
        return Err(CheckFault::Refused {
            condition: Condition::Sizes,
            place: 0,
        });
    };
    if !fits(&head, length) {
        return Err(CheckFault::Refused {
            condition: Condition::Sizes,
            place: 0,
        });
    }
    Ok(head)
}

// The bytes of the superblock, which stand at byte 512 whatever the block size.
fn read_superblock<D: Disk>(disk: &mut D) -> Result<[u8; 512], Failed>
    requires { 1024 ≤ length (D.content disk.old) }
    ensures bytes { IfOk result (λ bytes. bytes ≡ superblock_of (D.content disk.old)) }
    ensures size { IfOk result (λ bytes. length bytes ≡ 512) }
    ensures content { D.content disk.new ≡ D.content disk.old }
    ensures cause { HasCause (D.faults disk.old) (D.faults disk.new) result }
{
    let mut bytes = [0; 512];
    disk.read(512, &mut bytes)?;
    Ok(bytes)
}

// Whether the sizes are in the bounds, and the device is as long as they say.
fn fits(head: &Super, length: u64) -> bool
    ensures { IsTrue result ↔ (IsGeometry (sizes_of head.now) × (length ≡ (sizes_of head.now).blocks * (sizes_of head.now).block_size)) }
{
    let sizes = head.geometry();
    (4..=65_536).contains(&sizes.blocks)
        && (3..=4_097).contains(&sizes.first_data)
        && sizes.first_data < sizes.blocks
        && length == u64::from(sizes.blocks) * u64::from(sizes.block_size)
}
