// Whose each line of a sound image is.
ghost use Rattle.std.specs.Prelude.{◌≡◌, ◌≤◌, ◌<◌, ℕ, List, None, length, slice_index, IfOk};
ghost use Rattle.sv_form.specs.Geometry.{IsGeometry, inode_count, line_count};
ghost use Rattle.sv_check.specs.BlockOwners.{block_owner, line_owners, place_of};
ghost use Rattle.sv_check.specs.InodeList.{used_flags};
ghost use Rattle.sv_check.specs.Sound.{line_owner};
ghost use Rattle.sv_check.specs.Walk.{first_bad, nothing_met, walk};

use std::alloc::Global;
use sv_form::{Geometry, NoMemory};

/// The owner of each line, block by block, from the inodes that are used and the owner of each block: a used inode has its
/// own line and all lines of the blocks that it reaches.
pub(crate) fn line_owners(
    alloc: Global,
    sizes: &Geometry,
    used: &[bool],
    owners: &[u16],
) -> Result<Vec<u16>, NoMemory>
    requires sizes { IsGeometry sizes.now }
    requires used { length used.now ≡ inode_count sizes.now }
    requires owners { length owners.now ≡ sizes.now.blocks }
    ensures lines { IfOk result (λ lines. length lines.items ≡ line_count sizes.now) }
    ensures owners { IfOk result (λ lines. (image : List ℕ) → used.now ≡ used_flags sizes.now image
        → ((b : ℕ) → slice_index owners.now b ≡ block_owner sizes.now image b)
        → first_bad sizes.now nothing_met (walk sizes.now image) ≡ None → lines.items ≡ line_owners sizes.now image) }
{
    let mut lines = Vec::new(alloc);
    for line in 0..sizes.blocks * sizes.block_lines() {
        lines.push(line_owner(sizes, used, owners, line))?;
    }
    Ok(lines)
}

// The owner of a line, by its number in the image.
fn line_owner(sizes: &Geometry, used: &[bool], owners: &[u16], line: u32) -> u16
    requires sizes { IsGeometry sizes.now }
    requires used { length used.now ≡ inode_count sizes.now }
    requires owners { length owners.now ≡ sizes.now.blocks }
    requires line { line < line_count sizes.now }
    ensures { (image : List ℕ) → used.now ≡ used_flags sizes.now image → ((b : ℕ)
        → slice_index owners.now b ≡ block_owner sizes.now image b)
        → first_bad sizes.now nothing_met (walk sizes.now image) ≡ None → result ≡ line_owner sizes.now image (place_of sizes.now line) }
{
    let lines = sizes.block_lines();
    let block = line / lines;
    if block < FIRST_INODES || sizes.first_data <= block {
        return owners[block as usize];
    }
    let before = line - FIRST_INODES * lines;
    if used[before as usize] {
        return (before + 1) as u16;
    }
    0
}

// The first block of the inode list.
const FIRST_INODES: u32 = 2;
