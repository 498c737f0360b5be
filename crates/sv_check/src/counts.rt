// How many blocks are free and how many inodes are used, from what a check leaves.
ghost use Rattle.std.specs.Prelude.{◌≡◌, ℕ, List, length};
ghost use Rattle.sv_check.specs.Chain.{chained};
ghost use Rattle.sv_check.specs.InodeList.{used_inodes};
ghost use Rattle.sv_check.specs.Sound.{IsMountedFrom};

use sv_form::{Mounted, Place};

/// How many free blocks a sound image has: the numbers that its chain of free blocks meets. It reads no block.
pub fn free_count(mounted: &Mounted) -> u32
    requires { (image : List ℕ) × IsMountedFrom image mounted.now }
    ensures { (image : List ℕ) → IsMountedFrom image mounted.now → result ≡ length (chained mounted.now.geometry image) }
{
    let mut free = 0;
    for block in mounted.geometry.first_data..mounted.geometry.blocks {
        let owner = mounted.owners.owner(Place { block, line: 0 });
        free += u32::from(owner == 0);
    }
    free
}

/// How many inodes of a sound image are used.
pub fn used_count(mounted: &Mounted) -> u32
    requires { (image : List ℕ) × IsMountedFrom image mounted.now }
    ensures { (image : List ℕ) → IsMountedFrom image mounted.now → result ≡ length (used_inodes mounted.now.geometry image) }
{
    let mut count = 0;
    for place in 0..mounted.used.len() {
        count += u32::from(mounted.used[place]);
    }
    count
}
