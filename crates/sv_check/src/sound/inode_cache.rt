// The cache of free inodes (Bach, chapter 4.6): condition 12 of a sound image.
ghost use Rattle.std.specs.Prelude.{◌≡◌, ◌≤◌, ◌+◌, ℕ, List, length, IfOk};
ghost use Rattle.std.specs.Bool.{OnTrue};
ghost use Rattle.sv_form.specs.Geometry.{IsGeometry, inode_count};
ghost use Rattle.sv_check.specs.ChainSteps.{met_in};
ghost use Rattle.sv_check.specs.InodeCache.{first_uncacheable, is_cacheable};
ghost use Rattle.sv_check.specs.InodeList.{used_flags};
ghost use Rattle.sv_check.specs.Walk.{nothing_met};

use std::alloc::Global;
use sv_form::{Geometry, NoMemory};

/// The first number of a cache of free inodes that may not stand there: it is under 2 or over the count, that of a used
/// inode, or there before. The flags say of each inode, from 1 on, whether it is used.
pub(crate) fn first_uncacheable(
    alloc: Global,
    sizes: &Geometry,
    used: &[bool],
    cache: &[u16],
) -> Result<Option<u16>, NoMemory>
    requires sizes { IsGeometry sizes.now }
    requires flags { length used.now ≡ inode_count sizes.now }
    ensures first { IfOk result (λ r. (image : List ℕ) → used.now ≡ used_flags sizes.now image
        → r ≡ first_uncacheable sizes.now image nothing_met cache.now) }
{
    let mut met = no_inodes(alloc, sizes)?;
    for n in cache {
        if !may_stand(sizes, used, &met, *n) {
            return Ok(Some(*n));
        }
        met[usize::from(*n)] = true;
    }
    Ok(None)
}

// A flag for each number of an inode, and for 0: none is met.
fn no_inodes(alloc: Global, sizes: &Geometry) -> Result<Vec<bool>, NoMemory>
    requires sizes { IsGeometry sizes.now }
    ensures met { IfOk result (λ m. met_in m.items ≡ nothing_met) }
    ensures len { IfOk result (λ m. length m.items ≡ inode_count sizes.now + 1) }
{
    vec![in alloc; false; sizes.inode_count() as usize + 1]
}

// Whether a number may stand in the cache after those that were met.
fn may_stand(sizes: &Geometry, used: &[bool], met: &[bool], n: u16) -> bool
    requires sizes { IsGeometry sizes.now }
    requires flags { length used.now ≡ inode_count sizes.now }
    requires met { length met.now ≡ inode_count sizes.now + 1 }
    ensures result { (image : List ℕ) → used.now ≡ used_flags sizes.now image → result ≡ is_cacheable sizes.now image (met_in met.now) n }
    ensures in_range { OnTrue result (n ≤ inode_count sizes.now) }
{
    if n < 2 {
        return false;
    }
    if sizes.inode_count() < u32::from(n) {
        return false;
    }
    if used[usize::from(n) - 1] {
        return false;
    }
    !met[usize::from(n)]
}
