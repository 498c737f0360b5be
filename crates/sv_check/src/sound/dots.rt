// The entries `.` and `..` of directories: condition 15 of a sound image.
ghost use Rattle.std.specs.Prelude.{◌≡◌, ◌≤◌, ◌<◌, ◌+◌, ◌==◌, ◌&&◌, ℕ, List, None, find, map, not, length, slice_index, IfOk};
ghost use Rattle.sv_form.specs.Geometry.{IsGeometry, inode_count};
ghost use Rattle.sv_check.specs.Climbs.{climbed, is_well_placed, step_up};
ghost use Rattle.sv_check.specs.Directories.{directories, dots_flaw, entry_flaw};
ghost use Rattle.sv_check.specs.Standings.{HaveTold, standing_of};

use crate::inodes::ROOT;
use crate::pages::Directory;
use crate::sound::standings::Standings;
use std::alloc::Global;
use sv_form::{Geometry, NoMemory};

/// The first directory whose `.` and `..` are not in order, where the entries of all are. Its time grows with the inodes,
/// however deep the directories stand in one another.
pub(crate) fn first_misplaced(
    alloc: Global,
    sizes: &Geometry,
    kept: &[Directory],
    standings: &Standings,
) -> Result<Option<u16>, NoMemory>
    requires sizes { IsGeometry sizes.now }
    requires standings { length standings.now.of.items ≡ inode_count sizes.now + 1 }
    requires nowhere { (standing_of standings.now 0).above ≡ 0 }
    ensures { IfOk result (λ r. (image : List ℕ) → map (λ d. d.inode) kept.now ≡ directories sizes.now image
        → HaveTold sizes.now image standings.now
        → entry_flaw sizes.now image ≡ None → r ≡ dots_flaw sizes.now image) }
{
    let up = steps_up(alloc, standings)?;
    let ends = climb(alloc, &up, sizes.inode_count())?;
    Ok(first_astray(kept, standings, &ends))
}

// The first directory that is not well placed, or from which the way does not end at the root.
fn first_astray(kept: &[Directory], standings: &Standings, ends: &[u16]) -> Option<u16>
    ensures { result ≡ find (λ n. not (is_well_placed n (standing_of standings.now n) && (slice_index ends.now n == 2)))
        (map (λ d. d.inode) kept.now) }
{
    for directory in kept {
        let n = directory.inode;
        if !(standings.is_well_placed(n) && at(ends, n) == ROOT) {
            return Some(n);
        }
    }
    None
}

// Where one step along `..` leads from each inode, by its number: from the root to itself, and to 0 where no `..` leads on.
fn steps_up(alloc: Global, standings: &Standings) -> Result<Vec<u16>, NoMemory>
    requires { 3 ≤ length standings.now.of.items }
    ensures up { IfOk result (λ up. slice_index up.items ≡ step_up (standing_of standings.now)) }
{
    let mut up = directories_above(alloc, standings)?;
    up[usize::from(ROOT)] = ROOT;
    Ok(up)
}

// The directory that the `..` of each inode names.
fn directories_above(alloc: Global, standings: &Standings) -> Result<Vec<u16>, NoMemory>
    ensures { IfOk result (λ up. up.items ≡ map (λ s. s.above) standings.now.of.items) }
{
    standings.of.iter().map(|s| s.above).collect(alloc)
}

// Where so many steps lead from each inode, of which one step leads there.
fn climb(alloc: Global, up: &[u16], steps: u32) -> Result<Vec<u16>, NoMemory>
    requires nowhere { slice_index up.now 0 ≡ 0 }
    requires steps { 1 ≤ steps }
    ensures { IfOk result (λ ends. slice_index ends.items ≡ climbed (slice_index up.now) steps) }
{
    if steps == 1 {
        return copy(alloc, up);
    }
    let two = follow(alloc, up, up)?;
    let even = climb(alloc, &two, steps / 2)?;
    if steps % 2 == 0 {
        return Ok(even);
    }
    follow(alloc, &even, up)
}

// Where the second steps lead from where the first do.
fn follow(alloc: Global, first: &[u16], second: &[u16]) -> Result<Vec<u16>, NoMemory>
    ensures { IfOk result (λ ends. ends.items ≡ map (λ n. slice_index second.now n) first.now) }
{
    first.iter().map(|n| at(second, *n)).collect(alloc)
}

fn copy(alloc: Global, up: &[u16]) -> Result<Vec<u16>, NoMemory>
    ensures { IfOk result (λ ends. ends.items ≡ up.now) }
{
    let mut ends = Vec::new(alloc);
    ends.extend_from_slice(up)?;
    Ok(ends)
}

// The number at that place, 0 past the end.
fn at(numbers: &[u16], n: u16) -> u16
    ensures { result ≡ slice_index numbers.now n }
{
    numbers.get(usize::from(n)).copied().unwrap_or(0)
}
