// The check of an image, condition by condition.
ghost use Rattle.std.specs.Prelude.{◌≡◌, ◌≤◌, ◌+◌, ⊤, ℕ, None, map, length, slice_index, IfOk, IfErr, OnOk};
ghost use Rattle.sv_dev.specs.Causes.{Rose};
ghost use Rattle.sv_form.specs.Geometry.{inode_count, line_count};
ghost use Rattle.sv_form.specs.Image.{geometry_of, inode_of, superblock_of};
ghost use Rattle.sv_form.specs.Superblock.{IsSuper};
ghost use Rattle.sv_check.specs.BlockOwners.{block_owner, line_owners};
ghost use Rattle.sv_check.specs.Chain.{chain_flaw, walked};
ghost use Rattle.sv_check.specs.Directories.{directories};
ghost use Rattle.sv_check.specs.Fault.{Says};
ghost use Rattle.sv_check.specs.InodeList.{is_directory, kind_flaw, link_counts, size_flaw, used_flags};
ghost use Rattle.sv_check.specs.Pages.{directory_in, kept_of};
ghost use Rattle.sv_check.specs.PastSize.{past_size_flaw, tail_flaw};
ghost use Rattle.sv_check.specs.Progress.{met_by};
ghost use Rattle.sv_check.specs.Sizes.{IsSized};
ghost use Rattle.sv_check.specs.Sound.{Flaw, IsChained, IsEntered, IsMountedFrom, IsRooted, IsSound, IsWalked};
ghost use Rattle.sv_check.specs.Standings.{HaveTold};
ghost use Rattle.sv_check.specs.Walk.{BadFlaw, first_bad, is_among, nothing_met, walk};

use crate::inodes::{InodeList, read_inode_list};
use crate::pages::Directory;
use crate::sound::chain::{MetBlocks, follow_chain};
use crate::sound::directories::first_disordered;
use crate::sound::dots::first_misplaced;
use crate::sound::inode_cache::first_uncacheable;
use crate::sound::line_owners::line_owners;
use crate::sound::links::first_mislinked;
use crate::sound::met::Met;
use crate::sound::standings::Standings;
use crate::sound::whole_walk::{BlockWalk, walk_blocks};
use crate::walk::new_block;
use crate::{CheckFault, Condition, read_sizes};
use std::alloc::Global;
use sv_dev::Disk;
use sv_form::{Geometry, Mounted, Owners, Super};

/// Decides the sixteen conditions of a sound image: the sizes, each inode, the walk over their blocks, the chain of free
/// blocks, that no data block is lost, the cache of free inodes, that the root is a directory, the entries of each
/// directory, its `.` and `..`, and the links of each inode. Where they hold, it gives the sizes, the superblock, whose each
/// line is, and which inodes are used. It reads each block of the inode list twice, each indirect block, each last page
/// and each link block once, each page of a directory once more, and no other block but the superblock's.
pub fn check<D: Disk>(alloc: Global, disk: &mut D) -> Result<Mounted, CheckFault>
    ensures mounted { IfOk result (IsMountedFrom (D.content disk.old)) }
    ensures err { IfErr result (Says (Flaw (D.content disk.old)) (Rose (D.faults disk.old) (D.faults disk.new)) ⊤) }
    ensures content { D.content disk.new ≡ D.content disk.old }
    ensures faults { D.faults disk.old ≤ D.faults disk.new }
{
    let head = read_sizes(disk)?;
    let sizes = head.geometry();
    let mut block = new_block(alloc, &sizes)?;
    let shown = check_sized(alloc, disk, &sizes, &head, &mut block)?;
    Ok(Mounted {
        geometry: sizes,
        head,
        owners: Owners::from_vec(sizes, shown.owners),
        used: shown.used,
    })
}

// What a sound image shows: the owner of each line, and which inodes are used.
#[derive(Drop)]
struct Shown {
    owners: Vec<u16>,
    used: Vec<bool>,
}

// The conditions 4 to 16, where the first three hold. The slice has a block's length.
fn check_sized<D: Disk>(
    alloc: Global,
    disk: &mut D,
    sizes: &Geometry,
    head: &Super,
    block: &mut [u8],
) -> Result<Shown, CheckFault>
    requires sized { IsSized (D.content disk.old) }
    requires sizes { sizes.now ≡ geometry_of (D.content disk.old) }
    requires head { IsSuper (superblock_of (D.content disk.old)) head.now }
    requires block { length block.old ≡ sizes.now.block_size }
    ensures sound { IfOk result (λ s. IsSound (D.content disk.old)) }
    ensures lines { IfOk result (λ s. length s.owners.items ≡ line_count sizes.now) }
    ensures owners { IfOk result (λ s. s.owners.items ≡ line_owners sizes.now (D.content disk.old)) }
    ensures used { IfOk result (λ s. s.used.items ≡ used_flags sizes.now (D.content disk.old)) }
    ensures first { IfOk result (λ s. first_bad sizes.now nothing_met (walk sizes.now (D.content disk.old)) ≡ None) }
    ensures err { IfErr result (Says (Flaw (D.content disk.old)) (Rose (D.faults disk.old) (D.faults disk.new)) ⊤) }
    ensures content { D.content disk.new ≡ D.content disk.old }
    ensures faults { D.faults disk.old ≤ D.faults disk.new }
{
    let list = check_inodes(alloc, disk, sizes, block)?;
    let walk = check_blocks(alloc, disk, sizes, block)?;
    check_walked(alloc, disk, sizes, head, &list, &walk, block)?;
    let owners = line_owners(alloc, sizes, &list.used, &walk.walk.owner)?;
    Ok(Shown {
        owners,
        used: list.used,
    })
}

// The conditions 10 to 16, where those before hold, from what the inode list and the walk show. The slice has a block's
// length.
fn check_walked<D: Disk>(
    alloc: Global,
    disk: &mut D,
    sizes: &Geometry,
    head: &Super,
    list: &InodeList,
    walk: &BlockWalk,
    block: &mut [u8],
) -> Result<(), CheckFault>
    requires walked { IsWalked (D.content disk.old) }
    requires sizes { sizes.now ≡ geometry_of (D.content disk.old) }
    requires head { IsSuper (superblock_of (D.content disk.old)) head.now }
    requires used { list.now.used.items ≡ used_flags sizes.now (D.content disk.old) }
    requires links { list.now.links.items ≡ link_counts sizes.now (D.content disk.old) }
    requires root { list.now.root ≡ is_directory (inode_of sizes.now (D.content disk.old) 2) }
    requires kept { map kept_of walk.now.directories.items
        ≡ map (directory_in sizes.now (D.content disk.old)) (directories sizes.now (D.content disk.old)) }
    requires blocks { length walk.now.walk.owner.items ≡ sizes.now.blocks }
    requires owners { (b : ℕ) → met_by (slice_index walk.now.walk.owner.items) b ≡ is_among (walked sizes.now (D.content disk.old)) b }
    requires block { length block.old ≡ sizes.now.block_size }
    ensures sound { OnOk result (IsSound (D.content disk.old)) }
    ensures err { IfErr result (Says (Flaw (D.content disk.old)) (Rose (D.faults disk.old) (D.faults disk.new)) ⊤) }
    ensures content { D.content disk.new ≡ D.content disk.old }
    ensures faults { D.faults disk.old ≤ D.faults disk.new }
{
    check_free(alloc, disk, sizes, head, list, &walk.walk.owner)?;
    check_names(alloc, disk, sizes, list, &walk.directories, block)
}

// The conditions 4 and 5, where the first three hold: what the inode list shows. The slice has a block's length.
fn check_inodes<D: Disk>(
    alloc: Global,
    disk: &mut D,
    sizes: &Geometry,
    block: &mut [u8],
) -> Result<InodeList, CheckFault>
    requires sized { IsSized (D.content disk.old) }
    requires sizes { sizes.now ≡ geometry_of (D.content disk.old) }
    requires block { length block.old ≡ sizes.now.block_size }
    ensures used { IfOk result (λ l. l.used.items ≡ used_flags sizes.now (D.content disk.old)) }
    ensures links { IfOk result (λ l. l.links.items ≡ link_counts sizes.now (D.content disk.old)) }
    ensures root { IfOk result (λ l. l.root ≡ is_directory (inode_of sizes.now (D.content disk.old) 2)) }
    ensures kind { IfOk result (λ l. kind_flaw (geometry_of (D.content disk.old)) (D.content disk.old) ≡ None) }
    ensures size { IfOk result (λ l. size_flaw (geometry_of (D.content disk.old)) (D.content disk.old) ≡ None) }
    ensures err { IfErr result (Says (Flaw (D.content disk.old)) (Rose (D.faults disk.old) (D.faults disk.new)) ⊤) }
    ensures content { D.content disk.new ≡ D.content disk.old }
    ensures faults { D.faults disk.old ≤ D.faults disk.new }
{
    let list = read_inode_list(alloc, disk, sizes, block)?;
    if let Some(n) = list.kind {
        return Err(CheckFault::Refused {
            condition: Condition::Kind,
            place: u32::from(n),
        });
    }
    if let Some(n) = list.size {
        return Err(CheckFault::Refused {
            condition: Condition::Size,
            place: u32::from(n),
        });
    }
    Ok(list)
}

// The conditions 6 to 9, where those before hold: what the walk found. The slice has a block's length.
fn check_blocks<D: Disk>(
    alloc: Global,
    disk: &mut D,
    sizes: &Geometry,
    block: &mut [u8],
) -> Result<BlockWalk, CheckFault>
    requires sized { IsSized (D.content disk.old) }
    requires sizes { sizes.now ≡ geometry_of (D.content disk.old) }
    requires kind { kind_flaw (geometry_of (D.content disk.old)) (D.content disk.old) ≡ None }
    requires size { size_flaw (geometry_of (D.content disk.old)) (D.content disk.old) ≡ None }
    requires block { length block.old ≡ sizes.now.block_size }
    ensures walked { IfOk result (λ w. IsWalked (D.content disk.old)) }
    ensures kept { IfOk result (λ w. map kept_of w.directories.items
        ≡ map (directory_in sizes.now (D.content disk.old)) (directories sizes.now (D.content disk.old))) }
    ensures owners { IfOk result (λ w. length w.walk.owner.items ≡ sizes.now.blocks) }
    ensures met { IfOk result (λ w. (b : ℕ) → met_by (slice_index w.walk.owner.items) b
        ≡ is_among (walked sizes.now (D.content disk.old)) b) }
    ensures owner { IfOk result (λ w. (b : ℕ) → slice_index w.walk.owner.items b ≡ block_owner sizes.now (D.content disk.old) b) }
    ensures first { IfOk result (λ w. first_bad sizes.now nothing_met (walk sizes.now (D.content disk.old)) ≡ None) }
    ensures err { IfErr result (Says (Flaw (D.content disk.old)) (Rose (D.faults disk.old) (D.faults disk.new)) ⊤) }
    ensures content { D.content disk.new ≡ D.content disk.old }
    ensures faults { D.faults disk.old ≤ D.faults disk.new }
{
    let walk = walk_blocks(alloc, disk, sizes, block)?;
    if let Some(bad) = walk.bad {
        return Err(refused_at(sizes, bad));
    }
    if let Some(n) = walk.past {
        return Err(CheckFault::Refused {
            condition: Condition::PastSize,
            place: u32::from(n),
        });
    }
    if let Some(n) = walk.tail {
        return Err(CheckFault::Refused {
            condition: Condition::Tail,
            place: u32::from(n),
        });
    }
    Ok(walk)
}

// What a bad number of the walk refuses: out of range, or met before.
fn refused_at(sizes: &Geometry, bad: Met) -> CheckFault
    ensures { Says (BadFlaw sizes.now bad) ⊥ ⊥ result }
{
    if sizes.first_data <= bad.block && bad.block < sizes.blocks {
        return CheckFault::Refused {
            condition: Condition::Twice,
            place: bad.block,
        };
    }
    CheckFault::Refused {
        condition: Condition::Range,
        place: u32::from(bad.inode),
    }
}

// The conditions 10 and 11, where those before hold, from the owner of each block.
fn check_free_blocks<D: Disk>(
    alloc: Global,
    disk: &mut D,
    sizes: &Geometry,
    head: &Super,
    owners: &[u16],
) -> Result<(), CheckFault>
    requires walked { IsWalked (D.content disk.old) }
    requires sizes { sizes.now ≡ geometry_of (D.content disk.old) }
    requires head { IsSuper (superblock_of (D.content disk.old)) head.now }
    requires blocks { length owners.now ≡ sizes.now.blocks }
    requires owners { (b : ℕ) → met_by (slice_index owners.now) b ≡ is_among (walked sizes.now (D.content disk.old)) b }
    ensures chained { OnOk result (IsChained (D.content disk.old)) }
    ensures err { IfErr result (Says (Flaw (D.content disk.old)) (Rose (D.faults disk.old) (D.faults disk.new)) ⊤) }
    ensures content { D.content disk.new ≡ D.content disk.old }
    ensures faults { D.faults disk.old ≤ D.faults disk.new }
{
    let mut met = MetBlocks::from_owners(alloc, owners)?;
    let mut first = Vec::new(alloc);
    first.extend_from_slice(head.free.as_slice())?;
    let bad = follow_chain(alloc, disk, sizes, &mut met, first)?;
    if let Some(b) = bad {
        return Err(CheckFault::Refused {
            condition: Condition::FreeChain,
            place: b,
        });
    }
    if let Some(b) = met.first_lost(sizes) {
        return Err(CheckFault::Refused {
            condition: Condition::Lost,
            place: b,
        });
    }
    Ok(())
}

// The conditions 10 to 13, where those before hold, from what the inode list shows and the owner of each block.
fn check_free<D: Disk>(
    alloc: Global,
    disk: &mut D,
    sizes: &Geometry,
    head: &Super,
    list: &InodeList,
    owners: &[u16],
) -> Result<(), CheckFault>
    requires walked { IsWalked (D.content disk.old) }
    requires sizes { sizes.now ≡ geometry_of (D.content disk.old) }
    requires head { IsSuper (superblock_of (D.content disk.old)) head.now }
    requires used { list.now.used.items ≡ used_flags sizes.now (D.content disk.old) }
    requires root { list.now.root ≡ is_directory (inode_of sizes.now (D.content disk.old) 2) }
    requires blocks { length owners.now ≡ sizes.now.blocks }
    requires owners { (b : ℕ) → met_by (slice_index owners.now) b ≡ is_among (walked sizes.now (D.content disk.old)) b }
    ensures rooted { OnOk result (IsRooted (D.content disk.old)) }
    ensures err { IfErr result (Says (Flaw (D.content disk.old)) (Rose (D.faults disk.old) (D.faults disk.new)) ⊤) }
    ensures content { D.content disk.new ≡ D.content disk.old }
    ensures faults { D.faults disk.old ≤ D.faults disk.new }
{
    check_free_blocks(alloc, disk, sizes, head, owners)?;
    let bad = first_uncacheable(alloc, sizes, &list.used, head.inodes.as_slice())?;
    if let Some(n) = bad {
        return Err(CheckFault::Refused {
            condition: Condition::CachedInode,
            place: u32::from(n),
        });
    }
    if !list.root {
        return Err(CheckFault::Refused {
            condition: Condition::Root,
            place: 2,
        });
    }
    Ok(())
}

// The condition 14, where those before hold, from the directories that the walk kept; and what their entries say. The slice
// has a block's length.
fn check_entries<D: Disk>(
    alloc: Global,
    disk: &mut D,
    sizes: &Geometry,
    used: &[bool],
    kept: &[Directory],
    block: &mut [u8],
) -> Result<Standings, CheckFault>
    requires rooted { IsRooted (D.content disk.old) }
    requires sizes { sizes.now ≡ geometry_of (D.content disk.old) }
    requires used { used.now ≡ used_flags sizes.now (D.content disk.old) }
    requires kept { map kept_of kept.now ≡ map (directory_in sizes.now (D.content disk.old)) (directories sizes.now (D.content disk.old)) }
    requires block { length block.old ≡ sizes.now.block_size }
    ensures entered { IfOk result (λ s. IsEntered (D.content disk.old)) }
    ensures told { IfOk result (HaveTold sizes.now (D.content disk.old)) }
    ensures len { IfOk result (λ s. length s.of.items ≡ inode_count sizes.now + 1) }
    ensures err { IfErr result (Says (Flaw (D.content disk.old)) (Rose (D.faults disk.old) (D.faults disk.new)) ⊤) }
    ensures content { D.content disk.new ≡ D.content disk.old }
    ensures faults { D.faults disk.old ≤ D.faults disk.new }
{
    let mut standings = Standings::new(alloc, sizes)?;
    let bad = first_disordered(alloc, disk, sizes, used, kept, &mut standings, block)?;
    if let Some(n) = bad {
        return Err(CheckFault::Refused {
            condition: Condition::Entry,
            place: u32::from(n),
        });
    }
    Ok(standings)
}

// The conditions 14 to 16, where those before hold, from the directories that the walk kept and the links of each inode. The
// slice has a block's length.
fn check_names<D: Disk>(
    alloc: Global,
    disk: &mut D,
    sizes: &Geometry,
    list: &InodeList,
    kept: &[Directory],
    block: &mut [u8],
) -> Result<(), CheckFault>
    requires rooted { IsRooted (D.content disk.old) }
    requires sizes { sizes.now ≡ geometry_of (D.content disk.old) }
    requires used { list.now.used.items ≡ used_flags sizes.now (D.content disk.old) }
    requires links { list.now.links.items ≡ link_counts sizes.now (D.content disk.old) }
    requires kept { map kept_of kept.now ≡ map (directory_in sizes.now (D.content disk.old)) (directories sizes.now (D.content disk.old)) }
    requires block { length block.old ≡ sizes.now.block_size }
    ensures sound { OnOk result (IsSound (D.content disk.old)) }
    ensures err { IfErr result (Says (Flaw (D.content disk.old)) (Rose (D.faults disk.old) (D.faults disk.new)) ⊤) }
    ensures content { D.content disk.new ≡ D.content disk.old }
    ensures faults { D.faults disk.old ≤ D.faults disk.new }
{
    let standings = check_entries(alloc, disk, sizes, &list.used, kept, block)?;
    let bad = first_misplaced(alloc, sizes, kept, &standings)?;
    if let Some(n) = bad {
        return Err(CheckFault::Refused {
            condition: Condition::Dots,
            place: u32::from(n),
        });
    }
    if let Some(n) = first_mislinked(sizes, list, &standings) {
        return Err(CheckFault::Refused {
            condition: Condition::Links,
            place: n,
        });
    }
    Ok(())
}
