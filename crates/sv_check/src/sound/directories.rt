// The entries of all directories: condition 14 of a sound image, and what they say of each inode.
ghost use Rattle.std.specs.Prelude.{◌≡◌, ◌≤◌, ◌+◌, ◌-◌, ◌*◌, ◌/◌, ⊤, ℕ, List, [], None, map, min, length, All, IfOk, IfErr};
ghost use Rattle.std.specs.Bool.{OnTrue};
ghost use Rattle.sv_dev.specs.Causes.{Rose};
ghost use Rattle.sv_form.specs.Geometry.{IsGeometry, inode_count};
ghost use Rattle.sv_check.specs.Directories.{directories, entry_flaw};
ghost use Rattle.sv_check.specs.Fault.{Says};
ghost use Rattle.sv_check.specs.InodeList.{used_flags};
ghost use Rattle.sv_check.specs.Pages.{IsReady, is_in_order};
ghost use Rattle.sv_check.specs.SeenNames.{HasSeen};
ghost use Rattle.sv_check.specs.Standings.{after, standing_of, told, told_in};

use crate::pages::{Directory, block_of_page};
use crate::sound::entries::SeenNames;
use crate::sound::standings::Standings;
use crate::{CheckFault, read_block};
use std::alloc::Global;
use sv_dev::Disk;
use sv_form::{ENTRY_SIZE, Geometry};

/// The first directory that has a page too few, or an entry that is not in order; where there is none, the entries of
/// all directories were taken into the standings. The slice has a block's length. It reads each page of a directory once
/// at most.
pub(crate) fn first_disordered<D: Disk>(
    alloc: Global,
    disk: &mut D,
    sizes: &Geometry,
    used: &[bool],
    kept: &[Directory],
    standings: &mut Standings,
    block: &mut [u8],
) -> Result<Option<u16>, CheckFault>
    requires sizes { IsGeometry sizes.now }
    requires length { length (D.content disk.old) ≡ sizes.now.blocks * sizes.now.block_size }
    requires used { used.now ≡ used_flags sizes.now (D.content disk.old) }
    requires numbers { map (λ d. d.inode) kept.now ≡ directories sizes.now (D.content disk.old) }
    requires ready { All (IsReady sizes.now (D.content disk.old)) kept.now }
    requires standings { length standings.old.of.items ≡ inode_count sizes.now + 1 }
    requires block { length block.old ≡ sizes.now.block_size }
    ensures first { IfOk result (λ r. r ≡ entry_flaw sizes.now (D.content disk.old)) }
    ensures told { IfOk result (λ r. r ≡ None → standing_of standings.new
        ≡ after (standing_of standings.old) (told sizes.now (D.content disk.old))) }
    ensures len { IfOk result (λ r. length standings.new.of.items ≡ length standings.old.of.items) }
    ensures err { IfErr result (Says (λ _ _. ⊥) (Rose (D.faults disk.old) (D.faults disk.new)) ⊤) }
    ensures content { D.content disk.new ≡ D.content disk.old }
    ensures faults { D.faults disk.old ≤ D.faults disk.new }
{
    for directory in kept {
        let mut names = SeenNames::new(alloc);
        if !is_in_order(disk, sizes, used, directory, &mut names, standings, block)? {
            return Ok(Some(directory.inode));
        }
    }
    Ok(None)
}

// Whether each page of a directory below its size is present, and its entries are in order; then they were taken into the
// standings. No name was seen yet.
fn is_in_order<D: Disk>(
    disk: &mut D,
    sizes: &Geometry,
    used: &[bool],
    directory: &Directory,
    names: &mut SeenNames,
    standings: &mut Standings,
    block: &mut [u8],
) -> Result<bool, CheckFault>
    requires sizes { IsGeometry sizes.now }
    requires length { length (D.content disk.old) ≡ sizes.now.blocks * sizes.now.block_size }
    requires used { used.now ≡ used_flags sizes.now (D.content disk.old) }
    requires ready { IsReady sizes.now (D.content disk.old) directory.now }
    requires names { HasSeen names.old [] }
    requires standings { length standings.old.of.items ≡ inode_count sizes.now + 1 }
    requires number { directory.now.inode ≤ inode_count sizes.now }
    requires block { length block.old ≡ sizes.now.block_size }
    ensures order { IfOk result (λ ok. ok ≡ is_in_order sizes.now (D.content disk.old) directory.now.inode) }
    ensures told { IfOk result (λ ok. OnTrue ok (standing_of standings.new
        ≡ after (standing_of standings.old) (told_in sizes.now (D.content disk.old) directory.now.inode))) }
    ensures len { IfOk result (λ ok. length standings.new.of.items ≡ length standings.old.of.items) }
    ensures err { IfErr result (Says (λ _ _. ⊥) (Rose (D.faults disk.old) (D.faults disk.new)) ⊤) }
    ensures content { D.content disk.new ≡ D.content disk.old }
    ensures faults { D.faults disk.old ≤ D.faults disk.new }
    ensures size { length block.new ≡ sizes.now.block_size }
{
    for k in 0..page_count(sizes, directory.size) {
        let Some(b) = block_of_page(&directory.pages, k) else {
            return Ok(false);
        };
        read_block(disk, sizes, b, block)?;
        let end = bytes_in_page(sizes, directory.size, k);
        if !names.take_entries(used, &block[..end])? {
            return Ok(false);
        }
        standings.tell_entries(directory.inode, first_entry(sizes, k), &block[..end]);
    }
    Ok(true)
}

// How many pages begin below a size.
fn page_count(sizes: &Geometry, size: u32) -> u32
    requires { IsGeometry sizes.now }
    ensures { result ≡ (size + (sizes.now.block_size - 1)) / sizes.now.block_size }
{
    let block = u64::from(sizes.block_size);
    ((u64::from(size) + (block - 1)) / block) as u32
}

// The place in its directory of the first entry of page k.
fn first_entry(sizes: &Geometry, k: u32) -> u64
    requires { IsGeometry sizes.now }
    ensures { result ≡ k * (sizes.now.block_size / 16) }
{
    u64::from(k) * (u64::from(sizes.block_size) / ENTRY_SIZE as u64)
}

// How many bytes of page k lie below a size.
fn bytes_in_page(sizes: &Geometry, size: u32, k: u32) -> usize
    ensures { result ≡ min (size - k * sizes.now.block_size) sizes.now.block_size }
{
    let block = u64::from(sizes.block_size);
    let start = u64::from(k) * block;
    u64::from(size).saturating_sub(start).min(block) as usize
}
