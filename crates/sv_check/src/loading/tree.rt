// The tree of a sound image, read from a disk.
ghost use Rattle.std.specs.Prelude.{◌≡◌, ◌≢◌, ◌≤◌, ◌<◌, ◌+◌, ◌*◌, ◌^◌, ⊤, ℕ, None, false, true, length, IfOk, IfErr, OnOk, IfSome, IfNone};
ghost use Rattle.std.specs.Prelude.{IsSome};
ghost use Rattle.std.specs.FinMap as map;
ghost use Rattle.std.specs.List.{list_all};
ghost use Rattle.sv_dev.specs.Causes.{Rose};
ghost use Rattle.sv_form.specs.Geometry.{IsGeometry};
ghost use Rattle.sv_form.specs.Image.{block_of, geometry_of};
ghost use Rattle.sv_form.specs.PagePath.{block_numbers};
ghost use Rattle.sv_plain.specs.Fs.{empty_fs, page_of, with_page_of};
ghost use Rattle.sv_plain.specs.Whole.{IsWhole};
ghost use Rattle.sv_check.specs.InodeList.{is_free, reads_inode};
ghost use Rattle.sv_check.specs.Loaded.{HasHead, Tells, is_inside, loaded, with_all_reached, with_inode};
ghost use Rattle.sv_check.specs.Sound.{IsMountedFrom, IsWalked};
ghost use Rattle.sv_check.specs.Walk.{reached, reached_under};

use crate::inodes::{read_line, turn_to_inode};
use crate::read_block;
use crate::walk::{first_page, height_of, new_block, span};
use std::alloc::{AllocError, Global};
use sv_dev::{Disk, Failed};
use sv_form::{ADDRESSES, Bytes, DiskInode, Geometry, InodeBody, Mounted, number24, number32};
use sv_plain::Fs;

/// Why the tree of an image was not loaded.
#[derive(Clone, Copy, Debug, PartialEq, Eq)]
pub enum LoadFault {
    /// The disk failed.
    Fault,
    NoMemory,
}

impl From<AllocError> for LoadFault {
    ghost use Rattle.std.specs.Prelude.{◌≡◌};
    ghost use Rattle.sv_check.specs.declared.loading.tree.LoadFault.TheVariants.{NoMemory};

    ghost from_gives = { λ _ e. e ≡ NoMemory };

    fn from(_: AllocError) -> Self {
        LoadFault::NoMemory
    }
}

impl From<Failed> for LoadFault {
    ghost use Rattle.std.specs.Prelude.{◌≡◌};
    ghost use Rattle.sv_check.specs.declared.loading.tree.LoadFault.TheVariants.{Fault};

    ghost from_gives = { λ _ e. e ≡ Fault };

    fn from(_: Failed) -> Self {
        LoadFault::Fault
    }
}

/// The tree of a sound image as a file system of which no process has anything: its nodes are those of the used inodes, and
/// it is whole. The image is the one of which a check said so. It reads each block of the inode list once, and each page and each
/// indirect block once.
pub fn load<D: Disk>(alloc: Global, disk: &mut D, mounted: &Mounted) -> Result<Fs, LoadFault>
    requires { IsMountedFrom (D.content disk.old) mounted.now }
    ensures tree { IfOk result (λ fs. fs ≡ loaded (D.content disk.old)) }
    ensures whole { IfOk result (λ fs. IsWhole fs) }
    ensures err { IfErr result (Tells (Rose (D.faults disk.old) (D.faults disk.new)) ⊤) }
    ensures content { D.content disk.new ≡ D.content disk.old }
    ensures faults { D.faults disk.old ≤ D.faults disk.new }
{
    let mut fs = Fs::new(alloc, mounted.geometry)?;
    load_tree(alloc, disk, &mounted.geometry, &mut fs)?;
    Ok(fs)
}

// Puts in the node of each used inode, with memory for one block.
fn load_tree<D: Disk>(
    alloc: Global,
    disk: &mut D,
    sizes: &Geometry,
    fs: &mut Fs,
) -> Result<(), LoadFault>
    requires walked { IsWalked (D.content disk.old) }
    requires sizes { sizes.now ≡ geometry_of (D.content disk.old) }
    requires empty { fs.old ≡ empty_fs sizes.now }
    ensures tree { OnOk result (fs.new ≡ loaded (D.content disk.old)) }
    ensures err { IfErr result (Tells (Rose (D.faults disk.old) (D.faults disk.new)) ⊤) }
    ensures content { D.content disk.new ≡ D.content disk.old }
    ensures faults { D.faults disk.old ≤ D.faults disk.new }
{
    let mut block = new_block(alloc, sizes)?;
    load_nodes(alloc, disk, sizes, fs, &mut block)
}

/// Puts in the node of each used inode, ascending. The slice has a block's length.
fn load_nodes<D: Disk>(
    alloc: Global,
    disk: &mut D,
    sizes: &Geometry,
    fs: &mut Fs,
    block: &mut [u8],
) -> Result<(), LoadFault>
    requires walked { IsWalked (D.content disk.old) }
    requires sizes { sizes.now ≡ geometry_of (D.content disk.old) }
    requires empty { fs.old ≡ empty_fs sizes.now }
    requires block { length block.old ≡ sizes.now.block_size }
    ensures tree { OnOk result (fs.new ≡ loaded (D.content disk.old)) }
    ensures err { IfErr result (Tells (Rose (D.faults disk.old) (D.faults disk.new)) ⊤) }
    ensures content { D.content disk.new ≡ D.content disk.old }
    ensures faults { D.faults disk.old ≤ D.faults disk.new }
{
    for before in 0..sizes.inode_count() {
        let n = (before + 1) as u16;
        turn_to_inode(disk, sizes, n, block)?;
        let at = 64 * usize::from(sizes.inode_place(n).line);
        load_inode(alloc, disk, sizes, fs, n, &block[at..at + 64])?;
    }
    Ok(())
}

// Puts in inode n with all its pages, from its 64 bytes, if it is used.
fn load_inode<D: Disk>(
    alloc: Global,
    disk: &mut D,
    sizes: &Geometry,
    fs: &mut Fs,
    n: u16,
    inode: &[u8],
) -> Result<(), LoadFault>
    requires sizes { IsGeometry sizes.now }
    requires length { length (D.content disk.old) ≡ sizes.now.blocks * sizes.now.block_size }
    requires inode { length inode.now ≡ 64 }
    requires reads { reads_inode inode.now ≡ true }
    requires least { is_free inode.now ≡ false → 2 ≤ n }
    requires most { n ≤ fs.old.inodes }
    requires inside { is_free inode.now ≡ false → list_all (is_inside sizes.now) (reached sizes.now (D.content disk.old) inode.now) ≡ true }
    requires absent { map.get fs.old.nodes n ≡ None }
    requires block { fs.old.block ≡ sizes.now.block_size }
    ensures node { OnOk result (fs.new ≡ with_inode sizes.now (D.content disk.old) fs.old n inode.now) }
    ensures err { IfErr result (Tells (Rose (D.faults disk.old) (D.faults disk.new)) ⊤) }
    ensures content { D.content disk.new ≡ D.content disk.old }
    ensures faults { D.faults disk.old ≤ D.faults disk.new }
{
    let Some(body) = used_body(inode) else {
        return Ok(());
    };
    fs.add_node(alloc, n, body.kind, body.mode, body.links, body.size)?;
    load_pages(alloc, disk, sizes, fs, n, inode)
}

// The body of a used inode, from its 64 bytes; None where they are those of a free one.
fn used_body(inode: &[u8]) -> Option<InodeBody>
    requires inode { length inode.now ≡ 64 }
    ensures used { IfSome result (λ b. HasHead inode.now b) }
    ensures free { IfNone result (reads_inode inode.now ≡ true → is_free inode.now ≡ true) }
{
    match read_line(inode) {
        Some(DiskInode::Used(body)) => Some(body),
        _ => None,
    }
}

// Puts in all pages that node n, which has none, reaches by the addresses of its inode.
fn load_pages<D: Disk>(
    alloc: Global,
    disk: &mut D,
    sizes: &Geometry,
    fs: &mut Fs,
    n: u16,
    inode: &[u8],
) -> Result<(), LoadFault>
    requires sizes { IsGeometry sizes.now }
    requires length { length (D.content disk.old) ≡ sizes.now.blocks * sizes.now.block_size }
    requires inode { length inode.now ≡ 64 }
    requires inside { list_all (is_inside sizes.now) (reached sizes.now (D.content disk.old) inode.now) ≡ true }
    requires there { IsSome (map.get fs.old.nodes n) }
    requires absent { (page : ℕ) → page_of fs.old n page ≡ None }
    requires block { fs.old.block ≡ sizes.now.block_size }
    ensures pages { OnOk result (fs.new ≡ with_all_reached sizes.now (D.content disk.old) n fs.old
        (reached sizes.now (D.content disk.old) inode.now)) }
    ensures err { IfErr result (Tells (Rose (D.faults disk.old) (D.faults disk.new)) ⊤) }
    ensures content { D.content disk.new ≡ D.content disk.old }
    ensures faults { D.faults disk.old ≤ D.faults disk.new }
{
    for k in 0..ADDRESSES {
        let address = number24(inode, 12 + 3 * k as usize);
        if address == 0 {
            continue;
        }
        let page = first_page(sizes, k);
        load_under(alloc, disk, sizes, fs, n, height_of(k), page, address)?;
    }
    Ok(())
}

// Puts in all pages below a block at a height, which node n has not yet. The deepest block lies three heights above its
// pages.
fn load_under<D: Disk>(
    alloc: Global,
    disk: &mut D,
    sizes: &Geometry,
    fs: &mut Fs,
    n: u16,
    height: u32,
    page: u32,
    b: u32,
) -> Result<(), LoadFault>
    requires sizes { IsGeometry sizes.now }
    requires length { length (D.content disk.old) ≡ sizes.now.blocks * sizes.now.block_size }
    requires inside { list_all (is_inside sizes.now) (reached_under sizes.now (D.content disk.old) height page b) ≡ true }
    requires height { height ≤ 3 }
    requires pages { page + block_numbers sizes.now ^ height ≤ 2 ^ 25 }
    requires there { IsSome (map.get fs.old.nodes n) }
    requires absent { (k : ℕ) → page ≤ k → page_of fs.old n k ≡ None }
    requires block { fs.old.block ≡ sizes.now.block_size }
    ensures pages { OnOk result (fs.new ≡ with_all_reached sizes.now (D.content disk.old) n fs.old
        (reached_under sizes.now (D.content disk.old) height page b)) }
    ensures err { IfErr result (Tells (Rose (D.faults disk.old) (D.faults disk.new)) ⊤) }
    ensures content { D.content disk.new ≡ D.content disk.old }
    ensures faults { D.faults disk.old ≤ D.faults disk.new }
{
    let block = block_of_disk(alloc, disk, sizes, b)?;
    if height == 0 {
        fs.put_page(alloc, n, page, Bytes::from_vec(block))?;
        return Ok(());
    }
    let span = span(sizes, height - 1);
    for k in 0..sizes.block_numbers() {
        let number = number32(&block, 4 * k as usize);
        if number == 0 {
            continue;
        }
        let first = page + k * span;
        load_under(alloc, disk, sizes, fs, n, height - 1, first, number)?;
    }
    Ok(())
}

// Reads one block into memory of its own.
fn block_of_disk<D: Disk>(
    alloc: Global,
    disk: &mut D,
    sizes: &Geometry,
    number: u32,
) -> Result<Vec<u8>, LoadFault>
    requires sizes { IsGeometry sizes.now }
    requires length { length (D.content disk.old) ≡ sizes.now.blocks * sizes.now.block_size }
    requires number { number < sizes.now.blocks }
    ensures bytes { IfOk result (λ b. b.items ≡ block_of sizes.now (D.content disk.old) number) }
    ensures size { IfOk result (λ b. length b.items ≡ sizes.now.block_size) }
    ensures err { IfErr result (Tells (Rose (D.faults disk.old) (D.faults disk.new)) ⊤) }
    ensures content { D.content disk.new ≡ D.content disk.old }
    ensures faults { D.faults disk.old ≤ D.faults disk.new }
{
    let mut block = new_block(alloc, sizes)?;
    read_block(disk, sizes, number, &mut block)?;
    Ok(block)
}
