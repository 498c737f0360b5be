// Conditions 4 and 5 of a sound image: one pass over the inode list.
ghost use Rattle.std.specs.Prelude.{◌≡◌, ◌≢◌, ◌≤◌, ◌*◌, ◌-◌, ◌++◌, ◌∷◌, ◌==◌, ◌%◌, ◌&&◌, ◌||◌, [], ⊤, ℕ, List, None, true, not, nat_lt};
ghost use Rattle.std.specs.Prelude.{length, if◌then◌else◌, IfOk, IfErr, OnOk};
ghost use Rattle.std.specs.Option.{option_or};
ghost use Rattle.sv_dev.specs.Causes.{HasCause, Rose};
ghost use Rattle.sv_form.specs.Geometry.{IsGeometry, IsNumber, inode_place};
ghost use Rattle.sv_form.specs.Image.{block_of, inode_of};
ghost use Rattle.sv_form.specs.Node.{is_dir};
ghost use Rattle.sv_form.specs.PagePath.{greatest_size};
ghost use Rattle.sv_plain.specs.Front.{size_of};
ghost use Rattle.sv_check.specs.Blocks.{IsInodeRead};
ghost use Rattle.sv_check.specs.Fault.{Says};
ghost use Rattle.sv_check.specs.InodeList.{is_directory, is_free, is_misread, is_missized, kind_flaw, link_counts, links_of, reads_inode};
ghost use Rattle.sv_check.specs.InodeList.{size_flaw, used_flags};

use crate::{CheckFault, read_block};
use std::alloc::Global;
use sv_dev::{Disk, Failed};
use sv_form::{DiskInode, Geometry, InodeBody, Kind, NoMemory, number16};

/// The inode of the root.
pub(crate) const ROOT: u16 = 2;

/// What the inode list shows: whether each inode is used, the first inode that fails the condition Kind, and where there
/// is none, the first that fails the condition Size, and whether inode 2, the root, is a directory; and the links of each.
#[derive(Drop)]
pub(crate) struct InodeList {
    pub(crate) used: Vec<bool>,
    pub(crate) kind: Option<u16>,
    pub(crate) size: Option<u16>,
    pub(crate) root: bool,
    pub(crate) links: Vec<u16>,
}

/// Looks at each inode once, and reads each block of the inode list once, into a slice of a block's length.
pub(crate) fn read_inode_list<D: Disk>(
    alloc: Global,
    disk: &mut D,
    sizes: &Geometry,
    block: &mut [u8],
) -> Result<InodeList, CheckFault>
    requires sizes { IsGeometry sizes.now }
    requires length { length (D.content disk.old) ≡ sizes.now.blocks * sizes.now.block_size }
    requires block { length block.old ≡ sizes.now.block_size }
    ensures used { IfOk result (λ l. l.used.items ≡ used_flags sizes.now (D.content disk.old)) }
    ensures links { IfOk result (λ l. l.links.items ≡ link_counts sizes.now (D.content disk.old)) }
    ensures kind { IfOk result (λ l. l.kind ≡ kind_flaw sizes.now (D.content disk.old)) }
    ensures size { IfOk result (λ l. l.kind ≡ None → l.size ≡ size_flaw sizes.now (D.content disk.old)) }
    ensures root { IfOk result (λ l. l.kind ≡ None → l.root ≡ is_directory (inode_of sizes.now (D.content disk.old) 2)) }
    ensures err { IfErr result (Says (λ _ _. ⊥) (Rose (D.faults disk.old) (D.faults disk.new)) ⊤) }
    ensures content { D.content disk.new ≡ D.content disk.old }
    ensures faults { D.faults disk.old ≤ D.faults disk.new }
{
    let mut list = InodeList {
        used: Vec::new(alloc),
        kind: None,
        size: None,
        root: false,
        links: Vec::new(alloc),
    };
    for before in 0..sizes.inode_count() {
        let n = (before + 1) as u16;
        turn_to_inode(disk, sizes, n, block)?;
        let at = 64 * usize::from(sizes.inode_place(n).line);
        list.add(sizes, n, &block[at..at + 64])?;
    }
    Ok(list)
}

/// Reads the block of inode n into the slice, which has the block of the inode before it.
pub(crate) fn turn_to_inode<D: Disk>(
    disk: &mut D,
    sizes: &Geometry,
    n: u16,
    block: &mut [u8],
) -> Result<(), Failed>
    requires sizes { IsGeometry sizes.now }
    requires length { length (D.content disk.old) ≡ sizes.now.blocks * sizes.now.block_size }
    requires number { IsNumber sizes.now n }
    requires size { length block.old ≡ sizes.now.block_size }
    requires before { n ≢ 1 → block.old ≡ block_of sizes.now (D.content disk.old) (inode_place sizes.now (n - 1)).block }
    ensures block { OnOk result (block.new ≡ block_of sizes.now (D.content disk.old) (inode_place sizes.now n).block) }
    ensures content { D.content disk.new ≡ D.content disk.old }
    ensures cause { HasCause (D.faults disk.old) (D.faults disk.new) result }
{
    let place = sizes.inode_place(n);
    if place.line != 0 {
        return Ok(());
    }
    read_block(disk, sizes, place.block, block)
}

impl InodeList {
    // Adds what the 64 bytes of inode n show.
    fn add(&mut self, sizes: &Geometry, n: u16, inode: &[u8]) -> Result<(), NoMemory>
        requires sizes { IsGeometry sizes.now }
        requires inode { length inode.now ≡ 64 }
        ensures used { OnOk result (self.new.used.items ≡ self.old.used.items ++ not (is_free inode.now) ∷ []) }
        ensures links { OnOk result (self.new.links.items ≡ self.old.links.items ++ links_of inode.now ∷ []) }
        ensures kind { OnOk result (self.new.kind ≡ option_or self.old.kind (if is_misread n inode.now then Some n else None)) }
        ensures size { OnOk result (reads_inode inode.now ≡ true
            → self.new.size ≡ option_or self.old.size (if is_missized sizes.now inode.now then Some n else None)) }
        ensures root { OnOk result (reads_inode inode.now ≡ true
            → self.new.root ≡ (if n == 2 then is_directory inode.now else self.old.root)) }
    {
        let read = read_line(inode);
        self.used.push(is_used(&read))?;
        self.links.push(number16(inode, 2))?;
        self.kind = self.kind.or(is_misread(n, &read).then_some(n));
        self.size = self.size.or(is_missized(sizes, &read).then_some(n));
        self.root = is_root_directory(self.root, n, &read);
        Ok(())
    }
}

/// The inode that a line's bytes spell.
pub(crate) fn read_line(inode: &[u8]) -> Option<DiskInode>
    requires { length inode.now ≡ 64 }
    ensures { IsInodeRead inode.now result }
{
    DiskInode::read(inode)
}

// Whether the bytes of which this was read are those of no free inode.
fn is_used(read: &Option<DiskInode>) -> bool
    ensures { (bytes : List ℕ) → IsInodeRead bytes read.now → result ≡ not (is_free bytes) }
{
    match read {
        None => true,
        Some(DiskInode::Free) => false,
        Some(DiskInode::Used(_)) => true,
    }
}

// Whether inode n, of whose bytes this was read, is the first and not free, or they spell no inode.
fn is_misread(n: u16, read: &Option<DiskInode>) -> bool
    ensures { (bytes : List ℕ) → IsInodeRead bytes read.now → result ≡ is_misread n bytes }
{
    match read {
        None => true,
        Some(DiskInode::Free) => false,
        Some(DiskInode::Used(_)) => n == 1,
    }
}

// Whether the size is too great, or is not one that a directory may have.
fn is_missized(sizes: &Geometry, read: &Option<DiskInode>) -> bool
    requires sizes { IsGeometry sizes.now }
    ensures { (bytes : List ℕ) → IsInodeRead bytes read.now → reads_inode bytes ≡ true → result ≡ is_missized sizes.now bytes }
{
    match read {
        None => false,
        Some(DiskInode::Free) => false,
        Some(DiskInode::Used(body)) => has_wrong_size(sizes, body),
    }
}

fn has_wrong_size(sizes: &Geometry, body: &InodeBody) -> bool
    requires sizes { IsGeometry sizes.now }
    ensures { result ≡ (nat_lt (greatest_size sizes.now) body.now.size
        || (is_dir body.now.kind && (nat_lt body.now.size 32 || not (body.now.size % 16 == 0)))) }
{
    let size = body.size;
    sizes.greatest_size() < size || (is_dir(body.kind) && (size < 32 || size % 16 != 0))
}

// Whether the root is a directory, from what was read of the bytes of inode n, and from what the inodes before it showed.
fn is_root_directory(before: bool, n: u16, read: &Option<DiskInode>) -> bool
    ensures { (bytes : List ℕ) → IsInodeRead bytes read.now → reads_inode bytes ≡ true
        → result ≡ (if n == 2 then is_directory bytes else before) }
{
    if n != ROOT {
        return before;
    }
    is_directory(read)
}

fn is_directory(read: &Option<DiskInode>) -> bool
    ensures { (bytes : List ℕ) → IsInodeRead bytes read.now → reads_inode bytes ≡ true → result ≡ is_directory bytes }
{
    match read {
        None => false,
        Some(DiskInode::Free) => false,
        Some(DiskInode::Used(body)) => is_dir(body.kind),
    }
}

/// The size of a directory, from what was read of its bytes; None where they are those of another inode.
pub(crate) fn directory_size(read: &Option<DiskInode>) -> Option<u32>
    ensures { (bytes : List ℕ) → IsInodeRead bytes read.now → reads_inode bytes ≡ true
        → result ≡ (if is_directory bytes then Some (size_of bytes) else None) }
{
    match read {
        None => None,
        Some(DiskInode::Free) => None,
        Some(DiskInode::Used(body)) => is_dir(body.kind).then_some(body.size),
    }
}

fn is_dir(kind: Kind) -> bool
    ensures { result ≡ is_dir kind }
{
    match kind {
        Kind::File => false,
        Kind::Dir => true,
    }
}

/// Whether all of these bytes are 0, as those of a free inode are.
pub(crate) fn is_free(inode: &[u8]) -> bool
    ensures { result ≡ is_free inode.now }
{
    inode.iter().all(|byte| *byte == 0)
}
