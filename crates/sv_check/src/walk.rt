// The walk over the blocks that an inode reaches (Bach, chapter 4.2): conditions 6 to 9 of a sound image.
ghost use Rattle.std.specs.Prelude.{◌≡◌, ◌≢◌, ◌≤◌, ◌<◌, ◌+◌, ◌*◌, ◌^◌, ◌&&◌, ◌==◌, ◌||◌, ⊤, false, ◌∷◌, ◌++◌, [], ℕ, length, slice_set};
ghost use Rattle.std.specs.Prelude.{slice_index, nat_lt, nat_le, drop, IfOk, IfErr, OnOk};
ghost use Rattle.std.specs.Bool.{OnTrue, OnFalse};
ghost use Rattle.sv_dev.specs.Causes.{Rose};
ghost use Rattle.sv_form.specs.Geometry.{IsGeometry};
ghost use Rattle.sv_form.specs.Image.{block_of};
ghost use Rattle.sv_form.specs.PagePath.{block_numbers, slots};
ghost use Rattle.sv_check.specs.Fault.{Says};
ghost use Rattle.sv_check.specs.InodeList.{all_zero};
ghost use Rattle.sv_check.specs.PastSize.{has_tail};
ghost use Rattle.sv_check.specs.Progress.{Walks, met_by, progress_of};
ghost use Rattle.sv_plain.specs.Front.{size_of};
ghost use Rattle.sv_check.specs.Walk.{filled, first_page, height_of, is_data_block, is_new, reached, reached_under};

use crate::inodes::is_free;
use crate::pages::PageBlock;
use crate::{CheckFault, read_block};
use std::alloc::Global;
use sv_dev::Disk;
use sv_form::{ADDRESSES, DIRECT, Geometry, NoMemory, number24, number32};

/// Whose each block is as far as the walk has come, 0 for none. Then what the walk found of the present inode: whether
/// a block lies past its size or is an empty indirect block, whether its last page has a tail, and its pages; and the
/// number at which the walk stopped.
#[derive(Drop)]
pub(crate) struct Walk {
    pub(crate) owner: Vec<u16>,
    pub(crate) past: bool,
    pub(crate) tail: bool,
    pub(crate) pages: Vec<PageBlock>,
    pub(crate) bad: u32,
}

/// Memory for one block.
pub(crate) fn new_block(alloc: Global, sizes: &Geometry) -> Result<Vec<u8>, NoMemory>
    ensures { IfOk result (λ b. length b.items ≡ sizes.now.block_size) }
{
    vec![in alloc; 0; sizes.block_size as usize]
}

/// Reads one block into memory of its own.
pub(crate) fn block_in_memory<D: Disk>(
    alloc: Global,
    disk: &mut D,
    sizes: &Geometry,
    number: u32,
) -> Result<Vec<u8>, CheckFault>
    requires sizes { IsGeometry sizes.now }
    requires length { length (D.content disk.old) ≡ sizes.now.blocks * sizes.now.block_size }
    requires number { number < sizes.now.blocks }
    ensures bytes { IfOk result (λ b. b.items ≡ block_of sizes.now (D.content disk.old) number) }
    ensures size { IfOk result (λ b. length b.items ≡ sizes.now.block_size) }
    ensures err { IfErr result (Says (λ _ _. ⊥) (Rose (D.faults disk.old) (D.faults disk.new)) ⊤) }
    ensures content { D.content disk.new ≡ D.content disk.old }
    ensures faults { D.faults disk.old ≤ D.faults disk.new }
{
    let mut block = new_block(alloc, sizes)?;
    read_block(disk, sizes, number, &mut block)?;
    Ok(block)
}

impl Walk {
    // Takes a block for inode n, if it is a data block and nobody has it.
    fn take(&mut self, sizes: &Geometry, n: u16, b: u32) -> bool
        requires owners { length self.old.owner.items ≡ sizes.now.blocks }
        ensures result { result ≡ is_new sizes.now (met_by (slice_index self.old.owner.items)) b }
        ensures owner { OnTrue result (self.new.owner.items ≡ slice_set self.old.owner.items b n) }
        ensures in_range { OnTrue result (b < sizes.now.blocks) }
        ensures bad { OnFalse result (self.new.bad ≡ b) }
        ensures owners { length self.new.owner.items ≡ sizes.now.blocks }
        ensures past { self.new.past ≡ self.old.past }
        ensures tail { self.new.tail ≡ self.old.tail }
        ensures pages { self.new.pages ≡ self.old.pages }
    {
        let is_data = sizes.first_data <= b && b < sizes.blocks;
        if !is_data {
            self.bad = b;
            return false;
        }
        if self.owner[b as usize] != 0 {
            self.bad = b;
            return false;
        }
        self.owner[b as usize] = n;
        true
    }

    // Walks over a page of inode n; false where its number is bad.
    fn walk_page<D: Disk>(
        &mut self,
        alloc: Global,
        disk: &mut D,
        sizes: &Geometry,
        n: u16,
        size: u32,
        page: u32,
        b: u32,
    ) -> Result<bool, CheckFault>
        requires sizes { IsGeometry sizes.now }
        requires length { length (D.content disk.old) ≡ sizes.now.blocks * sizes.now.block_size }
        requires owners { length self.old.owner.items ≡ sizes.now.blocks }
        requires number { n ≢ 0 }
        ensures walks { IfOk result (λ ok. Walks sizes.now (D.content disk.old) n size (progress_of self.old)
            (record { height = 0; page = page; block = b } ∷ []) ok self.new.bad (progress_of self.new)) }
        ensures owners { length self.new.owner.items ≡ sizes.now.blocks }
        ensures err { IfErr result (Says (λ _ _. ⊥) (Rose (D.faults disk.old) (D.faults disk.new)) ⊤) }
        ensures content { D.content disk.new ≡ D.content disk.old }
        ensures faults { D.faults disk.old ≤ D.faults disk.new }
    {
        if !self.take(sizes, n, b) {
            return Ok(false);
        }
        let tail = has_tail(alloc, disk, sizes, size, page, b)?;
        let start = u64::from(page) * u64::from(sizes.block_size);
        self.note(u64::from(size) <= start, tail);
        self.add_page(page, b)?;
        Ok(true)
    }

    // Keeps a page of the present inode.
    fn add_page(&mut self, page: u32, block: u32) -> Result<(), NoMemory>
        ensures pages { OnOk result (self.new.pages.items ≡ self.old.pages.items ++ record { page = page; block = block } ∷ []) }
        ensures owner { self.new.owner ≡ self.old.owner }
        ensures past { self.new.past ≡ self.old.past }
        ensures tail { self.new.tail ≡ self.old.tail }
        ensures bad { self.new.bad ≡ self.old.bad }
    {
        self.pages.push(PageBlock { page, block })?;
        Ok(())
    }

    // Keeps what a block of the present inode shows.
    fn note(&mut self, past: bool, tail: bool)
        ensures past { self.new.past ≡ (self.old.past || past) }
        ensures tail { self.new.tail ≡ (self.old.tail || tail) }
        ensures owner { self.new.owner ≡ self.old.owner }
        ensures bad { self.new.bad ≡ self.old.bad }
        ensures pages { self.new.pages ≡ self.old.pages }
    {
        self.past = self.past || past;
        self.tail = self.tail || tail;
    }

    // Walks over a block of inode n at a height, and all below it; false where it stops at a bad number. The deepest
    // block lies three heights above its pages.
    fn walk_under<D: Disk>(
        &mut self,
        alloc: Global,
        disk: &mut D,
        sizes: &Geometry,
        n: u16,
        size: u32,
        height: u32,
        page: u32,
        b: u32,
    ) -> Result<bool, CheckFault>
        requires sizes { IsGeometry sizes.now }
        requires length { length (D.content disk.old) ≡ sizes.now.blocks * sizes.now.block_size }
        requires owners { length self.old.owner.items ≡ sizes.now.blocks }
        requires number { n ≢ 0 }
        requires height { height ≤ 3 }
        requires pages { page + block_numbers sizes.now ^ height ≤ 2 ^ 25 }
        ensures walks { IfOk result (λ ok. Walks sizes.now (D.content disk.old) n size (progress_of self.old)
            (reached_under sizes.now (D.content disk.old) height page b) ok self.new.bad (progress_of self.new)) }
        ensures owners { length self.new.owner.items ≡ sizes.now.blocks }
        ensures err { IfErr result (Says (λ _ _. ⊥) (Rose (D.faults disk.old) (D.faults disk.new)) ⊤) }
        ensures content { D.content disk.new ≡ D.content disk.old }
        ensures faults { D.faults disk.old ≤ D.faults disk.new }
    {
        if height == 0 {
            return self.walk_page(alloc, disk, sizes, n, size, page, b);
        }
        if !self.take(sizes, n, b) {
            return Ok(false);
        }
        let block = block_in_memory(alloc, disk, sizes, b)?;
        self.note(is_empty_indirect(sizes, &block), false);
        let span = span(sizes, height - 1);
        for k in 0..sizes.block_numbers() {
            let number = number32(&block, 4 * k as usize);
            if number == 0 {
                continue;
            }
            let first = page + k * span;
            if !self.walk_under(alloc, disk, sizes, n, size, height - 1, first, number)? {
                return Ok(false);
            }
        }
        Ok(true)
    }

    /// Walks over all blocks that inode n reaches, from the 64 bytes of the inode; false where it stops at a bad number.
    pub(crate) fn walk_inode<D: Disk>(
        &mut self,
        alloc: Global,
        disk: &mut D,
        sizes: &Geometry,
        n: u16,
        inode: &[u8],
    ) -> Result<bool, CheckFault>
        requires sizes { IsGeometry sizes.now }
        requires length { length (D.content disk.old) ≡ sizes.now.blocks * sizes.now.block_size }
        requires owners { length self.old.owner.items ≡ sizes.now.blocks }
        requires number { n ≢ 0 }
        requires inode { length inode.now ≡ 64 }
        ensures walks { IfOk result (λ ok. Walks sizes.now (D.content disk.old) n (size_of inode.now) (progress_of self.old)
            (reached sizes.now (D.content disk.old) inode.now) ok self.new.bad (progress_of self.new)) }
        ensures owners { length self.new.owner.items ≡ sizes.now.blocks }
        ensures err { IfErr result (Says (λ _ _. ⊥) (Rose (D.faults disk.old) (D.faults disk.new)) ⊤) }
        ensures content { D.content disk.new ≡ D.content disk.old }
        ensures faults { D.faults disk.old ≤ D.faults disk.new }
    {
        let size = number32(inode, 8);
        for k in 0..ADDRESSES {
            let address = number24(inode, 12 + 3 * k as usize);
            if address == 0 {
                continue;
            }
            let page = first_page(sizes, k);
            if !self.walk_under(alloc, disk, sizes, n, size, height_of(k), page, address)? {
                return Ok(false);
            }
        }
        Ok(true)
    }

    /// Forgets what the present inode showed.
    pub(crate) fn clear(&mut self)
        ensures past { self.new.past ≡ false }
        ensures tail { self.new.tail ≡ false }
        ensures pages { self.new.pages.items ≡ [] }
        ensures owner { self.new.owner ≡ self.old.owner }
        ensures bad { self.new.bad ≡ self.old.bad }
    {
        self.past = false;
        self.tail = false;
        self.pages.clear();
    }
}

/// The height of the block at address k.
pub(crate) fn height_of(k: u32) -> u32
    requires { k < slots }
    ensures height { result ≡ height_of k }
    ensures most { result ≤ 3 }
{
    (k + 1).saturating_sub(DIRECT)
}

/// The first page that address k leads to.
pub(crate) fn first_page(sizes: &Geometry, k: u32) -> u32
    requires sizes { IsGeometry sizes.now }
    requires address { k < slots }
    ensures page { result ≡ first_page sizes.now k }
    ensures pages { result + block_numbers sizes.now ^ height_of k ≤ 2 ^ 25 }
{
    let numbers = sizes.block_numbers();
    if k < DIRECT {
        return k;
    }
    if k == DIRECT {
        return DIRECT;
    }
    if k == DIRECT + 1 {
        return DIRECT + numbers;
    }
    DIRECT + numbers + numbers * numbers
}

// Whether an indirect block has no number.
fn is_empty_indirect(sizes: &Geometry, block: &[u8]) -> bool
    requires sizes { IsGeometry sizes.now }
    requires block { length block.now ≡ sizes.now.block_size }
    ensures { result ≡ (length (filled sizes.now block.now) == 0) }
{
    for k in 0..sizes.block_numbers() {
        if number32(block, 4 * k as usize) != 0 {
            return false;
        }
    }
    true
}

/// How many pages lie below a block at a height.
pub(crate) fn span(sizes: &Geometry, height: u32) -> u32
    requires sizes { IsGeometry sizes.now }
    requires height { height ≤ 3 }
    ensures span { result ≡ block_numbers sizes.now ^ height }
{
    let numbers = sizes.block_numbers();
    match height {
        0 => 1,
        1 => numbers,
        2 => numbers * numbers,
        _ => numbers * numbers * numbers,
    }
}

// Whether a page is the one with the last byte of a file of that size, and one of its bytes past the size is not 0.
fn has_tail<D: Disk>(
    alloc: Global,
    disk: &mut D,
    sizes: &Geometry,
    size: u32,
    page: u32,
    b: u32,
) -> Result<bool, CheckFault>
    requires sizes { IsGeometry sizes.now }
    requires length { length (D.content disk.old) ≡ sizes.now.blocks * sizes.now.block_size }
    requires number { b < sizes.now.blocks }
    ensures tail { IfOk result (λ t. t ≡ has_tail sizes.now (D.content disk.old) size (record { height = 0; page = page; block = b })) }
    ensures err { IfErr result (Says (λ _ _. ⊥) (Rose (D.faults disk.old) (D.faults disk.new)) ⊤) }
    ensures content { D.content disk.new ≡ D.content disk.old }
    ensures faults { D.faults disk.old ≤ D.faults disk.new }
{
    let start = u64::from(page) * u64::from(sizes.block_size);
    let size = u64::from(size);
    if start >= size {
        return Ok(false);
    }
    if size > start + u64::from(sizes.block_size) {
        return Ok(false);
    }
    let block = block_in_memory(alloc, disk, sizes, b)?;
    Ok(!is_free(&block[(size - start) as usize..]))
}
