// Bytes that are put into a node, and the blocks that they take.
ghost use Rattle.std.specs.Prelude.{◌≡◌, ◌<◌, ◌≤◌, ◌+◌, ◌*◌, ◌==◌, ℕ, map, length, IfOk, OnOk, OnErr, IsSome, if◌then◌else◌};
ghost use Rattle.std.specs.List.{range_with_len};
ghost use Rattle.std.specs.FinMap as fmap;
ghost use Rattle.sv_form.specs.Node.{block_set, numbers_per};
ghost use Rattle.sv_form.specs.NodeChanges.{page_after, put};
ghost use Rattle.sv_plain.specs.Written.{present, all_present, with_pages_from, without_page, without_pages};

use crate::node::blocks::{missing_blocks, remove_blocks};
use crate::{NoMemory, Node, PairSet};
use std::alloc::Global;
use sv_form::Bytes;

impl Node {
    // The pages from `first` on once these bytes were put at `at`.
    fn pages_after(
        &self,
        alloc: Global,
        block: u32,
        at: u32,
        bytes: &[u8],
        first: u32,
        count: u32,
    ) -> Result<Vec<Bytes>, NoMemory>
        requires some { 0 < block }
        requires fits { (first + count) * block ≤ 4294967295 }
        ensures { IfOk result (λ v. v.items ≡ map (page_after block self.now at bytes.now) (range_with_len first count)) }
    {
        let mut after = Vec::new(alloc);
        for k in 0..count {
            after.push(self.page_after(alloc, block, at, bytes, first + k)?)?;
        }
        Ok(after)
    }

    // Makes a page present, with no bytes where it was absent, or changes nothing.
    fn make_page_present(
        &mut self,
        blocks: &mut PairSet,
        alloc: Global,
        per: u32,
        page: u32,
    ) -> Result<(), NoMemory>
        requires some { 0 < per }
        requires few { per < 1024 }
        requires mine { blocks.old ≡ block_set per (fmap.keys self.old.pages) }
        ensures put { OnOk result (self.new ≡ record self.old { pages = present self.old.pages page }) }
        ensures refused { OnErr result (self.new ≡ self.old) }
        ensures mine { blocks.new ≡ block_set per (fmap.keys self.new.pages) }
    {
        if self.page(page).is_some() {
            return Ok(());
        }
        self.add_page(blocks, per, page, Bytes::from_vec(Vec::new(alloc)))
    }

    // Takes a block out of the pages, where it is one: those have the height 0.
    fn remove_page(&mut self, height: u32, number: u32)
        ensures { self.new ≡ record self.old { pages = without_page self.old.pages (height, number) } }
    {
        if height != 0 {
            return;
        }
        self.pages.remove(number);
    }

    // Takes these blocks out of the pages.
    fn remove_pages(&mut self, gone: &[(u32, u32)])
        ensures { self.new ≡ record self.old { pages = without_pages self.old.pages gone.now } }
    {
        for block in gone {
            let (height, number) = *block;
            self.remove_page(height, number);
        }
    }

    // Makes `count` pages from `first` on present, or changes nothing.
    fn make_present(
        &mut self,
        blocks: &mut PairSet,
        alloc: Global,
        per: u32,
        first: u32,
        count: u32,
    ) -> Result<(), NoMemory>
        requires some { 0 < per }
        requires few { per < 1024 }
        requires fits { first + count ≤ 4294967295 }
        requires mine { blocks.old ≡ block_set per (fmap.keys self.old.pages) }
        ensures put { OnOk result (self.new ≡ record self.old { pages = all_present self.old.pages (range_with_len first count) }) }
        ensures refused { OnErr result (self.new ≡ self.old) }
        ensures mine { blocks.new ≡ block_set per (fmap.keys self.new.pages) }
    {
        let missing = missing_blocks(alloc, blocks, per, first, count)?;
        for k in 0..count {
            let Ok(()) = self.make_page_present(blocks, alloc, per, first + k) else {
                self.remove_pages(missing.as_slice());
                remove_blocks(blocks, missing.as_slice());
                return Err(NoMemory);
            };
        }
        Ok(())
    }

    // Puts these bytes into the pages from `first` on, which are there.
    fn replace_pages(&mut self, first: u32, mut pages: Vec<Bytes>)
        requires fits { first + length pages.items ≤ 4294967295 }
        requires there { (k : ℕ) → k < length pages.items → IsSome (fmap.get self.old.pages (first + k)) }
        ensures { self.new ≡ record self.old { pages = with_pages_from self.old.pages first pages.items } }
    {
        while let Some(bytes) = pages.pop() {
            self.replace_page(first + pages.len() as u32, bytes);
        }
    }

    /// Puts these bytes into the node at `at`, and the blocks that they take into the node's set of blocks, or changes
    /// neither.
    pub(crate) fn put(
        &mut self,
        blocks: &mut PairSet,
        alloc: Global,
        block: u32,
        at: u32,
        bytes: &[u8],
    ) -> Result<(), NoMemory>
        requires some { 4 ≤ block }
        requires small { block ≤ 1024 }
        requires fits { at + length bytes.now < 2147483648 }
        requires mine { blocks.old ≡ block_set (numbers_per block) (fmap.keys self.old.pages) }
        ensures written { OnOk result (self.new ≡ put block self.old at bytes.now) }
        ensures refused { OnErr result (self.new ≡ self.old) }
        ensures mine { blocks.new ≡ block_set (numbers_per block) (fmap.keys self.new.pages) }
    {
        if bytes.is_empty() {
            return Ok(());
        }
        let end = at + bytes.len() as u32;
        let first = at / block;
        let count = (end - 1) / block - first + 1;
        let after = self.pages_after(alloc, block, at, bytes, first, count)?;
        self.make_present(blocks, alloc, block / 4, first, count)?;
        self.replace_pages(first, after);
        self.size = self.size.max(end);
        Ok(())
    }
}
