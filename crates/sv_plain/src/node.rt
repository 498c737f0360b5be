// A file, apart from where its bytes lie.
ghost use Rattle.std.specs.Prelude.{◌≡◌, ◌<◌, None, is_ok, option_copied, if◌then◌else◌};
ghost use Rattle.std.specs.FinMap as map;
ghost use Rattle.sv_form.specs.Node.{blocks_at};
ghost use Rattle.sv_plain.specs.Blocks.{with_blocks};
ghost use Rattle.sv_plain.specs.Fs.{with_page};

pub(crate) mod blocks;
mod bytes;
pub(crate) mod directory_bytes;
mod entries;
pub(crate) mod page_need;
mod pages;
mod writes;

use crate::maps::Pages;
use crate::{NoMemory, PairSet};
use blocks::put_page_blocks;
pub(crate) use entries::byte_of_page;
pub(crate) use pages::present;
use std::alloc::Global;
use std::marker::Model;
use sv_form::{Bytes, Kind};

/// A regular file or a directory: what an inode is (Bach, chapter 4.1), without block addresses. Its bytes stand in
/// pages, each one block long; a page that is absent reads as zero bytes. `mode` has the permission bits, `size` is in
/// bytes. Contracts see the pages besides.
#[derive(Drop)]
pub struct Node {
    pub kind: Kind,
    pub mode: u16,
    pub links: u16,
    pub size: u32,
    pages: Pages,
}

impl Model for Node {
    ghost use Rattle.sv_form.specs.Node as meaning;

    ghost Value = { meaning.Node };

    ghost coded = { meaning.node_code };

    ghost view = { λ n. record { kind = n.kind; mode = n.mode; links = n.links; size = n.size; pages = n.pages } };
}

impl Node {
    /// A node without pages.
    pub(crate) fn new(alloc: Global, kind: Kind, mode: u16, links: u16, size: u32) -> Node
        ensures { result ≡ record { kind = kind; mode = mode; links = links; size = size; pages = map.empty } }
    {
        Node {
            kind,
            mode,
            links,
            size,
            pages: Pages::new(alloc),
        }
    }

    /// A node without pages, which are to come. A block has so many bytes.
    pub(crate) fn made(
        alloc: Global,
        block: u32,
        kind: Kind,
        mode: u16,
        links: u16,
        size: u32,
    ) -> Node
        ensures { result ≡ record { kind = kind; mode = mode; links = links; size = size; pages = map.empty } }
    {
        Node {
            kind,
            mode,
            links,
            size,
            pages: Pages::of_kind(alloc, block, kind),
        }
    }

    pub fn page(&self, page: u32) -> Option<&[u8]>
        ensures { option_copied result ≡ map.get self.now.pages page }
    {
        self.pages.get(page)
    }

    /// How many pages are present.
    pub(crate) fn page_count(&self) -> usize
        ensures { result ≡ map.len self.now.pages }
    {
        self.pages.len()
    }

    /// Adds a page to the node and its blocks to the node's set of blocks, or changes neither.
    pub(crate) fn add_page(
        &mut self,
        blocks: &mut PairSet,
        per: u32,
        page: u32,
        bytes: Bytes,
    ) -> Result<(), NoMemory>
        requires some { 0 < per }
        requires few { per < 1024 }
        requires absent { map.get self.old.pages page ≡ None }
        ensures node { self.new ≡ (if is_ok result then with_page page bytes self.old else self.old) }
        ensures blocks { blocks.new ≡ (if is_ok result then with_blocks blocks.old (blocks_at per page) else blocks.old) }
    {
        self.pages.insert(page, bytes)?;
        let Ok(()) = put_page_blocks(blocks, per, page) else {
            self.pages.remove(page);
            return Err(NoMemory);
        };
        Ok(())
    }
}
