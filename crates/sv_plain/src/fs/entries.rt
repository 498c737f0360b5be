// Where an entry is put: the pages, the size and the blocks of a node, and the numbers that have no node.
ghost use Rattle.std.specs.Prelude.{◌≡◌, ◌≤◌, [], ◌∷◌, is_some, IsSome, length, OnOk, OnErr};
ghost use Rattle.std.specs.FinMap as map;
ghost use Rattle.sv_plain.specs.Totals.{at_or_0};
ghost use Rattle.sv_plain.specs.Fs.{changed, page_of, with_page_of};
ghost use Rattle.sv_plain.specs.Needs.{blocks_added};
ghost use Rattle.sv_plain.specs.Entered.{with_size};
ghost use Rattle.sv_plain.specs.Step.{is_free};

use crate::node::page_need::page_need;
use crate::{Fs, NoMemory, Node};
use std::alloc::Global;
use sv_form::{Bytes, Kind};

// The least inode number that a node has: the root's (Bach, chapter 4.3).
const LEAST: u16 = 2;

impl Fs {
    // How many blocks one page more takes in node i: its own, and the indirect blocks above it that are missing.
    pub(crate) fn blocks_added(&self, i: u16, page: u32) -> u32
        ensures added { result ≡ at_or_0 (λ node. blocks_added self.now.block node (page ∷ [])) (map.get self.now.nodes i) }
        ensures few { result ≤ 4 }
    {
        match self.blocks.get(u32::from(i)) {
            Some(blocks) => page_need(blocks, self.block_size / 4, page),
            None => 0,
        }
    }

    // A node of another size.
    pub(crate) fn set_size(&mut self, alloc: Global, i: u16, size: u32)
        requires { IsSome (map.get self.old.nodes i) }
        ensures { self.new ≡ record self.old { nodes = changed self.old.nodes i (with_size size) } }
    {
        let key = u32::from(i);
        let links = self.links_of(i);
        let mut node = Node::new(alloc, Kind::File, 0, links, 0);
        self.nodes.swap(key, &mut node);
        node.size = size;
        self.nodes.swap(key, &mut node);
    }

    // Node i has the page.
    fn has_page(&self, i: u16, page: u32) -> bool
        ensures { result ≡ is_some (page_of self.now i page) }
    {
        match self.node(i) {
            Some(node) => node.page(page).is_some(),
            None => false,
        }
    }

    // A page of a node, in place of the one that it has there or added.
    pub(crate) fn set_page(
        &mut self,
        alloc: Global,
        i: u16,
        page: u32,
        bytes: Bytes,
    ) -> Result<(), NoMemory>
        requires there { IsSome (map.get self.old.nodes i) }
        requires whole { length bytes ≡ self.old.block }
        ensures put { OnOk result (self.new ≡ with_page_of self.old i page bytes) }
        ensures refused { OnErr result (self.new ≡ self.old) }
    {
        if self.has_page(i, page) {
            self.replace_page(alloc, i, page, bytes);
            return Ok(());
        }
        self.put_page(alloc, i, page, bytes)
    }

    // A new node can have the number i.
    pub(crate) fn is_free(&self, i: u16) -> bool
        ensures { result ≡ is_free self.now i }
    {
        let key = u32::from(i);
        i >= LEAST && key <= self.inodes && !self.nodes.contains(key)
    }
}
