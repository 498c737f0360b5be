// The state of the one-process file system.
ghost use Rattle.std.specs.Prelude.{◌≡◌, ◌≤◌, IfOk, OnOk, OnErr, IsSome, None, length, option_copied};
ghost use Rattle.std.specs.FinMap as map;
ghost use Rattle.sv_form.specs.Geometry.{IsGeometry};
ghost use Rattle.sv_plain.specs.Fs.{empty_fs, with_node, with_page_of, page_of, node_without_pages, free_blocks, free_inodes};
ghost use Rattle.sv_plain.specs.Whole.{IsWhole};

mod changes;
mod entries;
mod entry_needs;
mod mode;
mod nodes;
mod opening;
mod pages;
mod queries;

use crate::{HolderCounts, NoMemory, Node, Nodes, NumberMap, PairMap, PairSet};
pub use mode::Mode;
pub use opening::Opening;
use std::alloc::Global;
use std::marker::Model;
use sv_form::{Bytes, Geometry, Kind};

// How many blocks one page takes at most: itself and three indirect blocks.
const DEEPEST: u64 = 4;

/// The one-process file system: nodes, references, files, promises, pending links, and the sizes. Beside its maps it
/// keeps which blocks each node uses, and the counts that a walk would find: of blocks used and promised, of places taken
/// in the table of in-core inodes, and of holders of an inode.
#[derive(Drop)]
pub struct Fs {
    nodes: Nodes,
    references: PairMap<u32>,
    files: NumberMap<Opening>,
    promises: NumberMap<u32>,
    pending: NumberMap<u16>,
    block_size: u32,
    greatest: u32,
    data_blocks: u32,
    inodes: u32,
    places: u32,
    blocks: NumberMap<PairSet>,
    used: u64,
    promised: u64,
    holders: HolderCounts,
}

impl Model for Fs {
    ghost use Rattle.sv_plain.specs.Fs as meaning;

    ghost Value = { meaning.Fs };

    ghost coded = { meaning.fs_code };

    ghost use Rattle.sv_plain.specs.Keeping.{fs_of, IsKept};

    ghost view = { fs_of };

    ghost invariant = { IsKept };
}

impl Fs {
    /// A file system with the geometry's numbers of data blocks and inodes, no places, and nothing else.
    pub fn new(alloc: Global, geometry: Geometry) -> Result<Fs, NoMemory>
        requires { IsGeometry geometry }
        ensures { IfOk result (λ fs. fs ≡ empty_fs geometry) }
    {
        Ok(Fs {
            nodes: Nodes::new(alloc),
            references: PairMap::new(alloc),
            files: NumberMap::new(alloc),
            promises: NumberMap::new(alloc),
            pending: NumberMap::new(alloc),
            block_size: geometry.block_size,
            greatest: geometry.greatest_size(),
            data_blocks: geometry.blocks - geometry.first_data,
            inodes: geometry.inode_count(),
            places: 0,
            blocks: NumberMap::new(alloc),
            used: 0,
            promised: 0,
            holders: HolderCounts::new(alloc),
        })
    }

    /// Adds a node without pages.
    pub fn add_node(
        &mut self,
        alloc: Global,
        n: u16,
        kind: Kind,
        mode: u16,
        links: u16,
        size: u32,
    ) -> Result<(), NoMemory>
        requires least { 2 ≤ n }
        requires most { n ≤ self.old.inodes }
        requires absent { map.get self.old.nodes n ≡ None }
        ensures added { OnOk result (self.new ≡ with_node self.old n (node_without_pages kind mode links size)) }
        ensures refused { OnErr result (self.new ≡ self.old) }
    {
        let key = u32::from(n);
        self.nodes.insert(
            key,
            Node::made(alloc, self.block_size, kind, mode, links, size),
        )?;
        let Ok(()) = self.blocks.insert(key, PairSet::new(alloc)) else {
            self.nodes.remove(key);
            return Err(NoMemory);
        };
        Ok(())
    }

    /// Adds one page to a node.
    pub fn put_page(
        &mut self,
        alloc: Global,
        n: u16,
        page: u32,
        bytes: Bytes,
    ) -> Result<(), NoMemory>
        requires there { IsSome (map.get self.old.nodes n) }
        requires absent { page_of self.old n page ≡ None }
        requires whole { length bytes ≡ self.old.block }
        ensures added { OnOk result (self.new ≡ with_page_of self.old n page bytes) }
        ensures refused { OnErr result (self.new ≡ self.old) }
    {
        if self.used > u64::MAX - DEEPEST {
            return Err(NoMemory);
        }
        let key = u32::from(n);
        let links = self.links_of(n);
        let mut node = Node::new(alloc, Kind::File, 0, links, 0);
        let mut blocks = PairSet::new(alloc);
        self.nodes.swap(key, &mut node);
        self.blocks.swap(key, &mut blocks);
        let before = blocks.len() as u64;
        let outcome = node.add_page(&mut blocks, self.block_size / 4, page, bytes);
        self.used += blocks.len() as u64 - before;
        self.nodes.swap(key, &mut node);
        self.blocks.swap(key, &mut blocks);
        outcome
    }

    /// The node with the number n.
    pub fn node(&self, n: u16) -> Option<&Node>
        ensures { option_copied result ≡ map.get self.now.nodes n }
    {
        self.nodes.get(u32::from(n))
    }

    /// The data blocks that no node uses, and how many inode numbers from 2 on have no node. Neither is counted anew.
    pub fn numbers(&self) -> (u32, u32)
        requires { IsWhole self.now }
        ensures blocks { result.0 ≡ free_blocks self.now }
        ensures inodes { result.1 ≡ free_inodes self.now }
    {
        let blocks = self.data_blocks - self.used as u32;
        let inodes = self.inodes - 1 - self.nodes.len() as u32;
        (blocks, inodes)
    }
}
