// The pages of nodes, with the blocks of each node and how many all use.
ghost use Rattle.std.specs.Prelude.{◌≡◌, ◌+◌, ◌<◌, length, OnOk, OnErr};
ghost use Rattle.std.specs.FinMap as map;
ghost use Rattle.std.specs.FinSet as set;
ghost use Rattle.sv_plain.specs.Totals.{at_or_0};
ghost use Rattle.sv_plain.specs.Fs.{changed};
ghost use Rattle.sv_form.specs.NodeChanges.{put};
ghost use Rattle.sv_plain.specs.Missing.{node_blocks};
ghost use Rattle.sv_plain.specs.Needs.{range_need};

use crate::{Fs, NoMemory, Node, PairSet};
use std::alloc::Global;
use sv_form::Kind;

impl Fs {
    // Node i uses this block.
    pub(crate) fn has_block(&self, i: u16, height: u32, number: u32) -> bool
        ensures { result ≡ set.contains (node_blocks self.now i) (height, number) }
    {
        match self.blocks.get(u32::from(i)) {
            Some(blocks) => blocks.contains(height, number),
            None => false,
        }
    }

    // How many blocks node i uses.
    pub(crate) fn block_count(&self, i: u16) -> usize
        ensures { result ≡ set.len (node_blocks self.now i) }
    {
        match self.blocks.get(u32::from(i)) {
            Some(blocks) => blocks.len(),
            None => 0,
        }
    }

    // Puts these bytes, which take so many blocks, into node i at `at`, where there is such a node, or changes nothing. A
    // number of blocks at its type's end is refused like want of memory.
    pub(crate) fn put_bytes(
        &mut self,
        alloc: Global,
        i: u16,
        at: u32,
        bytes: &[u8],
        need: u32,
    ) -> Result<(), NoMemory>
        requires fits { at + length bytes.now < 2147483648 }
        requires need { need ≡ at_or_0 (λ node. range_need self.old.block node at (length bytes.now)) (map.get self.old.nodes i) }
        ensures written { OnOk result (self.new ≡ record self.old {
          nodes = changed self.old.nodes i
              (λ node. put self.old.block node at bytes.now);
        }) }
        ensures refused { OnErr result (self.new ≡ self.old) }
    {
        let key = u32::from(i);
        if !self.nodes.contains(key) {
            return Ok(());
        }
        let Some(used) = self.used.checked_add(u64::from(need)) else {
            return Err(NoMemory);
        };
        let links = self.links_of(i);
        let mut node = Node::new(alloc, Kind::File, 0, links, 0);
        let mut blocks = PairSet::new(alloc);
        self.nodes.swap(key, &mut node);
        self.blocks.swap(key, &mut blocks);
        let Ok(()) = node.put(&mut blocks, alloc, self.block_size, at, bytes) else {
            self.nodes.swap(key, &mut node);
            self.blocks.swap(key, &mut blocks);
            return Err(NoMemory);
        };
        self.nodes.swap(key, &mut node);
        self.blocks.swap(key, &mut blocks);
        self.used = used;
        Ok(())
    }
}
