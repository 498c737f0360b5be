// What steps change in nodes. The blocks of each node, and how many all use, are kept beside.
ghost use Rattle.std.specs.Prelude.{ℕ, ◌≡◌, ◌≢◌, IsSome, IsOk, IfSome, IfNone, OnOk, OnErr, true, false};
ghost use Rattle.std.specs.FinMap as map;
ghost use Rattle.std.specs.FinSet as set;
ghost use Rattle.sv_plain.specs.Totals.{at_or_0};
ghost use Rattle.sv_plain.specs.Fs.{changed, page_of, with_page_of};
ghost use Rattle.sv_form.specs.NodeChanges.{emptied};
ghost use Rattle.sv_plain.specs.Change.{with_links, without_node, without_lost};
ghost use Rattle.sv_plain.specs.Names.{is_idle};
ghost use Rattle.sv_plain.specs.Unlinked.{has_no_links};

use crate::{Fs, NoMemory, Node, NumberMap, PairSet};
use std::alloc::Global;
use sv_form::{Bytes, Kind};

// How many blocks stand at the key, and none where there is no set of them.
fn count_of(blocks: &NumberMap<PairSet>, key: u32) -> usize
    ensures { result ≡ at_or_0 set.len (map.get blocks.now key) }
{
    match blocks.get(key) {
        Some(blocks) => blocks.len(),
        None => 0,
    }
}

impl Fs {
    // A node less, with its blocks.
    pub(crate) fn remove_node(&mut self, i: u16)
        ensures { self.new ≡ without_node self.old i }
    {
        self.remove_node_at(u32::from(i));
    }

    fn remove_node_at(&mut self, key: u32)
        ensures { self.new ≡ without_node self.old key }
    {
        let gone = count_of(&self.blocks, key);
        self.nodes.remove(key);
        self.blocks.remove(key);
        self.used -= gone as u64;
    }

    // The least number of a node that no name leads to.
    pub(crate) fn first_unlinked(&self) -> Option<u32>
        ensures some { IfSome result (λ i. has_no_links (map.get self.now.nodes i) ≡ true) }
        ensures none { IfNone result ((i : ℕ) → has_no_links (map.get self.now.nodes i) ≡ false) }
    {
        self.nodes.first_unlinked()
    }

    // Removes each node that no name leads to, where nothing is referred to. Other nodes are not looked at.
    pub(crate) fn remove_lost(&mut self)
        requires { is_idle self.old ≡ true }
        ensures { self.new ≡ without_lost self.old }
    {
        while let Some(i) = self.first_unlinked() {
            self.remove_node_at(i);
        }
    }

    // A node with other links. Only a node without links takes memory.
    pub(crate) fn set_links(&mut self, alloc: Global, i: u16, links: u16) -> Result<(), NoMemory>
        requires { IsSome (map.get self.old.nodes i) }
        ensures put { OnOk result (self.new ≡ record self.old { nodes = changed self.old.nodes i (with_links (λ _. links)) }) }
        ensures refused { OnErr result (self.new ≡ self.old) }
        ensures known { links ≢ 0 → IsOk result }
    {
        self.nodes.set_links(alloc, u32::from(i), links)?;
        Ok(())
    }

    // A node without bytes.
    pub(crate) fn empty_node(&mut self, alloc: Global, i: u16)
        requires { IsSome (map.get self.old.nodes i) }
        ensures { self.new ≡ record self.old { nodes = changed self.old.nodes i emptied } }
    {
        let key = u32::from(i);
        let links = self.links_of(i);
        let mut node = Node::new(alloc, Kind::File, 0, links, 0);
        let mut blocks = PairSet::new(alloc);
        self.nodes.swap(key, &mut node);
        self.blocks.swap(key, &mut blocks);
        self.used -= blocks.len() as u64;
        let mut empty = Node::new(alloc, node.kind, node.mode, node.links, 0);
        self.nodes.swap(key, &mut empty);
    }

    // Other bytes in a page of a node. Both are there.
    pub(crate) fn replace_page(&mut self, alloc: Global, i: u16, page: u32, bytes: Bytes)
        requires { IsSome (page_of self.old i page) }
        ensures { self.new ≡ with_page_of self.old i page bytes }
    {
        let key = u32::from(i);
        let links = self.links_of(i);
        let mut node = Node::new(alloc, Kind::File, 0, links, 0);
        self.nodes.swap(key, &mut node);
        node.replace_page(page, bytes);
        self.nodes.swap(key, &mut node);
    }
}
