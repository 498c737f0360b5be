// Nodes by inode number.
ghost use Rattle.std.specs.Prelude.{ℕ, ◌≡◌, ◌≢◌, true, false, Some, None, IsSome, IsOk, IfSome, IfNone, OnOk, OnErr, option_copied};
ghost use Rattle.std.specs.Prelude.{option_map};
ghost use Rattle.std.specs.FinMap as map;
ghost use Rattle.sv_plain.specs.Fs.{changed};
ghost use Rattle.sv_plain.specs.Change.{with_links};
ghost use Rattle.sv_plain.specs.Unlinked.{has_no_links};

use crate::maps::number_set::NumberSet;
use crate::{NoMemory, Node, NumberMap};
use std::alloc::Global;
use std::marker::Model;
use sv_form::Kind;

/// A finite map from inode numbers to nodes. Beside it is kept which of them have no links, so that these are found
/// without a walk over all. Each call but `len` costs a logarithm in the nodes.
#[derive(Drop)]
pub(crate) struct Nodes {
    by_number: NumberMap<Node>,
    unlinked: NumberSet,
}

impl Model for Nodes {
    ghost use Rattle.std.specs.Coded.{coded_ℕ};
    ghost use Rattle.std.specs.Ordering.{nat_cmp};
    ghost use Rattle.std.specs.FinMap as map;
    ghost use Rattle.sv_form.specs.Node as meaning;
    ghost use Rattle.sv_plain.specs.Unlinked.{AreUnlinked};

    ghost Value = { map.FinMap nat_cmp meaning.Node };

    ghost coded = { map.code coded_ℕ meaning.node_code };

    ghost view = { λ n. n.by_number };

    ghost invariant = { λ n. AreUnlinked n.by_number n.unlinked };
}

impl Nodes {
    pub(crate) fn new(alloc: Global) -> Self
        ensures { result ≡ map.empty }
    {
        Nodes {
            by_number: NumberMap::new(alloc),
            unlinked: NumberSet::new(alloc),
        }
    }

    pub(crate) fn len(&self) -> usize
        ensures { result ≡ map.len self.now }
    {
        self.by_number.len()
    }

    pub(crate) fn get(&self, number: u32) -> Option<&Node>
        ensures { option_copied result ≡ map.get self.now number }
    {
        self.by_number.get(number)
    }

    pub(crate) fn contains(&self, number: u32) -> bool
        ensures { result ≡ map.contains_key self.now number }
    {
        self.by_number.contains(number)
    }

    /// Puts a node at a number that has none.
    pub(crate) fn insert(&mut self, number: u32, node: Node) -> Result<(), NoMemory>
        requires { map.get self.old number ≡ None }
        ensures put { OnOk result (self.new ≡ map.insert self.old number node) }
        ensures refused { OnErr result (self.new ≡ self.old) }
    {
        self.unlinked.set(number, node.links == 0)?;
        let Ok(()) = self.by_number.insert(number, node) else {
            self.unlinked.remove(number);
            return Err(NoMemory);
        };
        Ok(())
    }

    pub(crate) fn remove(&mut self, number: u32)
        ensures { self.new ≡ map.remove self.old number }
    {
        self.by_number.remove(number);
        self.unlinked.remove(number);
    }

    /// Exchanges the node at a number for one with as many links, so that it can be worked on apart from the map.
    pub(crate) fn swap(&mut self, number: u32, value: &mut Node)
        requires { option_map (λ n. n.links) (map.get self.old number) ≡ Some value.old.links }
        ensures taken { map.get self.old number ≡ Some value.new }
        ensures put { self.new ≡ map.insert self.old number value.old }
    {
        self.by_number.swap(number, value);
    }

    /// Gives the node at a number other links. Only a node without links takes memory.
    pub(crate) fn set_links(
        &mut self,
        alloc: Global,
        number: u32,
        links: u16,
    ) -> Result<(), NoMemory>
        requires { IsSome (map.get self.old number) }
        ensures put { OnOk result (self.new ≡ changed self.old number (with_links (λ _. links))) }
        ensures refused { OnErr result (self.new ≡ self.old) }
        ensures known { links ≢ 0 → IsOk result }
    {
        self.unlinked.set(number, links == 0)?;
        let mut node = Node::new(alloc, Kind::File, 0, 0, 0);
        self.by_number.swap(number, &mut node);
        node.links = links;
        self.by_number.swap(number, &mut node);
        Ok(())
    }

    /// The least number of a node without links.
    pub(crate) fn first_unlinked(&self) -> Option<u32>
        ensures some { IfSome result (λ i. has_no_links (map.get self.now i) ≡ true) }
        ensures none { IfNone result ((i : ℕ) → has_no_links (map.get self.now i) ≡ false) }
    {
        self.unlinked.first()
    }
}
