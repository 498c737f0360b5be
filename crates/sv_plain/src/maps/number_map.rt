// A map from numbers, kept in a tree.
ghost use Rattle.std.specs.Prelude.{◌≡◌, ◌==◌, not, IsOk, IsSome, IfOk, OnOk, OnErr, option_copied, is_some};
ghost use Rattle.std.specs.Ordering.{nat_cmp};
ghost use Rattle.std.specs.FinMap as map;
ghost use Rattle.std.specs.List.{list_any};
ghost use Rattle.std.specs.Map.{values_of};
ghost use Rattle.sv_plain.specs.Totals.{total, one_if};

use crate::{NoMemory, Opening};
use std::alloc::Global;
use std::collections::BTreeMap;
use std::marker::Model;
use std::mem;

/// A finite map from numbers, as of nodes by inode number or of pages by page number. Each call but `len` costs a
/// logarithm in the entries.
#[derive(Drop)]
pub struct NumberMap<V> {
    tree: BTreeMap<u32, V>,
}

impl<V> Model for NumberMap<V> {
    ghost use Rattle.std.specs.Coded.{coded_ℕ};
    ghost use Rattle.std.specs.Ordering.{nat_cmp};
    ghost use Rattle.std.specs.FinMap as map;

    ghost Value = { map.FinMap nat_cmp V };

    ghost coded = { map.code coded_ℕ V.code };

    ghost view = { λ m. map.from_entries m.tree.entries };
}

impl<V> NumberMap<V> {
    pub fn new(alloc: Global) -> Self
        ensures { result ≡ map.empty }
    {
        NumberMap {
            tree: BTreeMap::new(alloc),
        }
    }

    pub fn len(&self) -> usize
        ensures { result ≡ map.len self.now }
    {
        self.tree.len()
    }

    pub fn get(&self, key: u32) -> Option<&V>
        ensures { option_copied result ≡ map.get self.now key }
    {
        self.tree.get(&key)
    }

    pub fn contains(&self, key: u32) -> bool
        ensures { result ≡ map.contains_key self.now key }
    {
        self.tree.contains_key(&key)
    }

    /// Exchanges the value at a key that is there, so that it can be worked on apart from the map.
    pub fn swap(&mut self, key: u32, value: &mut V)
        requires { IsSome (map.get self.old key) }
        ensures taken { map.get self.old key ≡ Some value.new }
        ensures put { self.new ≡ map.insert self.old key value.old }
    {
        let Some(place) = self.tree.get_mut(&key) else {
            unreachable!();
        };
        mem::swap(place, value);
    }
}

impl<V: Drop> NumberMap<V> {
    /// Puts the value at the key, whether it is there or not. Only a new key takes memory.
    pub fn insert(&mut self, key: u32, value: V) -> Result<(), NoMemory>
        ensures put { OnOk result (self.new ≡ map.insert self.old key value) }
        ensures refused { OnErr result (self.new ≡ self.old) }
        ensures known { IsSome (map.get self.old key) → IsOk result }
    {
        match self.tree.insert(key, value) {
            Ok(_) => Ok(()),
            Err(_) => Err(NoMemory),
        }
    }

    pub fn remove(&mut self, key: u32)
        ensures { self.new ≡ map.remove self.old key }
    {
        self.tree.remove(&key);
    }
}

// A file of the tree has inode i.
fn has_file_of(tree: &BTreeMap<u32, Opening>, i: u16) -> bool
    ensures { result ≡ list_any (λ f. f.inode == i) (values_of tree.now.entries) }
{
    tree.values().any(|file| file.inode == i)
}

impl NumberMap<Opening> {
    /// A file of the map has inode i. This walks the files, of which a file table has few.
    pub(crate) fn has_inode(&self, i: u16) -> bool
        ensures { result ≡ not (total (λ _ f. one_if (f.inode == i)) self.now == 0) }
    {
        let _len = self.tree.len();
        has_file_of(&self.tree, i)
    }
}
