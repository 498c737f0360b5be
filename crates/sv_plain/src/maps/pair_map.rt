// A map from pairs of numbers, kept in a tree.
ghost use Rattle.std.specs.Prelude.{◌≡◌, IsOk, IsSome, OnOk, OnErr, option_copied};
ghost use Rattle.std.specs.FinMap as map;

use crate::NoMemory;
use std::alloc::Global;
use std::collections::BTreeMap;
use std::marker::Model;

/// A finite map from pairs of numbers, as of counts by process and inode. Each call costs a logarithm in the entries.
#[derive(Drop)]
pub struct PairMap<V> {
    tree: BTreeMap<(u32, u32), V>,
}

impl<V> Model for PairMap<V> {
    ghost use Rattle.std.specs.Coded.{coded_ℕ, coded×};
    ghost use Rattle.sv_form.specs.Pair.{pair_cmp};
    ghost use Rattle.std.specs.FinMap as map;

    ghost Value = { map.FinMap pair_cmp V };

    ghost coded = { map.code (coded× coded_ℕ coded_ℕ) V.code };

    ghost view = { λ m. map.from_entries m.tree.entries };
}

impl<V> PairMap<V> {
    pub fn new(alloc: Global) -> Self
        ensures { result ≡ map.empty }
    {
        PairMap {
            tree: BTreeMap::new(alloc),
        }
    }

    pub fn len(&self) -> usize
        ensures { result ≡ map.len self.now }
    {
        self.tree.len()
    }

    pub fn get(&self, first: u32, second: u32) -> Option<&V>
        ensures { option_copied result ≡ map.get self.now (first, second) }
    {
        self.tree.get(&(first, second))
    }

    pub fn contains(&self, first: u32, second: u32) -> bool
        ensures { result ≡ map.contains_key self.now (first, second) }
    {
        self.tree.contains_key(&(first, second))
    }
}

impl<V: Drop> PairMap<V> {
    /// Puts the value at the pair, whether it is there or not. Only a new pair takes memory.
    pub fn insert(&mut self, first: u32, second: u32, value: V) -> Result<(), NoMemory>
        ensures put { OnOk result (self.new ≡ map.insert self.old (first, second) value) }
        ensures refused { OnErr result (self.new ≡ self.old) }
        ensures known { IsSome (map.get self.old (first, second)) → IsOk result }
    {
        match self.tree.insert((first, second), value) {
            Ok(_) => Ok(()),
            Err(_) => Err(NoMemory),
        }
    }

    pub fn remove(&mut self, first: u32, second: u32)
        ensures { self.new ≡ map.remove self.old (first, second) }
    {
        self.tree.remove(&(first, second));
    }
}
