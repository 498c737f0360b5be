// A set of pairs of numbers, kept in a tree.
ghost use Rattle.std.specs.Prelude.{◌≡◌, OnOk, OnErr};
ghost use Rattle.std.specs.FinSet as set;

use crate::NoMemory;
use std::alloc::Global;
use std::collections::BTreeSet;
use std::marker::Model;

/// A finite set of pairs of numbers, as of blocks by height and number. Each call but `len` costs a logarithm in the
/// members.
#[derive(Drop)]
pub struct PairSet {
    tree: BTreeSet<(u32, u32)>,
}

impl Model for PairSet {
    ghost use Rattle.std.specs.Coded.{coded_ℕ, coded×};
    ghost use Rattle.sv_form.specs.Pair.{pair_cmp};
    ghost use Rattle.std.specs.FinSet as set;

    ghost Value = { set.FinSet pair_cmp };

    ghost coded = { set.code (coded× coded_ℕ coded_ℕ) };

    ghost view = { λ s. set.from_list s.tree.keys };
}

impl PairSet {
    pub fn new(alloc: Global) -> Self
        ensures { result ≡ set.empty }
    {
        PairSet {
            tree: BTreeSet::new(alloc),
        }
    }

    pub fn len(&self) -> usize
        ensures { result ≡ set.len self.now }
    {
        self.tree.len()
    }

    pub fn contains(&self, first: u32, second: u32) -> bool
        ensures { result ≡ set.contains self.now (first, second) }
    {
        self.tree.contains(&(first, second))
    }

    /// Puts the pair into the set, whether it is there or not.
    pub fn insert(&mut self, first: u32, second: u32) -> Result<(), NoMemory>
        ensures put { OnOk result (self.new ≡ set.insert self.old (first, second)) }
        ensures refused { OnErr result (self.new ≡ self.old) }
    {
        let Ok(_) = self.tree.insert((first, second)) else {
            return Err(NoMemory);
        };
        Ok(())
    }

    pub fn remove(&mut self, first: u32, second: u32)
        ensures { self.new ≡ set.remove self.old (first, second) }
    {
        self.tree.remove(&(first, second));
    }
}
