// A set of numbers, kept in a tree.
ghost use Rattle.std.specs.Prelude.{ℕ, ◌≡◌, ◌≤◌, true, false, IsOk, IfSome, IfNone, OnOk, OnErr, if◌then◌else◌};
ghost use Rattle.std.specs.FinSet as set;

use crate::NoMemory;
use std::alloc::Global;
use std::collections::BTreeSet;
use std::marker::Model;

/// A finite set of numbers. Each call costs a logarithm in the members.
#[derive(Drop)]
pub(crate) struct NumberSet {
    tree: BTreeSet<u32>,
}

impl Model for NumberSet {
    ghost use Rattle.std.specs.Coded.{coded_ℕ};
    ghost use Rattle.std.specs.Ordering.{nat_cmp};
    ghost use Rattle.std.specs.FinSet as set;

    ghost Value = { set.FinSet nat_cmp };

    ghost coded = { set.code coded_ℕ };

    ghost view = { λ s. set.from_list s.tree.keys };
}

impl NumberSet {
    pub(crate) fn new(alloc: Global) -> Self
        ensures { result ≡ set.empty }
    {
        NumberSet {
            tree: BTreeSet::new(alloc),
        }
    }

    /// The least member.
    pub(crate) fn first(&self) -> Option<u32>
        ensures some { IfSome result (λ n. set.contains self.now n ≡ true) }
        ensures least { IfSome result (λ n. (k : ℕ) → set.contains self.now k ≡ true → n ≤ k) }
        ensures none { IfNone result ((n : ℕ) → set.contains self.now n ≡ false) }
    {
        match self.tree.first() {
            Some(number) => Some(*number),
            None => None,
        }
    }

    /// Puts the number into the set, whether it is there or not.
    pub(crate) fn insert(&mut self, number: u32) -> Result<(), NoMemory>
        ensures put { OnOk result (self.new ≡ set.insert self.old number) }
        ensures refused { OnErr result (self.new ≡ self.old) }
    {
        let Ok(_) = self.tree.insert(number) else {
            return Err(NoMemory);
        };
        Ok(())
    }

    pub(crate) fn remove(&mut self, number: u32)
        ensures { self.new ≡ set.remove self.old number }
    {
        self.tree.remove(&number);
    }

    /// Has the number in the set or not. To take it out needs no memory.
    pub(crate) fn set(&mut self, number: u32, is_in: bool) -> Result<(), NoMemory>
        ensures put { OnOk result (self.new ≡ (if is_in then set.insert self.old number else set.remove self.old number)) }
        ensures refused { OnErr result (self.new ≡ self.old) }
        ensures known { is_in ≡ false → IsOk result }
    {
        if is_in {
            return self.insert(number);
        }
        self.remove(number);
        Ok(())
    }
}
