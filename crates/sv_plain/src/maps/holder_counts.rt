// Who refers to each inode, counted.
ghost use Rattle.std.specs.Prelude.{◌≡◌, ◌≤◌, OnOk, OnErr};
ghost use Rattle.sv_plain.specs.HolderCounts.{held_of, held_more, held_less, places_of};

use crate::{NoMemory, NumberMap};
use std::alloc::Global;

/// How many processes and files refer to each inode, and to how many inodes any does: those take the places of the table
/// of in-core inodes (Bach, chapter 4.1). An inode that was let go may stay with the count 0.
#[derive(Drop)]
pub struct HolderCounts {
    pub(crate) held: NumberMap<u64>,
    pub(crate) taken: u32,
}

impl HolderCounts {
    /// Nothing is referred to.
    pub(crate) fn new(alloc: Global) -> HolderCounts
        ensures { result ≡ places_of 0 }
    {
        HolderCounts {
            held: NumberMap::new(alloc),
            taken: 0,
        }
    }

    pub(crate) fn count(&self, i: u16) -> u64
        ensures { result ≡ held_of self.now i }
    {
        match self.held.get(u32::from(i)) {
            Some(count) => *count,
            None => 0,
        }
    }

    /// One more refers to inode i. A count at its type's end is refused like want of memory.
    pub(crate) fn add(&mut self, i: u16) -> Result<(), NoMemory>
        ensures added { OnOk result (self.new ≡ held_more self.old i) }
        ensures refused { OnErr result (self.new ≡ self.old) }
    {
        let count = self.count(i);
        if count == u64::MAX {
            return Err(NoMemory);
        }
        if self.taken == u32::MAX {
            return Err(NoMemory);
        }
        self.held.insert(u32::from(i), count + 1)?;
        self.taken += u32::from(count == 0);
        Ok(())
    }

    /// One less refers to inode i.
    pub(crate) fn remove(&mut self, i: u16)
        requires held { 1 ≤ held_of self.old i }
        requires taken { 1 ≤ self.old.taken }
        ensures { self.new ≡ held_less self.old i }
    {
        let count = self.count(i);
        let Ok(()) = self.held.insert(u32::from(i), count - 1) else {
            unreachable!();
        };
        self.taken -= u32::from(count == 1);
    }
}
