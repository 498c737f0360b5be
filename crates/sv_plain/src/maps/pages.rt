// The pages of a file or a directory.
ghost use Rattle.std.specs.Prelude.{◌≡◌, ◌≢◌, ◌<◌, ◌≤◌, ℕ, List, Some, IsOk, IsSome, IfSome, OnOk, OnErr, option_copied};
ghost use Rattle.std.specs.Ordering.{nat_cmp};
ghost use Rattle.std.specs.FinMap as map;
ghost use Rattle.sv_plain.specs.NameIndex.{IsIndexed, inode_at, name_at, name_key};

use crate::maps::name_index::NameIndex;
use crate::{NoMemory, NumberMap};
use std::alloc::Global;
use std::marker::Model;
use sv_form::{Bytes, Kind};

// How many bytes an entry of a directory has.
const ENTRY: u32 = 16;

// The most entries that a page has: a block has at most 1,024 bytes.
const MOST_SLOTS: u32 = 64;

/// The bytes of each page that is present, by its number. A directory has an index of its names beside them. It goes where
/// memory is too short for it, a name stands twice or a page is taken out; names are then looked for among all entries.
#[derive(Drop)]
pub(crate) struct Pages {
    by_number: NumberMap<Bytes>,
    index: Option<NameIndex>,
}

impl Model for Pages {
    ghost use Rattle.std.specs.Prelude.{List, ℕ};
    ghost use Rattle.std.specs.Coded.{coded_ℕ, coded_list};
    ghost use Rattle.std.specs.Ordering.{nat_cmp};
    ghost use Rattle.std.specs.FinMap as map;
    ghost use Rattle.sv_plain.specs.NameIndex.{IsIndexed};

    ghost Value = { map.FinMap nat_cmp (List ℕ) };

    ghost coded = { map.code coded_ℕ (coded_list coded_ℕ) };

    ghost view = { λ p. p.by_number };

    ghost invariant = { λ p. IsIndexed p.index p.by_number };
}

// The index once a page came in place of what stood there.
fn index_after(
    index: Option<NameIndex>,
    page: u32,
    before: Option<&[u8]>,
    after: &[u8],
) -> Option<NameIndex>
    ensures { (pages : map.FinMap nat_cmp (List ℕ)) → map.get pages page ≡ option_copied before.entry
        → IsIndexed index pages → IsIndexed result (map.insert pages page after.now) }
{
    let Some(mut index) = index else {
        return None;
    };
    if index.change_page(page, before, after) {
        return Some(index);
    }
    None
}

impl Pages {
    /// No pages of a node that no name is looked up in.
    pub(crate) fn new(alloc: Global) -> Pages
        ensures { result ≡ map.empty }
    {
        Pages {
            by_number: NumberMap::new(alloc),
            index: None,
        }
    }

    // No pages of a directory, each with so many entries.
    fn with_index(alloc: Global, slots: u32) -> Pages
        requires some { 0 < slots }
        requires few { slots ≤ 64 }
        ensures { result ≡ map.empty }
    {
        Pages {
            by_number: NumberMap::new(alloc),
            index: Some(NameIndex::new(alloc, slots)),
        }
    }

    // No pages of a directory.
    fn of_directory(alloc: Global, block: u32) -> Pages
        ensures { result ≡ map.empty }
    {
        let slots = block / ENTRY;
        if slots == 0 || slots > MOST_SLOTS {
            return Pages::new(alloc);
        }
        Pages::with_index(alloc, slots)
    }

    /// No pages of a file or a directory.
    pub(crate) fn of_kind(alloc: Global, block: u32, kind: Kind) -> Pages
        ensures { result ≡ map.empty }
    {
        match kind {
            Kind::File => Pages::new(alloc),
            Kind::Dir => Pages::of_directory(alloc, block),
        }
    }

    pub(crate) fn len(&self) -> usize
        ensures { result ≡ map.len self.now }
    {
        self.by_number.len()
    }

    pub(crate) fn get(&self, page: u32) -> Option<&[u8]>
        ensures { option_copied result ≡ map.get self.now page }
    {
        match self.by_number.get(page) {
            Some(bytes) => Some(bytes.as_slice()),
            None => None,
        }
    }

    /// Puts the page at its number, whether one is there or not. Where one is, this does not fail.
    pub(crate) fn insert(&mut self, page: u32, bytes: Bytes) -> Result<(), NoMemory>
        ensures put { OnOk result (self.new ≡ map.insert self.old page bytes) }
        ensures refused { OnErr result (self.new ≡ self.old) }
        ensures known { IsSome (map.get self.old page) → IsOk result }
    {
        let before = self.index.take();
        let after = index_after(before, page, self.get(page), bytes.as_slice());
        self.by_number.insert(page, bytes)?;
        self.index = after;
        Ok(())
    }

    pub(crate) fn remove(&mut self, page: u32)
        ensures { self.new ≡ map.remove self.old page }
    {
        self.index = None;
        self.by_number.remove(page);
    }

    /// Where the index has this name, if there is an index by pages of so many entries.
    pub(crate) fn place(&self, slots: u32, name: &[u8]) -> Option<Option<u32>>
        ensures { IfSome result (λ place. (j : ℕ) → inode_at slots self.now j ≢ 0
            → name_at slots self.now j ≡ name_key name.now → place ≡ Some j) }
    {
        match &self.index {
            Some(index) if index.slots == slots => Some(index.place(name)),
            _ => None,
        }
    }

    /// No entry before this one is empty.
    pub(crate) fn first_empty(&self, slots: u32) -> u32
        ensures { (j : ℕ) → j < result → inode_at slots self.now j ≢ 0 }
    {
        match &self.index {
            Some(index) if index.slots == slots => index.first_empty(),
            _ => 0,
        }
    }
}
