// Where the names of a directory stand.
ghost use Rattle.std.specs.Prelude.{◌≡◌, ◌≢◌, ◌<◌, ◌≤◌, ◌+◌, ◌*◌, ◌/◌, ℕ, List, None, Some, map, option_copied, slice_index, if◌then◌else◌};
ghost use Rattle.std.specs.Bool.{OnTrue};
ghost use Rattle.std.specs.List.{range_with_len};
ghost use Rattle.std.specs.Ordering.{nat_cmp};
ghost use Rattle.std.specs.BTreeMap as tree;
ghost use Rattle.std.specs.FinMap as fmap;
ghost use Rattle.std.specs.FinSet as set;
ghost use Rattle.sv_form.specs.FileBytes.{page_byte};
ghost use Rattle.sv_plain.specs.NameIndex.{HasIndex, Notes, covered_after, name_key, slot_inode, slot_key};

use crate::maps::number_set::NumberSet;
use crate::node::{byte_of_page, present};
use std::alloc::Global;
use std::collections::BTreeMap;

/// Where each name of a directory stands, and which of its first places are empty, so that neither is looked for among all
/// entries. A page has so many places.
#[derive(Drop)]
pub(crate) struct NameIndex {
    pub(crate) slots: u32,
    covered: u32,
    places: BTreeMap<u128, u32>,
    empty: NumberSet,
}

// An entry, as the index sees it: the inode, and a number for the name.
#[derive(Clone, Copy)]
struct Slot {
    inode: u16,
    key: u128,
}

// What a key keeps when a byte is put after it, so that there is room for the byte: fifteen bytes.
const KEPT: u128 = 0x1_00_0000_0000_0000_0000_0000_0000_0000;

// Directories with more pages have no index, so that all places can be counted.
const MOST_PAGES: u32 = 1 << 24;

// A number for these bytes up to the first zero. No two names have one number.
fn key_of(bytes: &[u8]) -> u128
    ensures { result ≡ name_key bytes.now }
{
    let mut key = 0;
    for k in 0..bytes.len() {
        let byte = bytes[k];
        if byte == 0 {
            return key;
        }
        key = key % KEPT * 256 + u128::from(byte);
    }
    key
}

// The same of the fourteen bytes of a page from `at` on.
fn key_at(page: Option<&[u8]>, at: u32) -> u128
    requires { at + 14 ≤ 4294967295 }
    ensures { result ≡ name_key (map (page_byte (option_copied page.entry)) (range_with_len at 14)) }
{
    let mut key = 0;
    for k in 0..14 {
        let byte = byte_of_page(page, at + k);
        if byte == 0 {
            return key;
        }
        key = key % KEPT * 256 + u128::from(byte);
    }
    key
}

// Entry r of a page.
#[tactic(auto, unfolding(crate::specs::NameIndex::slot_inode, crate::specs::NameIndex::slot_key))]
fn slot_of(page: Option<&[u8]>, r: u32) -> Slot
    requires { r < 64 }
    ensures inode { result.inode ≡ slot_inode (option_copied page.entry) r }
    ensures key { result.key ≡ slot_key (option_copied page.entry) r }
{
    let at = 16 * r;
    let inode = u16::from(byte_of_page(page, at)) + 256 * u16::from(byte_of_page(page, at + 1));
    Slot {
        inode,
        key: key_at(page, at + 2),
    }
}

// Entry r of both pages is the same sixteen bytes.
fn is_same(before: &[u8], after: &[u8], r: u32) -> bool
    requires { r < 64 }
    ensures { OnTrue result ((i : ℕ) → i < 16 → slice_index before.now (16 * r + i) ≡ slice_index after.now (16 * r + i)) }
{
    let at = 16 * r as usize;
    let end = at + 16;
    if end > before.len() || end > after.len() {
        return false;
    }
    before[at..end] == after[at..end]
}

fn covered_after(covered: u32, j: u32) -> u32
    requires { j < 4294967295 }
    ensures { result ≡ covered_after covered j }
{
    if covered == j { j + 1 } else { covered }
}

impl NameIndex {
    // The index of a directory without pages, which have so many places.
    pub(crate) fn new(alloc: Global, slots: u32) -> NameIndex
        requires some { 0 < slots }
        requires few { slots ≤ 64 }
        ensures empty { HasIndex result fmap.empty }
    {
        NameIndex {
            slots,
            covered: 0,
            places: BTreeMap::new(alloc),
            empty: NumberSet::new(alloc),
        }
    }

    // Where this name stands, if it does. What stands there has to be looked at.
    pub(crate) fn place(&self, name: &[u8]) -> Option<u32>
        ensures { result ≡ tree.get nat_cmp self.now.places (name_key name.now) }
    {
        self.places.get(&key_of(name)).copied()
    }

    // No place before this one is empty.
    pub(crate) fn first_empty(&self) -> u32
        ensures { (j key : ℕ) → j < result → Notes self.now j 0 key → ⊥ }
    {
        match self.empty.first() {
            Some(j) => j.min(self.covered),
            None => self.covered,
        }
    }

    // What stood at a place goes.
    fn forget(&mut self, before: Slot)
        ensures slots { self.new.slots ≡ self.old.slots }
        ensures kept { (j : ℕ) → Notes self.old j before.inode before.key
            → (i inode key : ℕ) → i ≢ j → Notes self.old i inode key → Notes self.new i inode key }
    {
        if before.inode == 0 {
            return;
        }
        self.places.remove(&before.key);
    }

    // Place j is empty.
    fn note_empty(&mut self, j: u32) -> bool
        requires { j < 4294967295 }
        ensures { OnTrue result (self.new ≡ record self.old {
          empty = set.insert self.old.empty j;
          covered = covered_after self.old.covered j;
        }) }
    {
        let Ok(()) = self.empty.insert(j) else {
            return false;
        };
        self.covered = covered_after(self.covered, j);
        true
    }

    // The name with this number stands at place j, and at no other.
    fn note_name(&mut self, j: u32, key: u128) -> bool
        requires { j < 4294967295 }
        ensures new { OnTrue result (tree.get nat_cmp self.old.places key ≡ None) }
        ensures places { OnTrue result (tree.Updates nat_cmp self.old.places self.new.places key (Some j)) }
        ensures empty { OnTrue result (self.new.empty ≡ set.remove self.old.empty j) }
        ensures covered { OnTrue result (self.new.covered ≡ covered_after self.old.covered j) }
        ensures slots { OnTrue result (self.new.slots ≡ self.old.slots) }
    {
        if self.places.contains_key(&key) {
            return false;
        }
        let Ok(_) = self.places.insert(key, j) else {
            return false;
        };
        self.empty.remove(j);
        self.covered = covered_after(self.covered, j);
        true
    }

    // What stands at place j now, where nothing is known of it.
    fn note(&mut self, j: u32, after: Slot) -> bool
        requires { j < 4294967295 }
        ensures slots { OnTrue result (self.new.slots ≡ self.old.slots) }
        ensures put { OnTrue result (Notes self.new j after.inode after.key) }
        ensures kept { OnTrue result ((i inode key : ℕ) → i ≢ j
            → Notes self.old i inode key → Notes self.new i inode key) }
    {
        if after.inode == 0 {
            return self.note_empty(j);
        }
        self.note_name(j, after.key)
    }

    // Place j changes.
    fn change(&mut self, j: u32, before: Slot, after: Slot) -> bool
        requires { j < 4294967295 }
        ensures slots { OnTrue result (self.new.slots ≡ self.old.slots) }
        ensures put { OnTrue result (Notes self.new j after.inode after.key) }
        ensures kept { OnTrue result (Notes self.old j before.inode before.key
            → (i inode key : ℕ) → i ≢ j → Notes self.old i inode key → Notes self.new i inode key) }
    {
        self.forget(before);
        self.note(j, after)
    }

    // Entry r of the page that begins at place `first` changes, or does not: then nothing is looked up.
    fn change_entry(&mut self, first: u32, r: u32, before: Option<&[u8]>, after: &[u8]) -> bool
        requires few { r < 64 }
        requires fits { first + r < 4294967295 }
        ensures slots { OnTrue result (self.new.slots ≡ self.old.slots) }
        ensures put { OnTrue result
            (Notes self.old (first + r) (slot_inode (option_copied before.entry) r) (slot_key (option_copied before.entry) r)
            → Notes self.new (first + r) (slot_inode (Some after.now) r) (slot_key (Some after.now) r)) }
        ensures kept { OnTrue result
            (Notes self.old (first + r) (slot_inode (option_copied before.entry) r) (slot_key (option_copied before.entry) r)
            → (i inode key : ℕ) → i ≢ first + r → Notes self.old i inode key → Notes self.new i inode key) }
    {
        if first + r < self.covered {
            if is_same(present(before), after, r) {
                return true;
            }
        }
        self.change(first + r, slot_of(before, r), slot_of(Some(after), r))
    }

    // A page comes in place of what stood there. False where the index cannot say so: there is no memory for it, or a name
    // stands twice.
    pub(crate) fn change_page(&mut self, page: u32, before: Option<&[u8]>, after: &[u8]) -> bool
        ensures { (pages : fmap.FinMap nat_cmp (List ℕ)) → fmap.get pages page ≡ option_copied before.entry
            → HasIndex self.old pages → OnTrue result (HasIndex self.new (fmap.insert pages page after.now)) }
    {
        let slots = self.slots;
        if page >= MOST_PAGES || slots > 64 {
            return false;
        }
        let first = page * slots;
        for r in 0..slots {
            if !self.change_entry(first, r, before, after) {
                return false;
            }
        }
        true
    }
}
