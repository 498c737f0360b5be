// The history, which always has room for the entries that may not fail.
ghost use Rattle.std.specs.Prelude.{◌≡◌, ◌+◌, ◌≤◌, ◌++◌, ◌∷◌, [], IfOk, OnErr, OnOk, length, vec_capacity};

use crate::NoMemory;
use std::alloc::Global;
use sv_plain::Entry;

// The entries so far, with room for so many more that are owed: each reference is given back by a step that may not fail for want
// of memory.
pub struct History {
    pub(crate) entries: Vec<Entry>,
    pub(crate) owed: usize,
    ghost room: { length entries.items + owed ≤ vec_capacity entries },
}

impl History {
    // No entry, with room for those that are owed from the beginning.
    pub fn new(alloc: Global, owed: usize) -> Result<History, NoMemory>
        ensures { IfOk result (λ h. (h.entries.items ≡ []) × (h.owed ≡ owed)) }
    {
        let entries = Vec::with_capacity(alloc, owed)?;
        Ok(History { entries, owed })
    }

    // Adds an entry.
    pub fn push(&mut self, entry: Entry) -> Result<(), NoMemory>
        ensures owed { self.new.owed ≡ self.old.owed }
        ensures ok { OnOk result (self.new.entries.items ≡ self.old.entries.items ++ entry ∷ []) }
        ensures err { OnErr result (self.new.entries.items ≡ self.old.entries.items) }
    {
        let Some(more) = self.owed.checked_add(1) else {
            return Err(NoMemory);
        };
        self.entries.reserve(more)?;
        self.entries.push_reserved(entry);
        Ok(())
    }

    // Adds an entry by which one more is owed.
    pub fn push_owing(&mut self, entry: Entry) -> Result<(), NoMemory>
        ensures ok { OnOk result ((self.new.entries.items ≡ self.old.entries.items ++ entry ∷ []) × (self.new.owed ≡ self.old.owed + 1)) }
        ensures err { OnErr result ((self.new.entries.items ≡ self.old.entries.items) × (self.new.owed ≡ self.old.owed)) }
    {
        let Some(more) = self.owed.checked_add(2) else {
            return Err(NoMemory);
        };
        self.entries.reserve(more)?;
        self.entries.push_reserved(entry);
        self.owed = more - 1;
        Ok(())
    }
}
