// The entries of one directory (Bach, chapter 4.3): condition 14 of a sound image.
ghost use Rattle.std.specs.Prelude.{◌≡◌, ◌≢◌, ◌≤◌, ◌/◌, ◌%◌, ◌∷◌, ◌&&◌, [], ℕ, List, not, length, nat_le, IfOk};
ghost use Rattle.std.specs.Bool.{OnTrue};
ghost use Rattle.sv_form.specs.Geometry.{inode_count};
ghost use Rattle.sv_form.specs.Image.{inode_of};
ghost use Rattle.sv_form.specs.declared.geometry.Geometry.{Geometry};
ghost use Rattle.sv_check.specs.Directories.{name_in, pieces};
ghost use Rattle.sv_check.specs.EntrySteps.{IsEntryRead, Takes, is_taken, seen_after, with_entry};
ghost use Rattle.sv_check.specs.InodeList.{is_free, used_flags};
ghost use Rattle.sv_check.specs.SeenNames.{HasSeen, IsNamed};

use std::alloc::Global;
use std::collections::BTreeSet;
use sv_form::{ENTRY_SIZE, Entry, NoMemory};

// The entry that sixteen bytes spell.
fn read_entry(bytes: &[u8]) -> Option<Entry>
    requires { length bytes.now ≡ 16 }
    ensures { IsEntryRead bytes.now result }
{
    Entry::read(bytes)
}

// Whether inode n is in the list and used, from the flags of all.
fn is_used(used: &[bool], n: u16) -> bool
    requires { n ≢ 0 }
    ensures { (g : Geometry) (image : List ℕ) → used.now ≡ used_flags g image
        → result ≡ (nat_le n (inode_count g) && not (is_free (inode_of g image n))) }
{
    let place = usize::from(n) - 1;
    if place < used.len() {
        used[place]
    } else {
        false
    }
}

/// The names that were seen in a directory, each as the fourteen bytes that its entry has for it.
#[derive(Drop)]
pub(crate) struct SeenNames {
    fields: BTreeSet<[u8; 14]>,
}

impl SeenNames {
    pub(crate) fn new(alloc: Global) -> SeenNames
        ensures { HasSeen result [] }
    {
        SeenNames {
            fields: BTreeSet::new(alloc),
        }
    }

    // Takes the name of an entry; false if it was seen before.
    fn take_name(&mut self, entry: &[u8]) -> Result<bool, NoMemory>
        requires { length entry.now ≡ 16 }
        ensures new { IfOk result (λ new. (seen : List (List ℕ)) → HasSeen self.old seen → IsNamed entry.now
            → new ≡ not (is_taken seen (name_in entry.now))) }
        ensures seen { IfOk result (λ new. (seen : List (List ℕ)) → HasSeen self.old seen → IsNamed entry.now
            → HasSeen self.new (entry.now ∷ seen)) }
    {
        let mut field = [0; 14];
        field.copy_from_slice(&entry[2..]);
        let new = self.fields.insert(field)?;
        Ok(new)
    }

    // Takes an entry; false if it does not read, leads nowhere, or has a name that was seen before.
    fn take_entry(&mut self, used: &[bool], bytes: &[u8]) -> Result<bool, NoMemory>
        requires { length bytes.now ≡ 16 }
        ensures takes { IfOk result (λ ok. (g : Geometry) (image : List ℕ) (seen : List (List ℕ)) → used.now ≡ used_flags g image
            → HasSeen self.old seen → Takes g image seen (bytes.now ∷ []) ok) }
        ensures seen { IfOk result (λ ok. OnTrue ok ((seen : List (List ℕ)) → HasSeen self.old seen
            → HasSeen self.new (with_entry seen bytes.now))) }
    {
        let Some(entry) = read_entry(bytes) else {
            return Ok(false);
        };
        if entry.inode == 0 {
            return Ok(true);
        }
        if !is_used(used, entry.inode) {
            return Ok(false);
        }
        let is_new = self.take_name(bytes)?;
        Ok(is_new)
    }

    /// Takes the entries of a part of a directory in order; false where one is not in order.
    pub(crate) fn take_entries(&mut self, used: &[bool], bytes: &[u8]) -> Result<bool, NoMemory>
        requires { length bytes.now % 16 ≡ 0 }
        ensures takes { IfOk result (λ ok. (g : Geometry) (image : List ℕ) (seen : List (List ℕ)) → used.now ≡ used_flags g image
            → HasSeen self.old seen → Takes g image seen (pieces (length bytes.now / 16) bytes.now) ok) }
        ensures seen { IfOk result (λ ok. OnTrue ok ((seen : List (List ℕ)) → HasSeen self.old seen
            → HasSeen self.new (seen_after seen (pieces (length bytes.now / 16) bytes.now)))) }
    {
        for k in 0..bytes.len() / ENTRY_SIZE {
            let at = ENTRY_SIZE * k;
            if !self.take_entry(used, &bytes[at..at + ENTRY_SIZE])? {
                return Ok(false);
            }
        }
        Ok(true)
    }
}
