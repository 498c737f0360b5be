// One entry of a directory.
ghost use Rattle.std.specs.Prelude.{◌≡◌, ◌<◌, ◌≤◌, ℕ, List, [], length, slice_index, IfSome, IfNone, unwrap_or};
ghost use Rattle.sv_form.specs.Entry.{HasOneSpelling, HasSpelling, IsEntry, SpellsOneEntry, filled};
ghost use Rattle.sv_form.specs.Name.{IsName};
ghost use Rattle.sv_form.specs.declared.entry.Entry.{Entry};

use crate::name::Name;
use crate::number::{is_zero, number16};

/// An entry of a directory (Bach, chapter 4.3). The name is `None` exactly where the inode is 0, that is in an empty
/// entry; a value that breaks this has no spelling.
#[derive(Clone, Copy, Debug, PartialEq, Eq)]
pub struct Entry {
    pub inode: u16,
    pub name: Option<Name>,
}

/// How many bytes an entry has.
pub const ENTRY_SIZE: usize = 16;

impl Entry {
    /// The entry that these bytes spell.
    pub fn read(from: &[u8]) -> Option<Entry>
        requires { length from.now ≡ 16 }
        ensures some { IfSome result (λ e. IsEntry from.now e) }
        ensures none { IfNone result ((e : Entry) → IsEntry from.now e → ⊥) }
    {
        let inode = number16(from, 0);
        if inode == 0 {
            return if is_zero(from, 2, ENTRY_SIZE) {
                Some(Entry { inode, name: None })
            } else {
                None
            };
        }
        let Some(name) = read_name(&from[2..]) else {
            return None;
        };
        Some(Entry {
            inode,
            name: Some(name),
        })
    }

    /// Spells the entry.
    pub fn write(&self, into: &mut [u8])
        requires len { length into.old ≡ 16 }
        requires spelled { HasSpelling self.now }
        ensures { IsEntry into.new self.now }
    {
        let (number, field) = into.split_at_mut(2);
        number.copy_from_slice(&self.inode.to_le_bytes());
        write_name(&self.name, field);
    }
}

/// No bytes spell two entries, and no entry has two spellings.
pub fn entries_have_one_spelling()
    ensures value { SpellsOneEntry }
    ensures bytes { HasOneSpelling }
{}

// The name that an entry's last fourteen bytes have.
fn read_name(field: &[u8]) -> Option<Name>
    requires { length field.now ≡ 14 }
    ensures some { IfSome result (λ name. IsName name × (field.now ≡ filled name)) }
    ensures none { IfNone result ((name : List ℕ) → IsName name → field.now ≡ filled name → ⊥) }
{
    let (front, rest) = field.split_at(before_zero(field));
    if !is_zero(rest, 0, rest.len()) {
        return None;
    }
    Name::read(front)
}

// How many bytes stand before the first zero byte.
fn before_zero(bytes: &[u8]) -> usize
    ensures within { result ≤ length bytes.now }
    ensures before { (k : ℕ) → k < result → slice_index bytes.now k ≡ 0 → ⊥ }
    ensures zero { result < length bytes.now → slice_index bytes.now result ≡ 0 }
{
    for (i, b) in bytes.iter().enumerate() {
        if *b == 0 {
            return i;
        }
    }
    bytes.len()
}

fn write_name(name: &Option<Name>, into: &mut [u8])
    requires { length into.old ≡ 14 }
    ensures { into.new ≡ filled (unwrap_or name.now []) }
{
    into.fill(0);
    if let Some(name) = name {
        let bytes = name.as_slice();
        into[..bytes.len()].copy_from_slice(bytes);
    }
}
