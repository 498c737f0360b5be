// The entries of a directory that stand in one page.
ghost use Rattle.std.specs.Prelude.{◌≡◌, ◌↔◌, ◌<◌, ◌≤◌, ◌*◌, ◌/◌, ◌%◌, ℕ, Some, None, length, IfSome, IfNone, IsTrue};
ghost use Rattle.sv_form.specs.Number.{number16};
ghost use Rattle.sv_form.specs.Entry.{IsEntry};
ghost use Rattle.sv_form.specs.declared.entry.Entry.{Entry};
ghost use Rattle.sv_dir.specs.Page.{IsPage, FirstEmpty, FirstNamed, HasEmpty, HasNamed, entry_count, piece};

use sv_form::{ENTRY_SIZE, Entry, Name, number16};

/// The most bytes of a page.
pub const PAGE_MAX: usize = 1024;

/// The place in the page, from 0, and the inode of the first entry with that name (Bach, algorithm namei). Sixteen bytes
/// that spell no entry have no name.
pub fn find(page: &[u8], name: &Name) -> Option<(u32, u16)>
    requires { IsPage page.now }
    ensures some { IfSome result (λ found. FirstNamed page.now name.now found.0 found.1) }
    ensures none { IfNone result ((place inode : ℕ) → HasNamed page.now name.now place inode → ⊥) }
{
    for place in 0..page.len() / ENTRY_SIZE {
        if let Some(inode) = inode_named(page, place, name) {
            return Some((place as u32, inode));
        }
    }
    None
}

/// The place of the first empty entry: sixteen zero bytes.
pub fn empty_place(page: &[u8]) -> Option<u32>
    requires { IsPage page.now }
    ensures some { IfSome result (FirstEmpty page.now) }
    ensures none { IfNone result ((place : ℕ) → HasEmpty page.now place → ⊥) }
{
    for place in 0..page.len() / ENTRY_SIZE {
        if is_empty_entry(page, place) {
            return Some(place as u32);
        }
    }
    None
}

/// Whether no entry from that place on has an inode. Sixteen bytes that spell no entry have the inode that their first
/// two bytes give.
pub fn is_empty(page: &[u8], first: u32) -> bool
    requires { IsPage page.now }
    ensures { IsTrue result ↔ ((place : ℕ) → first ≤ place → place < entry_count page.now → number16 page.now (16 * place) ≡ 0) }
{
    for place in first as usize..page.len() / ENTRY_SIZE {
        if number16(page, ENTRY_SIZE * place) != 0 {
            return false;
        }
    }
    true
}

// The inode of the entry at that place, where the entry has that name.
fn inode_named(page: &[u8], place: usize, name: &Name) -> Option<u16>
    requires page { IsPage page.now }
    requires place { place < entry_count page.now }
    ensures some { IfSome result (HasNamed page.now name.now place) }
    ensures none { IfNone result ((inode : ℕ) → HasNamed page.now name.now place inode → ⊥) }
{
    let Some(entry) = entry_at(page, place) else {
        return None;
    };
    let Some(found) = entry.name else {
        return None;
    };
    if found.as_slice() == name.as_slice() {
        Some(entry.inode)
    } else {
        None
    }
}

fn is_empty_entry(page: &[u8], place: usize) -> bool
    requires page { IsPage page.now }
    requires place { place < entry_count page.now }
    ensures { IsTrue result ↔ HasEmpty page.now place }
{
    match entry_at(page, place) {
        Some(entry) => entry.inode == 0,
        None => false,
    }
}

fn entry_at(page: &[u8], place: usize) -> Option<Entry>
    requires page { IsPage page.now }
    requires place { place < entry_count page.now }
    ensures some { IfSome result (λ e. IsEntry (piece page.now place) e) }
    ensures none { IfNone result ((e : Entry) → IsEntry (piece page.now place) e → ⊥) }
{
    let at = ENTRY_SIZE * place;
    Entry::read(&page[at..at + ENTRY_SIZE])
}
