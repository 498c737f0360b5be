// What the entries of directories say of each inode: conditions 15 and 16 of a sound image stand on it.
ghost use Rattle.std.specs.Prelude.{◌≡◌, ◌<◌, ◌≤◌, ◌+◌, ◌/◌, ◌%◌, ◌^◌, ℕ, List, All, length, replicate, IfOk};
ghost use Rattle.sv_form.specs.Geometry.{IsGeometry, inode_count};
ghost use Rattle.sv_plain.specs.Names.{same_bytes};
ghost use Rattle.sv_check.specs.Climbs.{is_well_placed};
ghost use Rattle.sv_check.specs.Directories.{dot, dots, name_in, named_by, pieces};
ghost use Rattle.sv_check.specs.Standings.{after, named, standing_of, step, told_from, unnamed, with_dots};

use crate::inodes::ROOT;
use std::alloc::Global;
use sv_form::{ENTRY_SIZE, Geometry, NoMemory, number16};

/// What the entries of directories say of one inode: how many name it, and how many of these are neither entry 0 nor
/// entry 1 of their directory, both counted up to 65,535, and the directory of the last of these. Then, of a directory,
/// the inode that its `..` names, 0 where entry 1 has another name, and whether its entry 0 is `.` and names it.
#[derive(Clone, Copy)]
pub(crate) struct Standing {
    pub(crate) times: u16,
    pub(crate) held: u16,
    pub(crate) holder: u16,
    pub(crate) above: u16,
    pub(crate) dot: bool,
}

// Of an inode of which no entry says anything.
const UNNAMED: Standing = Standing {
    times: 0,
    held: 0,
    holder: 0,
    above: 0,
    dot: false,
};

/// The standing of each inode, by its number; place 0 is for empty entries.
#[derive(Drop)]
pub(crate) struct Standings {
    pub(crate) of: Vec<Standing>,
}

impl Standing {
    // After one more entry that names the inode.
    fn named(self, directory: u16, place: u64) -> Standing
        ensures { (entry : List ℕ) → result ≡ named (record { directory = directory; place = place; entry = entry }) self }
    {
        let times = self.times.saturating_add(1);
        if place < 2 {
            return Standing { times, ..self };
        }
        Standing {
            times,
            held: self.held.saturating_add(1),
            holder: directory,
            ..self
        }
    }

    // Whether directory n, whose the standing is, has its `.` and its `..`, and stands once and there where this leads.
    fn is_well_placed(self, n: u16) -> bool
        ensures { result ≡ is_well_placed n self }
    {
        if !self.dot || self.above == 0 {
            return false;
        }
        if n == ROOT {
            return self.above == ROOT && self.held == 0;
        }
        self.held == 1 && self.holder == self.above
    }

    // After one more entry of the directory whose the standing is.
    fn with_dots(self, directory: u16, place: u64, entry: &[u8]) -> Standing
        requires { length entry.now ≡ 16 }
        ensures { result ≡ with_dots (record { directory = directory; place = place; entry = entry.now }) self }
    {
        if place == 0 {
            let dot = self.dot || (number16(entry, 0) == directory && is_dot(entry));
            return Standing { dot, ..self };
        }
        if place == 1 && is_dots(entry) {
            return Standing {
                above: number16(entry, 0),
                ..self
            };
        }
        self
    }
}

// Whether the name of an entry is `.`.
fn is_dot(entry: &[u8]) -> bool
    requires { length entry.now ≡ 16 }
    ensures { result ≡ same_bytes (name_in entry.now) dot }
{
    entry[2] == b'.' && entry[3] == 0
}

// Whether the name of an entry is `..`.
fn is_dots(entry: &[u8]) -> bool
    requires { length entry.now ≡ 16 }
    ensures { result ≡ same_bytes (name_in entry.now) dots }
{
    entry[2] == b'.' && entry[3] == b'.' && entry[4] == 0
}

impl Standings {
    /// Nothing is said of any inode yet.
    pub(crate) fn new(alloc: Global, sizes: &Geometry) -> Result<Standings, NoMemory>
        requires sizes { IsGeometry sizes.now }
        ensures none { IfOk result (λ s. standing_of s ≡ (λ n. unnamed)) }
        ensures len { IfOk result (λ s. length s.of.items ≡ inode_count sizes.now + 1) }
    {
        let of = vec![in alloc; UNNAMED; sizes.inode_count() as usize + 1]?;
        Ok(Standings { of })
    }

    /// Whether directory n is well placed; no inode is that is not in the list.
    pub(crate) fn is_well_placed(&self, n: u16) -> bool
        ensures { result ≡ is_well_placed n (standing_of self.now n) }
    {
        match self.of.get(usize::from(n)) {
            None => false,
            Some(standing) => standing.is_well_placed(n),
        }
    }

    // Takes an entry at a place of a directory.
    fn tell(&mut self, directory: u16, place: u64, entry: &[u8])
        requires entry { length entry.now ≡ 16 }
        requires inode { named_by entry.now < length self.old.of.items }
        requires directory { directory < length self.old.of.items }
        ensures told { standing_of self.new ≡ step (standing_of self.old)
            (record { directory = directory; place = place; entry = entry.now }) }
        ensures len { length self.new.of.items ≡ length self.old.of.items }
    {
        let inode = usize::from(number16(entry, 0));
        self.of[inode] = self.of[inode].named(directory, place);
        let own = usize::from(directory);
        self.of[own] = self.of[own].with_dots(directory, place, entry);
    }

    /// Takes the entries of a part of a directory, the first of which stands at this place there.
    pub(crate) fn tell_entries(&mut self, directory: u16, first: u64, bytes: &[u8])
        requires bytes { length bytes.now % 16 ≡ 0 }
        requires places { first + length bytes.now < 2 ^ 64 }
        requires inodes { All (λ e. named_by e < length self.old.of.items) (pieces (length bytes.now / 16) bytes.now) }
        requires directory { directory < length self.old.of.items }
        ensures told { standing_of self.new ≡ after (standing_of self.old)
            (told_from directory first (pieces (length bytes.now / 16) bytes.now)) }
        ensures len { length self.new.of.items ≡ length self.old.of.items }
    {
        for k in 0..bytes.len() / ENTRY_SIZE {
            let at = ENTRY_SIZE * k;
            self.tell(directory, first + k as u64, &bytes[at..at + ENTRY_SIZE]);
        }
    }
}
