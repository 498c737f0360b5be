// Whose the lines of an image are: the inode that each line belongs to.
ghost use Rattle.std.specs.Prelude.{◌≡◌, ◌≢◌, ◌≤◌, ◌<◌, ◌+◌, ℕ, ◌++◌, ◌∷◌, [], ◌==◌, if◌then◌else◌, ◌↔◌};
ghost use Rattle.std.specs.Prelude.{length, slice_index, All, IfOk, OnOk, IsTrue};
ghost use Rattle.std.specs.List.{flat_map};
ghost use Rattle.sv_form.specs.Geometry.{IsGeometry, IsPlace, line_count, line_number};
ghost use Rattle.sv_form.specs.OwnerTable.{IsOwnerTable};
ghost use Rattle.sv_form.specs.Owners.{AreLinesOf, HasMore, IsRange, owner_of, range_lines, ranges_at};

use crate::{Geometry, Place, Super};
use std::alloc::Global;
use std::marker::Model;

/// Want of memory.
pub use std::alloc::AllocError as NoMemory;

/// Lines of one block, one after another.
#[derive(Clone, Copy, Debug, PartialEq, Eq)]
pub struct LineRange {
    pub block: u32,
    pub first: u8,
    pub count: u8,
}

/// One inode number for each line of an image, 0 for a line without an owner. A used inode has its own line, its pages
/// and its indirect blocks. A contract sees the sizes of the image and the list of the numbers.
#[derive(Debug, Drop)]
pub struct Owners {
    geometry: Geometry,
    owner: Vec<u16>,
}

/// What the check of an image leaves: its sizes, its superblock, whose each line is, and whether each inode is used.
/// Place n - 1 of `used` stands for inode n.
#[derive(Debug, Drop)]
pub struct Mounted {
    pub geometry: Geometry,
    pub head: Super,
    pub owners: Owners,
    pub used: Vec<bool>,
}

impl Model for Owners {
    ghost use Rattle.sv_form.specs.OwnerTable.{OwnerTable, IsOwnerTable};

    ghost Value = { OwnerTable };

    ghost view = { λ o. record { geometry = o.geometry; owners = o.owner.items } };

    ghost invariant = { λ o. IsOwnerTable (record { geometry = o.geometry; owners = o.owner.items }) };
}

impl Owners {
    /// The numbers stand block by block, in the order of the lines.
    pub fn from_vec(geometry: Geometry, owner: Vec<u16>) -> Owners
        requires sizes { IsGeometry geometry }
        requires lines { length owner.items ≡ line_count geometry }
        ensures { result ≡ record { geometry = geometry; owners = owner.items } }
    {
        Owners { geometry, owner }
    }

    /// The inode whose the line is, 0 for none.
    pub fn owner(&self, place: Place) -> u16
        requires { IsPlace self.now.geometry place }
        ensures value { result ≡ owner_of self.now place }
        ensures table { IsOwnerTable self.now }
    {
        let lines = self.geometry.block_lines() as usize;
        self.owner[place.block as usize * lines + place.line as usize]
    }

    /// The lines of an inode, found among all. Who wants those of many inodes takes `lines_of_all`.
    pub fn lines(&self, alloc: Global, n: u16) -> Result<Vec<LineRange>, NoMemory>
        requires { n ≢ 0 }
        ensures { IfOk result (λ ranges. AreLinesOf self.now n ranges.items) }
    {
        self.lines_of(alloc, n)
    }

    /// The lines without an owner.
    pub fn rest(&self, alloc: Global) -> Result<Vec<LineRange>, NoMemory>
        ensures { IfOk result (λ ranges. AreLinesOf self.now 0 ranges.items) }
    {
        self.lines_of(alloc, 0)
    }

    /// The lines of each inode up to this one, found in one pass: place n has those of inode n, and place 0 those without an owner.
    pub fn lines_of_all(&self, alloc: Global, last: u16) -> Result<Vec<Vec<LineRange>>, NoMemory>
        ensures count { IfOk result (λ all. length all.items ≡ last + 1) }
        ensures lines { IfOk result (λ all. (n : ℕ) → n ≤ last → AreLinesOf self.now n (ranges_at all.items n)) }
    {
        let mut all = no_lines(alloc, usize::from(last) + 1)?;
        for line in 0..self.owner.len() {
            self.add_to_owner(&mut all, line)?;
        }
        Ok(all)
    }

    // Adds a line to the ranges of its owner, where there is a place for them.
    fn add_to_owner(&self, all: &mut Vec<Vec<LineRange>>, line: usize) -> Result<(), NoMemory>
        requires line { line < length self.now.owners }
        requires ranges { (n : ℕ) → n < length all.old.items → All (IsRange self.now.geometry) (ranges_at all.old.items n) }
        ensures count { length all.new.items ≡ length all.old.items }
        ensures lines { OnOk result ((n : ℕ) → n < length all.old.items
            → HasMore self.now line n (ranges_at all.old.items n) (ranges_at all.new.items n)) }
    {
        let n = usize::from(self.owner[line]);
        if n >= all.len() {
            return Ok(());
        }
        let place = place_at(&self.geometry, line);
        add_line(&self.geometry, &mut all[n], place)?;
        Ok(())
    }

    fn lines_of(&self, alloc: Global, n: u16) -> Result<Vec<LineRange>, NoMemory>
        ensures { IfOk result (λ ranges. AreLinesOf self.now n ranges.items) }
    {
        let mut ranges = Vec::new(alloc);
        for line in 0..self.owner.len() {
            self.add_owned(&mut ranges, line, n)?;
        }
        Ok(ranges)
    }

    // Adds a line to the ranges if it is the inode's.
    fn add_owned(&self, ranges: &mut Vec<LineRange>, line: usize, n: u16) -> Result<(), NoMemory>
        requires line { line < length self.now.owners }
        requires ranges { All (IsRange self.now.geometry) ranges.old.items }
        ensures lines { OnOk result (flat_map (range_lines self.now.geometry) ranges.new.items
            ≡ flat_map (range_lines self.now.geometry) ranges.old.items
            ++ (if slice_index self.now.owners line == n then line ∷ [] else [])) }
        ensures ranges { OnOk result (All (IsRange self.now.geometry) ranges.new.items) }
    {
        if self.owner[line] != n {
            return Ok(());
        }
        let place = place_at(&self.geometry, line);
        add_line(&self.geometry, ranges, place)
    }
}

// The place of a line by its number in the image.
fn place_at(geometry: &Geometry, line: usize) -> Place
    requires sizes { IsGeometry geometry.now }
    requires line { line < line_count geometry.now }
    ensures place { IsPlace geometry.now result }
    ensures number { line_number geometry.now result ≡ line }
{
    let lines = geometry.block_lines() as usize;
    Place {
        block: (line / lines) as u32,
        line: (line % lines) as u8,
    }
}

// So many lists without a range.
fn no_lines(alloc: Global, count: usize) -> Result<Vec<Vec<LineRange>>, NoMemory>
    ensures count { IfOk result (λ all. length all.items ≡ count) }
    ensures none { IfOk result (λ all. (n : ℕ) → ranges_at all.items n ≡ []) }
{
    let mut all = Vec::new(alloc);
    for _place in 0..count {
        all.push(Vec::new(alloc))?;
    }
    Ok(all)
}

impl LineRange {
    // Whether the line is the next after the range, in the same block.
    fn is_before(&self, place: Place) -> bool
        ensures { IsTrue result ↔ ((self.now.block ≡ place.block) × (self.now.first + self.now.count ≡ place.line)) }
    {
        self.block == place.block
            && u16::from(self.first) + u16::from(self.count) == u16::from(place.line)
    }
}

// Adds a line to the last of the ranges, or as a range of its own.
fn add_line(geometry: &Geometry, ranges: &mut Vec<LineRange>, place: Place) -> Result<(), NoMemory>
    requires sizes { IsGeometry geometry.now }
    requires place { IsPlace geometry.now place }
    requires ranges { All (IsRange geometry.now) ranges.old.items }
    ensures lines { OnOk result (flat_map (range_lines geometry.now) ranges.new.items
        ≡ flat_map (range_lines geometry.now) ranges.old.items ++ line_number geometry.now place ∷ []) }
    ensures ranges { OnOk result (All (IsRange geometry.now) ranges.new.items) }
{
    let len = ranges.len();
    if len > 0 {
        if ranges[len - 1].is_before(place) {
            ranges[len - 1].count += 1;
            return Ok(());
        }
    }
    ranges.push(LineRange {
        block: place.block,
        first: place.line,
        count: 1,
    })?;
    Ok(())
}
