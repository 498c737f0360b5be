// The names of a directory.
ghost use Rattle.std.specs.Prelude.{◌≡◌, ◌≢◌, ◌≤◌, ◌<◌, ◌+◌, ◌*◌, ◌/◌, ℕ, IfOk, IfSome, IsSome, None, OnErr, OnOk, length, replicate};
ghost use Rattle.std.specs.Prelude.{slice_index};
ghost use Rattle.sv_form.specs.Entries.{until_zero};
ghost use Rattle.sv_form.specs.Node.{Node, entry_inode};
ghost use Rattle.sv_form.specs.NodeChanges as changes;
ghost use Rattle.sv_form.specs.NodeNames.{child_of, place_of, same_bytes, without_entry};
ghost use Rattle.sv_form.specs.Number.{number16};
ghost use Rattle.sv_form.specs.PagePath.{IsPage, greatest_size};
ghost use Rattle.sv_store.specs.Causes.{HasFault};
ghost use Rattle.sv_store.specs.Frames.{Unchanged};
ghost use Rattle.sv_store.specs.Calls.{Gets};
ghost use Rattle.sv_store.specs.Held.{HoldsBlock, SameLines, nothing_lent, put};
ghost use Rattle.sv_store.specs.Loan.{Loan};
ghost use Rattle.sv_bmap.specs.Tree.{IsTree};
ghost use Rattle.sv_inode.specs.Frames.{KeepsFront};
ghost use Rattle.sv_inode.specs.Names.{Finds, inode_in, is_at, is_named, is_sought, is_sought_at, is_sought_in_hole};
ghost use Rattle.sv_inode.specs.StandsFor.{HasTree, StandsFor};
ghost use Rattle.sv_inode.specs.Truncate.{HoldsOnly};
ghost use Rattle.sv_inode.specs.Write.{patched};

use crate::LockedInode;
use std::sync::Wait;
use sv_bmap::lookup;
use sv_form::{ENTRY_SIZE, InodeBody, Name, number16};
use sv_store::{Refusal, Stake};

// The place of an entry, from 0, and its inode.
type Found = (u32, u16);

// How many bytes stand before the first zero byte.
fn before_zero(bytes: &[u8]) -> usize
    ensures within { result ≤ length bytes.now }
    ensures before { (k : ℕ) → k < result → slice_index bytes.now k ≡ 0 → ⊥ }
    ensures zero { result < length bytes.now → slice_index bytes.now result ≡ 0 }
{
    for (i, b) in bytes.iter().enumerate() {
        if *b == 0 {
            return i;
        }
    }
    bytes.len()
}

// Whether what stands before the first zero byte is the name.
fn same_name(field: &[u8], name: &Name) -> bool
    ensures { result ≡ same_bytes (until_zero field.now) name.now }
{
    let end = before_zero(field);
    &field[..end] == name.as_slice()
}

// Whether the entry that begins at this byte has the name.
fn is_named(page: &[u8], name: &Name, at: usize) -> bool
    requires { at + 16 ≤ length page.now }
    ensures { result ≡ is_named page.now name.now at }
{
    number16(page, at) != 0 && same_name(&page[at + 2..at + ENTRY_SIZE], name)
}

// Whether the entry that begins at this byte has the name, or is empty where none is asked for.
fn is_sought(page: &[u8], name: &Option<Name>, at: usize) -> bool
    requires { at + 16 ≤ length page.now }
    ensures { result ≡ is_sought page.now name.now at }
{
    match name {
        Some(name) => is_named(page, name, at),
        None => number16(page, at) == 0,
    }
}

// The first of so many entries of a page that has the name, or is empty where none is asked for.
fn find_sought(page: &[u8], name: &Option<Name>, count: u32) -> Option<Found>
    requires { 16 * count ≤ length page.now }
    ensures found { Finds (is_sought_at page.now name.now) (inode_in page.now) count result }
    ensures within { IfSome result (λ found. found.0 < count) }
{
    for place in 0..count {
        let at = ENTRY_SIZE * place as usize;
        if is_sought(page, name, at) {
            return Some((place, number16(page, at)));
        }
    }
    None
}

// The first of so many entries of a hole: all are empty, and none has a name.
fn find_in_hole(name: &Option<Name>, count: u32) -> Option<Found>
    ensures found { Finds (is_sought_in_hole name.now) (λ j. 0) count result }
    ensures within { IfSome result (λ found. found.0 < count) }
{
    if count == 0 {
        return None;
    }
    match name {
        Some(_) => None,
        None => Some((0, 0)),
    }
}

// The first of so many entries of a page of the directory that has the name, or is empty where none is asked for, counted
// from the page's first one on.
fn find_in_page<R: Wait, S: Stake>(
    rt: &R,
    body: &InodeBody,
    s: &mut S,
    name: &Option<Name>,
    page: u32,
    count: u32,
) -> Result<Option<Found>, Refusal>
    requires tree { IsTree (S.origin s.old) (S.held s.old) body.now.addresses }
    requires page { IsPage (S.origin s.old).sizes page }
    requires count { 16 * count ≤ (S.origin s.old).sizes.block_size }
    requires lent { S.lent s.old ≡ nothing_lent }
    ensures found { (node : Node) → StandsFor (S.origin s.old) (S.held s.old) body.now node
        → IfOk result (Finds (λ j. is_at (S.origin s.old).sizes.block_size node name.now (64 * page + j))
        (λ j. entry_inode (S.origin s.old).sizes.block_size node (64 * page + j)) count) }
    ensures within { IfOk result (λ found. IfSome found (λ found. found.0 < count)) }
    ensures stake { Unchanged S.held S.lent S.origin S.forced s.old s.new }
    ensures cause { HasFault (S.faults s.old) (S.faults s.new) result }
{
    let _sizes = s.geometry();
    let block = lookup(rt, &body.addresses, s, page)?;
    let Some(b) = block else {
        return Ok(find_in_hole(name, count));
    };
    let buf = s.bread(rt, b)?;
    let bytes = buf.bytes();
    let found = find_sought(bytes, name, count);
    s.brelse(rt, buf);
    Ok(found)
}

// The first entry of the directory that has the name (Bach, chapter 4.4, algorithm namei), or is empty where none is asked
// for, page by page.
pub(crate) fn find_entry<R: Wait, S: Stake>(
    rt: &R,
    body: &InodeBody,
    s: &mut S,
    name: &Option<Name>,
) -> Result<Option<Found>, Refusal>
    requires tree { IsTree (S.origin s.old) (S.held s.old) body.now.addresses }
    requires size { body.now.size ≤ greatest_size (S.origin s.old).sizes }
    requires lent { S.lent s.old ≡ nothing_lent }
    ensures found { (node : Node) → StandsFor (S.origin s.old) (S.held s.old) body.now node
        → IfOk result (Finds (is_at (S.origin s.old).sizes.block_size node name.now)
        (entry_inode (S.origin s.old).sizes.block_size node) (body.now.size / 16)) }
    ensures within { IfOk result (λ found. IfSome found (λ found. found.0 < body.now.size / 16)) }
    ensures stake { Unchanged S.held S.lent S.origin S.forced s.old s.new }
    ensures cause { HasFault (S.faults s.old) (S.faults s.new) result }
{
    let sizes = s.geometry();
    let pages = body.size.div_ceil(sizes.block_size);
    for page in 0..pages {
        let count = (body.size - page * sizes.block_size).min(sizes.block_size) / 16;
        if let Some((place, inode)) = find_in_page(rt, body, s, name, page, count)? {
            return Ok(Some((64 * page + place, inode)));
        }
    }
    Ok(None)
}

// Makes the bytes of an entry zero.
fn blank(bytes: &mut [u8], from: usize)
    requires fits { from + 16 ≤ length bytes.old }
    ensures bytes { bytes.new ≡ patched bytes.old from (replicate 16 0) }
    ensures len { length bytes.new ≡ length bytes.old }
{
    bytes[from..from + ENTRY_SIZE].copy_from_slice(&[0; ENTRY_SIZE]);
}

// Makes the bytes of an entry zero in a block.
fn blank_in<R: Wait, S: Stake>(rt: &R, s: &mut S, b: u32, from: usize) -> Result<(), Refusal>
    requires block { HoldsBlock (S.origin s.old) (S.held s.old) b }
    requires fits { from + 16 ≤ (S.origin s.old).sizes.block_size }
    requires lent { S.lent s.old ≡ nothing_lent }
    ensures ok { OnOk result ((buf : Loan)
        × (Gets (S.origin s.old) (S.held s.old) b buf × (S.held s.new ≡ put b (patched buf.bytes from (replicate 16 0)) (S.held s.old)))) }
    ensures err { OnErr result (S.held s.new ≡ S.held s.old) }
    ensures lines { SameLines (S.held s.new) (S.held s.old) }
    ensures others { (c l : ℕ) → c ≢ b → S.held s.new c l ≡ S.held s.old c l }
    ensures lends { S.lent s.new ≡ nothing_lent }
    ensures forced { S.forced s.new ≡ S.forced s.old }
    ensures origin { S.origin s.new ≡ S.origin s.old }
    ensures cause { HasFault (S.faults s.old) (S.faults s.new) result }
{
    let _sizes = s.geometry();
    let mut buf = s.bread(rt, b)?;
    let bytes = buf.bytes_mut();
    blank(bytes, from);
    s.bdwrite(rt, buf);
    Ok(())
}

// Makes the bytes of an entry with an inode zero. Its page is present.
fn blank_entry<R: Wait, S: Stake>(
    rt: &R,
    body: &InodeBody,
    s: &mut S,
    place: u32,
) -> Result<(), Refusal>
    requires tree { HasTree (S.origin s.old) (S.held s.old) body.now.addresses }
    requires size { body.now.size ≤ greatest_size (S.origin s.old).sizes }
    requires place { place < body.now.size / 16 }
    requires used { (node : Node) → StandsFor (S.origin s.old) (S.held s.old) body.now node
        → entry_inode (S.origin s.old).sizes.block_size node place ≢ 0 }
    requires lent { S.lent s.old ≡ nothing_lent }
    ensures node { (node : Node) → StandsFor (S.origin s.old) (S.held s.old) body.now node
        → OnOk result (StandsFor (S.origin s.new) (S.held s.new) body.now
        (changes.put (S.origin s.old).sizes.block_size node (16 * place) (replicate 16 0))) }
    ensures only { (n : ℕ) → HoldsOnly (S.origin s.old) (S.held s.old) n body.now.addresses
        → HoldsOnly (S.origin s.old) (S.held s.new) n body.now.addresses }
    ensures kept { OnErr result (S.held s.new ≡ S.held s.old) }
    ensures lines { SameLines (S.held s.new) (S.held s.old) }
    ensures front { KeepsFront S.held S.lent S.origin S.forced S.faults s.old s.new }
    ensures cause { HasFault (S.faults s.old) (S.faults s.new) result }
{
    let sizes = s.geometry();
    let at = 16 * place;
    let page = at / sizes.block_size;
    let from = at % sizes.block_size;
    let block = lookup(rt, &body.addresses, s, page)?;
    match block {
        Some(b) => blank_in(rt, s, b, from as usize),
        None => Ok(()),
    }
}

impl<S: Stake> LockedInode<S> {
    /// The inode that the name leads to in the directory (Bach, chapter 4.4, algorithm namei), that of the first entry
    /// with the name. Each page is read once, and no memory is taken. A refusal is a fault that the stake has counted.
    pub fn look<R: Wait>(&mut self, rt: &R, name: &Name) -> Result<Option<u16>, Refusal>
        requires tree { IsTree (S.origin self.old.stake) (S.held self.old.stake) self.old.body.addresses }
        requires size { self.old.body.size ≤ greatest_size (S.origin self.old.stake).sizes }
        requires lent { S.lent self.old.stake ≡ nothing_lent }
        ensures found { (node : Node) → StandsFor (S.origin self.old.stake) (S.held self.old.stake) self.old.body node
            → IfOk result (λ found. found ≡ child_of (S.origin self.old.stake).sizes.block_size node name.now) }
        ensures number { self.new.number ≡ self.old.number }
        ensures body { self.new.body ≡ self.old.body }
        ensures stake { Unchanged S.held S.lent S.origin S.forced self.old.stake self.new.stake }
        ensures cause { HasFault (S.faults self.old.stake) (S.faults self.new.stake) result }
    {
        let sought = Some(*name);
        match find_entry(rt, &self.body, &mut self.stake, &sought)? {
            Some((_, inode)) => Ok(Some(inode)),
            None => Ok(None),
        }
    }

    /// Makes the entry with this name empty (Bach, chapter 5.16, algorithm unlink): all its bytes become zero. It is meant
    /// for a name that is there, and changes no line for another. A refusal is a fault that the stake has counted, and changes
    /// no line.
    pub fn clear<R: Wait>(&mut self, rt: &R, name: &Name) -> Result<(), Refusal>
        requires tree { HasTree (S.origin self.old.stake) (S.held self.old.stake) self.old.body.addresses }
        requires size { self.old.body.size ≤ greatest_size (S.origin self.old.stake).sizes }
        requires lent { S.lent self.old.stake ≡ nothing_lent }
        ensures node { (node : Node) → StandsFor (S.origin self.old.stake) (S.held self.old.stake) self.old.body node
            → IsSome (place_of (S.origin self.old.stake).sizes.block_size node name.now)
            → OnOk result (StandsFor (S.origin self.new.stake) (S.held self.new.stake) self.new.body
            (without_entry (S.origin self.old.stake).sizes.block_size name.now node)) }
        ensures absent { (node : Node) → StandsFor (S.origin self.old.stake) (S.held self.old.stake) self.old.body node
            → place_of (S.origin self.old.stake).sizes.block_size node name.now ≡ None
            → OnOk result (S.held self.new.stake ≡ S.held self.old.stake) }
        ensures only { (n : ℕ) → HoldsOnly (S.origin self.old.stake) (S.held self.old.stake) n self.old.body.addresses
            → HoldsOnly (S.origin self.old.stake) (S.held self.new.stake) n self.new.body.addresses }
        ensures kept { OnErr result (S.held self.new.stake ≡ S.held self.old.stake) }
        ensures lines { SameLines (S.held self.new.stake) (S.held self.old.stake) }
        ensures number { self.new.number ≡ self.old.number }
        ensures body { self.new.body ≡ self.old.body }
        ensures front { KeepsFront S.held S.lent S.origin S.forced S.faults self.old.stake self.new.stake }
        ensures cause { HasFault (S.faults self.old.stake) (S.faults self.new.stake) result }
    {
        let sought = Some(*name);
        let found = find_entry(rt, &self.body, &mut self.stake, &sought)?;
        match found {
            Some((place, _)) => blank_entry(rt, &self.body, &mut self.stake, place),
            None => Ok(()),
        }
    }
}
