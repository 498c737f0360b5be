// Lines of blocks in a linked list: each operation goes over the list once, and takes no memory.
ghost use Rattle.std.specs.Prelude.{◌≡◌, ◌≢◌, ◌<◌, ◌≤◌, ◌+◌, ◌*◌, ◌++◌, ◌==◌, ℕ, List, Some, None, true, IsSome, length, map, take, drop};
ghost use Rattle.std.specs.Prelude.{slice_set, slice_index_or, if◌then◌else◌, IfSome, IsTrue, false, unwrap_or, replicate, IfOk, OnOk, not};
ghost use Rattle.std.specs.Prelude.{◌∷◌, []};
ghost use Rattle.std.specs.List.{position, list_all, list_any, All};
ghost use Rattle.std.specs.LinkedList.{linked_list_len};
ghost use Rattle.sv_form.specs.Geometry.{IsGeometry};
ghost use Rattle.sv_store.specs.Calls.{CanGet};
ghost use Rattle.sv_store.specs.Held.{line_of, in_ranges, covers, put, with, without, nothing_lent, Apart, Both};
ghost use Rattle.sv_store.specs.Content.{block_bytes};
ghost use Rattle.sv_store.specs.OwnBlock.{nowhere, is_out, filled, line_in, held_of, lent_of, IsSound, masked_lines, masked, copied};
ghost use Rattle.sv_store.specs.OwnBlock.{holds_any, left, whole_block, whole_blocks, has_all, has_none_else, holds_range};

use std::alloc::{AllocError, Global};
use std::collections::LinkedList;
use std::marker::Model;
use sv_form::{Geometry, LineRange};

/// Some lines of one block, with the two vectors that reading and writing them needs.
#[derive(Drop)]
pub struct Own {
    block: u32,
    lines: Vec<bool>,
    kept: Vec<u8>,
    spare: Option<Vec<u8>>,
}

impl Model for Own {
    ghost use Rattle.std.specs.Prelude.{option_map};
    ghost use Rattle.sv_store.specs.OwnBlock.{OwnBlock};

    ghost Value = { OwnBlock };

    ghost view = { λ own. record {
      block = own.block;
      lines = own.lines.items;
      kept = own.kept.items;
      spare = option_map
          (λ bytes. bytes.items) own.spare;
    } };
}

impl Own {
    // The number of the block.
    fn block(&self) -> u32
        ensures { result ≡ self.now.block }
    {
        self.block
    }

    #[tactic(auto, unfolding(crate::specs::OwnBlock::is_out))]
    // Whether this block is lent out of here.
    fn is_out(&self, b: u32) -> bool
        ensures { result ≡ is_out b self.now }
    {
        self.block == b && self.spare.is_none()
    }

    // Takes the bytes that can be lent.
    fn take_spare(&mut self) -> Option<Vec<u8>>
        ensures own { self.new ≡ record self.old { spare = None } }
        ensures bytes { IfSome result (λ bytes. self.old.spare ≡ Some bytes.items) }
        ensures some { IsSome self.old.spare → IsSome result }
    {
        self.spare.take()
    }

    // Gives back the bytes that were lent.
    fn put_spare(&mut self, bytes: Vec<u8>)
        ensures { self.new ≡ record self.old { spare = Some bytes.items } }
    {
        self.spare = Some(bytes);
    }

    #[tactic(auto, unfolding(crate::specs::OwnBlock::filled))]
    // These bytes in place of the block's, if it is this block.
    fn fill(&mut self, b: u32, bytes: &[u8])
        requires { length self.old.kept ≡ length bytes.now }
        ensures { self.new ≡ filled b bytes.now self.old }
    {
        if self.block == b {
            self.kept.copy_from_slice(bytes);
        }
    }

    #[tactic(auto, unfolding(crate::specs::OwnBlock::line_in, crate::specs::OwnBlock::has))]
    // Copies the lines that are held, if it is this block.
    fn copy_lines(&self, b: u32, into: &mut [u8])
        requires kept { length self.now.kept ≡ length into.old }
        requires lines { length self.now.lines * 64 ≡ length into.old }
        ensures { (l : ℕ) → line_of into.new l ≡ unwrap_or (line_in self.now b l) (line_of into.old l) }
    {
        if self.block == b {
            copy_held(self.lines.as_slice(), self.kept.as_slice(), into);
        }
    }
}

impl Own {
    // Copies the lines that are held to the block's place among all blocks.
    fn copy_out(&self, content: &mut [Vec<u8>])
        requires place { self.now.block < length content.old }
        requires kept { length self.now.kept ≡ length (block_bytes content.old self.now.block) }
        requires lines { length self.now.lines * 64 ≡ length (block_bytes content.old self.now.block) }
        ensures count { length content.new ≡ length content.old }
        ensures sizes { (b : ℕ) → length (block_bytes content.new b) ≡ length (block_bytes content.old b) }
        ensures lines { (b l : ℕ) → line_of (block_bytes content.new b) l
            ≡ unwrap_or (line_in self.now b l) (line_of (block_bytes content.old b) l) }
    {
        let at = self.block as usize;
        self.copy_lines(self.block, content[at].as_mut_slice());
    }

    // Whether any line is held here.
    pub(crate) fn holds_any(&self) -> bool
        ensures { result ≡ holds_any self.now }
    {
        self.lines.iter().any(|held| *held)
    }

    // The chosen lines, with vectors of their own.
    pub(crate) fn copy_of(&self, alloc: Global, chosen: Vec<bool>) -> Result<Own, AllocError>
        ensures { IfOk result (λ own. own ≡ record {
          block = self.now.block;
          lines = chosen.items;
          kept = self.now.kept;
          spare = Some
              self.now.kept;
        }) }
    {
        let kept = Vec::from_slice(alloc, self.kept.as_slice())?;
        let spare = Vec::from_slice(alloc, self.kept.as_slice())?;
        Ok(Own {
            block: self.block,
            lines: chosen,
            kept,
            spare: Some(spare),
        })
    }

    #[tactic(auto, unfolding(crate::specs::OwnBlock::holds_range))]
    // Whether all lines of a range, which has some, are held here.
    pub(crate) fn holds_range(&self, range: LineRange) -> bool
        ensures { result ≡ holds_range range self.now }
    {
        self.block == range.block && has_all(self.lines.as_slice(), range.first, range.count)
    }

    // Whether no line is held here but those of a range.
    pub(crate) fn holds_only(&self, range: LineRange) -> bool
        requires { range.first + range.count ≤ length self.now.lines }
        ensures { result ≡ has_none_else self.now.lines range.first range.count }
    {
        has_none_else(self.lines.as_slice(), range.first, range.count)
    }

    // Which of the held lines stand in these ranges.
    pub(crate) fn chosen(&self, alloc: Global, lines: &[LineRange]) -> Result<Vec<bool>, AllocError>
        requires { length self.now.lines ≤ 65536 }
        ensures { IfOk result (λ chosen. chosen.items ≡ masked_lines (in_ranges lines.now self.now.block) 0 self.now.lines) }
    {
        chosen_lines(alloc, self.lines.as_slice(), self.block, lines)
    }

    // Gives the lines of these ranges away.
    pub(crate) fn lose(&mut self, lines: &[LineRange])
        requires { length self.old.lines ≤ 65536 }
        ensures { self.new ≡ masked (λ b l. not (in_ranges lines.now b l)) self.old }
    {
        let block = self.block;
        lose_lines(self.lines.as_mut_slice(), block, lines);
    }
}

// Whether line l of block b stands in one of these ranges.
fn is_in(lines: &[LineRange], b: u32, l: usize) -> bool
    requires { l < 65536 }
    ensures { result ≡ in_ranges lines.now b l }
{
    lines.iter().any(|range| covers(range, b, l))
}

#[tactic(auto, unfolding(crate::specs::Held::covers))]
// Whether line l of block b stands in this range.
fn covers(range: &LineRange, b: u32, l: usize) -> bool
    requires { l < 65536 }
    ensures { result ≡ covers b l range.now }
{
    let first = usize::from(range.first);
    let count = usize::from(range.count);
    range.block == b && (first <= l && l < first + count)
}

// Which of the held lines stand in these ranges.
fn chosen_lines(
    alloc: Global,
    held: &[bool],
    b: u32,
    lines: &[LineRange],
) -> Result<Vec<bool>, AllocError>
    requires { length held.now ≤ 65536 }
    ensures { IfOk result (λ chosen. chosen.items ≡ masked_lines (in_ranges lines.now b) 0 held.now) }
{
    let mut chosen = Vec::new(alloc);
    for (l, is_held) in held.iter().enumerate() {
        let inside = is_in(lines, b, l);
        chosen.push(*is_held & inside)?;
    }
    Ok(chosen)
}

// Takes these ranges off the held lines.
fn lose_lines(held: &mut [bool], b: u32, lines: &[LineRange])
    requires { length held.old ≤ 65536 }
    ensures { held.new ≡ masked_lines (λ l. not (in_ranges lines.now b l)) 0 held.old }
{
    for l in 0..held.len() {
        let inside = is_in(lines, b, l);
        held[l] = held[l] & !inside;
    }
}

// Copies one line of a block, if it is held.
fn copy_line(held: bool, from: &[u8], into: &mut [u8], l: usize)
    requires from { l * 64 + 64 ≤ length from.now }
    requires into { l * 64 + 64 ≤ length into.old }
    ensures line { line_of into.new l ≡ (if held then line_of from.now l else line_of into.old l) }
    ensures others { (m : ℕ) → m ≢ l → line_of into.new m ≡ line_of into.old m }
{
    if held {
        let at = l * 64;
        into[at..at + 64].copy_from_slice(&from[at..at + 64]);
    }
}

// Copies the lines of a block that are held.
fn copy_held(lines: &[bool], from: &[u8], into: &mut [u8])
    requires from { length from.now ≡ length into.old }
    requires lines { length lines.now * 64 ≡ length into.old }
    ensures { (l : ℕ) → line_of into.new l ≡ (if slice_index_or lines.now l false then line_of from.now l else line_of into.old l) }
{
    for (l, held) in lines.iter().enumerate() {
        copy_line(*held, from, into, l);
    }
}

// Moves the first block to the end.
fn turn(blocks: &mut LinkedList<Own>)
    requires { 0 < linked_list_len blocks.old }
    ensures { blocks.new ≡ drop 1 blocks.old ++ take 1 blocks.old }
{
    let _length = blocks.len();
    let Ok(mut others) = blocks.split_off(1) else {
        unreachable!()
    };
    let Ok(()) = others.append(blocks) else {
        unreachable!()
    };
    *blocks = others;
}

// The place of the first entry of a block.
fn place_of(blocks: &LinkedList<Own>, b: u32) -> Option<usize>
    ensures { result ≡ position (λ own. own.block == b) blocks.now }
{
    blocks.iter().position(|own| own.block() == b)
}

// The place that a block is lent out of.
fn place_out(blocks: &LinkedList<Own>, b: u32) -> Option<usize>
    ensures { result ≡ position (is_out b) blocks.now }
{
    blocks.iter().position(|own| own.is_out(b))
}

// Takes the bytes that can be lent from the entry at that place.
fn take_spare(blocks: &mut LinkedList<Own>, at: usize) -> Vec<u8>
    requires place { at < linked_list_len blocks.old }
    requires home { IsSome (slice_index_or blocks.old at nowhere).spare }
    ensures blocks { blocks.new ≡ slice_set blocks.old at (record (slice_index_or blocks.old at nowhere) { spare = None }) }
    ensures bytes { (slice_index_or blocks.old at nowhere).spare ≡ Some result.items }
{
    let _length = blocks.len();
    let Ok(mut others) = blocks.split_off(at) else {
        unreachable!()
    };
    let Some(own) = others.front_mut() else {
        unreachable!()
    };
    let Some(bytes) = own.take_spare() else {
        unreachable!()
    };
    let Ok(()) = blocks.append(&mut others) else {
        unreachable!()
    };
    bytes
}

// Gives the bytes that were lent back to the entry at that place.
fn put_spare(blocks: &mut LinkedList<Own>, at: usize, bytes: Vec<u8>)
    requires { at < linked_list_len blocks.old }
    ensures { blocks.new ≡ slice_set blocks.old at (record (slice_index_or blocks.old at nowhere) { spare = Some bytes.items }) }
{
    let _length = blocks.len();
    let Ok(mut others) = blocks.split_off(at) else {
        unreachable!()
    };
    let Some(own) = others.front_mut() else {
        unreachable!()
    };
    own.put_spare(bytes);
    let Ok(()) = blocks.append(&mut others) else {
        unreachable!()
    };
}

// Copies the lines of a block that are held in any of the entries.
fn gather(blocks: &mut LinkedList<Own>, sizes: Geometry, b: u32, into: &mut [u8])
    requires sound { IsSound sizes blocks.old }
    requires size { length into.old ≡ sizes.block_size }
    ensures blocks { blocks.new ≡ blocks.old }
    ensures lines { (l : ℕ) → IfSome (held_of blocks.old b l) (λ bytes. line_of into.new l ≡ bytes) }
{
    for _turned in 0..blocks.len() {
        let Some(own) = blocks.front() else {
            unreachable!()
        };
        own.copy_lines(b, into);
        turn(blocks);
    }
}

// The lines of a block that are held in any of the entries, and any bytes elsewhere.
fn gathered(blocks: &mut LinkedList<Own>, sizes: Geometry, b: u32, bytes: Vec<u8>) -> Vec<u8>
    requires sound { IsSound sizes blocks.old }
    requires size { length bytes.items ≡ sizes.block_size }
    ensures blocks { blocks.new ≡ blocks.old }
    ensures size { length result.items ≡ sizes.block_size }
    ensures lines { (l : ℕ) → IfSome (held_of blocks.old b l) (λ bytes. line_of result.items l ≡ bytes) }
{
    let mut whole = bytes;
    gather(blocks, sizes, b, whole.as_mut_slice());
    whole
}

// Puts these bytes in place of those of every entry of a block.
fn fill(blocks: &mut LinkedList<Own>, sizes: Geometry, b: u32, bytes: &[u8])
    requires sound { IsSound sizes blocks.old }
    requires size { length bytes.now ≡ sizes.block_size }
    ensures { blocks.new ≡ map (filled b bytes.now) blocks.old }
{
    for _turned in 0..blocks.len() {
        let Some(own) = blocks.front_mut() else {
            unreachable!()
        };
        own.fill(b, bytes);
        turn(blocks);
    }
}

// Lends the bytes that can be lent of a block, as they are; the block has then those bytes in each entry.
pub(crate) fn lend(blocks: &mut LinkedList<Own>, sizes: Geometry, b: u32) -> Vec<u8>
    requires sound { IsSound sizes blocks.old }
    requires can { CanGet (held_of blocks.old) (lent_of blocks.old) b }
    ensures sound { IsSound sizes blocks.new }
    ensures held { held_of blocks.new ≡ held_of blocks.old }
    ensures lends { lent_of blocks.new ≡ with b result.items (lent_of blocks.old) }
    ensures size { length result.items ≡ sizes.block_size }
    ensures lines { (l : ℕ) → IfSome (held_of blocks.old b l) (λ bytes. line_of result.items l ≡ bytes) }
{
    let Some(at) = place_of(blocks, b) else {
        unreachable!()
    };
    let spare = take_spare(blocks, at);
    let bytes = gathered(blocks, sizes, b, spare);
    fill(blocks, sizes, b, bytes.as_slice());
    bytes
}

// Lends a block of zero bytes, which are its bytes from then on.
pub(crate) fn lend_zeros(blocks: &mut LinkedList<Own>, sizes: Geometry, b: u32) -> Vec<u8>
    requires sound { IsSound sizes blocks.old }
    requires can { CanGet (held_of blocks.old) (lent_of blocks.old) b }
    ensures sound { IsSound sizes blocks.new }
    ensures held { held_of blocks.new ≡ put b result.items (held_of blocks.old) }
    ensures lends { lent_of blocks.new ≡ with b result.items (lent_of blocks.old) }
    ensures zeros { result.items ≡ replicate sizes.block_size 0 }
{
    let Some(at) = place_of(blocks, b) else {
        unreachable!()
    };
    let spare = take_spare(blocks, at);
    let bytes = cleared(spare);
    fill(blocks, sizes, b, bytes.as_slice());
    bytes
}

// As many zero bytes.
fn cleared(bytes: Vec<u8>) -> Vec<u8>
    ensures { result.items ≡ replicate (length bytes.items) 0 }
{
    let mut zeros = bytes;
    zeros.as_mut_slice().fill(0);
    zeros
}

// Takes a block back as it was lent.
pub(crate) fn take_back(blocks: &mut LinkedList<Own>, sizes: Geometry, b: u32, bytes: Vec<u8>)
    requires sound { IsSound sizes blocks.old }
    requires lent { lent_of blocks.old b ≡ Some bytes.items }
    ensures sound { IsSound sizes blocks.new }
    ensures held { held_of blocks.new ≡ held_of blocks.old }
    ensures lends { lent_of blocks.new ≡ without b (lent_of blocks.old) }
{
    let Some(at) = place_out(blocks, b) else {
        unreachable!()
    };
    put_spare(blocks, at, bytes);
}

// Takes a block back with other bytes, which are put.
pub(crate) fn put_back(blocks: &mut LinkedList<Own>, sizes: Geometry, b: u32, bytes: Vec<u8>)
    requires sound { IsSound sizes blocks.old }
    requires lent { IsSome (lent_of blocks.old b) }
    requires size { length bytes.items ≡ sizes.block_size }
    ensures sound { IsSound sizes blocks.new }
    ensures held { held_of blocks.new ≡ put b bytes.items (held_of blocks.old) }
    ensures lends { lent_of blocks.new ≡ without b (lent_of blocks.old) }
{
    fill(blocks, sizes, b, bytes.as_slice());
    take_back(blocks, sizes, b, bytes);
}

// Puts the entries of one list behind those of another.
pub(crate) fn join(blocks: &mut LinkedList<Own>, sizes: Geometry, others: LinkedList<Own>)
    requires sizes { IsGeometry sizes }
    requires sound { IsSound sizes blocks.old }
    requires other { IsSound sizes others }
    requires apart { Apart (held_of blocks.old) (held_of others) }
    requires home { lent_of others ≡ nothing_lent }
    ensures sound { IsSound sizes blocks.new }
    ensures held { held_of blocks.new ≡ Both (held_of blocks.old) (held_of others) }
    ensures lends { lent_of blocks.new ≡ lent_of blocks.old }
{
    let _length = (blocks.len(), others.len());
    let mut others = others;
    let Ok(()) = blocks.append(&mut others) else {
        unreachable!()
    };
}

// As many blocks of zero bytes as the disk has.
pub(crate) fn zero_content(alloc: Global, sizes: Geometry) -> Result<Vec<Vec<u8>>, AllocError>
    ensures count { IfOk result (λ content. length content.items ≡ sizes.blocks) }
    ensures bytes { IfOk result (λ content. All (λ bytes. length bytes.items ≡ sizes.block_size) content.items) }
{
    let mut content = Vec::new(alloc);
    for _block in 0..sizes.blocks {
        let bytes = vec![in alloc; 0u8; sizes.block_size as usize]?;
        content.push(bytes)?;
    }
    Ok(content)
}

// Copies the lines that are held to their blocks among all blocks.
pub(crate) fn copy_all(blocks: &mut LinkedList<Own>, sizes: Geometry, content: &mut [Vec<u8>])
    requires sound { IsSound sizes blocks.old }
    requires count { length content.old ≡ sizes.blocks }
    requires bytes { (b : ℕ) → b < sizes.blocks → length (block_bytes content.old b) ≡ sizes.block_size }
    ensures count { length content.new ≡ sizes.blocks }
    ensures bytes { (b : ℕ) → b < sizes.blocks → length (block_bytes content.new b) ≡ sizes.block_size }
    ensures lines { (b l : ℕ) → IfSome (held_of blocks.old b l) (λ bytes. line_of (block_bytes content.new b) l ≡ bytes) }
{
    for _turned in 0..blocks.len() {
        let Some(own) = blocks.front() else {
            unreachable!()
        };
        own.copy_out(content);
        turn(blocks);
    }
}

// Whether any of these is true.
fn is_any(lines: &[bool]) -> bool
    ensures { result ≡ list_any (λ x. x) lines.now }
{
    lines.iter().any(|held| *held)
}

// Whether all of these are true.
fn are_all(lines: &[bool]) -> bool
    ensures { result ≡ list_all (λ x. x) lines.now }
{
    lines.iter().all(|held| *held)
}

#[tactic(auto, unfolding(crate::specs::OwnBlock::has_all))]
// Whether so many lines from one on are all held, and there are some.
fn has_all(lines: &[bool], first: u8, count: u8) -> bool
    ensures { result ≡ has_all lines.now first count }
{
    let from = usize::from(first);
    let end = from + usize::from(count);
    from < end && (end <= lines.len() && are_all(&lines[from..end]))
}

#[tactic(auto, unfolding(crate::specs::OwnBlock::has_none_else))]
// Whether no line is held before the first of so many lines, or after the last.
fn has_none_else(lines: &[bool], first: u8, count: u8) -> bool
    requires { first + count ≤ length lines.now }
    ensures { result ≡ has_none_else lines.now first count }
{
    let from = usize::from(first);
    let end = from + usize::from(count);
    !is_any(&lines[..from]) && !is_any(&lines[end..])
}

// Adds a copy of those lines of an entry that stand in the ranges, if there are any.
fn add_copy(
    alloc: Global,
    copies: &mut LinkedList<Own>,
    own: &Own,
    lines: &[LineRange],
) -> Result<(), AllocError>
    requires { length own.now.lines ≤ 65536 }
    ensures { OnOk result (copies.new ≡ copies.old ++ left (copied (in_ranges lines.now)) (own.now ∷ [])) }
{
    let chosen = own.chosen(alloc, lines)?;
    if is_any(chosen.as_slice()) {
        let copy = own.copy_of(alloc, chosen)?;
        copies.push_back(copy)?;
    }
    Ok(())
}

// Copies of the lines that stand in the ranges. Each entry is met, also after one found no memory, so that the list
// comes round to where it was.
pub(crate) fn copies_of(
    alloc: Global,
    blocks: &mut LinkedList<Own>,
    sizes: Geometry,
    lines: &[LineRange],
) -> Result<LinkedList<Own>, AllocError>
    requires sizes { IsGeometry sizes }
    requires sound { IsSound sizes blocks.old }
    ensures blocks { blocks.new ≡ blocks.old }
    ensures copies { IfOk result (λ copies. copies ≡ left (copied (in_ranges lines.now)) blocks.old) }
{
    let mut copies = LinkedList::new(alloc);
    let mut failed = false;
    for _turned in 0..blocks.len() {
        let Some(own) = blocks.front() else {
            unreachable!()
        };
        let added = add_copy(alloc, &mut copies, own, lines);
        failed = failed | added.is_err();
        turn(blocks);
    }
    if failed {
        return Err(AllocError);
    }
    Ok(copies)
}

// Moves the first entry to the end if it holds a line, and else lets it go.
fn settle(blocks: &mut LinkedList<Own>)
    requires { 0 < linked_list_len blocks.old }
    ensures { blocks.new ≡ drop 1 blocks.old ++ left (λ e. e) (take 1 blocks.old) }
{
    let Some(own) = blocks.front() else {
        unreachable!()
    };
    if own.holds_any() {
        turn(blocks);
    } else {
        let _gone = blocks.pop_front();
    }
}

// Takes the lines of the ranges off, and lets the entries go that hold none then.
pub(crate) fn lose_all(blocks: &mut LinkedList<Own>, sizes: Geometry, lines: &[LineRange])
    requires sizes { IsGeometry sizes }
    requires sound { IsSound sizes blocks.old }
    ensures { blocks.new ≡ left (masked (λ b l. not (in_ranges lines.now b l))) blocks.old }
{
    for _turned in 0..blocks.len() {
        let Some(own) = blocks.front_mut() else {
            unreachable!()
        };
        own.lose(lines);
        settle(blocks);
    }
}

// All lines of a block, with these bytes.
fn whole(alloc: Global, sizes: Geometry, block: u32, kept: Vec<u8>) -> Result<Own, AllocError>
    requires { IsGeometry sizes }
    ensures { IfOk result (λ own. own ≡ whole_block sizes block kept.items) }
{
    let size = sizes.block_size as usize;
    let lines = vec![in alloc; true; size / 64]?;
    let spare = vec![in alloc; 0u8; size]?;
    Ok(Own {
        block,
        lines,
        kept,
        spare: Some(spare),
    })
}

// All lines of all blocks.
pub(crate) fn whole_list(
    alloc: Global,
    sizes: Geometry,
    content: Vec<Vec<u8>>,
) -> Result<LinkedList<Own>, AllocError>
    requires sizes { IsGeometry sizes }
    requires blocks { length content.items ≡ sizes.blocks }
    ensures { IfOk result (λ list. list ≡ whole_blocks sizes 0 (map (λ bytes. bytes.items) content.items)) }
{
    let mut list = LinkedList::new(alloc);
    let mut content = content;
    while let Some(bytes) = content.pop() {
        let block = content.len() as u32;
        let own = whole(alloc, sizes, block, bytes)?;
        list.push_front(own)?;
    }
    Ok(list)
}
