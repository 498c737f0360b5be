// Lines of an own stake are cut off, one range after another. A range that stands in one entry costs the way to it: entries
// are met in the order of the list, and one whose lines all go is moved over as it is.
ghost use Rattle.std.specs.Prelude.{◌≡◌, ◌<◌, ◌≤◌, ◌++◌, ◌∷◌, ℕ, List, [], Some, None, true, not, length, take, drop, slice_index_or, IfOk};
ghost use Rattle.std.specs.Prelude.{OnOk, OnErr};
ghost use Rattle.std.specs.List.{position};
ghost use Rattle.std.specs.LinkedList.{linked_list_len};
ghost use Rattle.sv_form.specs.Geometry.{IsGeometry};
ghost use Rattle.sv_form.specs.declared.owners.LineRange.{LineRange};
ghost use Rattle.sv_store.specs.Held.{in_ranges, Apart, nothing_lent};
ghost use Rattle.sv_store.specs.OwnBlock.{nowhere, held_of, lent_of, IsSound, masked, copied, left, holds_range, AddsCopy, Moves};

use crate::own_block::{Own, copies_of, join, lose_all};
use std::alloc::{AllocError, Global};
use std::collections::LinkedList;
use sv_form::{Geometry, LineRange};

// The place of the first entry that has all lines of a range.
fn place_of_range(blocks: &LinkedList<Own>, range: LineRange) -> Option<usize>
    ensures { result ≡ position (holds_range range) blocks.now }
{
    blocks.iter().position(|own| own.holds_range(range))
}

// Moves the first entry to the end of another list.
fn move_front(blocks: &mut LinkedList<Own>, taken: &mut LinkedList<Own>)
    requires some { 0 < linked_list_len blocks.old }
    requires few { linked_list_len taken.old ≤ 4294967296 }
    ensures blocks { blocks.new ≡ drop 1 blocks.old }
    ensures taken { taken.new ≡ taken.old ++ take 1 blocks.old }
{
    let _lengths = (blocks.len(), taken.len());
    let Ok(others) = blocks.split_off(1) else {
        unreachable!()
    };
    let Ok(()) = taken.append(blocks) else {
        unreachable!()
    };
    *blocks = others;
}

// A copy of those lines of the first entry that stand in a range.
fn copy_front(alloc: Global, blocks: &LinkedList<Own>, range: LineRange) -> Result<Own, AllocError>
    requires some { 0 < linked_list_len blocks.now }
    requires lines { length (slice_index_or blocks.now 0 nowhere).lines ≤ 65536 }
    ensures { IfOk result (λ own. own ≡ copied (in_ranges (range ∷ [])) (slice_index_or blocks.now 0 nowhere)) }
{
    let lines = [range];
    let Some(own) = blocks.front() else {
        unreachable!()
    };
    let chosen = own.chosen(alloc, &lines)?;
    own.copy_of(alloc, chosen)
}

// Lets the first entry go if it holds no line.
fn drop_empty(blocks: &mut LinkedList<Own>)
    requires { 0 < linked_list_len blocks.old }
    ensures { blocks.new ≡ left (λ e. e) (take 1 blocks.old) ++ drop 1 blocks.old }
{
    let Some(own) = blocks.front() else {
        unreachable!()
    };
    if own.holds_any() {
        return;
    }
    let _gone = blocks.pop_front();
}

// Takes the lines of a range off the first entry.
fn lose_front(blocks: &mut LinkedList<Own>, range: LineRange)
    requires some { 0 < linked_list_len blocks.old }
    requires lines { length (slice_index_or blocks.old 0 nowhere).lines ≤ 65536 }
    ensures { blocks.new ≡ left (masked (λ b l. not (in_ranges (range ∷ []) b l))) (take 1 blocks.old) ++ drop 1 blocks.old }
{
    let lines = [range];
    let Some(own) = blocks.front_mut() else {
        unreachable!()
    };
    own.lose(&lines);
    drop_empty(blocks);
}

// Moves the lines of a range from the first entry, which holds them, to the end of another list.
fn cut_front(
    alloc: Global,
    blocks: &mut LinkedList<Own>,
    taken: &mut LinkedList<Own>,
    range: LineRange,
) -> Result<(), AllocError>
    requires some { 0 < linked_list_len blocks.old }
    requires few { linked_list_len taken.old ≤ 4294967296 }
    requires lines { length (slice_index_or blocks.old 0 nowhere).lines ≤ 65536 }
    requires holds { holds_range range (slice_index_or blocks.old 0 nowhere) ≡ true }
    requires home { (bytes : List ℕ) × (((slice_index_or blocks.old 0 nowhere).spare ≡ Some bytes)
        × (length bytes ≡ length (slice_index_or blocks.old 0 nowhere).kept)) }
    ensures blocks { OnOk result (blocks.new ≡ left (masked (λ b l. not (in_ranges (range ∷ []) b l))) (take 1 blocks.old) ++ drop 1
        blocks.old) }
    ensures taken { OnOk result (AddsCopy (range ∷ []) (slice_index_or blocks.old 0 nowhere) taken.old taken.new) }
    ensures err { OnErr result (blocks.new ≡ blocks.old) }
    ensures none { OnErr result (taken.new ≡ taken.old) }
    ensures fewer { linked_list_len blocks.new ≤ linked_list_len blocks.old }
{
    let Some(own) = blocks.front() else {
        unreachable!()
    };
    if own.holds_only(range) {
        move_front(blocks, taken);
        return Ok(());
    }
    let copy = copy_front(alloc, blocks, range)?;
    taken.push_back(copy)?;
    lose_front(blocks, range);
    Ok(())
}

// Moves the lines of a range from the entry at that place, which holds them, to the end of another list.
fn cut_at(
    alloc: Global,
    blocks: &mut LinkedList<Own>,
    taken: &mut LinkedList<Own>,
    at: usize,
    range: LineRange,
) -> Result<(), AllocError>
    requires place { at < linked_list_len blocks.old }
    requires few { linked_list_len taken.old ≤ 4294967296 }
    requires lines { length (slice_index_or blocks.old at nowhere).lines ≤ 65536 }
    requires holds { holds_range range (slice_index_or blocks.old at nowhere) ≡ true }
    requires home { (bytes : List ℕ) × (((slice_index_or blocks.old at nowhere).spare ≡ Some bytes)
        × (length bytes ≡ length (slice_index_or blocks.old at nowhere).kept)) }
    ensures blocks { OnOk result (blocks.new ≡ take at blocks.old ++ (left (masked (λ b l. not (in_ranges (range ∷ []) b l)))
        (take 1 (drop at blocks.old)) ++ drop 1 (drop at blocks.old))) }
    ensures taken { OnOk result (AddsCopy (range ∷ []) (slice_index_or blocks.old at nowhere) taken.old taken.new) }
    ensures err { OnErr result (blocks.new ≡ blocks.old) }
    ensures none { OnErr result (taken.new ≡ taken.old) }
{
    let _length = blocks.len();
    let Ok(mut others) = blocks.split_off(at) else {
        unreachable!()
    };
    let cut = cut_front(alloc, &mut others, taken, range);
    let Ok(()) = blocks.append(&mut others) else {
        unreachable!()
    };
    cut
}

// Moves the lines of a range over that stand in several entries.
fn cut_spread(
    alloc: Global,
    blocks: &mut LinkedList<Own>,
    sizes: Geometry,
    taken: &mut LinkedList<Own>,
    range: LineRange,
) -> Result<(), AllocError>
    requires sizes { IsGeometry sizes }
    requires sound { IsSound sizes blocks.old }
    requires other { IsSound sizes taken.old }
    requires apart { Apart (held_of taken.old) (held_of blocks.old) }
    requires home { lent_of taken.old ≡ nothing_lent }
    requires away { (b l : ℕ) → in_ranges (range ∷ []) b l ≡ true → lent_of blocks.old b ≡ None }
    ensures ok { OnOk result (Moves sizes (range ∷ []) blocks.old taken.old blocks.new taken.new) }
    ensures err { OnErr result (blocks.new ≡ blocks.old) }
    ensures none { OnErr result (taken.new ≡ taken.old) }
{
    let lines = [range];
    let copies = copies_of(alloc, blocks, sizes, &lines)?;
    lose_all(blocks, sizes, &lines);
    join(taken, sizes, copies);
    Ok(())
}

// Moves the lines of a range over.
fn cut(
    alloc: Global,
    blocks: &mut LinkedList<Own>,
    sizes: Geometry,
    taken: &mut LinkedList<Own>,
    range: LineRange,
) -> Result<(), AllocError>
    requires sizes { IsGeometry sizes }
    requires sound { IsSound sizes blocks.old }
    requires other { IsSound sizes taken.old }
    requires apart { Apart (held_of taken.old) (held_of blocks.old) }
    requires home { lent_of taken.old ≡ nothing_lent }
    requires away { (b l : ℕ) → in_ranges (range ∷ []) b l ≡ true → lent_of blocks.old b ≡ None }
    ensures ok { OnOk result (Moves sizes (range ∷ []) blocks.old taken.old blocks.new taken.new) }
    ensures err { OnErr result (blocks.new ≡ blocks.old) }
    ensures none { OnErr result (taken.new ≡ taken.old) }
{
    match place_of_range(blocks, range) {
        Some(at) => cut_at(alloc, blocks, taken, at, range),
        None => cut_spread(alloc, blocks, sizes, taken, range),
    }
}

// Moves the lines of the ranges over, as far as memory goes.
fn cut_all(
    alloc: Global,
    blocks: &mut LinkedList<Own>,
    sizes: Geometry,
    taken: &mut LinkedList<Own>,
    lines: &[LineRange],
) -> Result<(), AllocError>
    requires sizes { IsGeometry sizes }
    requires sound { IsSound sizes blocks.old }
    requires none { taken.old ≡ [] }
    requires away { (b l : ℕ) → in_ranges lines.now b l ≡ true → lent_of blocks.old b ≡ None }
    ensures ok { OnOk result (Moves sizes lines.now blocks.old [] blocks.new taken.new) }
    ensures done { (done : List LineRange) × Moves sizes done blocks.old [] blocks.new taken.new }
{
    for i in 0..lines.len() {
        cut(alloc, blocks, sizes, taken, lines[i])?;
    }
    Ok(())
}

// Cuts the lines of the ranges off. Without memory what is held is as it was.
pub(crate) fn cut_off(
    alloc: Global,
    blocks: &mut LinkedList<Own>,
    sizes: Geometry,
    lines: &[LineRange],
) -> Result<LinkedList<Own>, AllocError>
    requires sizes { IsGeometry sizes }
    requires sound { IsSound sizes blocks.old }
    requires away { (b l : ℕ) → in_ranges lines.now b l ≡ true → lent_of blocks.old b ≡ None }
    ensures ok { IfOk result (λ taken. Moves sizes lines.now blocks.old [] blocks.new taken) }
    ensures sound { IsSound sizes blocks.new }
    ensures held { OnErr result (held_of blocks.new ≡ held_of blocks.old) }
    ensures lends { lent_of blocks.new ≡ lent_of blocks.old }
{
    let mut taken = LinkedList::new(alloc);
    match cut_all(alloc, blocks, sizes, &mut taken, lines) {
        Ok(()) => Ok(taken),
        Err(refused) => {
            join(blocks, sizes, taken);
            Err(refused)
        }
    }
}
