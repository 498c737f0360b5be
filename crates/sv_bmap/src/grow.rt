// One page more: writes of new blocks and of the number that links them.
ghost use Rattle.std.specs.Prelude.{◌≡◌, ◌≤◌, ◌<◌, ◌+◌, ◌-◌, ◌||◌, ℕ, IfOk, IfErr, OnOk, OnErr, length, map, replicate, slice_index, take};
ghost use Rattle.std.specs.List.{All, list_any, sum_by};
ghost use Rattle.sv_dev.specs.Causes.{counted};
ghost use Rattle.sv_form.specs.PagePath.{IsPage, block_numbers, slots};
ghost use Rattle.sv_store.specs.Causes.{HasFault};
ghost use Rattle.sv_store.specs.Frames.{Unchanged};
ghost use Rattle.sv_store.specs.Held.{HoldsBlock, nothing_lent, put, with};
ghost use Rattle.sv_bmap.specs.Attach.{Attaches, CanAttach, HasFaultOf, IsBuilt, Keeps};
ghost use Rattle.sv_bmap.specs.Parts.{AllApart, Joins};
ghost use Rattle.sv_bmap.specs.Rows.{Links};
ghost use Rattle.sv_bmap.specs.Tree.{IsTree, block_at, down, places_of, slot_of};
ghost use Rattle.sv_bmap.specs.Writes.{PutsNumber, SetsNumber};

use crate::Addresses;
use crate::pages::child_of;
use std::sync::Wait;
use sv_form::{DOUBLE, PagePath, SINGLE, TRIPLE, write_number32};
use sv_store::{Buf, Refusal, Stake};

/// Makes a page present that was a hole (Bach, chapter 4.2). The last of `blocks` becomes the page, with these bytes; the
/// others become its new indirect blocks, the outermost first. Each comes in a part of its own, which is taken into `s`.
///
/// The blocks are written first, from the page up, and linked by one last write. A refusal is a fault that the stake or a
/// part has counted: nothing of the tree has changed then, and the parts come back in their order, each with its lines.
pub fn attach<R: Wait, S: Stake>(
    rt: &R,
    a: &mut Addresses,
    s: &mut S,
    page: u32,
    blocks: &[u32],
    parts: Vec<S>,
    bytes: &[u8],
) -> Result<(), (Refusal, Vec<S>)>
    requires tree { IsTree (S.origin s.old) (S.held s.old) a.old }
    requires page { IsPage (S.origin s.old).sizes page }
    requires new { CanAttach (S.origin s.old) (S.held s.old) a.old page blocks.now (map S.held parts.items) }
    requires size { length bytes.now ≡ (S.origin s.old).sizes.block_size }
    requires lent { S.lent s.old ≡ nothing_lent }
    requires away { All (λ part. S.lent part ≡ nothing_lent) parts.items }
    requires home { All (λ part. S.origin part ≡ S.origin s.old) parts.items }
    ensures ok { OnOk result (Attaches (S.origin s.old) (S.held s.old) (S.held s.new) a.old a.new page blocks.now
        (map S.held parts.items) bytes.now) }
    ensures counts { OnOk result (counted (S.faults s.old) (sum_by S.faults parts.items) ≤ S.faults s.new) }
    ensures forced { OnOk result (S.forced s.new ≡ (S.forced s.old || list_any S.forced parts.items)) }
    ensures held { OnErr result (S.held s.new ≡ S.held s.old) }
    ensures addresses { OnErr result (a.new ≡ a.old) }
    ensures unforced { OnErr result (S.forced s.new ≡ S.forced s.old) }
    ensures back { IfErr result (λ e. Keeps S.held S.lent S.origin S.forced S.faults parts.items e.1.items) }
    ensures cause { IfErr result (λ e. HasFaultOf (S.faults s.old) (S.faults s.new) (map S.faults parts.items)
        (map S.faults e.1.items) e.0) }
    ensures faults { S.faults s.old ≤ S.faults s.new }
    ensures lends { S.lent s.new ≡ nothing_lent }
    ensures origin { S.origin s.new ≡ S.origin s.old }
{
    let _sizes = s.geometry();
    let mut parts = parts;
    if let Err(refusal) = build(rt, a, s, page, blocks, &mut parts, bytes) {
        return Err((refusal, parts));
    }
    merge_all(s, parts);
    Ok(())
}

// Where a page stands: the address above it, and its places in the indirect blocks on the way down.
#[derive(Clone, Copy)]
struct Spot {
    slot: usize,
    depth: usize,
    places: [usize; 3],
}

// The spot to which a path leads.
fn spot_of(path: PagePath) -> Spot
    ensures slot { result.slot ≡ slot_of path }
    ensures depth { result.depth ≤ 3 }
    ensures places { take result.depth result.places ≡ places_of path }
{
    match path {
        PagePath::Direct(i) => Spot {
            slot: usize::from(i),
            depth: 0,
            places: [0, 0, 0],
        },
        PagePath::Single(i) => Spot {
            slot: SINGLE,
            depth: 1,
            places: [usize::from(i), 0, 0],
        },
        PagePath::Double(i, j) => Spot {
            slot: DOUBLE,
            depth: 2,
            places: [usize::from(i), usize::from(j), 0],
        },
        PagePath::Triple(i, j, k) => Spot {
            slot: TRIPLE,
            depth: 3,
            places: [usize::from(i), usize::from(j), usize::from(k)],
        },
    }
}

// Writes the blocks, each in its part, from the page up, and links the first of them.
fn build<R: Wait, S: Stake>(
    rt: &R,
    a: &mut Addresses,
    s: &mut S,
    page: u32,
    blocks: &[u32],
    parts: &mut Vec<S>,
    bytes: &[u8],
) -> Result<(), Refusal>
    requires tree { IsTree (S.origin s.old) (S.held s.old) a.old }
    requires page { IsPage (S.origin s.old).sizes page }
    requires new { CanAttach (S.origin s.old) (S.held s.old) a.old page blocks.now (map S.held parts.old.items) }
    requires size { length bytes.now ≡ (S.origin s.old).sizes.block_size }
    requires lent { S.lent s.old ≡ nothing_lent }
    requires away { All (λ part. S.lent part ≡ nothing_lent) parts.old.items }
    requires home { All (λ part. S.origin part ≡ S.origin s.old) parts.old.items }
    ensures ok { OnOk result (IsBuilt (S.origin s.old) (S.held s.old) (S.held s.new) a.old a.new page blocks.now
        (map S.held parts.new.items) bytes.now) }
    ensures held { OnErr result (S.held s.new ≡ S.held s.old) }
    ensures addresses { OnErr result (a.new ≡ a.old) }
    ensures parts { Keeps S.held S.lent S.origin S.forced S.faults parts.old.items parts.new.items }
    ensures cause { IfErr result (λ refusal. HasFaultOf (S.faults s.old) (S.faults s.new) (map S.faults parts.old.items)
        (map S.faults parts.new.items) refusal) }
    ensures faults { S.faults s.old ≤ S.faults s.new }
    ensures lends { S.lent s.new ≡ nothing_lent }
    ensures forced { S.forced s.new ≡ S.forced s.old }
    ensures origin { S.origin s.new ≡ S.origin s.old }
{
    let sizes = s.geometry();
    let spot = spot_of(sizes.path_of(page));
    let places = &spot.places[..spot.depth];
    let last = blocks.len() - 1;
    let above = places.len() - last;
    put_page(rt, &mut parts[last], blocks[last], bytes)?;
    for done in 0..last {
        let i = last - 1 - done;
        put_indirect(
            rt,
            &mut parts[i],
            blocks[i],
            places[above + i],
            blocks[i + 1],
        )?;
    }
    hang(rt, a, s, spot.slot, &places[..above], blocks[0])
}

// Links a block: by the number to which the places lead, or by the address where there are none.
fn hang<R: Wait, S: Stake>(
    rt: &R,
    a: &mut Addresses,
    s: &mut S,
    slot: usize,
    way: &[usize],
    first: u32,
) -> Result<(), Refusal>
    requires slot { slot < slots }
    requires places { (i : ℕ) → i < length way.now → slice_index way.now i < block_numbers (S.origin s.old).sizes }
    requires blocks { (m : ℕ) → m < length way.now
        → HoldsBlock (S.origin s.old) (S.held s.old) (block_at (S.held s.old) a.old slot (take m way.now)) }
    requires lent { S.lent s.old ≡ nothing_lent }
    ensures ok { OnOk result (Links (block_numbers (S.origin s.old).sizes) (S.held s.old) (S.held s.new) a.old a.new slot way.now first) }
    ensures held { OnErr result (S.held s.new ≡ S.held s.old) }
    ensures addresses { OnErr result (a.new ≡ a.old) }
    ensures lends { S.lent s.new ≡ nothing_lent }
    ensures forced { S.forced s.new ≡ S.forced s.old }
    ensures origin { S.origin s.new ≡ S.origin s.old }
    ensures cause { HasFault (S.faults s.old) (S.faults s.new) result }
{
    if way.is_empty() {
        a[slot] = first;
        return Ok(());
    }
    let last = way.len() - 1;
    let parent = block_below(rt, s, a[slot], &way[..last])?;
    link(rt, s, parent, way[last], first)
}

// Where a list of places leads, by way of blocks that are there.
fn block_below<R: Wait, S: Stake>(
    rt: &R,
    s: &mut S,
    top: u32,
    places: &[usize],
) -> Result<u32, Refusal>
    requires places { (i : ℕ) → i < length places.now → slice_index places.now i < block_numbers (S.origin s.old).sizes }
    requires blocks { (m : ℕ) → m < length places.now
        → HoldsBlock (S.origin s.old) (S.held s.old) (down (S.held s.old) top (take m places.now)) }
    requires lent { S.lent s.old ≡ nothing_lent }
    ensures block { IfOk result (λ block. block ≡ down (S.held s.old) top places.now) }
    ensures stake { Unchanged S.held S.lent S.origin S.forced s.old s.new }
    ensures cause { HasFault (S.faults s.old) (S.faults s.new) result }
{
    let mut block = top;
    for place in places {
        block = child_of(rt, s, block, *place)?;
    }
    Ok(block)
}

// Gives a block these bytes.
fn put_page<R: Wait, S: Stake>(rt: &R, s: &mut S, b: u32, bytes: &[u8]) -> Result<(), Refusal>
    requires block { HoldsBlock (S.origin s.old) (S.held s.old) b }
    requires size { length bytes.now ≡ (S.origin s.old).sizes.block_size }
    requires lent { S.lent s.old ≡ nothing_lent }
    ensures ok { OnOk result (S.held s.new ≡ put b bytes.now (S.held s.old)) }
    ensures err { OnErr result (S.held s.new ≡ S.held s.old) }
    ensures lends { S.lent s.new ≡ nothing_lent }
    ensures forced { S.forced s.new ≡ S.forced s.old }
    ensures origin { S.origin s.new ≡ S.origin s.old }
    ensures cause { HasFault (S.faults s.old) (S.faults s.new) result }
{
    let _sizes = s.geometry();
    let mut buf = s.fresh(rt, b)?;
    let old = buf.bytes_mut();
    old.copy_from_slice(bytes);
    s.bdwrite(rt, buf);
    Ok(())
}

// Gives a block back with one number changed.
fn put_number<R: Wait, S: Stake>(rt: &R, s: &mut S, buf: Buf, k: usize, number: u32)
    requires block { HoldsBlock (S.origin s.old) (S.held s.old) buf.block }
    requires size { length buf.bytes ≡ (S.origin s.old).sizes.block_size }
    requires place { k < block_numbers (S.origin s.old).sizes }
    requires lent { S.lent s.old ≡ with buf.block buf.bytes nothing_lent }
    ensures number { PutsNumber (S.held s.old) (S.held s.new) buf.block buf.bytes k number }
    ensures lends { S.lent s.new ≡ nothing_lent }
    ensures forced { S.forced s.new ≡ S.forced s.old }
    ensures origin { S.origin s.new ≡ S.origin s.old }
    ensures faults { S.faults s.old ≤ S.faults s.new }
{
    let _sizes = s.geometry();
    let mut buf = buf;
    let bytes = buf.bytes_mut();
    write_number32(bytes, k * 4, number);
    s.bdwrite(rt, buf);
}

// Makes a block an indirect block with one number.
fn put_indirect<R: Wait, S: Stake>(
    rt: &R,
    s: &mut S,
    b: u32,
    k: usize,
    number: u32,
) -> Result<(), Refusal>
    requires block { HoldsBlock (S.origin s.old) (S.held s.old) b }
    requires place { k < block_numbers (S.origin s.old).sizes }
    requires lent { S.lent s.old ≡ nothing_lent }
    ensures ok { OnOk result (PutsNumber (S.held s.old) (S.held s.new) b (replicate (S.origin s.old).sizes.block_size 0) k number) }
    ensures err { OnErr result (S.held s.new ≡ S.held s.old) }
    ensures lends { S.lent s.new ≡ nothing_lent }
    ensures forced { S.forced s.new ≡ S.forced s.old }
    ensures origin { S.origin s.new ≡ S.origin s.old }
    ensures cause { HasFault (S.faults s.old) (S.faults s.new) result }
{
    let _sizes = s.geometry();
    let buf = s.fresh(rt, b)?;
    put_number(rt, s, buf, k, number);
    Ok(())
}

// Writes one number of an indirect block. No other line of the block changes.
fn link<R: Wait, S: Stake>(rt: &R, s: &mut S, b: u32, k: usize, number: u32) -> Result<(), Refusal>
    requires block { HoldsBlock (S.origin s.old) (S.held s.old) b }
    requires place { k < block_numbers (S.origin s.old).sizes }
    requires lent { S.lent s.old ≡ nothing_lent }
    ensures ok { OnOk result (SetsNumber (block_numbers (S.origin s.old).sizes) (S.held s.old) (S.held s.new) b k number) }
    ensures err { OnErr result (S.held s.new ≡ S.held s.old) }
    ensures lends { S.lent s.new ≡ nothing_lent }
    ensures forced { S.forced s.new ≡ S.forced s.old }
    ensures origin { S.origin s.new ≡ S.origin s.old }
    ensures cause { HasFault (S.faults s.old) (S.faults s.new) result }
{
    let _sizes = s.geometry();
    let buf = s.bread(rt, b)?;
    put_number(rt, s, buf, k, number);
    Ok(())
}

// Takes in the parts, each with its lines.
fn merge_all<S: Stake>(s: &mut S, parts: Vec<S>)
    requires apart { AllApart (S.held s.old) (map S.held parts.items) }
    requires lent { All (λ part. S.lent part ≡ nothing_lent) parts.items }
    requires origin { All (λ part. S.origin part ≡ S.origin s.old) parts.items }
    ensures held { Joins (S.held s.old) (map S.held parts.items) (S.held s.new) }
    ensures lends { S.lent s.new ≡ S.lent s.old }
    ensures origin { S.origin s.new ≡ S.origin s.old }
    ensures forced { S.forced s.new ≡ (S.forced s.old || list_any S.forced parts.items) }
    ensures faults { S.faults s.new ≡ counted (S.faults s.old) (sum_by S.faults parts.items) }
{
    let _sizes = s.geometry();
    let count = parts.len();
    let mut parts = parts;
    for _part in 0..count {
        let Some(part) = parts.pop() else {
            unreachable!()
        };
        s.merge(part);
    }
    parts.destroy_empty();
}
