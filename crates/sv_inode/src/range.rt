// Bytes of a file, page by page.
ghost use Rattle.std.specs.Prelude.{◌≡◌, ◌≤◌, ◌<◌, ◌+◌, ◌++◌, ℕ, [], IfOk, IfSome, OnOk, OnErr, replicate};
ghost use Rattle.sv_form.specs.Geometry.{IsGeometry};
ghost use Rattle.sv_form.specs.PagePath.{IsPage, greatest_size};
ghost use Rattle.sv_store.specs.Calls.{CanGet, Gets};
ghost use Rattle.sv_store.specs.Causes.{HasFault};
ghost use Rattle.sv_store.specs.Frames.{Unchanged};
ghost use Rattle.sv_store.specs.Held.{HoldsBlock, nothing_lent, with};
ghost use Rattle.sv_bmap.specs.Causes.{HasReason};
ghost use Rattle.sv_bmap.specs.Tree.{IsTree};
ghost use Rattle.sv_inode.specs.Contents.{ahead_block, block_there, file_bytes, part_bytes, present_before};

use std::alloc::Global;
use std::sync::Wait;
use sv_bmap::{Addresses, lookup};
use sv_form::Bytes;
use sv_store::{Buf, NoMemory, Refusal, Stake};

// So many bytes of the file, in one vector that has room for all of them.
pub(crate) fn read_range<R: Wait, S: Stake>(
    rt: &R,
    alloc: Global,
    a: &Addresses,
    s: &mut S,
    at: u32,
    count: u32,
) -> Result<Bytes, Refusal>
    requires tree { IsTree (S.origin s.old) (S.held s.old) a.now }
    requires end { 0 < count → at + count ≤ greatest_size (S.origin s.old).sizes }
    requires lent { S.lent s.old ≡ nothing_lent }
    ensures bytes { IfOk result (λ bytes. bytes ≡ file_bytes (S.origin s.old).sizes (S.held s.old) a.now at count) }
    ensures stake { Unchanged S.held S.lent S.origin S.forced s.old s.new }
    ensures cause { HasReason (S.faults s.old) (S.faults s.new) result }
{
    if count == 0 {
        return Ok(Bytes::from_vec(Vec::new(alloc)));
    }
    let mut bytes = Vec::with_capacity(alloc, count as usize)?;
    add_range(rt, a, s, at, count, &mut bytes)?;
    Ok(Bytes::from_vec(bytes))
}

// Adds so many bytes of the file, at least one, to none. The pages that are present are looked up one
// ahead of the page that is read.
fn add_range<R: Wait, S: Stake>(
    rt: &R,
    a: &Addresses,
    s: &mut S,
    at: u32,
    count: u32,
    bytes: &mut Vec<u8>,
) -> Result<(), Refusal>
    requires tree { IsTree (S.origin s.old) (S.held s.old) a.now }
    requires some { 0 < count }
    requires end { at + count ≤ greatest_size (S.origin s.old).sizes }
    requires lent { S.lent s.old ≡ nothing_lent }
    requires bytes { bytes.old.items ≡ [] }
    ensures bytes { OnOk result (bytes.new.items ≡ file_bytes (S.origin s.old).sizes (S.held s.old) a.now at count) }
    ensures stake { Unchanged S.held S.lent S.origin S.forced s.old s.new }
    ensures cause { HasReason (S.faults s.old) (S.faults s.new) result }
{
    let sizes = s.geometry();
    let end = at + count;
    let first = at / sizes.block_size;
    let pages = end.div_ceil(sizes.block_size);
    let mut ahead = look_ahead(rt, a, s, first, pages)?;
    for page in first..pages {
        let block = block_at(ahead, page);
        let next = look_past(rt, a, s, ahead, page, pages)?;
        let start = page * sizes.block_size;
        let from = at.max(start) - start;
        let upto = (end - start).min(sizes.block_size);
        add_part(rt, s, block, block_of(next), from, upto - from, bytes)?;
        ahead = next;
    }
    Ok(())
}

// A page that is no hole, and its block.
type Present = (u32, u32);

// The block of this page, where it is the first one that is present.
fn block_at(ahead: Option<Present>, page: u32) -> Option<u32>
    ensures { result ≡ block_there page ahead }
{
    match ahead {
        Some((present, block)) => { if present == page { Some(block) } else { None } }
        None => None,
    }
}

// The block of the page ahead.
fn block_of(ahead: Option<Present>) -> Option<u32>
    ensures { result ≡ ahead_block ahead }
{
    match ahead {
        Some((_, block)) => Some(block),
        None => None,
    }
}

// The first page that is present from this one on and before `end`.
fn look_ahead<R: Wait, S: Stake>(
    rt: &R,
    a: &Addresses,
    s: &mut S,
    first: u32,
    end: u32,
) -> Result<Option<Present>, Refusal>
    requires tree { IsTree (S.origin s.old) (S.held s.old) a.now }
    requires pages { (page : ℕ) → page < end → IsPage (S.origin s.old).sizes page }
    requires lent { S.lent s.old ≡ nothing_lent }
    ensures ahead { IfOk result (λ ahead. ahead ≡ present_before (S.origin s.old).sizes (S.held s.old) a.now first end) }
    ensures stake { Unchanged S.held S.lent S.origin S.forced s.old s.new }
    ensures cause { HasFault (S.faults s.old) (S.faults s.new) result }
{
    for page in first..end {
        let block = lookup(rt, a, s, page)?;
        if let Some(b) = block {
            return Ok(Some((page, b)));
        }
    }
    Ok(None)
}

// The first page that is present after this one and before `end`, where `ahead` is the first from this one on.
fn look_past<R: Wait, S: Stake>(
    rt: &R,
    a: &Addresses,
    s: &mut S,
    ahead: Option<Present>,
    page: u32,
    end: u32,
) -> Result<Option<Present>, Refusal>
    requires tree { IsTree (S.origin s.old) (S.held s.old) a.now }
    requires pages { (page : ℕ) → page < end → IsPage (S.origin s.old).sizes page }
    requires ahead { ahead ≡ present_before (S.origin s.old).sizes (S.held s.old) a.now page end }
    requires page { page < end }
    requires lent { S.lent s.old ≡ nothing_lent }
    ensures ahead { IfOk result (λ next. next ≡ present_before (S.origin s.old).sizes (S.held s.old) a.now (page + 1) end) }
    ensures stake { Unchanged S.held S.lent S.origin S.forced s.old s.new }
    ensures cause { HasFault (S.faults s.old) (S.faults s.new) result }
{
    match block_at(ahead, page) {
        Some(_) => look_ahead(rt, a, s, page + 1, end),
        None => Ok(ahead),
    }
}

// Adds so many bytes of one page, and asks for the next page ahead.
fn add_part<R: Wait, S: Stake>(
    rt: &R,
    s: &mut S,
    block: Option<u32>,
    next: Option<u32>,
    from: u32,
    count: u32,
    bytes: &mut Vec<u8>,
) -> Result<(), Refusal>
    requires sizes { IsGeometry (S.origin s.old).sizes }
    requires block { IfSome block (λ b. HoldsBlock (S.origin s.old) (S.held s.old) b) }
    requires next { IfSome next (λ b. b < (S.origin s.old).sizes.blocks) }
    requires part { from + count ≤ (S.origin s.old).sizes.block_size }
    requires lent { S.lent s.old ≡ nothing_lent }
    ensures bytes { OnOk result (bytes.new.items ≡ bytes.old.items ++ part_bytes (S.held s.old) block from count) }
    ensures stake { Unchanged S.held S.lent S.origin S.forced s.old s.new }
    ensures cause { HasReason (S.faults s.old) (S.faults s.new) result }
{
    let Some(b) = block else {
        add_zeros(count, bytes)?;
        return Ok(());
    };
    let buf = get_page(rt, s, b, next)?;
    let page = buf.bytes();
    let added = bytes.extend_from_slice(&page[from as usize..(from + count) as usize]);
    s.brelse(rt, buf);
    added?;
    Ok(())
}

// Gets a page, and asks for the next one ahead if there is any (Bach, algorithm breada).
fn get_page<R: Wait, S: Stake>(rt: &R, s: &mut S, b: u32, next: Option<u32>) -> Result<Buf, Refusal>
    requires block { CanGet (S.held s.old) (S.lent s.old) b }
    requires next { IfSome next (λ b. b < (S.origin s.old).sizes.blocks) }
    ensures ok { IfOk result (Gets (S.origin s.old) (S.held s.old) b) }
    ensures lends { IfOk result (λ buf. S.lent s.new ≡ with b buf.bytes (S.lent s.old)) }
    ensures err { OnErr result (S.lent s.new ≡ S.lent s.old) }
    ensures held { S.held s.new ≡ S.held s.old }
    ensures forced { S.forced s.new ≡ S.forced s.old }
    ensures origin { S.origin s.new ≡ S.origin s.old }
    ensures cause { HasFault (S.faults s.old) (S.faults s.new) result }
{
    match next {
        Some(next) => s.breada(rt, b, next),
        None => s.bread(rt, b),
    }
}

// Adds so many zero bytes.
fn add_zeros(count: u32, bytes: &mut Vec<u8>) -> Result<(), NoMemory>
    ensures { OnOk result (bytes.new.items ≡ bytes.old.items ++ replicate count 0) }
{
    for _byte in 0..count {
        bytes.push(0)?;
    }
    Ok(())
}
