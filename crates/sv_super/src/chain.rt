// Lists of free blocks, in memory and in link blocks.
ghost use Rattle.std.specs.Prelude.{◌≡◌, ◌≢◌, ◌≤◌, ℕ, IfOk, OnOk, OnErr, IsErrOf, false, length, take};
ghost use Rattle.sv_form.specs.Geometry.{IsDataBlock};
ghost use Rattle.sv_form.specs.LinkBlock.{HasSpelling, IsLinkBlock};
ghost use Rattle.sv_store.specs.Causes.{HasFault};
ghost use Rattle.sv_store.specs.Held.{HoldsBlock, nothing_lent};
ghost use Rattle.sv_store.specs.declared.refusal.Refusal.TheVariants.{NoMemory};
ghost use Rattle.sv_super.specs.Calls.{Links, PutsList};
ghost use Rattle.sv_super.specs.Core.{HoldsSuper, alone, less};
ghost use Rattle.sv_super.specs.FreeList.{HasList, after, last, list_of};

use arrayvec::ArrayVec;
use std::alloc::Global;
use std::sync::Wait;
use sv_form::{LINK_BLOCK_SIZE, LineRange, LinkBlock};
use sv_store::{Refusal, Stake};

// The first numbers of a list.
pub(crate) fn first_of(numbers: &[u32], count: usize) -> LinkBlock
    requires count { count ≤ length numbers.now }
    requires fits { count ≤ 50 }
    ensures { result.numbers.items ≡ take count numbers.now }
{
    let mut first = ArrayVec::new();
    for number in &numbers[..count] {
        first.push(*number);
    }
    LinkBlock { numbers: first }
}

// The list with which a block begins.
fn list_in(bytes: &[u8]) -> LinkBlock
    requires size { 204 ≤ length bytes.now }
    requires list { (list : LinkBlock) × IsLinkBlock (take 204 bytes.now) list }
    ensures { IsLinkBlock (take 204 bytes.now) result }
{
    let Some(list) = LinkBlock::read(&bytes[..LINK_BLOCK_SIZE]) else {
        unreachable!()
    };
    list
}

// Writes a list to the begin of a block.
fn write_list(list: &LinkBlock, bytes: &mut [u8])
    requires size { 204 ≤ length bytes.old }
    requires spelled { HasSpelling list.now }
    ensures { IsLinkBlock (take 204 bytes.new) list.now }
{
    let (front, _rest) = bytes.split_at_mut(LINK_BLOCK_SIZE);
    list.write(front);
}

// The list that stands in a link block.
fn read_list<R: Wait, S: Stake>(rt: &R, s: &mut S, b: u32) -> Result<LinkBlock, Refusal>
    requires block { HoldsBlock (S.origin s.old) (S.held s.old) b }
    requires list { HasList (S.held s.old b) (list_of (S.held s.old b)) }
    requires lent { S.lent s.old ≡ nothing_lent }
    ensures list { IfOk result (λ list. list.numbers.items ≡ list_of (S.held s.old b)) }
    ensures held { S.held s.new ≡ S.held s.old }
    ensures lends { S.lent s.new ≡ nothing_lent }
    ensures forced { S.forced s.new ≡ S.forced s.old }
    ensures origin { S.origin s.new ≡ S.origin s.old }
    ensures cause { HasFault (S.faults s.old) (S.faults s.new) result }
{
    let _sizes = s.geometry();
    let buf = s.bread(rt, b)?;
    let list = list_in(buf.bytes());
    s.brelse(rt, buf);
    Ok(list)
}

// Makes a block a link block with this list.
fn put_list<R: Wait, S: Stake>(rt: &R, s: &mut S, b: u32, list: &LinkBlock) -> Result<(), Refusal>
    requires block { HoldsBlock (S.origin s.old) (S.held s.old) b }
    requires spelled { HasSpelling list.now }
    requires lent { S.lent s.old ≡ nothing_lent }
    ensures ok { OnOk result (PutsList (S.held s.old) (S.held s.new) b list.now.numbers.items) }
    ensures err { OnErr result (S.held s.new ≡ S.held s.old) }
    ensures lends { S.lent s.new ≡ nothing_lent }
    ensures forced { S.forced s.new ≡ S.forced s.old }
    ensures origin { S.origin s.new ≡ S.origin s.old }
    ensures cause { HasFault (S.faults s.old) (S.faults s.new) result }
{
    let _sizes = s.geometry();
    let mut buf = s.fresh(rt, b)?;
    let bytes = buf.bytes_mut();
    write_list(list, bytes);
    s.bdwrite(rt, buf);
    Ok(())
}

// What is taken from a list, and the list after it: where there is one number, that which stands in its block.
pub(crate) fn next_of<R: Wait, S: Stake>(
    rt: &R,
    s: &mut S,
    list: &LinkBlock,
) -> Result<(u32, LinkBlock), Refusal>
    requires some { 1 ≤ length list.now.numbers.items }
    requires block { HoldsBlock (S.origin s.old) (S.held s.old) (last list.now.numbers.items) }
    requires link { length list.now.numbers.items ≡ 1
        → HasList (S.held s.old (last list.now.numbers.items)) (list_of (S.held s.old (last list.now.numbers.items))) }
    requires lent { S.lent s.old ≡ nothing_lent }
    ensures block { IfOk result (λ next. next.0 ≡ last list.now.numbers.items) }
    ensures list { IfOk result (λ next. next.1.numbers.items ≡ after (S.held s.old) list.now.numbers.items) }
    ensures held { S.held s.new ≡ S.held s.old }
    ensures lends { S.lent s.new ≡ nothing_lent }
    ensures forced { S.forced s.new ≡ S.forced s.old }
    ensures origin { S.origin s.new ≡ S.origin s.old }
    ensures cause { HasFault (S.faults s.old) (S.faults s.new) result }
{
    let numbers = list.numbers.as_slice();
    let before = numbers.len() - 1;
    let block = numbers[before];
    if before > 0 {
        return Ok((block, first_of(numbers, before)));
    }
    let below = read_list(rt, s, block)?;
    Ok((block, below))
}

// Adds a block to a list. Where the list is full it is written to the block, which is then the only number.
pub(crate) fn link<R: Wait, S: Stake>(
    rt: &R,
    s: &mut S,
    list: &mut LinkBlock,
    b: u32,
) -> Result<(), Refusal>
    requires block { HoldsBlock (S.origin s.old) (S.held s.old) b }
    requires named { b ≢ 0 }
    requires spelled { HasSpelling list.old }
    requires lent { S.lent s.old ≡ nothing_lent }
    ensures ok { OnOk result (Links (S.held s.old) (S.held s.new) list.old.numbers.items list.new.numbers.items b) }
    ensures err { OnErr result (S.held s.new ≡ S.held s.old) }
    ensures list { OnErr result (list.new ≡ list.old) }
    ensures lends { S.lent s.new ≡ nothing_lent }
    ensures forced { S.forced s.new ≡ S.forced s.old }
    ensures origin { S.origin s.new ≡ S.origin s.old }
    ensures cause { HasFault (S.faults s.old) (S.faults s.new) result }
{
    if !list.numbers.is_full() {
        list.numbers.push(b);
        return Ok(());
    }
    put_list(rt, s, b, list)?;
    list.numbers.clear();
    list.numbers.push(b);
    Ok(())
}

// Cuts all lines of a data block off.
pub(crate) fn cut_block<S: Stake>(alloc: Global, s: &mut S, b: u32) -> Result<S, Refusal>
    requires block { HoldsBlock (S.origin s.old) (S.held s.old) b }
    requires in_data { IsDataBlock (S.origin s.old).sizes b }
    requires rest { HoldsSuper (S.origin s.old) (S.held s.old) }
    requires lent { S.lent s.old ≡ nothing_lent }
    ensures mine { OnOk result (S.held s.new ≡ less b (S.held s.old)) }
    ensures theirs { IfOk result (λ part. S.held part ≡ alone b (S.held s.old)) }
    ensures whole { IfOk result (λ part. HoldsBlock (S.origin s.old) (S.held part) b) }
    ensures part_lent { IfOk result (λ part. S.lent part ≡ nothing_lent) }
    ensures part_faults { IfOk result (λ part. S.faults part ≡ 0) }
    ensures part_forced { IfOk result (λ part. S.forced part ≡ false) }
    ensures part_origin { IfOk result (λ part. S.origin part ≡ S.origin s.old) }
    ensures err { OnErr result (S.held s.new ≡ S.held s.old) }
    ensures memory { OnErr result (IsErrOf result NoMemory) }
    ensures lends { S.lent s.new ≡ nothing_lent }
    ensures faults { S.faults s.new ≡ S.faults s.old }
    ensures forced { S.forced s.new ≡ S.forced s.old }
    ensures origin { S.origin s.new ≡ S.origin s.old }
{
    let sizes = s.geometry();
    let lines = [LineRange {
        block: b,
        first: 0,
        count: sizes.block_lines() as u8,
    }];
    s.part(alloc, &lines)
}
