// The numbers of an indirect block, all got by one read of it.
ghost use Rattle.std.specs.Prelude.{◌≡◌, ◌≢◌, ◌≤◌, ◌+◌, ◌*◌, ◌==◌, IfOk, length, map};
ghost use Rattle.std.specs.List.{count_by, range_with_len};
ghost use Rattle.sv_form.specs.Number.{number32};
ghost use Rattle.sv_form.specs.PagePath.{block_numbers, numbers_per};
ghost use Rattle.sv_store.specs.Causes.{HasFault};
ghost use Rattle.sv_store.specs.Frames.{Unchanged};
ghost use Rattle.sv_store.specs.Held.{HoldsBlock, nothing_lent};
ghost use Rattle.sv_bmap.specs.Causes.{HasReason};
ghost use Rattle.sv_bmap.specs.Tree.{child};

use std::alloc::Global;
use std::sync::Wait;
use sv_form::number32;
use sv_store::{NoMemory, Refusal, Stake};

// The numbers in these bytes, one after another.
fn numbers_in(alloc: Global, bytes: &[u8]) -> Result<Vec<u32>, NoMemory>
    ensures { IfOk result (λ numbers. numbers.items
        ≡ map (λ k. number32 bytes.now (k * 4)) (range_with_len 0 (numbers_per (length bytes.now)))) }
{
    let mut numbers = Vec::new(alloc);
    for k in 0..bytes.len() / 4 {
        numbers.push(number32(bytes, k * 4))?;
    }
    Ok(numbers)
}

// The numbers of an indirect block. A refusal is a fault that the stake has counted, or want of memory.
pub(crate) fn numbers_of<R: Wait, S: Stake>(
    rt: &R,
    alloc: Global,
    s: &mut S,
    b: u32,
) -> Result<Vec<u32>, Refusal>
    requires some { b ≢ 0 }
    requires block { HoldsBlock (S.origin s.old) (S.held s.old) b }
    requires lent { S.lent s.old ≡ nothing_lent }
    ensures numbers { IfOk result (λ numbers. numbers.items
        ≡ map (child (S.held s.old) b) (range_with_len 0 (block_numbers (S.origin s.old).sizes))) }
    ensures stake { Unchanged S.held S.lent S.origin S.forced s.old s.new }
    ensures cause { HasReason (S.faults s.old) (S.faults s.new) result }
{
    let _sizes = s.geometry();
    let buf = s.bread(rt, b)?;
    let listed = numbers_in(alloc, buf.bytes());
    s.brelse(rt, buf);
    let numbers = listed?;
    Ok(numbers)
}

// How many of these numbers in the bytes are 0.
fn zeros_in(bytes: &[u8], from: usize, count: u32) -> u32
    requires { (from + count) * 4 ≤ length bytes.now }
    ensures zeros { result ≡ count_by (λ k. number32 bytes.now (k * 4) == 0) (range_with_len from count) }
    ensures few { result ≤ count }
{
    let mut zeros = 0;
    for k in 0..count {
        zeros += u32::from(number32(bytes, (from + k as usize) * 4) == 0);
    }
    zeros
}

// How many of these numbers of an indirect block are holes. Below a hole all are.
pub(crate) fn holes_of<R: Wait, S: Stake>(
    rt: &R,
    s: &mut S,
    b: u32,
    from: usize,
    count: u32,
) -> Result<u32, Refusal>
    requires block { b ≢ 0 → HoldsBlock (S.origin s.old) (S.held s.old) b }
    requires places { from + count ≤ block_numbers (S.origin s.old).sizes }
    requires lent { S.lent s.old ≡ nothing_lent }
    ensures holes { IfOk result (λ holes. holes ≡ count_by (λ k. child (S.held s.old) b k == 0) (range_with_len from count)) }
    ensures few { IfOk result (λ holes. holes ≤ count) }
    ensures stake { Unchanged S.held S.lent S.origin S.forced s.old s.new }
    ensures cause { HasFault (S.faults s.old) (S.faults s.new) result }
{
    if b == 0 {
        return Ok(count);
    }
    let _sizes = s.geometry();
    let buf = s.bread(rt, b)?;
    let holes = zeros_in(buf.bytes(), from, count);
    s.brelse(rt, buf);
    Ok(holes)
}
