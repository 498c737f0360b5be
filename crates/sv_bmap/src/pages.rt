// From a page to its block, and the blocks that are missing on the way.
ghost use Rattle.std.specs.Prelude.{◌≡◌, ◌≢◌, ◌≤◌, ◌<◌, ◌+◌, ◌==◌, ◌&&◌, ℕ, IfOk, if◌then◌else◌};
ghost use Rattle.sv_form.specs.PagePath.{IsPage, block_numbers};
ghost use Rattle.sv_store.specs.Causes.{HasFault};
ghost use Rattle.sv_store.specs.Frames.{Unchanged};
ghost use Rattle.sv_store.specs.Held.{HoldsBlock, nothing_lent};
ghost use Rattle.sv_bmap.specs.Need.{CountsRun, IsRun, need_of};
ghost use Rattle.sv_bmap.specs.Tree.{IsTree, child, no_hole, page_block};

use crate::numbers::holes_of;
use std::sync::Wait;
use sv_form::{DOUBLE, PagePath, SINGLE, TRIPLE, number32};
use sv_store::{Refusal, Stake};

/// The block numbers of an inode: ten of pages, and those of the single, the double and the triple indirect block.
pub type Addresses = [u32; 13];

/// The block of a page, none exactly for a hole (Bach, chapter 4.2, algorithm bmap). At most three blocks are read.
pub fn lookup<R: Wait, S: Stake>(
    rt: &R,
    a: &Addresses,
    s: &mut S,
    page: u32,
) -> Result<Option<u32>, Refusal>
    requires tree { IsTree (S.origin s.old) (S.held s.old) a.now }
    requires page { IsPage (S.origin s.old).sizes page }
    requires lent { S.lent s.old ≡ nothing_lent }
    ensures block { IfOk result (λ block. block ≡ no_hole (page_block (S.origin s.old).sizes (S.held s.old) a.now page)) }
    ensures stake { Unchanged S.held S.lent S.origin S.forced s.old s.new }
    ensures cause { HasFault (S.faults s.old) (S.faults s.new) result }
{
    let block = block_of(rt, a, s, page)?;
    Ok(if_present(block))
}

// The block of a page, 0 for a hole.
fn block_of<R: Wait, S: Stake>(rt: &R, a: &Addresses, s: &mut S, page: u32) -> Result<u32, Refusal>
    requires tree { IsTree (S.origin s.old) (S.held s.old) a.now }
    requires page { IsPage (S.origin s.old).sizes page }
    requires lent { S.lent s.old ≡ nothing_lent }
    ensures block { IfOk result (λ block. block ≡ page_block (S.origin s.old).sizes (S.held s.old) a.now page) }
    ensures stake { Unchanged S.held S.lent S.origin S.forced s.old s.new }
    ensures cause { HasFault (S.faults s.old) (S.faults s.new) result }
{
    let sizes = s.geometry();
    match sizes.path_of(page) {
        PagePath::Direct(i) => Ok(a[usize::from(i)]),
        PagePath::Single(i) => child_of(rt, s, a[SINGLE], usize::from(i)),
        PagePath::Double(i, j) => {
            let (_, block) = two_below(rt, s, a[DOUBLE], usize::from(i), usize::from(j))?;
            Ok(block)
        }
        PagePath::Triple(i, j, k) => {
            let (i, j, k) = (usize::from(i), usize::from(j), usize::from(k));
            let (_, _, block) = three_below(rt, s, a[TRIPLE], i, j, k)?;
            Ok(block)
        }
    }
}

// A block number, if it is no hole.
fn if_present(block: u32) -> Option<u32>
    ensures { result ≡ no_hole block }
{
    if block == 0 { None } else { Some(block) }
}

// Where a number of an indirect block leads, 0 below a hole.
pub(crate) fn child_of<R: Wait, S: Stake>(
    rt: &R,
    s: &mut S,
    b: u32,
    k: usize,
) -> Result<u32, Refusal>
    requires block { b ≢ 0 → HoldsBlock (S.origin s.old) (S.held s.old) b }
    requires place { k < block_numbers (S.origin s.old).sizes }
    requires lent { S.lent s.old ≡ nothing_lent }
    ensures block { IfOk result (λ block. block ≡ child (S.held s.old) b k) }
    ensures stake { Unchanged S.held S.lent S.origin S.forced s.old s.new }
    ensures cause { HasFault (S.faults s.old) (S.faults s.new) result }
{
    if b == 0 {
        return Ok(0);
    }
    let buf = s.bread(rt, b)?;
    let block = number32(buf.bytes(), k * 4);
    s.brelse(rt, buf);
    Ok(block)
}

// Where two numbers, one below the other, lead.
fn two_below<R: Wait, S: Stake>(
    rt: &R,
    s: &mut S,
    b: u32,
    i: usize,
    j: usize,
) -> Result<(u32, u32), Refusal>
    requires top { b ≢ 0 → HoldsBlock (S.origin s.old) (S.held s.old) b }
    requires below { child (S.held s.old) b i ≢ 0 → HoldsBlock (S.origin s.old) (S.held s.old) (child (S.held s.old) b i) }
    requires first { i < block_numbers (S.origin s.old).sizes }
    requires second { j < block_numbers (S.origin s.old).sizes }
    requires lent { S.lent s.old ≡ nothing_lent }
    ensures first { IfOk result (λ blocks. blocks.0 ≡ child (S.held s.old) b i) }
    ensures second { IfOk result (λ blocks. blocks.1 ≡ child (S.held s.old) (child (S.held s.old) b i) j) }
    ensures stake { Unchanged S.held S.lent S.origin S.forced s.old s.new }
    ensures cause { HasFault (S.faults s.old) (S.faults s.new) result }
{
    let middle = child_of(rt, s, b, i)?;
    let block = child_of(rt, s, middle, j)?;
    Ok((middle, block))
}

// Where three numbers, each below the one before, lead.
fn three_below<R: Wait, S: Stake>(
    rt: &R,
    s: &mut S,
    b: u32,
    i: usize,
    j: usize,
    k: usize,
) -> Result<(u32, u32, u32), Refusal>
    requires top { b ≢ 0 → HoldsBlock (S.origin s.old) (S.held s.old) b }
    requires middle { child (S.held s.old) b i ≢ 0 → HoldsBlock (S.origin s.old) (S.held s.old) (child (S.held s.old) b i) }
    requires below { child (S.held s.old) (child (S.held s.old) b i) j ≢ 0
        → HoldsBlock (S.origin s.old) (S.held s.old) (child (S.held s.old) (child (S.held s.old) b i) j) }
    requires first { i < block_numbers (S.origin s.old).sizes }
    requires second { j < block_numbers (S.origin s.old).sizes }
    requires third { k < block_numbers (S.origin s.old).sizes }
    requires lent { S.lent s.old ≡ nothing_lent }
    ensures first { IfOk result (λ blocks. blocks.0 ≡ child (S.held s.old) b i) }
    ensures second { IfOk result (λ blocks. blocks.1 ≡ child (S.held s.old) (child (S.held s.old) b i) j) }
    ensures third { IfOk result (λ blocks. blocks.2 ≡ child (S.held s.old) (child (S.held s.old) (child (S.held s.old) b i) j) k) }
    ensures stake { Unchanged S.held S.lent S.origin S.forced s.old s.new }
    ensures cause { HasFault (S.faults s.old) (S.faults s.new) result }
{
    let (upper, lower) = two_below(rt, s, b, i, j)?;
    let block = child_of(rt, s, lower, k)?;
    Ok((upper, lower, block))
}

/// How many data and indirect blocks make `count` pages from `first` on present. An indirect block whose numbers are pages is
/// read once for all of its pages that are asked for.
pub fn need<R: Wait, S: Stake>(
    rt: &R,
    a: &Addresses,
    s: &mut S,
    first: u32,
    count: u32,
) -> Result<u32, Refusal>
    requires tree { IsTree (S.origin s.old) (S.held s.old) a.now }
    requires pages { (k : ℕ) → k < count → IsPage (S.origin s.old).sizes (first + k) }
    requires lent { S.lent s.old ≡ nothing_lent }
    ensures need { IfOk result (λ need. need ≡ need_of (S.origin s.old).sizes (S.held s.old) a.now first count) }
    ensures stake { Unchanged S.held S.lent S.origin S.forced s.old s.new }
    ensures cause { HasFault (S.faults s.old) (S.faults s.new) result }
{
    let _sizes = s.geometry();
    let mut missing = 0;
    let mut done = 0;
    while done < count {
        let run = need_of_run(rt, a, s, first, first + done, count - done)?;
        missing += run.missing;
        done += run.pages;
    }
    Ok(missing)
}

// Pages one after another, and how many of the missing blocks are counted at them.
#[derive(Clone, Copy)]
struct Run {
    pages: u32,
    missing: u32,
}

// This page and those after it under the same block, of so many.
fn need_of_run<R: Wait, S: Stake>(
    rt: &R,
    a: &Addresses,
    s: &mut S,
    first: u32,
    page: u32,
    left: u32,
) -> Result<Run, Refusal>
    requires tree { IsTree (S.origin s.old) (S.held s.old) a.now }
    requires page { IsPage (S.origin s.old).sizes page }
    requires order { first ≤ page }
    requires some { 1 ≤ left }
    requires lent { S.lent s.old ≡ nothing_lent }
    ensures run { IfOk result (λ run. CountsRun (S.origin s.old).sizes (S.held s.old) a.now first page left run.pages run.missing) }
    ensures stake { Unchanged S.held S.lent S.origin S.forced s.old s.new }
    ensures cause { HasFault (S.faults s.old) (S.faults s.new) result }
{
    let sizes = s.geometry();
    let begins = page == first;
    match sizes.path_of(page) {
        PagePath::Direct(i) => Ok(Run {
            pages: 1,
            missing: missing(a[usize::from(i)], true),
        }),
        PagePath::Single(i) => {
            let above = missing(a[SINGLE], begins | (i == 0));
            run_below(rt, s, a[SINGLE], i, left, above)
        }
        PagePath::Double(i, j) => {
            let middle = child_of(rt, s, a[DOUBLE], usize::from(i))?;
            let above = missing(a[DOUBLE], begins | ((i == 0) & (j == 0)))
                + missing(middle, begins | (j == 0));
            run_below(rt, s, middle, j, left, above)
        }
        PagePath::Triple(i, j, k) => {
            let (upper, lower) = two_below(rt, s, a[TRIPLE], usize::from(i), usize::from(j))?;
            let above = missing(a[TRIPLE], begins | ((i == 0) & ((j == 0) & (k == 0))))
                + missing(upper, begins | ((j == 0) & (k == 0)))
                + missing(lower, begins | (k == 0));
            run_below(rt, s, lower, k, left, above)
        }
    }
}

// The pages of an indirect block from one of its numbers on, at most so many. The missing blocks above them are counted too.
fn run_below<R: Wait, S: Stake>(
    rt: &R,
    s: &mut S,
    b: u32,
    k: u16,
    left: u32,
    above: u32,
) -> Result<Run, Refusal>
    requires block { b ≢ 0 → HoldsBlock (S.origin s.old) (S.held s.old) b }
    requires place { k < block_numbers (S.origin s.old).sizes }
    requires some { 1 ≤ left }
    requires few { above ≤ 3 }
    requires lent { S.lent s.old ≡ nothing_lent }
    ensures run { IfOk result (λ run. IsRun (S.held s.old) (block_numbers (S.origin s.old).sizes) b k left above run.pages run.missing) }
    ensures stake { Unchanged S.held S.lent S.origin S.forced s.old s.new }
    ensures cause { HasFault (S.faults s.old) (S.faults s.new) result }
{
    let sizes = s.geometry();
    let pages = left.min(sizes.block_numbers() - u32::from(k));
    let holes = holes_of(rt, s, b, usize::from(k), pages)?;
    Ok(Run {
        pages,
        missing: above + holes,
    })
}

// One for a hole, where this page is the first in the range that it stands above.
fn missing(block: u32, is_first: bool) -> u32
    ensures missing { result ≡ (if (block == 0) && is_first then 1 else 0) }
    ensures few { result ≤ 1 }
{
    u32::from((block == 0) & is_first)
}
