// The blocks that a node uses, by height and number.
ghost use Rattle.std.specs.Prelude.{◌≡◌, ◌<◌, ◌≤◌, ◌+◌, ◌++◌, not, length, OnOk, OnErr, IfOk};
ghost use Rattle.std.specs.FinSet as set;
ghost use Rattle.std.specs.List.{filter, list_any, range_with_len};
ghost use Rattle.sv_form.specs.Node.{blocks_at};
ghost use Rattle.sv_plain.specs.Blocks.{with_blocks};
ghost use Rattle.sv_plain.specs.Missing.{is_block, missing};
ghost use Rattle.sv_plain.specs.Written.{without_blocks};

use crate::{NoMemory, PairSet};
use std::alloc::Global;
use std::marker::Model;
use sv_form::DIRECT;

// What stands in a place for a block that a page does not have.
const UNUSED: (u32, u32) = (0, 0);

/// The blocks of a page, the lowest first: the page itself, and the indirect blocks above it (Bach, chapter 4.2).
#[derive(Drop)]
pub(crate) struct PageBlocks {
    all: [(u32, u32); 4],
    count: usize,
}

impl Model for PageBlocks {
    ghost use Rattle.std.specs.Prelude.{◌≡◌, ◌≤◌, ℕ, List, take, length};

    ghost Value = { List (ℕ × ℕ) };

    ghost view = { λ b. take b.count b.all };

    ghost invariant = { λ b. (b.count ≤ 4) × (length b.all ≡ 4) };
}

impl PageBlocks {
    /// The blocks of this page. An indirect block has `per` numbers.
    pub(crate) fn of(per: u32, page: u32) -> PageBlocks
        requires some { 0 < per }
        requires few { per < 1024 }
        ensures { result ≡ blocks_at per page }
    {
        if page < DIRECT {
            return PageBlocks {
                all: [(0, page), UNUSED, UNUSED, UNUSED],
                count: 1,
            };
        }
        let single = (1, (page - DIRECT) / per);
        let doubles = DIRECT + per;
        if page < doubles {
            return PageBlocks {
                all: [(0, page), single, UNUSED, UNUSED],
                count: 2,
            };
        }
        let double = (2, (page - doubles) / (per * per));
        let triples = doubles + per * per;
        if page < triples {
            return PageBlocks {
                all: [(0, page), single, double, UNUSED],
                count: 3,
            };
        }
        PageBlocks {
            all: [(0, page), single, double, (3, 0)],
            count: 4,
        }
    }

    pub(crate) fn as_slice(&self) -> &[(u32, u32)]
        ensures same { result.now ≡ self.now }
        ensures few { length result.now ≤ 4 }
    {
        &self.all[..self.count]
    }
}

/// Puts the page and the indirect blocks above it into the set, or nothing. An indirect block has `per` numbers.
pub fn put_page_blocks(blocks: &mut PairSet, per: u32, page: u32) -> Result<(), NoMemory>
    requires some { 0 < per }
    requires few { per < 1024 }
    ensures put { OnOk result (blocks.new ≡ with_blocks blocks.old (blocks_at per page)) }
    ensures refused { OnErr result (blocks.new ≡ blocks.old) }
{
    put_blocks(blocks, PageBlocks::of(per, page).as_slice())
}

// Puts these blocks into the set, or none of them.
fn put_blocks(blocks: &mut PairSet, new: &[(u32, u32)]) -> Result<(), NoMemory>
    ensures put { OnOk result (blocks.new ≡ with_blocks blocks.old new.now) }
    ensures refused { OnErr result (blocks.new ≡ blocks.old) }
{
    let Some((&(height, number), rest)) = new.split_first() else {
        return Ok(());
    };
    if blocks.contains(height, number) {
        return put_blocks(blocks, rest);
    }
    blocks.insert(height, number)?;
    let Ok(()) = put_blocks(blocks, rest) else {
        blocks.remove(height, number);
        return Err(NoMemory);
    };
    Ok(())
}

/// The block is among these.
pub(crate) fn is_among(blocks: &[(u32, u32)], height: u32, number: u32) -> bool
    ensures { result ≡ list_any (is_block (height, number)) blocks.now }
{
    blocks
        .iter()
        .any(|block| height == block.0 && number == block.1)
}

// Pushes those of these blocks that the set lacks.
fn push_missing(
    missing: &mut Vec<(u32, u32)>,
    blocks: &PairSet,
    new: &[(u32, u32)],
) -> Result<(), NoMemory>
    ensures { OnOk result (missing.new.items ≡ missing.old.items ++ filter (λ b. not (set.contains blocks.now b)) new.now) }
{
    for block in new {
        let (height, number) = *block;
        if blocks.contains(height, number) {
            continue;
        }
        missing.push((height, number))?;
    }
    Ok(())
}

/// The blocks that the set lacks of `count` pages from `first` on. A block that two pages have stands there twice.
pub(crate) fn missing_blocks(
    alloc: Global,
    blocks: &PairSet,
    per: u32,
    first: u32,
    count: u32,
) -> Result<Vec<(u32, u32)>, NoMemory>
    requires some { 0 < per }
    requires few { per < 1024 }
    requires fits { first + count ≤ 4294967295 }
    ensures { IfOk result (λ v. v.items ≡ missing blocks.now per (range_with_len first count)) }
{
    let mut missing = Vec::new(alloc);
    for k in 0..count {
        let page = PageBlocks::of(per, first + k);
        push_missing(&mut missing, blocks, page.as_slice())?;
    }
    Ok(missing)
}

/// Removes these blocks from the set.
pub(crate) fn remove_blocks(blocks: &mut PairSet, gone: &[(u32, u32)])
    ensures { blocks.new ≡ without_blocks blocks.old gone.now }
{
    for block in gone {
        let (height, number) = *block;
        blocks.remove(height, number);
    }
}
