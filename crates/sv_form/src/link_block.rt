// A link block of the chain of free blocks (Bach, chapter 4.7).
ghost use Rattle.std.specs.Prelude.{◌≡◌, ◌≢◌, ◌≤◌, ◌<◌, ◌↔◌, ℕ, List, length, slice_index, IfSome, IfNone, IsTrue};
ghost use Rattle.sv_form.specs.LinkBlock.{AreBlocks, HasOneSpelling, HasSpelling, SpellsOneLinkBlock};

use crate::number::{is_zero, write_number16, write_zeros};
use crate::table::{LIST_MAX, read_block_list, write_table32};
use arrayvec::ArrayVec;

/// The list that stands in a link block: 1 to 50 numbers. The first is the link, 0 or the next link block; the others
/// are free blocks and not 0.
#[derive(Debug, Drop)]
pub struct LinkBlock {
    pub numbers: ArrayVec<u32, 50>,
}

/// How many bytes of its block a link block's list takes; the rest is not looked at.
pub const LINK_BLOCK_SIZE: usize = 204;

impl LinkBlock {
    ghost use Rattle.sv_form.specs.declared.link_block.LinkBlock.{LinkBlock};
    ghost use Rattle.sv_form.specs.LinkBlock.{IsLinkBlock};

    /// Reads the first 204 bytes of a link block.
    pub fn read(from: &[u8]) -> Option<LinkBlock>
        requires { length from.now ≡ 204 }
        ensures some { IfSome result (λ l. IsLinkBlock from.now l) }
        ensures none { IfNone result ((l : LinkBlock) → IsLinkBlock from.now l → ⊥) }
    {
        if !is_zero(from, 2, 4) {
            return None;
        }
        let numbers = read_block_list(from, 0, 4)?;
        if !are_blocks(numbers.as_slice()) {
            return None;
        }
        Some(LinkBlock { numbers })
    }

    /// Spells the list.
    pub fn write(&self, into: &mut [u8])
        requires len { length into.old ≡ 204 }
        requires spelled { HasSpelling self.now }
        ensures { IsLinkBlock into.new self.now }
    {
        write_table32(self.numbers.as_slice(), into, 4, LIST_MAX);
        write_zeros(into, 2, 4);
        write_number16(into, 0, self.numbers.len() as u16);
    }
}

/// No bytes spell two lists, and no list has two spellings.
pub fn link_blocks_have_one_spelling()
    ensures value { SpellsOneLinkBlock }
    ensures bytes { HasOneSpelling }
{}

// Whether each number after the first is not 0.
fn are_blocks(numbers: &[u32]) -> bool
    ensures { IsTrue result ↔ AreBlocks numbers.now }
{
    for place in 1..numbers.len() {
        if numbers[place] == 0 {
            return false;
        }
    }
    true
}
