// The superblock (Bach, chapter 4.5).
ghost use Rattle.std.specs.Prelude.{◌≡◌, ℕ, List, length, IfSome, IfNone};
ghost use Rattle.sv_form.specs.Number.{ChangesOnly};
ghost use Rattle.sv_form.specs.Superblock.{IsInodeCache, HasOneSpelling, HasSpelling, IsHead, SpellsOneSuper};

use crate::number::{is_zero, number16, number32, write_number16, write_number32, write_zeros};
use crate::table::{LIST_MAX, read_block_list, write_table16, write_table32};
use arrayvec::ArrayVec;

/// The first number of a superblock: the bytes 53 56 35 46, which are `SV5F`.
pub const MAGIC: u32 = 0x4635_5653;

// The most numbers in the free inode cache.
const CACHE_MAX: usize = 100;

/// The first 512 bytes that are looked at: the sizes of the image, and its two caches of what is free.
///
/// The free block cache has 1 to 50 numbers. Its first is the link, 0 or a block with the next list; the last is
/// taken first. The free inode cache has 0 to 100 numbers.
#[derive(Debug, Drop)]
pub struct Super {
    /// 2 for blocks of 1,024 bytes.
    pub block_type: u16,
    pub first_data: u16,
    pub blocks: u32,
    pub free: ArrayVec<u32, 50>,
    pub inodes: ArrayVec<u16, 100>,
}

impl Super {
    ghost use Rattle.sv_form.specs.declared.superblock.Super.{Super};
    ghost use Rattle.sv_form.specs.Superblock.{IsSuper};

    /// Reads the 512 bytes at the superblock's place. Any block type is read.
    pub fn read(from: &[u8]) -> Option<Super>
        requires { length from.now ≡ 512 }
        ensures some { IfSome result (λ s. IsSuper from.now s) }
        ensures none { IfNone result ((s : Super) → IsSuper from.now s → ⊥) }
    {
        if number32(from, 0) != MAGIC {
            return None;
        }
        if !is_zero(from, 416, 512) {
            return None;
        }
        let free = read_block_list(from, 12, 16)?;
        let inodes = read_inodes(from)?;
        Some(Super {
            block_type: number16(from, 4),
            first_data: number16(from, 6),
            blocks: number32(from, 8),
            free,
            inodes,
        })
    }

    /// Spells the superblock.
    pub fn write(&self, into: &mut [u8])
        requires len { length into.old ≡ 512 }
        requires spelled { HasSpelling self.now }
        ensures { IsSuper into.new self.now }
    {
        write_table32(self.free.as_slice(), into, 16, LIST_MAX);
        write_table16(self.inodes.as_slice(), into, 216, CACHE_MAX);
        write_zeros(into, 416, 512);
        self.write_head(into);
    }

    // The sixteen bytes before the two caches: the magic number, the sizes and the counts.
    fn write_head(&self, into: &mut [u8])
        requires { length into.old ≡ 512 }
        ensures head { IsHead into.new self.now }
        ensures others { ChangesOnly into.old into.new 0 16 }
    {
        write_number32(into, 0, MAGIC);
        write_number16(into, 4, self.block_type);
        write_number16(into, 6, self.first_data);
        write_number32(into, 8, self.blocks);
        write_number16(into, 12, self.free.len() as u16);
        write_number16(into, 14, self.inodes.len() as u16);
    }
}

/// No bytes spell two superblocks, and no superblock has two spellings.
pub fn superblocks_have_one_spelling()
    ensures value { SpellsOneSuper }
    ensures bytes { HasOneSpelling }
{}

// The free inode cache: 0 to 100 numbers, and 0 at each place that is not used.
fn read_inodes(from: &[u8]) -> Option<ArrayVec<u16, 100>>
    requires { length from.now ≡ 512 }
    ensures some { IfSome result (λ inodes. IsInodeCache from.now inodes.items) }
    ensures none { IfNone result ((list : List ℕ) → IsInodeCache from.now list → ⊥) }
{
    let count = usize::from(number16(from, 14));
    if count > CACHE_MAX {
        return None;
    }
    if !is_zero(from, 216 + 2 * count, 416) {
        return None;
    }
    let mut inodes = ArrayVec::new();
    for place in 0..count {
        inodes.push(number16(from, 216 + 2 * place));
    }
    Some(inodes)
}
