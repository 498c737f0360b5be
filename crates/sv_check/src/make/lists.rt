// The sizes of an image made anew, and its lists of what is free.
ghost use Rattle.std.specs.Prelude.{◌≡◌, ◌≤◌, ◌+◌, ◌↔◌, IfSome, IfNone, IsTrue};
ghost use Rattle.sv_form.specs.Geometry.{IsGeometry};
ghost use Rattle.sv_check.specs.Mkfs.{CanBeMade, first_data_for, free_cache, free_list, inode_cache, link_to, made_geometry};

use arrayvec::ArrayVec;
use sv_form::Geometry;

/// Whether an image may have so many blocks and so many inodes: 4 to 65,536 blocks and 2 to 65,520 inodes, where the inode list,
/// which begins at block 2 and has 16 inodes a block, leaves a block for data.
pub fn can_be_made(blocks: u32, inodes: u32) -> bool
    ensures { IsTrue result ↔ CanBeMade blocks inodes }
{
    let few = (4..=65_536).contains(&blocks) && (2..=65_520).contains(&inodes);
    few && first_data_for(inodes) < blocks
}

// The first data block of an image for so many inodes.
fn first_data_for(inodes: u32) -> u32
    requires { inodes ≤ 65520 }
    ensures { result ≡ first_data_for inodes }
{
    2 + (inodes + 15) / 16
}

/// The sizes of an image of so many blocks for so many inodes.
pub fn made_geometry(blocks: u32, inodes: u32) -> Option<Geometry>
    ensures some { IfSome result (λ g. (g ≡ made_geometry blocks inodes) × CanBeMade blocks inodes) }
    ensures sizes { IfSome result (λ g. IsGeometry g) }
    ensures none { IfNone result (CanBeMade blocks inodes → ⊥) }
{
    if !can_be_made(blocks, inodes) {
        return None;
    }
    Some(Geometry {
        block_size: 1024,
        blocks,
        first_data: first_data_for(inodes),
    })
}

/// A list of the chain with the free blocks from one up to another, the lowest last.
pub fn free_list(blocks: u32, from: u32, upto: u32) -> ArrayVec<u32, 50>
    requires order { from ≤ upto }
    requires few { upto ≤ from + 49 }
    ensures { result.items ≡ free_list blocks from upto }
{
    let mut list = ArrayVec::new();
    list.push(link_to(blocks, upto));
    for i in 0..upto - from {
        list.push(upto - 1 - i);
    }
    list
}

/// The list that is left in the superblock.
pub fn free_cache(sizes: &Geometry) -> ArrayVec<u32, 50>
    requires { IsGeometry sizes.now }
    ensures { result.items ≡ free_cache sizes.now }
{
    let from = sizes.first_data + 1;
    free_list(sizes.blocks, from, from + (sizes.blocks - from) % 50)
}

// The block of the list above, or 0.
fn link_to(blocks: u32, upto: u32) -> u32
    ensures { result ≡ link_to blocks upto }
{
    if upto == blocks { 0 } else { upto }
}

/// Up to 100 of the smallest numbers from 3 on, of so many inodes, in descending order.
pub fn inode_cache(count: u32) -> ArrayVec<u16, 100>
    requires least { 2 ≤ count }
    requires most { count ≤ 65520 }
    ensures { result.items ≡ inode_cache count }
{
    let mut cache = ArrayVec::new();
    let cached = 100.min(count - 2);
    for i in 0..cached {
        cache.push((2 + cached - i) as u16);
    }
    cache
}
