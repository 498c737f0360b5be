// The blocks of an image made anew.
ghost use Rattle.std.specs.Prelude.{◌≡◌, ◌≤◌, ◌<◌, ◌+◌, ◌*◌, ◌++◌, ◌^◌, length, flat_map};
ghost use Rattle.sv_form.specs.Geometry.{IsGeometry};
ghost use Rattle.sv_check.specs.Mkfs.{list_in};
ghost use Rattle.sv_check.specs.MadeBlocks.{block_content, filled_to, head_bytes, link_block_bytes, little16, little24, little32};
ghost use Rattle.sv_check.specs.MadeBlocks.{made_block, root_inode_bytes, root_page_bytes, superblock_bytes};

use crate::make::lists::{free_cache, free_list, inode_cache};
use arrayvec::ArrayVec;
use sv_form::{Geometry, MAGIC};

// The bytes of a block.
const SIZE: usize = 1024;

// Where the superblock stands in block 0, and its free inode cache.
const SUPERBLOCK: usize = 512;

const INODE_CACHE: usize = SUPERBLOCK + 216;

const BLOCK_TYPE: u16 = 2;

// A directory of mode 755.
const ROOT_MODE: u16 = 4096 * 4 + 0o755;

const ROOT: u16 = 2;

/// The bytes of one block of an image made anew.
pub fn made_block(sizes: &Geometry, number: u32) -> ArrayVec<u8, 1024>
    requires sizes { IsGeometry sizes.now }
    requires number { number < sizes.now.blocks }
    ensures bytes { result.items ≡ made_block sizes.now number }
    ensures length { length result.items ≡ 1024 }
{
    let mut block = content(sizes, number);
    fill_to(&mut block, SIZE);
    block
}

// The bytes of a block before the zero bytes at its end.
fn content(sizes: &Geometry, number: u32) -> ArrayVec<u8, 1024>
    requires sizes { IsGeometry sizes.now }
    requires number { number < sizes.now.blocks }
    ensures { result.items ≡ block_content sizes.now number }
{
    if number == 0 {
        return superblock(sizes);
    }
    if number == 2 {
        return root_inode(sizes.first_data);
    }
    if number == sizes.first_data {
        return root_page();
    }
    if number < sizes.first_data {
        return ArrayVec::new();
    }
    if (sizes.blocks - number) % 50 == 0 {
        return link_block(sizes.blocks, number);
    }
    ArrayVec::new()
}

// Block 0, with the superblock.
fn superblock(sizes: &Geometry) -> ArrayVec<u8, 1024>
    requires { IsGeometry sizes.now }
    ensures { result.items ≡ superblock_bytes sizes.now }
{
    let free = free_cache(sizes);
    let inodes = inode_cache(sizes.inode_count());
    let mut block = ArrayVec::new();
    fill_to(&mut block, SUPERBLOCK);
    put32(&mut block, MAGIC);
    put16(&mut block, BLOCK_TYPE);
    put16(&mut block, sizes.first_data as u16);
    put32(&mut block, sizes.blocks);
    put16(&mut block, free.len() as u16);
    put16(&mut block, inodes.len() as u16);
    put_all32(&mut block, free.as_slice());
    fill_to(&mut block, INODE_CACHE);
    put_all16(&mut block, inodes.as_slice());
    block
}

// Block 2, with the inode of the root, whose page stands in this block.
fn root_inode(page: u32) -> ArrayVec<u8, 1024>
    requires { page < 2 ^ 24 }
    ensures { result.items ≡ root_inode_bytes page }
{
    let mut block = ArrayVec::new();
    fill_to(&mut block, 64);
    put16(&mut block, ROOT_MODE);
    put16(&mut block, 2);
    fill_to(&mut block, 72);
    put32(&mut block, 32);
    put24(&mut block, page);
    block
}

// The page of the root, with `.` and `..`.
fn root_page() -> ArrayVec<u8, 1024>
    ensures { result.items ≡ root_page_bytes }
{
    let mut block = ArrayVec::new();
    put16(&mut block, ROOT);
    block.push(b'.');
    fill_to(&mut block, 16);
    put16(&mut block, ROOT);
    block.push(b'.');
    block.push(b'.');
    block
}

// A link block, with the list of the free blocks behind it.
fn link_block(blocks: u32, number: u32) -> ArrayVec<u8, 1024>
    requires { number < 65536 }
    ensures { result.items ≡ link_block_bytes (list_in blocks number) }
{
    let list = free_list(blocks, number + 1, number + 50);
    let mut block = ArrayVec::new();
    put16(&mut block, list.len() as u16);
    put16(&mut block, 0);
    put_all32(&mut block, list.as_slice());
    block
}

// A number in 2 bytes at the end of what is spelled.
fn put16(block: &mut ArrayVec<u8, 1024>, number: u16)
    requires { length block.old.items + 2 ≤ 1024 }
    ensures bytes { block.new.items ≡ block.old.items ++ little16 number }
    ensures length { length block.new.items ≡ length block.old.items + 2 }
{
    block.push((number % 256) as u8);
    block.push((number / 256) as u8);
}

// The same in 3 bytes.
fn put24(block: &mut ArrayVec<u8, 1024>, number: u32)
    requires room { length block.old.items + 3 ≤ 1024 }
    requires fits { number < 2 ^ 24 }
    ensures bytes { block.new.items ≡ block.old.items ++ little24 number }
    ensures length { length block.new.items ≡ length block.old.items + 3 }
{
    put16(block, (number % 65536) as u16);
    block.push((number / 65536) as u8);
}

// The same in 4 bytes.
fn put32(block: &mut ArrayVec<u8, 1024>, number: u32)
    requires { length block.old.items + 4 ≤ 1024 }
    ensures bytes { block.new.items ≡ block.old.items ++ little32 number }
    ensures length { length block.new.items ≡ length block.old.items + 4 }
{
    put16(block, (number % 65536) as u16);
    put16(block, (number / 65536) as u16);
}

// Numbers in 2 bytes each.
fn put_all16(block: &mut ArrayVec<u8, 1024>, numbers: &[u16])
    requires { length block.old.items + 2 * length numbers.now ≤ 1024 }
    ensures bytes { block.new.items ≡ block.old.items ++ flat_map little16 numbers.now }
    ensures length { length block.new.items ≡ length block.old.items + 2 * length numbers.now }
{
    for number in numbers {
        put16(block, *number);
    }
}

// Numbers in 4 bytes each.
fn put_all32(block: &mut ArrayVec<u8, 1024>, numbers: &[u32])
    requires { length block.old.items + 4 * length numbers.now ≤ 1024 }
    ensures bytes { block.new.items ≡ block.old.items ++ flat_map little32 numbers.now }
    ensures length { length block.new.items ≡ length block.old.items + 4 * length numbers.now }
{
    for number in numbers {
        put32(block, *number);
    }
}

// Zero bytes up to that place of the block.
fn fill_to(block: &mut ArrayVec<u8, 1024>, place: usize)
    requires before { length block.old.items ≤ place }
    requires within { place ≤ 1024 }
    ensures bytes { block.new.items ≡ filled_to place block.old.items }
    ensures length { length block.new.items ≡ place }
{
    let zeros = [0; SIZE];
    let Ok(()) = block.try_extend_from_slice(&zeros[..place - block.len()]) else {
        unreachable!();
    };
}
