// Worked rows: the image that `mkfs A 64 32` makes, with 64 blocks and 32 inodes, and refusals of each format.
ghost use Rattle.std.specs.Prelude.{◌<◌};

use super::*;
use std::alloc::Global;
use std::test::Fail;

const A: Geometry = Geometry {
    block_size: 1024,
    blocks: 64,
    first_data: 4,
};

// The superblock of that image. Free are the blocks 14 down to 5, then those of block 14's list; cached are the inodes
// 32 down to 3.
fn superblock() -> [u8; 512] {
    let mut bytes = [0; 512];
    bytes[..16].copy_from_slice(&[
        0x53, 0x56, 0x35, 0x46, 0x02, 0x00, 0x04, 0x00, 0x40, 0x00, 0x00, 0x00, 0x0a, 0x00, 0x1e,
        0x00,
    ]);
    for k in 0..10 {
        bytes[16 + 4 * k] = 14 - k as u8;
    }
    for k in 0..30 {
        bytes[216 + 2 * k] = 32 - k as u8;
    }
    bytes
}

// The inode of the root, whose page is block 4.
fn root() -> [u8; 64] {
    let mut bytes = [0; 64];
    bytes[..15].copy_from_slice(&[
        0xed, 0x41, 0x02, 0x00, 0x00, 0x00, 0x00, 0x00, 0x20, 0x00, 0x00, 0x00, 0x04, 0x00, 0x00,
    ]);
    bytes
}

// The list in block 14: the last of the chain, then the blocks 63 down to 15.
fn last_list() -> [u8; 204] {
    let mut bytes = [0; 204];
    bytes[0] = 50;
    for k in 0..49 {
        bytes[8 + 4 * k] = 63 - k as u8;
    }
    bytes
}

#[test]
fn superblocks(rt: HostRuntime) -> Result<(), Fail> {
    let bytes = superblock();
    let head = Super::read(&bytes).ok_or("superblock")?;
    assert_eq!(rt; head.geometry(), A);
    assert_eq!(rt; head.block_type, 2);
    assert!(rt; head.free.as_slice() == [14, 13, 12, 11, 10, 9, 8, 7, 6, 5].as_slice());
    let cached = head.inodes.as_slice();
    assert_eq!(rt;
        (cached.len(), cached.first(), cached.last()),
        (30, Some(&32), Some(&3))
    );
    let mut spelled = [1; 512];
    head.write(&mut spelled);
    assert!(rt; spelled == bytes);
    Ok(())
}

// Whether the superblock reads, changed at one byte.
fn reads_super(at: usize, byte: u8) -> bool
    requires { at < 512 }
{
    let mut bytes = superblock();
    bytes[at] = byte;
    Super::read(&bytes).is_some()
}

#[test]
fn refused_superblocks(rt: HostRuntime) {
    assert!(rt; reads_super(4, 1));
    assert!(rt; reads_super(12, 50));
    assert!(rt; !reads_super(0, 0));
    assert!(rt; !reads_super(12, 0));
    assert!(rt; !reads_super(12, 51));
    assert!(rt; !reads_super(12, 9));
    assert!(rt; !reads_super(56, 1));
    assert!(rt; !reads_super(14, 101));
    assert!(rt; !reads_super(276, 1));
    assert!(rt; !reads_super(416, 1));
    assert!(rt; !reads_super(511, 1));
}

#[test]
fn inodes(rt: HostRuntime) -> Result<(), Fail> {
    let bytes = root();
    let inode = DiskInode::read(&bytes).ok_or("inode")?;
    let mut spelled = [1; 64];
    inode.write(&mut spelled);
    assert!(rt; spelled == bytes);
    let DiskInode::Used(body) = inode else {
        return Err("free")?;
    };
    assert_eq!(rt;
        (body.kind.letter(), body.mode, body.links, body.size),
        (b'd', 0o755, 2, 32)
    );
    assert_eq!(rt; (body.addresses[0], body.addresses[1]), (4, 0));
    let free = DiskInode::read(&[0; 64]).ok_or("free inode")?;
    free.write(&mut spelled);
    assert!(rt; spelled == [0; 64]);
    Ok(())
}

// Whether the root's inode reads, changed at one byte.
fn reads_inode(at: usize, byte: u8) -> bool
    requires { at < 64 }
{
    let mut bytes = root();
    bytes[at] = byte;
    DiskInode::read(&bytes).is_some()
}

#[test]
fn refused_inodes(rt: HostRuntime) {
    assert!(rt; reads_inode(1, 0x81));
    assert!(rt; reads_inode(63, 1));
    assert!(rt; !reads_inode(1, 0x01));
    assert!(rt; !reads_inode(1, 0xc1));
    assert!(rt; !reads_inode(51, 1));
    assert_eq!(rt; Kind::File.letter(), b'f');
}

#[test]
fn link_blocks(rt: HostRuntime) -> Result<(), Fail> {
    let bytes = last_list();
    let link = LinkBlock::read(&bytes).ok_or("link block")?;
    let numbers = link.numbers.as_slice();
    assert_eq!(rt;
        (numbers.len(), numbers.first(), numbers.last()),
        (50, Some(&0), Some(&15))
    );
    let mut spelled = [1; 204];
    link.write(&mut spelled);
    assert!(rt; spelled == bytes);
    Ok(())
}

// Whether the list of block 14 reads, with another count and changed at one byte.
fn reads_link(count: u8, at: usize, byte: u8) -> bool
    requires { at < 204 }
{
    let mut bytes = last_list();
    bytes[0] = count;
    bytes[at] = byte;
    LinkBlock::read(&bytes).is_some()
}

#[test]
fn refused_link_blocks(rt: HostRuntime) {
    assert!(rt; reads_link(50, 4, 3));
    assert!(rt; !reads_link(50, 0, 0));
    assert!(rt; !reads_link(51, 4, 0));
    assert!(rt; !reads_link(49, 4, 0));
    assert!(rt; !reads_link(50, 1, 1));
    assert!(rt; !reads_link(50, 2, 1));
    assert!(rt; !reads_link(50, 3, 1));
    assert!(rt; !reads_link(50, 8, 0));
    assert!(rt; !reads_link(50, 200, 0));
}

#[test]
fn entries(rt: HostRuntime) -> Result<(), Fail> {
    let bytes = *b"\x02\x00..\0\0\0\0\0\0\0\0\0\0\0\0";
    let entry = Entry::read(&bytes).ok_or("entry")?;
    assert_eq!(rt;
        entry,
        Entry {
            inode: 2,
            name: Name::read(b"..")
        }
    );
    let mut spelled = [1; 16];
    entry.write(&mut spelled);
    assert!(rt; spelled == bytes);
    assert_eq!(rt;
        Entry::read(&[0; 16]),
        Some(Entry {
            inode: 0,
            name: None
        })
    );
    let carried = Bytes::from_vec(vec![in rt.alloc(); 7; 2]?);
    assert!(rt; carried.as_slice() == [7, 7].as_slice());
    Ok(())
}

#[test]
fn numbers(rt: HostRuntime) {
    let mut bytes = [9; 9];
    write_number16(&mut bytes, 0, 0x0102);
    write_number24(&mut bytes, 2, 0x03_0405);
    write_number32(&mut bytes, 5, 0x0607_0809);
    assert!(rt; bytes == [2, 1, 5, 4, 3, 9, 8, 7, 6]);
    assert_eq!(rt; number16(&bytes, 0), 0x0102);
    assert_eq!(rt; number24(&bytes, 2), 0x03_0405);
    assert_eq!(rt; number32(&bytes, 5), 0x0607_0809);
    write_zeros(&mut bytes, 1, 8);
    assert!(rt; bytes == [2, 0, 0, 0, 0, 0, 0, 0, 6]);
    assert!(rt; is_zero(&bytes, 1, 8));
    assert!(rt; !is_zero(&bytes, 1, 9));
}

#[test]
fn places(rt: HostRuntime) {
    assert_eq!(rt; A.inode_count(), 32);
    assert_eq!(rt; A.block_lines(), 16);
    assert_eq!(rt; A.super_place(), Place { block: 0, line: 8 });
    assert_eq!(rt; A.inode_place(1), Place { block: 2, line: 0 });
    assert_eq!(rt; A.inode_place(2), Place { block: 2, line: 1 });
    assert_eq!(rt; A.inode_place(32), Place { block: 3, line: 15 });
}

// The path of a page, and None past the last one.
fn path(page: u32) -> Option<PagePath> {
    if page > 2_097_151 {
        return None;
    }
    Some(A.path_of(page))
}

#[test]
fn paths(rt: HostRuntime) {
    assert_eq!(rt;
        (A.block_numbers(), A.greatest_size()),
        (256, 2_147_483_647)
    );
    assert_eq!(rt; path(0), Some(PagePath::Direct(0)));
    assert_eq!(rt; path(9), Some(PagePath::Direct(9)));
    assert_eq!(rt; path(10), Some(PagePath::Single(0)));
    assert_eq!(rt; path(265), Some(PagePath::Single(255)));
    assert_eq!(rt; path(266), Some(PagePath::Double(0, 0)));
    assert_eq!(rt; path(65_801), Some(PagePath::Double(255, 255)));
    assert_eq!(rt; path(65_802), Some(PagePath::Triple(0, 0, 0)));
    assert_eq!(rt; path(2_097_151), Some(PagePath::Triple(30, 254, 245)));
}

fn range(block: u32, first: u8, count: u8) -> LineRange {
    LineRange {
        block,
        first,
        count,
    }
}

// An image of four blocks, in which inode 2 has its line and the one data block.
fn owners(alloc: Global) -> Result<Owners, NoMemory> {
    let mut owner = vec![in alloc; 0; 64]?;
    owner[33] = 2;
    for line in 48..64 {
        owner[line] = 2;
    }
    let sizes = Geometry {
        block_size: 1024,
        blocks: 4,
        first_data: 3,
    };
    Ok(Owners::from_vec(sizes, owner))
}

#[test]
fn lines_of_all_inodes(rt: HostRuntime) -> Result<(), Fail> {
    let alloc = rt.alloc();
    let owners = owners(alloc)?;
    let all = owners.lines_of_all(alloc, 3)?;
    let free = [
        range(0, 0, 16),
        range(1, 0, 16),
        range(2, 0, 1),
        range(2, 2, 14),
    ];
    assert_eq!(rt; all.len(), 4);
    for (n, ranges) in all.as_slice().iter().enumerate() {
        match n {
            0 => assert!(rt; ranges.as_slice() == free.as_slice()),
            2 => assert!(rt; ranges.as_slice() == [range(2, 1, 1), range(3, 0, 16)].as_slice()),
            _ => assert!(rt; ranges.is_empty()),
        }
    }
    Ok(())
}

#[test]
fn owned_lines(rt: HostRuntime) -> Result<(), Fail> {
    let alloc = rt.alloc();
    let owners = owners(alloc)?;
    let lines = owners.lines(alloc, 2)?;
    assert!(rt; lines.as_slice() == [range(2, 1, 1), range(3, 0, 16)].as_slice());
    let none = owners.lines(alloc, 3)?;
    assert!(rt; none.is_empty());
    let rest = owners.rest(alloc)?;
    let free = [
        range(0, 0, 16),
        range(1, 0, 16),
        range(2, 0, 1),
        range(2, 2, 14),
    ];
    assert!(rt; rest.as_slice() == free.as_slice());
    Ok(())
}
