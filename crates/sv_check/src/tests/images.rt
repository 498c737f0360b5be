// The images that the tests begin with, each as its bytes that are not 0, and what a test does with one.
use crate::{CheckFault, check};
use std::alloc::{AllocError, Global};
use sv_dev::{Fail, MemDisk};

// A place in an image, and the bytes there.
pub type Patch = (usize, &'static [u8]);

// Numbers that go down by one: the place of the first, how many bytes lie from each to the next, the first, and how many.
pub type Falling = (usize, usize, u8, u8);

// An image of so many bytes, 0 but for these bytes and these numbers of one byte.
#[derive(Clone, Copy)]
pub struct Image {
    pub len: usize,
    pub bytes: &'static [Patch],
    pub numbers: &'static [Falling],
}

pub const INODE_1: usize = 2_048;

pub const INODE_3: usize = 2_176;

pub const INODE_4: usize = 2_240;

// An image of 5 blocks and 16 inodes. Inode 2 is the root, and inode 3 a file of 6 bytes in block 4.
pub const SMALL: Image = Image {
    len: 5_120,
    bytes: &[
        (512, b"SV5F\x02\0\x03\0\x05\0\0\0\x01\0\0\0"),
        (2_112, b"\xed\x41\x02\0\0\0\0\0\x30\0\0\0\x03"),
        (INODE_3, b"\xa4\x81\x01\0\0\0\0\0\x06\0\0\0\x04"),
        (3_072, b"\x02\0."),
        (3_088, b"\x02\0.."),
        (3_104, b"\x03\0a"),
        (4_096, b"hello\n"),
    ],
    numbers: &[],
};

// An image of 8 blocks and 16 inodes. Directory 3 stands in the root, and directory 4 in 3.
pub const NESTED: Image = Image {
    len: 8_192,
    bytes: &[
        (512, b"SV5F\x02\0\x03\0\x08\0\0\0\x03\0\0\0"),
        (532, b"\x06\0\0\0\x07"),
        (2_112, b"\xed\x41\x03\0\0\0\0\0\x30\0\0\0\x03"),
        (INODE_3, b"\xed\x41\x03\0\0\0\0\0\x30\0\0\0\x04"),
        (INODE_4, b"\xed\x41\x02\0\0\0\0\0\x30\0\0\0\x05"),
        (3_072, b"\x02\0."),
        (3_088, b"\x02\0.."),
        (3_104, b"\x03\0d"),
        (4_096, b"\x03\0."),
        (4_112, b"\x02\0.."),
        (4_128, b"\x04\0e"),
        (5_120, b"\x04\0."),
        (5_136, b"\x03\0.."),
    ],
    numbers: &[],
};

// The block that the list in the superblock of the made image leads to.
pub const LINK_BLOCK: usize = 14_336;

// An image of 64 blocks and 32 inodes that has a root in block 4 and nothing else. Its list of free blocks is 14 down to
// 5, and then that of block 14; its inode cache is 32 down to 3.
pub const MADE: Image = Image {
    len: 65_536,
    bytes: &[
        (512, b"SV5F\x02\0\x04\0\x40\0\0\0\x0a\0\x1e\0"),
        (2_112, b"\xed\x41\x02\0\0\0\0\0\x20\0\0\0\x04"),
        (4_096, b"\x02\0."),
        (4_112, b"\x02\0.."),
        (LINK_BLOCK, b"\x32"),
    ],
    numbers: &[
        (528, 4, 14, 10),
        (728, 2, 32, 30),
        (LINK_BLOCK + 8, 4, 63, 49),
    ],
};

// An image of 7 blocks and 16 inodes, all of whose data blocks are used. Inode 2 is the root, in block 3. Inode 3 is a file
// of 10,246 bytes: page 0 is block 4, and page 10 is block 6, which block 5 names.
pub const WITH_HOLE: Image = Image {
    len: 7_168,
    bytes: &[
        (512, b"SV5F\x02\0\x03\0\x07\0\0\0\x01\0\0\0"),
        (2_112, b"\xed\x41\x02\0\0\0\0\0\x30\0\0\0\x03"),
        (2_176, b"\xa4\x81\x01\0\0\0\0\0\x06\x28\0\0\x04"),
        (2_218, b"\x05"),
        (3_072, b"\x02\0."),
        (3_088, b"\x02\0.."),
        (3_104, b"\x03\0a"),
        (5_120, b"\x06"),
        (6_144, b"hello\n"),
    ],
    numbers: &[],
};

// Puts these bytes at this place, as far as the image reaches.
fn put(image: &mut [u8], at: usize, bytes: &[u8]) {
    for (k, byte) in bytes.iter().enumerate() {
        if let Some(place) = image.get_mut(at.saturating_add(k)) {
            *place = *byte;
        }
    }
}

fn put_each(image: &mut [u8], patches: &[Patch]) {
    for (at, bytes) in patches {
        put(image, *at, bytes);
    }
}

fn put_falling(image: &mut [u8], list: Falling) {
    let (at, step, first, count) = list;
    for k in 0..count {
        let place = at.saturating_add(step.saturating_mul(usize::from(k)));
        put(image, place, &[first.saturating_sub(k)]);
    }
}

// The bytes of an image.
pub fn bytes_of(alloc: Global, image: Image) -> Result<Vec<u8>, AllocError> {
    let mut bytes = vec![in alloc; 0; image.len]?;
    put_each(&mut bytes, image.bytes);
    for list in image.numbers {
        put_falling(&mut bytes, *list);
    }
    Ok(bytes)
}

// A disk with the image after these changes, on which these calls fail.
fn disk(bytes: Vec<u8>, changes: &[Patch], fails: Vec<Fail>) -> MemDisk {
    let mut bytes = bytes;
    put_each(&mut bytes, changes);
    MemDisk::new(bytes, fails)
}

// A disk with the image after these changes.
pub fn disk_with(alloc: Global, image: Image, changes: &[Patch]) -> Result<MemDisk, AllocError> {
    Ok(disk(bytes_of(alloc, image)?, changes, Vec::new(alloc)))
}

// A disk with the image, on which the k-th read fails.
pub fn disk_that_fails(alloc: Global, image: Image, k: u64) -> Result<MemDisk, AllocError> {
    let fails = vec![in alloc; Fail::Read(k)]?;
    Ok(disk(bytes_of(alloc, image)?, &[], fails))
}

// Whether the check tells that the disk failed, where the k-th read fails.
pub fn says_fault(alloc: Global, image: Image, k: u64) -> Result<bool, AllocError> {
    let mut disk = disk_that_fails(alloc, image, k)?;
    let outcome = check(alloc, &mut disk);
    Ok(matches!(outcome, Err(CheckFault::Fault)))
}
