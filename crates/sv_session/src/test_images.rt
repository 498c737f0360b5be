// The images that the tests begin with, each as its bytes that are not 0.
use std::alloc::{AllocError, Global};

// A place in an image, and the bytes there.
pub type Patch = (usize, &'static [u8]);

// Numbers that go down by one: the place of the first, how many bytes lie from each to the next, the first, and how many.
pub type Falling = (usize, usize, u8, u8);

// An image of so many bytes, 0 but for these bytes and these numbers of one byte.
#[derive(Clone, Copy)]
pub struct Image {
    pub len: usize,
    pub bytes: &'static [Patch],
    pub numbers: &'static [Falling],
}

pub const INODE_2: usize = 2_112;

pub const INODE_3: usize = 2_176;

const SMALL_BYTES: &[Patch] = &[
    (512, b"SV5F\x02\0\x03\0\x05\0\0\0\x01\0\0\0"),
    (INODE_2, b"\xed\x41\x02\0\0\0\0\0\x30\0\0\0\x03"),
    (INODE_3, b"\xa4\x81\x01\0\0\0\0\0\x06\0\0\0\x04"),
    (3_072, b"\x02\0."),
    (3_088, b"\x02\0.."),
    (3_104, b"\x03\0a"),
    (4_096, b"hello\n"),
];

// An image of 5 blocks and 16 inodes. Inode 2 is the root, and inode 3 a file of 6 bytes in block 4.
pub const SMALL: Image = Image {
    len: 5_120,
    bytes: SMALL_BYTES,
    numbers: &[],
};

// The same without its last byte.
pub const SMALL_CUT: Image = Image {
    len: 5_119,
    bytes: SMALL_BYTES,
    numbers: &[],
};

// An image of 11 blocks, all used. The file has two pages: number 266, the first behind its double indirect block, stands in
// block 10 behind 8 and 9, and number 65,802, the first behind the triple one, in block 7 behind 4, 5 and 6. Its size ends
// with the first byte of that page. All other pages are holes.
pub const DEEP: Image = Image {
    len: 11_264,
    bytes: &[
        (512, b"SV5F\x02\0\x03\0\x0b\0\0\0\x01\0\0\0"),
        (INODE_2, b"\xed\x41\x02\0\0\0\0\0\x30\0\0\0\x03"),
        (INODE_3, b"\xa4\x81\x01\0\0\0\0\0\x01\x28\x04\x04"),
        (2_221, b"\x08\0\0\x04"),
        (3_072, b"\x02\0."),
        (3_088, b"\x02\0.."),
        (3_104, b"\x03\0a"),
        (4_096, b"\x05"),
        (5_120, b"\x06"),
        (6_144, b"\x07"),
        (7_168, b"X"),
        (8_192, b"\x09"),
        (9_216, b"\x0a"),
        (10_240, b"double"),
    ],
    numbers: &[],
};

const MADE_BYTES: &[Patch] = &[
    (512, b"SV5F\x02\0\x04\0\x40\0\0\0\x0a\0\x1e\0"),
    (INODE_2, b"\xed\x41\x02\0\0\0\0\0\x20\0\0\0\x04"),
    (4_096, b"\x02\0."),
    (4_112, b"\x02\0.."),
    (14_336, b"\x32"),
];

const MADE_NUMBERS: &[Falling] = &[(528, 4, 14, 10), (728, 2, 32, 30), (14_344, 4, 63, 49)];

// The image of 64 blocks and 32 inodes that has the root alone. The first data block is 4, in which the root's page stands.
// The free blocks are 5 to 63, the chain's second list stands in block 14, and inodes 32 down to 3 are cached.
pub const MADE: Image = Image {
    len: 65_536,
    bytes: MADE_BYTES,
    numbers: MADE_NUMBERS,
};

// Its first three blocks.
pub const MADE_CUT: Image = Image {
    len: 3_072,
    bytes: MADE_BYTES,
    numbers: MADE_NUMBERS,
};

// What `mkdir /home`, `creat /home/a` and six bytes into it change of that image: inodes 3 and 4, in blocks 5 and 6.
pub const A_FILE_MADE: &[Patch] = &[
    (524, b"\x08\0\x1c"),
    (560, b"\0\0\0\0\0"),
    (784, b"\0\0\0"),
    (2_114, b"\x03\0\0\0\0\0\x30"),
    (INODE_3, b"\xed\x41\x02\0\0\0\0\0\x30\0\0\0\x05"),
    (2_240, b"\xa4\x81\x01\0\0\0\0\0\x06\0\0\0\x06"),
    (4_128, b"\x03\0home"),
    (5_120, b"\x03\0."),
    (5_136, b"\x02\0.."),
    (5_152, b"\x04\0a"),
    (6_144, b"hello\n"),
];

// No byte at all.
pub const EMPTY: Image = Image {
    len: 0,
    bytes: &[],
    numbers: &[],
};

// Five bytes that are no image.
pub const FIVE_SEVENS: Image = Image {
    len: 5,
    bytes: &[(0, &[7; 5])],
    numbers: &[],
};

// Puts these bytes at this place, as far as the image reaches.
fn put(image: &mut [u8], at: usize, bytes: &[u8]) {
    for (k, byte) in bytes.iter().enumerate() {
        if let Some(place) = image.get_mut(at.saturating_add(k)) {
            *place = *byte;
        }
    }
}

fn put_each(image: &mut [u8], patches: &[Patch]) {
    for (at, bytes) in patches {
        put(image, *at, bytes);
    }
}

fn put_falling(image: &mut [u8], list: Falling) {
    let (at, step, first, count) = list;
    for k in 0..count {
        let place = at.saturating_add(step.saturating_mul(usize::from(k)));
        put(image, place, &[first.saturating_sub(k)]);
    }
}

fn put_all(bytes: &mut [u8], image: Image, changes: &[Patch]) {
    put_each(bytes, image.bytes);
    for list in image.numbers {
        put_falling(bytes, *list);
    }
    put_each(bytes, changes);
}

// The bytes of an image after these changes.
pub fn bytes_of(alloc: Global, image: Image, changes: &[Patch]) -> Result<Vec<u8>, AllocError> {
    let mut bytes = vec![in alloc; 0; image.len]?;
    put_all(&mut bytes, image, changes);
    Ok(bytes)
}
