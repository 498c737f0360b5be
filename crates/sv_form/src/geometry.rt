// How large a disk is and where its parts lie.
ghost use Rattle.std.specs.Prelude.{◌≡◌};

use crate::{Place, Super};

// The bytes of a block of the one type that there is.
const BLOCK_SIZE: u32 = 1024;

/// The sizes of one image: the block size in bytes, the number of all blocks, and the first data block.
/// The inode list is the blocks from 2 up to the first data block.
#[derive(Clone, Copy, Debug, PartialEq, Eq)]
pub struct Geometry {
    pub block_size: u32,
    pub blocks: u32,
    pub first_data: u32,
}

impl Geometry {
    ghost use Rattle.sv_form.specs.Geometry.{IsGeometry, IsNumber, block_lines, inode_count, inode_place, super_place};

    /// How many inodes the inode list has; they are numbered from 1.
    pub fn inode_count(&self) -> u32
        requires { IsGeometry self.now }
        ensures { result ≡ inode_count self.now }
    {
        (self.first_data - 2) * self.block_size / 64
    }

    /// How many lines of 64 bytes a block has.
    pub fn block_lines(&self) -> u32
        ensures { result ≡ block_lines self.now }
    {
        self.block_size / 64
    }

    /// The place of the superblock's first line: byte 512 of the image.
    pub fn super_place(&self) -> Place
        requires { IsGeometry self.now }
        ensures { result ≡ super_place self.now }
    {
        Place {
            block: 512 / self.block_size,
            line: (512 % self.block_size / 64) as u8,
        }
    }

    /// The place of an inode: the inode list starts at block 2 (Bach, chapter 4.1).
    pub fn inode_place(&self, n: u16) -> Place
        requires sizes { IsGeometry self.now }
        requires number { IsNumber self.now n }
        ensures { result ≡ inode_place self.now n }
    {
        let lines = self.block_lines();
        let before = u32::from(n) - 1;
        Place {
            block: before / lines + 2,
            line: (before % lines) as u8,
        }
    }
}

impl Super {
    ghost use Rattle.sv_form.specs.Superblock.{sizes_of};

    /// The sizes that the superblock names, with blocks of 1,024 bytes.
    pub fn geometry(&self) -> Geometry
        ensures { result ≡ sizes_of self.now }
    {
        Geometry {
            block_size: BLOCK_SIZE,
            blocks: self.blocks,
            first_data: u32::from(self.first_data),
        }
    }
}
