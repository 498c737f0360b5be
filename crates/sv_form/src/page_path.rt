// The way from an inode to a page of its file (Bach, chapter 4.2, bmap).
ghost use Rattle.std.specs.Prelude.{◌≡◌, ◌≤◌, ◌<◌, ◌+◌, ◌*◌};
ghost use Rattle.sv_form.specs.PagePath.{HasOnePath};

use crate::Geometry;

/// Which numbers lead to a page: the number of a direct address, or the places in the single, the two or the three
/// indirect blocks on the way, the outermost first. All count from 0.
#[derive(Clone, Copy, Debug, PartialEq, Eq)]
pub enum PagePath {
    Direct(u8),
    Single(u16),
    Double(u16, u16),
    Triple(u16, u16, u16),
}

/// How many direct addresses an inode has.
pub const DIRECT: u32 = 10;

/// Where the single indirect block stands among the addresses of an inode.
pub const SINGLE: usize = 10;

/// Where the double indirect block stands among them.
pub const DOUBLE: usize = 11;

/// Where the triple indirect block stands among them. It is the last.
pub const TRIPLE: usize = 12;

/// How many addresses an inode has.
pub const ADDRESSES: u32 = 13;

impl Geometry {
    ghost use Rattle.sv_form.specs.Geometry.{IsGeometry};
    ghost use Rattle.sv_form.specs.PagePath.{block_numbers, greatest_size, page_limit, page_of, IsPage, IsPath};

    /// How many block numbers an indirect block has.
    pub fn block_numbers(&self) -> u32
        ensures { result ≡ block_numbers self.now }
    {
        self.block_size / 4
    }

    /// The greatest size of a file, in bytes.
    pub fn greatest_size(&self) -> u32
        requires { IsGeometry self.now }
        ensures { result ≡ greatest_size self.now }
    {
        let numbers = u64::from(self.block_numbers());
        let pages = u64::from(DIRECT) + numbers + numbers * numbers + numbers * numbers * numbers;
        (pages * u64::from(self.block_size)).min(2_147_483_647) as u32
    }

    /// The path of a page. It is the inverse of `page_of`: no page has two paths.
    pub fn path_of(&self, page: u32) -> PagePath
        requires sizes { IsGeometry self.now }
        requires page { IsPage self.now page }
        ensures page { page_of self.now result ≡ page }
        ensures path { IsPath self.now result }
    {
        let numbers = self.block_numbers();
        if page < DIRECT {
            return PagePath::Direct(page as u8);
        }
        let past = page - DIRECT;
        if past < numbers {
            return PagePath::Single(past as u16);
        }
        let past = past - numbers;
        if past < numbers * numbers {
            return PagePath::Double((past / numbers) as u16, (past % numbers) as u16);
        }
        let past = past - numbers * numbers;
        PagePath::Triple(
            (past / numbers / numbers) as u16,
            (past / numbers % numbers) as u16,
            (past % numbers) as u16,
        )
    }
}

/// No page has two paths.
pub fn pages_have_one_path()
    ensures { HasOnePath }
{}
