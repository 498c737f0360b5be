// The pages of files, as the walk over their blocks finds them.
ghost use Rattle.std.specs.Prelude.{◌≡◌, ◌<◌, ◌+◌, ℕ, All, None, find, IfSome, IfNone, OnSome};
ghost use Rattle.sv_check.specs.FilePages.{IsAtBlock, block_at};
ghost use Rattle.sv_check.specs.Pages.{IsAtPage, has_number};

/// A page of a file, by its number from 0, and the block in which it stands.
#[derive(Clone, Copy, Debug, PartialEq, Eq)]
pub struct PageBlock {
    pub page: u32,
    pub block: u32,
}

/// A directory: its inode's number, its size in bytes, and its pages in ascending order.
#[derive(Drop)]
pub(crate) struct Directory {
    pub(crate) inode: u16,
    pub(crate) size: u32,
    pub(crate) pages: Vec<PageBlock>,
}

/// The block of page k, which is the k-th of the pages unless a page before it is absent.
pub(crate) fn block_of_page(pages: &[PageBlock], k: u32) -> Option<u32>
    ensures found { IfSome result (λ b. (high : ℕ) → IsAtPage pages.now k high
        → find (has_number k) pages.now ≡ Some (record { page = k; block = b })) }
    ensures next { OnSome result ((high : ℕ) → IsAtPage pages.now k high → IsAtPage pages.now (k + 1) high) }
    ensures inside { IfSome result (λ b. (blocks : ℕ) → All (λ p. p.block < blocks) pages.now → b < blocks) }
    ensures absent { IfNone result ((high : ℕ) → IsAtPage pages.now k high → find (has_number k) pages.now ≡ None) }
{
    let place = k as usize;
    if place >= pages.len() {
        return None;
    }
    let here = pages[place];
    if here.page != k {
        return None;
    }
    Some(here.block)
}

/// The block of page k, 0 where it is absent. The pages from place `at` on are those from page k on, and afterwards those
/// from the next page on.
pub fn next_block(pages: &[PageBlock], at: &mut usize, k: u32) -> u32
    ensures block { IsAtBlock pages.now at.old k → result ≡ block_at pages.now k }
    ensures next { IsAtBlock pages.now at.old k → IsAtBlock pages.now at.new (k + 1) }
{
    if *at >= pages.len() {
        return 0;
    }
    let next = pages[*at];
    if next.page != k {
        return 0;
    }
    *at += 1;
    next.block
}
