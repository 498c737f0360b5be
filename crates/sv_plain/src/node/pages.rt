// The pages of a node once bytes are put into it.
ghost use Rattle.std.specs.Prelude.{◌≡◌, ◌<◌, ◌≤◌, ◌+◌, ◌*◌, ◌/◌, ℕ, IfOk, IsSome, length, map, slice_index, option_copied};
ghost use Rattle.std.specs.FinMap as fmap;
ghost use Rattle.std.specs.List.{range_with_len};
ghost use Rattle.sv_plain.specs.PutOver.{over};
ghost use Rattle.sv_plain.specs.Fs.{with_page};
ghost use Rattle.sv_form.specs.Node.{page_byte};
ghost use Rattle.sv_form.specs.NodeChanges.{page_after};

use crate::{NoMemory, Node};
use std::alloc::Global;
use sv_form::Bytes;

// The bytes of a page that is there, and none of one that is absent.
pub(crate) fn present(page: Option<&[u8]>) -> &[u8]
    ensures { (r : ℕ) → page_byte (option_copied page.entry) r ≡ slice_index result.now r }
{
    match page {
        Some(bytes) => bytes,
        None => &[],
    }
}

// So many bytes of a page.
fn page_bytes(alloc: Global, block: u32, page: Option<&[u8]>) -> Result<Vec<u8>, NoMemory>
    ensures { IfOk result (λ bytes. bytes.items ≡ map (page_byte (option_copied page.entry)) (range_with_len 0 block)) }
{
    let mut bytes = Vec::new(alloc);
    bytes.extend_from_slice(present(page))?;
    bytes.resize(block as usize, 0)?;
    Ok(bytes)
}

// Puts those of the bytes into a page that lie in it. It begins at byte `first`, and they at byte `at`.
fn put_over(page: &mut [u8], first: u32, at: u32, bytes: &[u8])
    requires { first + length page.old ≤ 4294967295 }
    ensures len { length page.new ≡ length page.old }
    ensures bytes { (r : ℕ) → r < length page.old → slice_index page.new r ≡ over page.old first at bytes.now (length bytes.now) r }
{
    let end = first + page.len() as u32;
    let from = (first.saturating_sub(at) as usize).min(bytes.len());
    let upto = (end.saturating_sub(at) as usize).min(bytes.len());
    for k in from..upto {
        page[at as usize + k - first as usize] = bytes[k];
    }
}

impl Node {
    // The page once these bytes were put at `at`.
    pub(crate) fn page_after(
        &self,
        alloc: Global,
        block: u32,
        at: u32,
        bytes: &[u8],
        page: u32,
    ) -> Result<Bytes, NoMemory>
        requires some { 0 < block }
        requires fits { page * block + block ≤ 4294967295 }
        ensures { IfOk result (λ b. b ≡ page_after block self.now at bytes.now page) }
    {
        let mut after = page_bytes(alloc, block, self.page(page))?;
        put_over(after.as_mut_slice(), page * block, at, bytes);
        Ok(Bytes::from_vec(after))
    }

    // Puts other bytes into a page that is there.
    pub(crate) fn replace_page(&mut self, page: u32, bytes: Bytes)
        requires { IsSome (fmap.get self.old.pages page) }
        ensures { self.new ≡ with_page page bytes self.old }
    {
        let Ok(()) = self.pages.insert(page, bytes) else {
            unreachable!();
        };
    }

    // The page of entry j once these sixteen bytes were put there, and its number.
    pub(crate) fn page_with_entry(
        &self,
        alloc: Global,
        block: u32,
        j: u32,
        bytes: &[u8],
    ) -> Result<(u32, Bytes), NoMemory>
        requires some { 0 < block }
        requires fits { 16 * j + block ≤ 4294967295 }
        ensures { IfOk result (λ p. (p.0 ≡ 16 * j / block) × (p.1 ≡ page_after block self.now (16 * j) bytes.now (16 * j / block))) }
    {
        let at = 16 * j;
        let page = at / block;
        let after = self.page_after(alloc, block, at, bytes, page)?;
        Ok((page, after))
    }
}
