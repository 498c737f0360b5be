// Writing files: what a write needs, and the write.
ghost use Rattle.std.specs.Prelude.{◌≡◌, ◌≤◌, ◌+◌, ◌-◌, ◌*◌, ◌==◌, List, [], ℕ, length, count_by, OnOk, OnErr, IfErr, Some, if◌then◌else◌};
ghost use Rattle.std.specs.List.{range_with_len};
ghost use Rattle.std.specs.FinMap as map;
ghost use Rattle.sv_form.specs.Node.{blocks_at, numbers_per};
ghost use Rattle.sv_plain.specs.declared.fs.opening.Opening.{Opening};
ghost use Rattle.sv_plain.specs.declared.history.op.Op.TheVariants as op;
ghost use Rattle.sv_plain.specs.Missing.{node_blocks, is_new, added};
ghost use Rattle.sv_form.specs.NodeChanges.{touched};
ghost use Rattle.sv_plain.specs.Needs.{write_need};
ghost use Rattle.sv_plain.specs.Step.{write_allowed, ends_page, write_replies, written};
ghost use Rattle.sv_plain.specs.Taken.{IsTaken, IsRefused};

use crate::node::blocks::{PageBlocks, is_among};
use crate::steps::files::writes;
use crate::{Fs, Illegal, NoMemory, Reply};
use std::alloc::Global;
use sv_form::Bytes;

impl Fs {
    // Node i does not use this block, and it is not among the others.
    fn is_new(&self, i: u16, others: &[(u32, u32)], height: u32, number: u32) -> bool
        ensures { result ≡ is_new (node_blocks self.now i) others.now (height, number) }
    {
        !self.has_block(i, height, number) && !is_among(others, height, number)
    }

    // How many of these blocks node i does not use and are not among the others.
    fn count_new(&self, i: u16, others: &[(u32, u32)], blocks: &[(u32, u32)]) -> u32
        requires { length blocks.now ≤ 4 }
        ensures count { result ≡ count_by (is_new (node_blocks self.now i) others.now) blocks.now }
        ensures few { result ≤ 4 }
    {
        let mut count = 0;
        for block in blocks {
            let (height, number) = *block;
            count += u32::from(self.is_new(i, others, height, number));
        }
        count
    }

    // How many blocks a page takes that node i does not use, and that the pages from `first` on to the one before it do
    // not take either: where one of them has a block of this page, the page before it has it.
    pub(crate) fn page_need(&self, i: u16, first: u32, page: u32) -> u32
        requires { first ≤ page }
        ensures count { result ≡ count_by (is_new (node_blocks self.now i)
            (if page == first then [] else blocks_at (numbers_per self.now.block) (page - 1)))
            (blocks_at (numbers_per self.now.block) page) }
        ensures few { result ≤ 4 }
    {
        let per = self.block_size() / 4;
        let blocks = PageBlocks::of(per, page);
        if page == first {
            return self.count_new(i, &[], blocks.as_slice());
        }
        let before = PageBlocks::of(per, page - 1);
        self.count_new(i, before.as_slice(), blocks.as_slice())
    }

    // How many blocks more node i would use with `count` pages from `first` on.
    fn pages_need(&self, i: u16, first: u32, count: u32) -> u32
        requires { first + 4 * count ≤ 4294967295 }
        ensures { result ≡ added (node_blocks self.now i) (numbers_per self.now.block) (range_with_len first count) }
    {
        let _block = self.block_size();
        let mut need = 0;
        for k in 0..count {
            need += self.page_need(i, first, first + k);
        }
        need
    }

    /// How many blocks more node i would use with the pages of `count` bytes from `at` on. Each page costs a logarithm.
    pub(crate) fn range_need(&self, i: u16, at: u32, count: u32) -> u32
        ensures { result ≡ added (node_blocks self.now i) (numbers_per self.now.block) (touched self.now.block at count) }
    {
        if count == 0 {
            return 0;
        }
        let block = u64::from(self.block_size());
        let first = u64::from(at) / block;
        let last = (u64::from(at) + u64::from(count) - 1) / block;
        self.pages_need(i, first as u32, (last - first + 1) as u32)
    }

    /// What a write of `count` bytes at the file's offset takes, in blocks.
    pub(crate) fn write_need(&self, file: u16, count: u32) -> u32
        ensures { result ≡ write_need self.now file count }
    {
        let Some(opening) = self.file(file) else {
            return 0;
        };
        let Some(_node) = self.node(opening.inode) else {
            return 0;
        };
        self.range_need(opening.inode, opening.offset, count)
    }

    // The file is open for writing, so many bytes end at the greatest size at most, and the promise pays for them.
    fn allows_write(&self, process: u8, file: u16, bytes: &[u8]) -> bool
        ensures { result ≡ write_allowed self.now process file bytes.now }
    {
        let Some(opening) = self.file(file) else {
            return false;
        };
        if !writes(opening.mode) {
            return false;
        }
        let Some(left) = self.greatest().checked_sub(opening.offset) else {
            return false;
        };
        if bytes.len() > left as usize {
            return false;
        }
        self.write_need(file, bytes.len() as u32) <= self.promise_of(process)
    }

    // So many bytes from the file's offset on end at the boundary of a page.
    fn ends_page(&self, file: u16, count: u32) -> bool
        ensures { result ≡ ends_page self.now file count }
    {
        match self.file(file) {
            Some(opening) => {
                (u64::from(opening.offset) + u64::from(count)) % u64::from(self.block_size()) == 0
            }
            None => false,
        }
    }

    fn answers_write(&self, file: u16, bytes: &[u8], reply: &Reply) -> bool
        ensures { result ≡ write_replies self.now file bytes.now reply.now }
    {
        match reply {
            Reply::Wrote(n) => *n as usize == bytes.len(),
            Reply::FaultAfter(k) => {
                (*k as usize) < bytes.len() && (*k == 0 || self.ends_page(file, *k))
            }
            _ => false,
        }
    }

    // Writes these bytes at the offset of a file, or changes nothing.
    fn write(&mut self, alloc: Global, process: u8, file: u16, bytes: &[u8]) -> Result<(), NoMemory>
        requires { (f : Opening) → map.get self.old.files file ≡ Some f → f.offset + length bytes.now ≤ self.old.greatest }
        ensures written { OnOk result (self.new ≡ written self.old process file bytes.now) }
        ensures refused { OnErr result (self.new ≡ self.old) }
    {
        let Some(opening) = self.file(file) else {
            return Ok(());
        };
        let _greatest = self.greatest();
        let count = bytes.len() as u32;
        let need = self.write_need(file, count);
        self.put_bytes(alloc, opening.inode, opening.offset, bytes, need)?;
        self.set_offset(file, opening.offset + count);
        self.spend(process, need);
        Ok(())
    }

    // Write: the bytes are put at the offset, which moves past them, and the promise pays for their blocks. After a fault
    // that are the first of the bytes, up to the boundary of a page.
    pub(crate) fn step_write(
        &mut self,
        alloc: Global,
        process: u8,
        file: u16,
        bytes: &Bytes,
        reply: &Reply,
    ) -> Result<(), Illegal>
        ensures taken { OnOk result (IsTaken self.old process (op.Write file bytes.now) reply.now self.new) }
        ensures refused { IfErr result (IsRefused self.old process (op.Write file bytes.now) reply.now) }
        ensures kept { OnErr result (self.new ≡ self.old) }
    {
        let bytes = bytes.as_slice();
        if !self.allows_write(process, file, bytes) {
            return Err(Illegal::Condition);
        }
        if !self.answers_write(file, bytes, reply) {
            return Err(Illegal::Reply);
        }
        let first = match reply {
            Reply::FaultAfter(k) => &bytes[..*k as usize],
            _ => bytes,
        };
        let Ok(()) = self.write(alloc, process, file, first) else {
            return Err(Illegal::NoMemory);
        };
        Ok(())
    }
}
