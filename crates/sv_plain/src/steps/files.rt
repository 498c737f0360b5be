// Open files: opening, sharing, seeking and closing.
ghost use Rattle.std.specs.Prelude.{◌≡◌, ◌+◌, ◌==◌, not, true, OnOk, OnErr, IfErr};
ghost use Rattle.sv_plain.specs.declared.history.op.Op.TheVariants as op;
ghost use Rattle.sv_plain.specs.Change.{changed_file, with_offset};
ghost use Rattle.sv_plain.specs.Taken.{IsTaken, IsRefused};
ghost use Rattle.sv_plain.specs.Whole.{IsWhole};
ghost use Rattle.std.specs.List.{count_by, range_with_len};
ghost use Rattle.std.specs.FinMap as map;
ghost use Rattle.sv_plain.specs.Totals.{at_or_0};
ghost use Rattle.sv_plain.specs.Step.{open_allowed, open_replies, dup_replies, has_file, seek_allowed, seek_replies, seek_base, reads};
ghost use Rattle.sv_plain.specs.Step.{writes};
ghost use Rattle.sv_plain.specs.Names.{is_lowest_unused};

use crate::{Fs, Illegal, Mode, NoMemory, Opening, Reply};

// How many files the table has at most.
const MOST_FILES: usize = 640;

pub(crate) fn reads(mode: Mode) -> bool
    ensures { result ≡ reads mode }
{
    match mode {
        Mode::R => true,
        Mode::W => false,
        Mode::RW => true,
    }
}

pub(crate) fn writes(mode: Mode) -> bool
    ensures { result ≡ writes mode }
{
    match mode {
        Mode::R => false,
        Mode::W => true,
        Mode::RW => true,
    }
}

impl Fs {
    // Each number below n has a file. The walk ends at the first that has none.
    fn has_files_below(&self, n: u16) -> bool
        ensures { result ≡ (count_by (λ k. not (map.contains_key self.now.files k)) (range_with_len 0 n) == 0) }
    {
        for lower in 0..n {
            if !self.has_file(lower) {
                return false;
            }
        }
        true
    }

    // No file has the number, and each lower number has one.
    pub(crate) fn is_lowest_unused(&self, n: u16) -> bool
        ensures { result ≡ is_lowest_unused self.now n }
    {
        !self.has_file(n) && self.has_files_below(n)
    }

    pub(crate) fn allows_open(&self, process: u8, i: u16) -> bool
        ensures { result ≡ open_allowed self.now process i }
    {
        self.has_reference(process, i) && self.file_count() < MOST_FILES
    }

    pub(crate) fn answers_open(&self, i: u16, mode: Mode, reply: &Reply) -> bool
        ensures { result ≡ open_replies self.now i mode reply.now }
    {
        let is_refused = self.is_directory(i) && writes(mode);
        match reply {
            Reply::IsDir => is_refused,
            Reply::Opened(n) => !is_refused && self.is_lowest_unused(*n),
            Reply::Fault => true,
            _ => false,
        }
    }

    pub(crate) fn answers_dup(&self, reply: &Reply) -> bool
        ensures { result ≡ dup_replies reply.now }
    {
        matches!(reply, Reply::Dupped)
    }

    pub(crate) fn allows_seek(&self, file: u16, whence: u8) -> bool
        ensures { result ≡ seek_allowed self.now file whence }
    {
        self.has_file(file) && whence <= 2
    }

    // From where an offset counts: the beginning, where the file is, or the end.
    fn seek_base(&self, file: u16, whence: u8) -> u32
        ensures { result ≡ at_or_0 (seek_base self.now whence) (map.get self.now.files file) }
    {
        let Some(opening) = self.file(file) else {
            return 0;
        };
        match whence {
            0 => 0,
            1 => opening.offset,
            _ => self.size_of(opening.inode),
        }
    }

    pub(crate) fn answers_seek(&self, file: u16, offset: i64, whence: u8, reply: &Reply) -> bool
        ensures { result ≡ seek_replies self.now file offset whence reply.now }
    {
        let target = i128::from(self.seek_base(file, whence)) + i128::from(offset);
        let is_within = target >= 0 && target <= i128::from(self.greatest());
        match reply {
            Reply::Bad => !is_within,
            Reply::At(n) => is_within && i128::from(*n) == target,
            _ => false,
        }
    }

    // Moves the offset of a file that is there.
    pub(crate) fn set_offset(&mut self, n: u16, offset: u32)
        requires { has_file self.old n ≡ true }
        ensures { self.new ≡ record self.old { files = changed_file self.old n (with_offset offset) } }
    {
        if let Some(opening) = self.file(n) {
            self.replace_file(n, Opening { offset, ..opening });
        }
    }

    // Shares a file that is there once more. A count at its type's end is refused like want of memory.
    fn share(&mut self, n: u16) -> Result<(), NoMemory>
        requires { has_file self.old n ≡ true }
        ensures shared { OnOk result (self.new ≡ record self.old {
          files = changed_file self.old n
              (λ f. record f { count = f.count + 1 });
        }) }
        ensures refused { OnErr result (self.new ≡ self.old) }
    {
        let Some(opening) = self.file(n) else {
            return Err(NoMemory);
        };
        let Some(count) = opening.count.checked_add(1) else {
            return Err(NoMemory);
        };
        self.replace_file(n, Opening { count, ..opening });
        Ok(())
    }

    // OpenFile: the reference becomes the file's.
    pub(crate) fn step_open(
        &mut self,
        process: u8,
        i: u16,
        mode: Mode,
        reply: &Reply,
    ) -> Result<(), Illegal>
        requires { IsWhole self.old }
        ensures taken { OnOk result (IsTaken self.old process (op.OpenFile i mode) reply.now self.new) }
        ensures refused { IfErr result (IsRefused self.old process (op.OpenFile i mode) reply.now) }
        ensures kept { OnErr result (self.new ≡ self.old) }
    {
        if !self.allows_open(process, i) {
            return Err(Illegal::Condition);
        }
        if !self.answers_open(i, mode, reply) {
            return Err(Illegal::Reply);
        }
        match reply {
            Reply::Opened(n) => {
                let opening = Opening {
                    inode: i,
                    mode,
                    offset: 0,
                    count: 1,
                };
                let Ok(()) = self.add_file(*n, opening) else {
                    return Err(Illegal::NoMemory);
                };
                self.remove_reference(process, i);
                Ok(())
            }
            _ => Ok(()),
        }
    }

    // DupFile: one descriptor more shares the file.
    pub(crate) fn step_dup(&mut self, process: u8, file: u16, reply: &Reply) -> Result<(), Illegal>
        requires { IsWhole self.old }
        ensures taken { OnOk result (IsTaken self.old process (op.DupFile file) reply.now self.new) }
        ensures refused { IfErr result (IsRefused self.old process (op.DupFile file) reply.now) }
        ensures kept { OnErr result (self.new ≡ self.old) }
    {
        if !self.has_file(file) {
            return Err(Illegal::Condition);
        }
        match reply {
            Reply::Dupped => {
                let Ok(()) = self.share(file) else {
                    return Err(Illegal::NoMemory);
                };
                Ok(())
            }
            _ => Err(Illegal::Reply),
        }
    }

    // Seek: the file's offset moves, unless it would leave what a file may have.
    pub(crate) fn step_seek(
        &mut self,
        process: u8,
        file: u16,
        offset: i64,
        whence: u8,
        reply: &Reply,
    ) -> Result<(), Illegal>
        requires { IsWhole self.old }
        ensures taken { OnOk result (IsTaken self.old process (op.Seek file offset whence) reply.now self.new) }
        ensures refused { IfErr result (IsRefused self.old process (op.Seek file offset whence) reply.now) }
        ensures kept { OnErr result (self.new ≡ self.old) }
    {
        if !self.allows_seek(file, whence) {
            return Err(Illegal::Condition);
        }
        if !self.answers_seek(file, offset, whence, reply) {
            return Err(Illegal::Reply);
        }
        match reply {
            Reply::At(n) => {
                self.set_offset(file, *n);
                Ok(())
            }
            _ => Ok(()),
        }
    }
}
