// Promises of free blocks.
ghost use Rattle.std.specs.Prelude.{◌≡◌, ◌+◌, nat_lt, OnOk, OnErr, IfErr};
ghost use Rattle.std.specs.FinMap as map;
ghost use Rattle.sv_plain.specs.declared.history.op.Op.TheVariants as op;
ghost use Rattle.sv_plain.specs.Names.{some_and};
ghost use Rattle.sv_plain.specs.Step.{writes, promise_allowed, is_too_big, promise_replies, forgo_replies};
ghost use Rattle.sv_plain.specs.Taken.{IsTaken, IsRefused};
ghost use Rattle.sv_plain.specs.Whole.{IsWhole};

use crate::steps::files::writes;
use crate::{Fs, Illegal, Need, Reply};

impl Fs {
    // The file is there, and open for writing.
    fn is_writable(&self, file: u16) -> bool
        ensures { result ≡ some_and (map.get self.now.files file) (λ f. writes f.mode) }
    {
        match self.file(file) {
            Some(opening) => writes(opening.mode),
            None => false,
        }
    }

    // So many bytes from the file's offset on end past the greatest size.
    fn ends_past(&self, file: u16, count: u32) -> bool
        ensures { result ≡ some_and (map.get self.now.files file) (λ f. nat_lt self.now.greatest (f.offset + count)) }
    {
        match self.file(file) {
            Some(opening) => {
                u64::from(opening.offset) + u64::from(count) > u64::from(self.greatest())
            }
            None => false,
        }
    }

    fn allows_promise(&self, process: u8, need: &Need) -> bool
        ensures { result ≡ promise_allowed self.now process need.now }
    {
        match need {
            Need::Write { file, .. } => !self.has_promise(process) && self.is_writable(*file),
            Need::Enter { dir, .. } => {
                !self.has_promise(process) && self.has_reference(process, *dir)
            }
            Need::Make { dir, .. } => {
                !self.has_promise(process) && self.has_reference(process, *dir)
            }
        }
    }

    // The write would end past the greatest size of a file.
    fn is_too_big(&self, need: &Need) -> bool
        ensures { result ≡ is_too_big self.now need.now }
    {
        match need {
            Need::Write { file, count } => *count > 0 && self.ends_past(*file, *count),
            Need::Enter { .. } => false,
            Need::Make { .. } => false,
        }
    }

    fn answers_promise(&self, need: &Need, reply: &Reply) -> bool
        ensures { result ≡ promise_replies self.now need.now reply.now }
    {
        if self.is_too_big(need) {
            return matches!(reply, Reply::TooBig | Reply::Fault);
        }
        match reply {
            Reply::NoSpace => self.exceeds_room(need),
            Reply::Granted(n) => self.takes_room(need, *n),
            Reply::Fault => true,
            _ => false,
        }
    }

    // Promise: so many blocks as a later step needs are kept for the process, if there is room.
    pub(crate) fn step_promise(
        &mut self,
        process: u8,
        need: &Need,
        reply: &Reply,
    ) -> Result<(), Illegal>
        requires { IsWhole self.old }
        ensures taken { OnOk result (IsTaken self.old process (op.Promise need.now) reply.now self.new) }
        ensures refused { IfErr result (IsRefused self.old process (op.Promise need.now) reply.now) }
        ensures kept { OnErr result (self.new ≡ self.old) }
    {
        if !self.allows_promise(process, need) {
            return Err(Illegal::Condition);
        }
        if !self.answers_promise(need, reply) {
            return Err(Illegal::Reply);
        }
        match reply {
            Reply::Granted(blocks) => {
                let Ok(()) = self.promise(process, *blocks) else {
                    return Err(Illegal::NoMemory);
                };
                Ok(())
            }
            _ => Ok(()),
        }
    }

    // Forgo: the process has no promise any more.
    pub(crate) fn step_forgo(&mut self, process: u8, reply: &Reply) -> Result<(), Illegal>
        ensures taken { OnOk result (IsTaken self.old process op.Forgo reply.now self.new) }
        ensures refused { IfErr result (IsRefused self.old process op.Forgo reply.now) }
        ensures kept { OnErr result (self.new ≡ self.old) }
    {
        match reply {
            Reply::Done => {
                self.forgo(process);
                Ok(())
            }
            _ => Err(Illegal::Reply),
        }
    }
}
