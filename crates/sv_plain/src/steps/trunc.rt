// Truncation.
ghost use Rattle.std.specs.Prelude.{◌≡◌, OnOk, OnErr, IfErr};
ghost use Rattle.sv_plain.specs.declared.history.op.Op.TheVariants as op;
ghost use Rattle.sv_plain.specs.Step.{trunc_replies};
ghost use Rattle.sv_plain.specs.Taken.{IsTaken, IsRefused};
ghost use Rattle.sv_plain.specs.Whole.{IsWhole};

use crate::{Fs, Illegal, Reply};
use std::alloc::Global;

impl Fs {
    pub(crate) fn answers_trunc(&self, i: u16, reply: &Reply) -> bool
        ensures { result ≡ trunc_replies self.now i reply.now }
    {
        let is_directory = self.is_directory(i);
        match reply {
            Reply::IsDir => is_directory,
            Reply::Done => !is_directory,
            Reply::Fault => true,
            _ => false,
        }
    }

    // Trunc: a regular file loses its bytes.
    pub(crate) fn step_trunc(
        &mut self,
        alloc: Global,
        process: u8,
        i: u16,
        reply: &Reply,
    ) -> Result<(), Illegal>
        requires { IsWhole self.old }
        ensures taken { OnOk result (IsTaken self.old process (op.Trunc i) reply.now self.new) }
        ensures refused { IfErr result (IsRefused self.old process (op.Trunc i) reply.now) }
        ensures kept { OnErr result (self.new ≡ self.old) }
    {
        if !self.has_reference(process, i) {
            return Err(Illegal::Condition);
        }
        if !self.answers_trunc(i, reply) {
            return Err(Illegal::Reply);
        }
        match reply {
            Reply::Done => {
                self.empty_node(alloc, i);
                Ok(())
            }
            _ => Ok(()),
        }
    }
}
