// What the disk is asked to keep, which changes no file.
ghost use Rattle.std.specs.Prelude.{◌≡◌, OnOk, OnErr, IfErr};
ghost use Rattle.sv_plain.specs.declared.history.op.Op.TheVariants as op;
ghost use Rattle.sv_plain.specs.Step.{sync_replies};
ghost use Rattle.sv_plain.specs.Taken.{IsTaken, IsRefused};

use crate::{Fs, Illegal, Reply};

impl Fs {
    // Sync: nothing changes.
    pub(crate) fn step_sync(&mut self, process: u8, reply: &Reply) -> Result<(), Illegal>
        ensures taken { OnOk result (IsTaken self.old process op.Sync reply.now self.new) }
        ensures refused { IfErr result (IsRefused self.old process op.Sync reply.now) }
        ensures kept { OnErr result (self.new ≡ self.old) }
    {
        match reply {
            Reply::Done | Reply::Fault => Ok(()),
            _ => Err(Illegal::Reply),
        }
    }
}
