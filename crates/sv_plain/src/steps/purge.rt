// What is removed at the end, when nothing is in use.
ghost use Rattle.std.specs.Prelude.{◌≡◌, true, OnOk, OnErr, IfErr};
ghost use Rattle.sv_plain.specs.declared.history.op.Op.TheVariants as op;
ghost use Rattle.sv_plain.specs.Names.{is_idle};
ghost use Rattle.sv_plain.specs.Step.{purge_replies};
ghost use Rattle.sv_plain.specs.Taken.{IsTaken, IsRefused};

use crate::{Fs, Illegal, Reply};

impl Fs {
    fn answers_purge(&self, reply: &Reply) -> bool
        requires { is_idle self.now ≡ true }
        ensures { result ≡ purge_replies self.now reply.now }
    {
        match reply {
            Reply::Done => true,
            Reply::Late | Reply::LateMemory => self.first_unlinked().is_some(),
            _ => false,
        }
    }

    // Purge: each node that no name leads to goes. Of a purge that came late no more is said than that one stays: here
    // none goes.
    pub(crate) fn step_purge(&mut self, process: u8, reply: &Reply) -> Result<(), Illegal>
        ensures taken { OnOk result (IsTaken self.old process op.Purge reply.now self.new) }
        ensures refused { IfErr result (IsRefused self.old process op.Purge reply.now) }
        ensures kept { OnErr result (self.new ≡ self.old) }
    {
        if !(process == 0 && self.is_idle()) {
            return Err(Illegal::Condition);
        }
        if !self.answers_purge(reply) {
            return Err(Illegal::Reply);
        }
        match reply {
            Reply::Done => {
                self.remove_lost();
                Ok(())
            }
            _ => Ok(()),
        }
    }
}
