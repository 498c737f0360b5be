// What an inode says.
ghost use Rattle.std.specs.Prelude.{◌≡◌, OnOk, OnErr, IfErr};
ghost use Rattle.sv_form.specs.declared.kind.Kind.{Kind};
ghost use Rattle.sv_plain.specs.declared.history.op.Op.TheVariants as op;
ghost use Rattle.sv_plain.specs.Names.{is_opened, same_kind};
ghost use Rattle.sv_plain.specs.Step.{stat_allowed, stat_replies};
ghost use Rattle.sv_plain.specs.Taken.{IsTaken, IsRefused};
ghost use Rattle.sv_plain.specs.Whole.{IsWhole};

use crate::{Fs, Illegal, Reply};
use sv_form::Kind;

fn is_same_kind(one: &Kind, other: &Kind) -> bool
    ensures { result ≡ same_kind one.now other.now }
{
    match (one, other) {
        (Kind::File, Kind::File) => true,
        (Kind::Dir, Kind::Dir) => true,
        (Kind::File, Kind::Dir) => false,
        (Kind::Dir, Kind::File) => false,
    }
}

impl Fs {
    fn allows_stat(&self, process: u8, i: u16) -> bool
        ensures { result ≡ stat_allowed self.now process i }
    {
        self.has_reference(process, i) || self.is_opened(i)
    }

    fn answers_stat(&self, i: u16, reply: &Reply) -> bool
        ensures { result ≡ stat_replies self.now i reply.now }
    {
        match reply {
            Reply::Status {
                kind,
                mode,
                links,
                size,
            } => match self.node(i) {
                Some(node) => {
                    is_same_kind(&node.kind, kind)
                        && node.mode == *mode
                        && node.links == *links
                        && node.size == *size
                }
                None => false,
            },
            Reply::Fault => true,
            _ => false,
        }
    }

    // Stat: what the inode says, and nothing changes.
    pub(crate) fn step_stat(&mut self, process: u8, i: u16, reply: &Reply) -> Result<(), Illegal>
        requires { IsWhole self.old }
        ensures taken { OnOk result (IsTaken self.old process (op.Stat i) reply.now self.new) }
        ensures refused { IfErr result (IsRefused self.old process (op.Stat i) reply.now) }
        ensures kept { OnErr result (self.new ≡ self.old) }
    {
        if !self.allows_stat(process, i) {
            return Err(Illegal::Condition);
        }
        if !self.answers_stat(i, reply) {
            return Err(Illegal::Reply);
        }
        Ok(())
    }
}
