// Pending links.
ghost use Rattle.std.specs.Prelude.{◌≡◌, OnOk, OnErr, IfErr};
ghost use Rattle.sv_plain.specs.declared.history.op.Op.TheVariants as op;
ghost use Rattle.sv_plain.specs.Taken.{IsTaken, IsRefused};
ghost use Rattle.sv_plain.specs.Whole.{IsWhole};
ghost use Rattle.sv_plain.specs.Step.{add_link_allowed, add_link_replies, sub_link_allowed, sub_link_replies};

use crate::{Fs, Illegal, Reply};
use std::alloc::Global;

// The most links of a file.
pub(crate) const MOST_LINKS: u16 = 1000;

impl Fs {
    pub(crate) fn allows_add_link(&self, process: u8, i: u16) -> bool
        ensures { result ≡ add_link_allowed self.now process i }
    {
        self.has_reference(process, i) && !self.has_pending(process)
    }

    pub(crate) fn answers_add_link(&self, i: u16, reply: &Reply) -> bool
        ensures { result ≡ add_link_replies self.now i reply.now }
    {
        let is_directory = self.is_directory(i);
        let links = self.links_of(i);
        match reply {
            Reply::IsDir => is_directory,
            Reply::Gone => !is_directory && links == 0,
            Reply::ManyLinks => !is_directory && links == MOST_LINKS,
            Reply::Raised => !is_directory && links != 0 && links != MOST_LINKS,
            Reply::Fault => true,
            _ => false,
        }
    }

    pub(crate) fn allows_sub_link(&self, process: u8, i: u16) -> bool
        ensures { result ≡ sub_link_allowed self.now process i }
    {
        self.has_reference(process, i) && self.is_pending(process, i)
    }

    pub(crate) fn answers_sub_link(&self, reply: &Reply) -> bool
        ensures { result ≡ sub_link_replies reply.now }
    {
        matches!(reply, Reply::Lowered)
    }

    // AddLink: one link more, which is pending.
    pub(crate) fn step_add_link(
        &mut self,
        alloc: Global,
        process: u8,
        i: u16,
        reply: &Reply,
    ) -> Result<(), Illegal>
        requires { IsWhole self.old }
        ensures taken { OnOk result (IsTaken self.old process (op.AddLink i) reply.now self.new) }
        ensures refused { IfErr result (IsRefused self.old process (op.AddLink i) reply.now) }
        ensures kept { OnErr result (self.new ≡ self.old) }
    {
        if !self.allows_add_link(process, i) {
            return Err(Illegal::Condition);
        }
        if !self.answers_add_link(i, reply) {
            return Err(Illegal::Reply);
        }
        match reply {
            Reply::Raised => {
                let links = self.links_of(i);
                let Ok(()) = self.set_pending(process, i) else {
                    return Err(Illegal::NoMemory);
                };
                let Ok(()) = self.set_links(alloc, i, links + 1) else {
                    unreachable!();
                };
                Ok(())
            }
            _ => Ok(()),
        }
    }

    // SubLink: the link that the process has pending is taken back.
    pub(crate) fn step_sub_link(
        &mut self,
        alloc: Global,
        process: u8,
        i: u16,
        reply: &Reply,
    ) -> Result<(), Illegal>
        requires { IsWhole self.old }
        ensures taken { OnOk result (IsTaken self.old process (op.SubLink i) reply.now self.new) }
        ensures refused { IfErr result (IsRefused self.old process (op.SubLink i) reply.now) }
        ensures kept { OnErr result (self.new ≡ self.old) }
    {
        if !self.allows_sub_link(process, i) {
            return Err(Illegal::Condition);
        }
        if !self.answers_sub_link(reply) {
            return Err(Illegal::Reply);
        }
        let links = self.links_of(i);
        let Ok(()) = self.set_links(alloc, i, links.saturating_sub(1)) else {
            return Err(Illegal::NoMemory);
        };
        self.clear_pending(process);
        Ok(())
    }
}
