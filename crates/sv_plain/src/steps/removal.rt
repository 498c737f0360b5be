// What goes with the last that refers to it.
ghost use Rattle.std.specs.Prelude.{◌≡◌, ◌≤◌, true, not, Some, OnOk, OnErr, IfErr};
ghost use Rattle.std.specs.FinMap as map;
ghost use Rattle.sv_plain.specs.declared.history.op.Op.TheVariants as op;
ghost use Rattle.sv_plain.specs.Fs.{is_referenced};
ghost use Rattle.sv_plain.specs.Names.{has_reference};
ghost use Rattle.sv_plain.specs.Change.{without_reference, without_share};
ghost use Rattle.sv_plain.specs.Step.{has_file, inode_of_file, is_left, closes_last, last_replies, drop_replies, close_replies};
ghost use Rattle.sv_plain.specs.Taken.{IsTaken, IsRefused};
ghost use Rattle.sv_plain.specs.Whole.{IsWhole};

use crate::{Fs, Illegal, Opening, Reply};

// Whether the inode goes with the last that refers to it, or for want of the device or of memory stays.
fn answers_last(is_last: bool, reply: &Reply) -> bool
    ensures { result ≡ last_replies is_last reply.now }
{
    match reply {
        Reply::Kept => !is_last,
        Reply::Freed | Reply::Late | Reply::LateMemory => is_last,
        _ => false,
    }
}

impl Fs {
    // Nothing but this one reference of the process refers to inode i.
    fn is_last_reference(&self, process: u8, i: u16) -> bool
        requires { has_reference self.now process i ≡ true }
        ensures { result ≡ not (is_referenced (without_reference self.now process i) i) }
    {
        if self.references_of(process, i) > 1 {
            return false;
        }
        self.holder_count(i) <= 1
    }

    fn answers_drop(&self, process: u8, i: u16, reply: &Reply) -> bool
        requires { has_reference self.now process i ≡ true }
        ensures { result ≡ drop_replies self.now process i reply.now }
    {
        let is_last = self.links_of(i) == 0 && self.is_last_reference(process, i);
        answers_last(is_last, reply)
    }

    // Drop: one reference less. With the last that refers to an inode without links, the inode goes.
    pub(crate) fn step_drop(&mut self, process: u8, i: u16, reply: &Reply) -> Result<(), Illegal>
        requires { IsWhole self.old }
        ensures taken { OnOk result (IsTaken self.old process (op.Drop i) reply.now self.new) }
        ensures refused { IfErr result (IsRefused self.old process (op.Drop i) reply.now) }
        ensures kept { OnErr result (self.new ≡ self.old) }
    {
        if !self.has_reference(process, i) {
            return Err(Illegal::Condition);
        }
        if !self.answers_drop(process, i, reply) {
            return Err(Illegal::Reply);
        }
        self.remove_reference(process, i);
        match reply {
            Reply::Freed => {
                self.remove_node(i);
                Ok(())
            }
            _ => Ok(()),
        }
    }

    // This share is the last of the file, and nothing but the file refers to its inode, which has no links.
    fn closes_last(&self, file: u16, opening: &Opening) -> bool
        requires { map.get self.now.files file ≡ Some opening.now }
        ensures { result ≡ closes_last self.now file }
    {
        if opening.count > 1 {
            return false;
        }
        if self.links_of(opening.inode) != 0 {
            return false;
        }
        self.holder_count(opening.inode) <= 1
    }

    // One share less of the file that is there.
    fn remove_share(&mut self, file: u16, opening: &Opening)
        requires there { map.get self.old.files file ≡ Some opening.now }
        requires within { opening.now.inode ≤ self.old.inodes }
        ensures { self.new ≡ without_share self.old file }
    {
        if opening.count <= 1 {
            self.remove_file(file, opening.inode);
            return;
        }
        let count = opening.count - 1;
        self.replace_file(file, Opening { count, ..*opening });
    }

    // CloseFile: one share less. With the last the file goes, and with it an inode that has no links and nothing else
    // that refers to it.
    pub(crate) fn step_close(
        &mut self,
        process: u8,
        file: u16,
        reply: &Reply,
    ) -> Result<(), Illegal>
        requires { IsWhole self.old }
        ensures taken { OnOk result (IsTaken self.old process (op.CloseFile file) reply.now self.new) }
        ensures refused { IfErr result (IsRefused self.old process (op.CloseFile file) reply.now) }
        ensures kept { OnErr result (self.new ≡ self.old) }
    {
        let Some(opening) = self.file(file) else {
            return Err(Illegal::Condition);
        };
        if !answers_last(self.closes_last(file, &opening), reply) {
            return Err(Illegal::Reply);
        }
        self.remove_share(file, &opening);
        match reply {
            Reply::Freed => {
                self.remove_node(opening.inode);
                Ok(())
            }
            _ => Ok(()),
        }
    }
}
