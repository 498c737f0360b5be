// Reading files.
ghost use Rattle.std.specs.Prelude.{◌≡◌, OnOk, OnErr, IfErr};
ghost use Rattle.sv_plain.specs.declared.history.op.Op.TheVariants as op;
ghost use Rattle.sv_plain.specs.declared.history.reply.Reply.TheVariants as reply;
ghost use Rattle.sv_plain.specs.Step.{read_allowed, read_replies};
ghost use Rattle.sv_plain.specs.Taken.{IsTaken, IsRefused};
ghost use Rattle.sv_plain.specs.Whole.{IsWhole};

use crate::steps::files::reads;
use crate::{Fs, Illegal, Reply};
use sv_form::Bytes;

impl Fs {
    // The file is there, and open for reading.
    fn allows_read(&self, file: u16) -> bool
        ensures { result ≡ read_allowed self.now file }
    {
        match self.file(file) {
            Some(opening) => reads(opening.mode),
            None => false,
        }
    }

    // These are the bytes that a read of the file gets.
    fn reads_as(&self, file: u16, count: u32, bytes: &Bytes) -> bool
        ensures { result ≡ read_replies self.now file count (reply.Got bytes.now) }
    {
        let Some(opening) = self.file(file) else {
            return false;
        };
        let Some(node) = self.node(opening.inode) else {
            return false;
        };
        node.reads_as(self.block_size(), opening.offset, count, bytes.as_slice())
    }

    fn answers_read(&self, file: u16, count: u32, reply: &Reply) -> bool
        ensures { result ≡ read_replies self.now file count reply.now }
    {
        match reply {
            Reply::Got(bytes) => self.reads_as(file, count, bytes),
            Reply::Fault => true,
            _ => false,
        }
    }

    // Read: the bytes are those from the offset on, up to the size, and the offset moves past them.
    pub(crate) fn step_read(
        &mut self,
        process: u8,
        file: u16,
        count: u32,
        reply: &Reply,
    ) -> Result<(), Illegal>
        requires { IsWhole self.old }
        ensures taken { OnOk result (IsTaken self.old process (op.Read file count) reply.now self.new) }
        ensures refused { IfErr result (IsRefused self.old process (op.Read file count) reply.now) }
        ensures kept { OnErr result (self.new ≡ self.old) }
    {
        if !self.allows_read(file) {
            return Err(Illegal::Condition);
        }
        if !self.answers_read(file, count, reply) {
            return Err(Illegal::Reply);
        }
        match reply {
            Reply::Got(bytes) => {
                let Some(opening) = self.file(file) else {
                    return Err(Illegal::Condition);
                };
                let count = bytes.as_slice().len() as u32;
                self.set_offset(file, opening.offset + count);
                Ok(())
            }
            _ => Ok(()),
        }
    }
}
