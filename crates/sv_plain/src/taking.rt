// One step, whatever it is.
ghost use Rattle.std.specs.Prelude.{◌≡◌, OnOk, OnErr, IfErr};
ghost use Rattle.sv_plain.specs.Laws.{EntersName};
ghost use Rattle.sv_plain.specs.Step.{Step, change_of};
ghost use Rattle.sv_plain.specs.Taken.{IsTaken, IsRefused};
ghost use Rattle.sv_plain.specs.Whole.{IsWhole};

use crate::{Fs, Illegal, Op, Reply};
use std::alloc::Global;

/// Takes the step of a process that asked for `op` and was answered `reply`, and leaves the file system whole.
///
/// `Illegal::Condition` where the op may not be asked now, `Illegal::Reply` where it may be asked and is never answered
/// so, and `Illegal::NoMemory` where the step is legal and there is no memory for it: then all is as before. A purge that
/// came late is taken as one in which no node went. The cost is that of what the step touches: the pages of its range, of a
/// promise no more than are present or there is room for, one page of a directory and a logarithm in its names, or its entries
/// where it goes or has no index, a logarithm in the nodes.
pub fn apply(alloc: Global, fs: &mut Fs, process: u8, op: &Op, reply: &Reply) -> Result<(), Illegal>
    requires { IsWhole fs.old }
    ensures step { OnOk result (Step fs.old process op.now reply.now fs.new) }
    ensures after { OnOk result (fs.new ≡ change_of fs.old process op.now reply.now) }
    ensures refused { IfErr result (IsRefused fs.old process op.now reply.now) }
    ensures kept { OnErr result (fs.new ≡ fs.old) }
    ensures whole { IsWhole fs.new }
{
    has_name(op);
    fs.take(alloc, process, op, reply)?;
    Ok(())
}

// What an op enters into a directory is a name, by its type.
fn has_name(op: &Op)
    ensures { EntersName op.now }
{
    match op {
        Op::Create { name, .. } | Op::Enter { name, .. } => {
            name.as_slice();
        }
        _ => {}
    }
}

impl Fs {
    fn take(&mut self, alloc: Global, process: u8, op: &Op, reply: &Reply) -> Result<(), Illegal>
        requires { IsWhole self.old }
        ensures taken { OnOk result (IsTaken self.old process op.now reply.now self.new) }
        ensures refused { IfErr result (IsRefused self.old process op.now reply.now) }
        ensures kept { OnErr result (self.new ≡ self.old) }
    {
        match op {
            Op::Look { dir, name } => self.step_look(process, *dir, name, reply),
            Op::Drop { ino } => self.step_drop(process, *ino, reply),
            Op::Create {
                dir,
                name,
                kind,
                mode,
            } => self.step_create(alloc, process, *dir, name, *kind, *mode, reply),
            Op::AddLink { ino } => self.step_add_link(alloc, process, *ino, reply),
            Op::Enter { dir, name, ino } => {
                self.step_enter(alloc, process, *dir, name, *ino, reply)
            }
            Op::SubLink { ino } => self.step_sub_link(alloc, process, *ino, reply),
            Op::Unlink { dir, name } => self.step_unlink(alloc, process, *dir, name, reply),
            Op::Rmdir { dir, name } => self.step_rmdir(alloc, process, *dir, name, reply),
            Op::OpenFile { ino, mode } => self.step_open(process, *ino, *mode, reply),
            Op::CloseFile { file } => self.step_close(process, *file, reply),
            Op::DupFile { file } => self.step_dup(process, *file, reply),
            Op::Read { file, count } => self.step_read(process, *file, *count, reply),
            Op::Write { file, bytes } => self.step_write(alloc, process, *file, bytes, reply),
            Op::Seek {
                file,
                offset,
                whence,
            } => self.step_seek(process, *file, *offset, *whence, reply),
            Op::Trunc { ino } => self.step_trunc(alloc, process, *ino, reply),
            Op::Stat { ino } => self.step_stat(process, *ino, reply),
            Op::Promise { need } => self.step_promise(process, need, reply),
            Op::Forgo => self.step_forgo(process, reply),
            Op::Sync => self.step_sync(process, reply),
            Op::Purge => self.step_purge(process, reply),
        }
    }
}
