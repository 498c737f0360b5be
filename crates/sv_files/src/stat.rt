// The call Stat.
ghost use Rattle.std.specs.Prelude.{◌≡◌, IfOk, OnErr};
ghost use Rattle.sv_turn.specs.Passes.{pass_view, IsOut, IsPassOf, IsSamePass, turn_events};
ghost use Rattle.sv_plain.specs.declared.history.op.Op.TheVariants.{Stat};
ghost use Rattle.sv_files.specs.Calls.{Adds, AddsNothing, CanStat, IsViewOf, status_of};

use crate::NoMemory;
use crate::answer::answer;
use crate::body::body_of;
use crate::lock::lock_inode;
use crate::rule::FileRule;
use std::sync::Wait;
use sv_form::InodeBody;
use sv_plain::{Entry, Op, Reply};
use sv_store::{Refusal, Stake};
use sv_turn::{Pass, Turn};

// What a process is answered of an inode.
fn status(body: &Result<InodeBody, Refusal>) -> Reply
    ensures { result ≡ status_of body.now }
{
    match body {
        Ok(body) => Reply::Status {
            kind: body.kind,
            mode: body.mode,
            links: body.links,
            size: body.size,
        },
        Err(_) => Reply::Fault,
    }
}

// Locks the inode, reads its body where it is not in core, and answers what it says.
pub fn stat_inode<R: Wait, S: Stake>(
    rt: &R,
    turn: &Turn<FileRule<S>>,
    pass: &mut Pass<FileRule<S>>,
    process: u8,
    ino: u16,
) -> Result<Reply, NoMemory>
    requires own { IsPassOf turn.now pass.old }
    requires away { IsOut pass.old }
    requires events { turn_events turn.now ≡ 64 }
    requires can { (mine : IsViewOf process (pass_view pass.old)) × CanStat mine.proc (Stat ino) }
    ensures same { IsSamePass pass.old pass.new × IsOut pass.new }
    ensures ok { IfOk result (λ reply. Adds (pass_view pass.old) (pass_view pass.new)
        (record { process = process; op = Stat ino; reply = reply })) }
    ensures err { OnErr result (AddsNothing (pass_view pass.old) (pass_view pass.new)) }
{
    let mut locked = lock_inode(rt, turn, pass, ino);
    let body = body_of(rt, &mut locked);
    let entry = Entry {
        process,
        op: Op::Stat { ino },
        reply: status(&body),
    };
    answer(rt, turn, pass, locked, entry)?;
    Ok(status(&body))
}
