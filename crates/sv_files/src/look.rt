// The call Look.
ghost use Rattle.std.specs.Prelude.{◌≡◌, IfOk, OnErr};
ghost use Rattle.sv_turn.specs.Passes.{pass_view, IsOut, IsPassOf, IsSamePass, turn_events};
ghost use Rattle.sv_plain.specs.declared.history.op.Op.TheVariants.{Look};
ghost use Rattle.sv_files.specs.Calls.{Adds, AddsNothing, IsViewOf};
ghost use Rattle.sv_files.specs.Looking.{CanLook};

use crate::NoMemory;
use crate::answer::answer;
use crate::lock::lock_inode;
use crate::refer::answer_found;
use crate::rule::FileRule;
use crate::search::search;
use std::sync::Wait;
use sv_form::Name;
use sv_plain::{Entry, Op, Reply};
use sv_store::Stake;
use sv_turn::{Pass, Turn};

// Locks the directory, looks the name up, and takes a reference to the child. The child's inode is not touched: whether the table
// has a place for it is told by counts.
pub fn look_up<R: Wait, S: Stake>(
    rt: &R,
    turn: &Turn<FileRule<S>>,
    pass: &mut Pass<FileRule<S>>,
    process: u8,
    dir: u16,
    name: Name,
) -> Result<Reply, NoMemory>
    requires own { IsPassOf turn.now pass.old }
    requires away { IsOut pass.old }
    requires events { turn_events turn.now ≡ 64 }
    requires can { (mine : IsViewOf process (pass_view pass.old)) × CanLook mine.proc (Look dir name) }
    ensures same { IsSamePass pass.old pass.new × IsOut pass.new }
    ensures ok { IfOk result (λ reply. Adds (pass_view pass.old) (pass_view pass.new)
        (record { process = process; op = Look dir name; reply = reply })) }
    ensures err { OnErr result (AddsNothing (pass_view pass.old) (pass_view pass.new)) }
{
    let locked = lock_inode(rt, turn, pass, dir);
    let (locked, found) = search(rt, locked, &name);
    match found {
        Ok(child) => answer_found(rt, turn, pass, locked, process, dir, name, child),
        Err(miss) => {
            let entry = Entry {
                process,
                op: Op::Look { dir, name },
                reply: miss.reply(),
            };
            answer(rt, turn, pass, locked, entry)?;
            Ok(miss.reply())
        }
    }
}
