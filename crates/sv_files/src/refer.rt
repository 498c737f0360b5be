// How a look-up ends that found a child: it takes a reference, or the table has no place.
ghost use Rattle.std.specs.Prelude.{◌≡◌, ◌<◌, ◌+◌, ◌++◌, ◌∷◌, [], Bool, true, false, IfOk, OnErr, OnOk, length, set, slice_index};
ghost use Rattle.sv_turn.specs.Passes.{pass_view, IsOut, IsPassOf, IsSamePass, turn_events};
ghost use Rattle.sv_plain.specs.declared.history.op.Op.TheVariants.{Look};
ghost use Rattle.sv_files.specs.View.{Lock, Each, seen_by};
ghost use Rattle.sv_files.specs.Adding.{HasOneLock, IsStill, answered_view, failed_view};
ghost use Rattle.sv_files.specs.Looking.{FindsAll, IsNoted, found_reply};

use crate::NoMemory;
use crate::answer::{leave_answered, leave_home};
use crate::event::inode_event;
use crate::history::History;
use crate::lock::Locked;
use crate::references::References;
use crate::rule::FileRule;
use crate::stakes::put_stake;
use std::marker::Brand;
use std::sync::Wait;
use sv_form::Name;
use sv_plain::{Entry, Op, Reply};
use sv_store::Stake;
use sv_turn::{Pass, Turn};

// What is answered of a child for which the table has no place, or has one.
fn reply_found(full: bool, child: u16) -> Reply
    ensures { result ≡ found_reply full child }
{
    if full {
        Reply::Full
    } else {
        Reply::Found(child)
    }
}

// Adds the entry, and counts the reference that it makes, which is owed another.
fn note_found(
    references: &mut References,
    history: &mut History,
    entry: Entry,
    full: bool,
    child: u16,
) -> Result<(), NoMemory>
    requires inside { child < length references.old.counts.items }
    ensures added { OnOk result (history.new.entries.items ≡ history.old.entries.items ++ entry ∷ []) }
    ensures noted { OnOk result (IsNoted references.old references.new history.old.owed history.new.owed full child) }
    ensures kept { OnErr result ((history.new.entries.items ≡ history.old.entries.items) × (history.new.owed ≡ history.old.owed)) }
    ensures same { OnErr result (references.new ≡ references.old) }
{
    if full {
        return history.push(entry);
    }
    if !references.can_count(child) {
        return Err(NoMemory);
    }
    history.push_owing(entry)?;
    references.refer(child);
    Ok(())
}

// Ends a Look whose name leads to this child. Without memory no entry is added, and nothing else changes either.
pub fn answer_found<R: Wait, S: Stake>(
    rt: &R,
    turn: &Turn<FileRule<S>>,
    pass: &mut Pass<FileRule<S>>,
    locked: Locked<S>,
    process: u8,
    dir: u16,
    name: Name,
    child: u16,
) -> Result<Reply, NoMemory>
    requires own { IsPassOf turn.now pass.old }
    requires away { IsOut pass.old }
    requires events { turn_events turn.now ≡ 64 }
    requires still { (k : Lock) × HasOneLock (pass_view pass.old) k
        × IsStill k locked.number locked.core (seen_by S.held S.lent S.origin S.faults S.forced locked.stake) }
    requires mine { Each (λ p. p.process ≡ process) (pass_view pass.old).procs }
    requires finds { FindsAll (pass_view pass.old) process dir name child }
    ensures same { IsSamePass pass.old pass.new × IsOut pass.new }
    ensures ok { IfOk result (λ reply. pass_view pass.new ≡ answered_view
        (record { process = process; op = Look dir name; reply = reply }) (S.faults locked.stake) (pass_view pass.old)) }
    ensures found { IfOk result (λ reply. (full : Bool) × (reply ≡ found_reply full child)) }
    ensures err { OnErr result (pass_view pass.new ≡ failed_view (S.faults locked.stake) (pass_view pass.old)) }
{
    let Locked {
        number,
        core: _,
        stake,
    } = locked;
    let mut state = turn.enter(rt, pass);
    put_stake(&mut state.stakes, number, stake);
    let full = state.references.is_full_for(child);
    let entry = Entry {
        process,
        op: Op::Look { dir, name },
        reply: reply_found(full, child),
    };
    match note_found(
        &mut state.references,
        &mut state.history,
        entry,
        full,
        child,
    ) {
        Ok(()) => {
            leave_answered::<Brand, S>(turn, pass, state, number);
            turn.wake(inode_event(number));
            Ok(reply_found(full, child))
        }
        Err(refusal) => {
            leave_home::<Brand, S>(turn, pass, state, number);
            turn.wake(inode_event(number));
            Err(refusal)
        }
    }
}
