// How a call ends that has one inode locked: its entry is added, its stake goes home, and it leaves.
ghost use Rattle.std.specs.Prelude.{◌≡◌, OnErr, OnOk};
ghost use Rattle.sv_turn.specs.Passes.{pass_view, IsOut, IsPassOf, IsSamePass, MayLeave, turn_events};
ghost use Rattle.sv_files.specs.View.{Lock, weight, seen_by};
ghost use Rattle.sv_files.specs.FileRule.{Holds};
ghost use Rattle.sv_files.specs.Adding.{HasCauseIn, HasOneLock, IsEntryOf, IsStill, KeepsAll, answered_view, failed_view};

use crate::NoMemory;
use crate::event::inode_event;
use crate::lock::Locked;
use crate::rule::FileRule;
use crate::stakes::put_stake;
use crate::state::State;
use crate::view::View;
use std::marker::Brand;
use std::sync::Wait;
use sv_plain::Entry;
use sv_store::Stake;
use sv_turn::{NewView, Pass, Turn};

// Leaves as `Turn::leave` does. The inode's number names the stake that came home, and so the new view.
pub fn leave_home<N: NewView<View>, S: Stake>(
    turn: &Turn<FileRule<S>>,
    pass: &mut Pass<FileRule<S>>,
    state: State<S>,
    number: u16,
)
    requires own { IsPassOf turn.now pass.old }
    requires weight { weight (N.next (pass_view pass.old)) ≡ weight (pass_view pass.old) }
    requires rule { MayLeave (Holds (seen_by S.held S.lent S.origin S.faults S.forced)) pass.old state (N.next (pass_view pass.old)) }
    ensures same { IsSamePass pass.old pass.new }
    ensures away { IsOut pass.new }
    ensures view { pass_view pass.new ≡ N.next (pass_view pass.old) }
{
    turn.leave::<N>(pass, state);
}

// The same, after an entry was added, which names the new view too.
pub fn leave_answered<N: NewView<View>, S: Stake>(
    turn: &Turn<FileRule<S>>,
    pass: &mut Pass<FileRule<S>>,
    state: State<S>,
    number: u16,
)
    requires own { IsPassOf turn.now pass.old }
    requires weight { weight (N.next (pass_view pass.old)) ≡ weight (pass_view pass.old) }
    requires rule { MayLeave (Holds (seen_by S.held S.lent S.origin S.faults S.forced)) pass.old state (N.next (pass_view pass.old)) }
    ensures same { IsSamePass pass.old pass.new }
    ensures away { IsOut pass.new }
    ensures view { pass_view pass.new ≡ N.next (pass_view pass.old) }
{
    turn.leave::<N>(pass, state);
}

// Ends a call whose reply changes nothing of the file system. Without memory no entry is added, and nothing else changes either.
pub fn answer<R: Wait, S: Stake>(
    rt: &R,
    turn: &Turn<FileRule<S>>,
    pass: &mut Pass<FileRule<S>>,
    locked: Locked<S>,
    entry: Entry,
) -> Result<(), NoMemory>
    requires own { IsPassOf turn.now pass.old }
    requires away { IsOut pass.old }
    requires events { turn_events turn.now ≡ 64 }
    requires still { (k : Lock) × HasOneLock (pass_view pass.old) k
        × IsStill k locked.number locked.core (seen_by S.held S.lent S.origin S.faults S.forced locked.stake) }
    requires mine { IsEntryOf (pass_view pass.old) entry }
    requires legal { KeepsAll (pass_view pass.old) entry }
    requires cause { HasCauseIn (pass_view pass.old) (S.faults locked.stake) entry }
    ensures same { IsSamePass pass.old pass.new × IsOut pass.new }
    ensures ok { OnOk result (pass_view pass.new ≡ answered_view entry (S.faults locked.stake) (pass_view pass.old)) }
    ensures err { OnErr result (pass_view pass.new ≡ failed_view (S.faults locked.stake) (pass_view pass.old)) }
{
    let Locked {
        number,
        core: _,
        stake,
    } = locked;
    let mut state = turn.enter(rt, pass);
    put_stake(&mut state.stakes, number, stake);
    match state.history.push(entry) {
        Ok(()) => {
            leave_answered::<Brand, S>(turn, pass, state, number);
            turn.wake(inode_event(number));
            Ok(())
        }
        Err(refusal) => {
            leave_home::<Brand, S>(turn, pass, state, number);
            turn.wake(inode_event(number));
            Err(refusal)
        }
    }
}
