// How a pass locks an inode (Bach, chapter 4.2, the first part of algorithm iget).
ghost use Rattle.std.specs.Prelude.{◌≡◌, ◌<◌, nat_eq};
ghost use Rattle.indexmap.specs.IndexMap.{get};
ghost use Rattle.sv_turn.specs.Passes.{pass_view, IsOut, IsPassOf, IsSamePass, MayLeave, turn_events};
ghost use Rattle.sv_form.specs.Node.{Node};
ghost use Rattle.sv_files.specs.View.{weight, lock_seen, lock_of, seen_by};
ghost use Rattle.sv_files.specs.FileRule.{Holds, StandsAs};
ghost use Rattle.sv_files.specs.Adding.{StandsForSome, locked_view};

use crate::event::inode_event;
use crate::in_core::InCore;
use crate::rule::FileRule;
use crate::stakes::take_stake;
use crate::state::State;
use crate::view::View;
use indexmap::IndexMap;
use std::marker::Brand;
use std::sync::Wait;
use sv_store::Stake;
use sv_turn::{NewView, Pass, Turn};

// An inode that this pass has locked: what is kept of it in core, and its stake.
pub struct Locked<S> {
    pub(crate) number: u16,
    pub(crate) core: Option<InCore>,
    pub(crate) stake: S,
}

// What is kept of an inode in core.
fn kept_in(table: &IndexMap<u16, InCore>, number: u16) -> Option<InCore>
    ensures { result ≡ get nat_eq table.now number }
{
    table.get(&number).copied()
}

// Leaves as `Turn::leave` does. The locked inode names the new view, and stands here for the proof alone.
fn leave_locked<N: NewView<View>, S: Stake>(
    turn: &Turn<FileRule<S>>,
    pass: &mut Pass<FileRule<S>>,
    state: State<S>,
    locked: &Locked<S>,
)
    requires own { IsPassOf turn.now pass.old }
    requires weight { weight (N.next (pass_view pass.old)) ≡ weight (pass_view pass.old) }
    requires rule { MayLeave (Holds (seen_by S.held S.lent S.origin S.faults S.forced)) pass.old state (N.next (pass_view pass.old)) }
    ensures same { IsSamePass pass.old pass.new }
    ensures away { IsOut pass.new }
    ensures view { pass_view pass.new ≡ N.next (pass_view pass.old) }
{
    turn.leave::<N>(pass, state);
}

// Waits until nobody else has the inode locked, and locks it. Whoever was woken looks again.
pub fn lock_inode<R: Wait, S: Stake>(
    rt: &R,
    turn: &Turn<FileRule<S>>,
    pass: &mut Pass<FileRule<S>>,
    number: u16,
) -> Locked<S>
    requires own { IsPassOf turn.now pass.old }
    requires away { IsOut pass.old }
    requires events { turn_events turn.now ≡ 64 }
    ensures same { IsSamePass pass.old pass.new × IsOut pass.new }
    ensures number { result.number ≡ number }
    ensures view { pass_view pass.new
        ≡ locked_view number result.core (seen_by S.held S.lent S.origin S.faults S.forced result.stake) (pass_view pass.old) }
    ensures seen { lock_seen (lock_of number result.core (seen_by S.held S.lent S.origin S.faults S.forced result.stake))
        ≡ seen_by S.held S.lent S.origin S.faults S.forced result.stake }
    ensures stands { StandsForSome number result.core (seen_by S.held S.lent S.origin S.faults S.forced result.stake) }
{
    let mut state = turn.enter(rt, pass);
    for _ in rt.forever() {
        match take_stake(&mut state.stakes, number) {
            Some(stake) => {
                let _sizes = stake.geometry();
                let core = kept_in(&state.table, number);
                let locked = Locked {
                    number,
                    core,
                    stake,
                };
                leave_locked::<Brand, S>(turn, pass, state, &locked);
                return locked;
            }
            None => {
                let event = inode_event(number);
                state = turn.sleep_on::<Brand, R>(rt, pass, state, event);
            }
        }
    }
    unreachable!()
}
