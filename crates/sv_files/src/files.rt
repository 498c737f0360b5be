// The file system that processes share.
ghost use Rattle.std.specs.Prelude.{◌≡◌, ◌<◌, ◌≤◌, ◌^◌, ◌∷◌, [], IfErr, IfOk, OnErr};
ghost use Rattle.sv_turn.specs.Passes.{pass_view, IsOut, IsPassOf, IsSamePass, first_view, turn_events};
ghost use Rattle.sv_files.specs.Calls.{Adds, AddsNothing, CanStat, HasHistory, IsViewOf};
ghost use Rattle.sv_files.specs.FileRule.{Holds};
ghost use Rattle.sv_files.specs.Looking.{CanLook};
ghost use Rattle.sv_files.specs.View.{seen_by, weight};

use crate::NoMemory;
use crate::event::INODE_EVENTS;
use crate::look::look_up;
use crate::rule::FileRule;
use crate::stat::stat_inode;
use crate::state::State;
use crate::view::View;
use std::alloc::Global;
use std::sync::Wait;
use sv_plain::{Op, Reply};
use sv_store::Stake;
use sv_turn::{FirstView, Pass, Turn};

/// The in-core inodes, the superblock and the history, which processes share under one turn. It has no drop: it is spent by
/// closing it.
pub struct Files<S: Stake> {
    pub(crate) turn: Turn<FileRule<S>>,
    ghost events: { turn_events turn ≡ 64 },
}

/// What one process has of the files. Between its calls it is not under the turn.
pub struct FilePass<S: Stake> {
    pub(crate) pass: Pass<FileRule<S>>,
    pub(crate) process: u8,
    ghost away: { IsOut pass },
}

impl<S: Stake> Files<S> {
    /// Puts a state that meets the rule under a turn, with one pass that stands for all processes. Without memory the state comes
    /// back.
    pub(crate) fn new<F: FirstView<View>>(
        alloc: Global,
        state: State<S>,
    ) -> Result<(Files<S>, Pass<FileRule<S>>), (State<S>, NoMemory)>
        requires rule { Holds (seen_by S.held S.lent S.origin S.faults S.forced) state (F.first ∷ []) }
        requires weight { (0 < weight F.first) × (weight F.first ≤ 2 ^ 63) }
        ensures first { IfOk result (λ r. first_view r.0.turn ≡ F.first) }
        ensures pass { IfOk result (λ r. IsPassOf r.0.turn r.1 × IsOut r.1 × (pass_view r.1 ≡ F.first)) }
        ensures err { IfErr result (λ e. e.0 ≡ state) }
    {
        match Turn::<FileRule<S>>::new::<F>(alloc, state, INODE_EVENTS) {
            Ok((turn, pass)) => Ok((Files { turn }, pass)),
            Err(refused) => Err(refused),
        }
    }

    /// Reads what an inode says, to which the process has a reference (Bach, chapter 5, algorithm stat). The entry of the
    /// process that is added is legal where it stands, as the rule of the turn says. Without memory none is added. It waits
    /// while another process has the inode locked.
    pub fn stat<R: Wait>(&self, rt: &R, pass: &mut FilePass<S>, op: Op) -> Result<Reply, NoMemory>
        requires own { IsPassOf self.now.turn pass.old.pass }
        requires can { (mine : IsViewOf pass.old.process (pass_view pass.old.pass)) × CanStat mine.proc op }
        ensures same { IsSamePass pass.old.pass pass.new.pass }
        ensures process { pass.new.process ≡ pass.old.process }
        ensures ok { IfOk result (λ reply. Adds (pass_view pass.old.pass) (pass_view pass.new.pass)
            (record { process = pass.old.process; op = op; reply = reply })) }
        ensures err { OnErr result (AddsNothing (pass_view pass.old.pass) (pass_view pass.new.pass)) }
    {
        let Op::Stat { ino } = op else { unreachable!() };
        stat_inode(rt, &self.turn, &mut pass.pass, pass.process, ino)
    }

    /// Looks a name up in a directory to which the process has a reference, and takes a reference to the child (Bach, chapter 4.4,
    /// one turn of algorithm namei, and algorithm iget): `Full` where all places of the table are taken and the child has none. The
    /// entry of the process that is added is legal where it stands, as the rule of the turn says. Without memory none is added. It
    /// waits while another process has the directory locked.
    pub fn look<R: Wait>(&self, rt: &R, pass: &mut FilePass<S>, op: Op) -> Result<Reply, NoMemory>
        requires own { IsPassOf self.now.turn pass.old.pass }
        requires can { (mine : IsViewOf pass.old.process (pass_view pass.old.pass)) × CanLook mine.proc op }
        ensures same { IsSamePass pass.old.pass pass.new.pass }
        ensures process { pass.new.process ≡ pass.old.process }
        ensures ok { IfOk result (λ reply. Adds (pass_view pass.old.pass) (pass_view pass.new.pass)
            (record { process = pass.old.process; op = op; reply = reply })) }
        ensures err { OnErr result (AddsNothing (pass_view pass.old.pass) (pass_view pass.new.pass)) }
    {
        let Op::Look { dir, name } = op else {
            unreachable!()
        };
        look_up(rt, &self.turn, &mut pass.pass, pass.process, dir, name)
    }

    /// Ends the turn, by the pass that stands for all processes. Its history is legal from what was mounted, with each
    /// process's entries in their order.
    pub(crate) fn end(self, pass: Pass<FileRule<S>>) -> State<S>
        requires own { IsPassOf self.turn pass }
        requires away { IsOut pass }
        requires whole { weight (pass_view pass) ≡ weight (first_view self.turn) }
        ensures { HasHistory (pass_view pass) result.history.entries.items }
    {
        let Files { turn } = self;
        turn.close(pass)
    }
}
