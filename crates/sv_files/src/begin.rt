// How processes begin: the one pass that stands for all of them is cut into a pass for each.
ghost use Rattle.std.specs.Prelude.{◌≡◌, ◌+◌, ◌≤◌, [], length, vec_capacity};
ghost use Rattle.sv_turn.specs.Passes.{pass_view, IsOut, IsPassOf, IsSamePass};
ghost use Rattle.sv_files.specs.Beginning.{AreAdded, first_one, first_proc, first_procs, other_ones};
ghost use Rattle.sv_files.specs.View.{of_one};

use crate::files::FilePass;
use crate::rule::FileRule;
use std::marker::Brand;
use sv_store::Stake;
use sv_turn::{Pass, Turn};

// Cuts the first process off. The pass that is given keeps it, and the new one stands for the others.
fn cut_first<S: Stake>(turn: &Turn<FileRule<S>>, pass: &mut Pass<FileRule<S>>) -> Pass<FileRule<S>>
    requires own { IsPassOf turn.now pass.old }
    requires away { IsOut pass.old }
    requires free { (pass_view pass.old).locks ≡ [] }
    requires some { 2 ≤ length (pass_view pass.old).procs }
    ensures same { IsSamePass pass.old pass.new × IsOut pass.new }
    ensures first { pass_view pass.new ≡ record (pass_view pass.old) { procs = first_one (pass_view pass.old).procs } }
    ensures own { IsPassOf turn.now result × IsOut result }
    ensures others { pass_view result ≡ record (pass_view pass.old) { procs = other_ones (pass_view pass.old).procs } }
{
    match turn.split::<Brand>(pass) {
        Ok(other) => other,
        Err(_) => unreachable!(),
    }
}

// Makes a pass for each of so many processes from this one on, and last one for process 0.
pub fn hand_out<S: Stake>(
    turn: &Turn<FileRule<S>>,
    pass: Pass<FileRule<S>>,
    passes: &mut Vec<FilePass<S>>,
    process: u8,
    left: u8,
)
    requires own { IsPassOf turn.now pass }
    requires away { IsOut pass }
    requires few { process + left ≤ 17 }
    requires procs { (pass_view pass).procs ≡ first_procs process left }
    requires free { (pass_view pass).locks ≡ [] }
    requires room { length passes.old.items + left + 1 ≤ vec_capacity passes.old }
    ensures { AreAdded (λ q p. IsPassOf turn.now p.pass × (pass_view p.pass ≡ of_one (pass_view pass).mount (first_proc q) [])
        × (p.process ≡ q)) process left passes.old.items passes.new.items }
{
    if left == 0 {
        passes.push_reserved(FilePass { pass, process: 0 });
        return;
    }
    let mut pass = pass;
    let others = cut_first(turn, &mut pass);
    passes.push_reserved(FilePass { pass, process });
    hand_out(turn, others, passes, process + 1, left - 1);
}
