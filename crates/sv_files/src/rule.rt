// The rule of the file turn, with its laws, and how views are named at a call.
ghost use Rattle.std.specs.Prelude.{refl};
ghost use Rattle.sv_files.specs.View.{View, blank, weight, seen_by};
ghost use Rattle.sv_files.specs.FileRule.{Holds, IsCut};
ghost use Rattle.sv_files.specs.Laws.{in_any_order, with_blank, without_blank, in_two, in_one, weighs_both};

use crate::state::State;
use crate::view::View;
use std::marker::{Brand, PhantomData};
use sv_store::Stake;
use sv_turn::{CutView, FirstView, NewView, TurnRule, WholeView};

/// The rule of the file turn: the history leads from what was mounted to a file system, each of whose inodes is at home or locked
/// by one pass and stands for its node; and the views agree with it.
pub struct FileRule<S> {
    stake: PhantomData<S>,
}

impl<S: Stake> TurnRule for FileRule<S> {
    type State = State<S>;

    type View = View;

    ghost holds = { Holds (seen_by S.held S.lent S.origin S.faults S.forced) };

    ghost blank = { blank };

    ghost weight = { weight };

    ghost cuts = { IsCut };

    ghost any_order = { in_any_order (seen_by S.held S.lent S.origin S.faults S.forced) };

    ghost blank_light = { refl };

    ghost blank_more = { with_blank (seen_by S.held S.lent S.origin S.faults S.forced) };

    ghost blank_less = { without_blank (seen_by S.held S.lent S.origin S.faults S.forced) };

    ghost cut = { in_two (seen_by S.held S.lent S.origin S.faults S.forced) };

    ghost uncut = { in_one (seen_by S.held S.lent S.origin S.faults S.forced) };

    ghost weighs = { weighs_both };
}

impl FirstView<View> for Brand {
    ghost first = { blank };
}

impl NewView<View> for Brand {
    ghost next = { λ v. v };
}

impl CutView<View> for Brand {
    ghost left = { λ v. v };

    ghost right = { λ v. blank };
}

impl WholeView<View> for Brand {
    ghost whole = { λ v w. v };
}
