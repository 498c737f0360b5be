// The rule of the turn, with its laws, and how views are named at a call.
ghost use Rattle.std.specs.Prelude.{refl};
ghost use Rattle.sv_buf.specs.View.{View, blank, weight};
ghost use Rattle.sv_buf.specs.Running.{IsRunning, seen_by};
ghost use Rattle.sv_buf.specs.Parting.{IsCut};
ghost use Rattle.sv_buf.specs.Laws.{in_any_order, with_blank, without_blank, in_two, in_one, weighs_both};

use crate::medium::Medium;
use crate::state::State;
use crate::view::View;
use std::marker::{Brand, PhantomData};
use sv_turn::{CutView, FirstView, NewView, TurnRule, WholeView};

/// The rule of the running cache: the buffers are a lawful cache, each line that a pass holds is the line of its block's current
/// bytes, and each line of the disk is held by one pass.
pub struct Running<D> {
    device: PhantomData<D>,
}

impl<D: Medium> TurnRule for Running<D> {
    type State = State<D>;

    type View = View;

    ghost holds = { IsRunning (seen_by D.content D.reads D.writes D.faults) };

    ghost blank = { blank };

    ghost weight = { weight };

    ghost cuts = { IsCut };

    ghost any_order = { in_any_order (seen_by D.content D.reads D.writes D.faults) };

    ghost blank_light = { refl };

    ghost blank_more = { with_blank (seen_by D.content D.reads D.writes D.faults) };

    ghost blank_less = { without_blank (seen_by D.content D.reads D.writes D.faults) };

    ghost cut = { in_two (seen_by D.content D.reads D.writes D.faults) };

    ghost uncut = { in_one (seen_by D.content D.reads D.writes D.faults) };

    ghost weighs = { weighs_both };
}

impl FirstView<View> for Brand {
    ghost first = { blank };
}

impl NewView<View> for Brand {
    ghost next = { λ v. v };
}

impl CutView<View> for Brand {
    ghost left = { λ v. v };

    ghost right = { λ v. blank };
}

impl WholeView<View> for Brand {
    ghost whole = { λ v w. v };
}
