//! The rule of the table, and what each kind of step tells the pass that makes it.
ghost use Rattle.sv_turn.specs.Turning.{Turning, away, doing};
ghost use Rattle.sv_turn.specs.Steps.{drew, looked, gave};
ghost use Rattle.sv_turn.specs.declared.stage.Stage.TheVariants.{Spent};

use crate::origin::Origin;
use crate::rule::{CutView, NewView, TurnRule, WholeView};
use crate::stage::Doing;
use atomic_table::{Join, Play, Split, TableRule};
use std::marker::PhantomData;

/// Word 0 counts the tickets drawn, word 1 is the ticket that is served, and slot 0 has the state.
pub struct Tickets<R> {
    rule: PhantomData<R>,
}

impl<R: TurnRule> TableRule<Option<R::State>, Doing<R::State, R::View>, Origin<R::View>>
    for Tickets<R> {
    ghost holds = { λ k. Turning R.holds R.blank R.weight (R.weight k.first) };

    ghost first = { λ k. away k.first };
}

/// A ticket is drawn.
pub struct Draw;

impl<S, V> Play<Option<S>, Doing<S, V>> for Draw {
    ghost then = { drew };
}

/// The ticket that is served is seen. Where it is the pass's own, the state goes out with the pass.
pub struct Look<R> {
    rule: PhantomData<R>,
}

impl<R: TurnRule> Play<Option<R::State>, Doing<R::State, R::View>> for Look<R> {
    ghost then = { looked R.holds };
}

/// The turn is given on, with the state at home.
pub struct Give<N> {
    next: PhantomData<N>,
}

impl<S, V, N: NewView<V>> Play<Option<S>, Doing<S, V>> for Give<N> {
    ghost then = { gave N.next };
}

/// A view is cut in two.
pub struct Cut<C> {
    cut: PhantomData<C>,
}

impl<S, V, C: CutView<V>> Split<Doing<S, V>> for Cut<C> {
    ghost left = { λ d. away (C.left d.client) };

    ghost right = { λ d. away (C.right d.client) };
}

/// Two views are put together, and the second pass is spent.
pub struct Whole<R, J> {
    rule: PhantomData<R>,
    whole: PhantomData<J>,
}

impl<R: TurnRule, J: WholeView<R::View>> Join<Doing<R::State, R::View>> for Whole<R, J> {
    ghost both = { λ d e. away (J.whole d.client e.client) };

    ghost spent = { doing Spent R.blank };
}
