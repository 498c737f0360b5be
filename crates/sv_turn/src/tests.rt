//! Four passes count in four threads, with sleep and wakeup, while a fifth thread wakes without a pass.
ghost use Rattle.std.specs.Prelude.{◌≡◌, ◌+◌, ◌-◌, ◌<◌, IfOk, refl};
ghost use Rattle.std.specs.Thread.{IsSync};
ghost use Rattle.sv_turn.specs.Counted.{IsCounted, IsCut, in_any_order, with_blank, without_blank, in_two, in_one, weighs_both, Has};
ghost use Rattle.sv_turn.specs.Passes.{pass_view, turn_events};

mod to_and_fro;

use crate::{CutView, FirstView, NewView, NoMemory, Pass, Turn, TurnRule, WholeView};
use std::alloc::Global;
use std::process::Abort;
use std::sync::Wait;
use std::sync::atomic::AtomicU32;
use std::sync::atomic::Ordering::SeqCst;
use std::test::Fail;
use std::thread::{Threads, join, yield_now};

const ENTRIES: u32 = 1000;

struct Shares;

impl TurnRule for Shares {
    type State = u64;

    type View = (u64, u64);

    ghost holds = { IsCounted };

    ghost blank = { (0, 0) };

    ghost weight = { λ v. v.0 };

    ghost cuts = { IsCut };

    ghost any_order = { in_any_order };

    ghost blank_light = { refl };

    ghost blank_more = { with_blank };

    ghost blank_less = { without_blank };

    ghost cut = { in_two };

    ghost uncut = { in_one };

    ghost weighs = { weighs_both };
}

struct All;

impl FirstView<(u64, u64)> for All {
    ghost first = { (4, 0) };
}

struct AddsOne;

impl NewView<(u64, u64)> for AddsOne {
    ghost next = { λ v. (v.0, v.1 + 1) };
}

struct Stays;

impl NewView<(u64, u64)> for Stays {
    ghost next = { λ v. v };
}

struct OneOff;

impl CutView<(u64, u64)> for OneOff {
    ghost left = { λ v. (v.0 - 1, v.1) };

    ghost right = { λ v. (1, 0) };
}

struct Sum;

impl WholeView<(u64, u64)> for Sum {
    ghost whole = { λ v w. (v.0 + w.0, v.1 + w.1) };
}

// Adds one, and sleeps once if asked to.
fn add_one<R: Wait + Abort>(rt: &R, turn: &Turn<Shares>, pass: &mut Pass<Shares>, sleeps: bool)
    requires { Has turn.now pass.old (pass_view pass.old) }
    ensures { Has turn.now pass.new ((pass_view pass.old).0, (pass_view pass.old).1 + 1) }
{
    let count = turn.enter(rt, pass);
    let more = count.checked_add(1).expect(rt, "the count fits");
    if !sleeps {
        turn.leave::<AddsOne>(pass, more);
        return;
    }
    let seen = turn.sleep_on::<AddsOne, R>(rt, pass, more, 0);
    turn.leave::<Stays>(pass, seen);
    turn.wake(0);
}

// The entries of one thread.
fn count_up<R: Wait + Abort>(
    rt: &R,
    turn: &Turn<Shares>,
    working: &AtomicU32,
    mut pass: Pass<Shares>,
) -> Pass<Shares>
    requires { Has turn.now pass (1, 0) }
    ensures { Has turn.now result (1, 1000) }
{
    for i in 0..ENTRIES {
        add_one(rt, turn, &mut pass, i % 100 == 99);
    }
    working.fetch_sub(1, SeqCst);
    pass
}

// Wakes the sleepers until no thread counts any more.
fn wake_on<R: Wait>(rt: &R, turn: &Turn<Shares>, working: &AtomicU32)
    requires { 0 < turn_events turn.now }
{
    for _ in rt.forever() {
        if working.load(SeqCst) == 0 {
            break;
        }
        turn.wake(0);
        yield_now();
    }
}

// Two threads count at once.
fn count_in_two<R: Threads + Wait + Abort + Sync>(
    rt: &R,
    turn: &Turn<Shares>,
    working: &AtomicU32,
    a: Pass<Shares>,
    b: Pass<Shares>,
) -> (Pass<Shares>, Pass<Shares>)
    requires { Has turn.now a (1, 0) × Has turn.now b (1, 0) }
    ensures { Has turn.now result.0 (1, 1000) × Has turn.now result.1 (1, 1000) }
{
    join(
        rt,
        move || -> Pass<Shares>
            requires { IsSync R.row × Has turn.now a (1, 0) }
            ensures { Has turn.entry.now result (1, 1000) }
        { count_up(rt, turn, working, a) },
        move || -> Pass<Shares>
            requires { IsSync R.row × Has turn.now b (1, 0) }
            ensures { Has turn.entry.now result (1, 1000) }
        { count_up(rt, turn, working, b) },
    )
}

// Four threads count at once, each with a fourth of the weight, and their passes are put together.
fn count_in_four<R: Threads + Wait + Abort + Sync>(
    rt: &R,
    turn: &Turn<Shares>,
    working: &AtomicU32,
    mut first: Pass<Shares>,
) -> Result<Pass<Shares>, NoMemory>
    requires { Has turn.now first (4, 0) }
    ensures { IfOk result (λ whole. Has turn.now whole (4, 4000)) }
{
    let a = turn.split::<OneOff>(&mut first)?;
    let b = turn.split::<OneOff>(&mut first)?;
    let c = turn.split::<OneOff>(&mut first)?;
    let ((mut first, a), (b, c)) = join(
        rt,
        move || -> (Pass<Shares>, Pass<Shares>)
            requires { IsSync R.row × Has turn.now first (1, 0) × Has turn.now a (1, 0) }
            ensures { Has turn.entry.now result.0 (1, 1000) × Has turn.entry.now result.1 (1, 1000) }
        { count_in_two(rt, turn, working, first, a) },
        move || -> (Pass<Shares>, Pass<Shares>)
            requires { IsSync R.row × Has turn.now b (1, 0) × Has turn.now c (1, 0) }
            ensures { Has turn.entry.now result.0 (1, 1000) × Has turn.entry.now result.1 (1, 1000) }
        { count_in_two(rt, turn, working, b, c) },
    );
    turn.join::<Sum>(&mut first, a);
    turn.join::<Sum>(&mut first, b);
    turn.join::<Sum>(&mut first, c);
    Ok(first)
}

// What the turn has counted when it is closed.
fn counted<R: Threads + Wait + Abort + Sync>(rt: &R, alloc: Global) -> Result<u64, NoMemory>
    ensures { IfOk result (λ count. count ≡ 4000) }
{
    let (turn, first) = match Turn::<Shares>::new::<All>(alloc, 0, 1) {
        Ok(made) => made,
        Err((_, refused)) => return Err(refused),
    };
    let working = AtomicU32::new(4);
    let (shared, left) = (&turn, &working);
    let (whole, ()) = join(
        rt,
        move || -> Result<Pass<Shares>, NoMemory>
            requires { IsSync R.row × Has shared.now first (4, 0) }
            ensures { IfOk result (λ whole. Has shared.entry.now whole (4, 4000)) }
        { count_in_four(rt, shared, left, first) },
        move || wake_on(rt, shared, left),
    );
    Ok(turn.close(whole.expect(rt, "memory for three passes")))
}

#[test]
fn four_threads_count_to_4000(rt: HostRuntime) -> Result<(), Fail> {
    assert_eq!(rt; counted(&rt, rt.alloc())?, 4000);
    Ok(())
}
