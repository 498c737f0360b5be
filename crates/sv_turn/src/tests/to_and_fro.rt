//! Two passes hand a number to and fro. Each sleeps on an event of its own, and no one else wakes it.
ghost use Rattle.std.specs.Prelude.{◌≡◌, ◌+◌, ◌<◌, ◌≤◌, IfOk};
ghost use Rattle.std.specs.Thread.{IsSync};
ghost use Rattle.sv_turn.specs.Counted.{Has};
ghost use Rattle.sv_turn.specs.Passes.{pass_view, turn_events};

use super::{OneOff, Shares, Stays, Sum, add_one};
use crate::{FirstView, NoMemory, Pass, Turn};
use std::alloc::Global;
use std::process::Abort;
use std::sync::Wait;
use std::test::Fail;
use std::thread::{Threads, join};

const ROUNDS: u32 = 10_000;

struct Both;

impl FirstView<(u64, u64)> for Both {
    ghost first = { (2, 0) };
}

// Comes in and leaves so often, and wakes no one.
fn look<R: Wait>(rt: &R, turn: &Turn<Shares>, pass: &mut Pass<Shares>, times: u32)
    requires { Has turn.now pass.old (pass_view pass.old) }
    ensures { Has turn.now pass.new (pass_view pass.old) }
{
    for _ in 0..times {
        let number = turn.enter(rt, pass);
        turn.leave::<Stays>(pass, number);
    }
}

// Sleeps on the event while the number is odd, for event 0, or even, for event 1. It answers how often it slept.
fn wait_for<R: Wait>(rt: &R, turn: &Turn<Shares>, pass: &mut Pass<Shares>, event: u32) -> u32
    requires has { Has turn.now pass.old (pass_view pass.old) }
    requires event { event < turn_events turn.now }
    ensures { Has turn.now pass.new (pass_view pass.old) }
{
    let mut sleeps = 0u32;
    let mut number = turn.enter(rt, pass);
    for _ in rt.forever() {
        if number % 2 == u64::from(event) {
            break;
        }
        sleeps = sleeps.saturating_add(1);
        number = turn.sleep_on::<Stays, R>(rt, pass, number, event);
    }
    turn.leave::<Stays>(pass, number);
    sleeps
}

// Waits for the number, adds one and wakes the other pass, once. In between it comes in a few times more, and the other
// sleeps; afterwards it comes in up to 31 times before it sleeps, so that the other's wake meets it at each point.
fn hand_on<R: Wait + Abort>(
    rt: &R,
    turn: &Turn<Shares>,
    pass: &mut Pass<Shares>,
    event: u32,
    round: u32,
) -> u32
    requires has { Has turn.now pass.old (pass_view pass.old) }
    requires event { event < 2 }
    requires events { turn_events turn.now ≡ 2 }
    ensures { Has turn.now pass.new ((pass_view pass.old).0, (pass_view pass.old).1 + 1) }
{
    let sleeps = wait_for(rt, turn, pass, event);
    look(rt, turn, pass, 8);
    add_one(rt, turn, pass, false);
    turn.wake(1 - event);
    look(rt, turn, pass, round % 32);
    sleeps
}

// All hand-overs of one pass, and how often it slept.
fn trade<R: Wait + Abort>(
    rt: &R,
    turn: &Turn<Shares>,
    mut pass: Pass<Shares>,
    event: u32,
) -> (Pass<Shares>, u32)
    requires has { Has turn.now pass (1, 0) }
    requires event { event < 2 }
    requires events { turn_events turn.now ≡ 2 }
    ensures { Has turn.now result.0 (1, 10000) }
{
    let mut sleeps = 0u32;
    for round in 0..ROUNDS {
        let more = hand_on(rt, turn, &mut pass, event, round);
        sleeps = sleeps.saturating_add(more);
    }
    (pass, sleeps)
}

// Two threads trade, and their passes are put together. It answers how often each slept.
fn trade_in_two<R: Threads + Wait + Abort + Sync>(
    rt: &R,
    turn: &Turn<Shares>,
    mut first: Pass<Shares>,
) -> Result<(Pass<Shares>, u32, u32), NoMemory>
    requires has { Has turn.now first (2, 0) }
    requires events { turn_events turn.now ≡ 2 }
    ensures { IfOk result (λ all. Has turn.now all.0 (2, 20000)) }
{
    let other = turn.split::<OneOff>(&mut first)?;
    let ((mut first, even), (other, odd)) = join(
        rt,
        move || -> (Pass<Shares>, u32)
            requires { IsSync R.row × Has turn.now first (1, 0) × (turn_events turn.now ≡ 2) }
            ensures { Has turn.entry.now result.0 (1, 10000) }
        { trade(rt, turn, first, 0) },
        move || -> (Pass<Shares>, u32)
            requires { IsSync R.row × Has turn.now other (1, 0) × (turn_events turn.now ≡ 2) }
            ensures { Has turn.entry.now result.0 (1, 10000) }
        { trade(rt, turn, other, 1) },
    );
    turn.join::<Sum>(&mut first, other);
    Ok((first, even, odd))
}

// The number at the end, and how often each pass slept.
fn traded<R: Threads + Wait + Abort + Sync>(
    rt: &R,
    alloc: Global,
) -> Result<(u64, u32, u32), NoMemory>
    ensures { IfOk result (λ all. all.0 ≡ 20000) }
{
    let (turn, first) = match Turn::<Shares>::new::<Both>(alloc, 0, 2) {
        Ok(made) => made,
        Err((_, refused)) => return Err(refused),
    };
    let (whole, even, odd) = trade_in_two(rt, &turn, first).expect(rt, "memory for a pass");
    Ok((turn.close(whole), even, odd))
}

// Each sleep ends with a wake of its event, and each hand-over makes one: so no pass sleeps more often than the other hands on.
// A wake that is lost, or goes to another event, keeps both asleep until the test's time is up.
#[test]
fn two_passes_wake_each_other(rt: HostRuntime) -> Result<(), Fail> {
    let (number, even, odd) = traded(&rt, rt.alloc())?;
    assert_eq!(rt; number, 20_000);
    assert!(rt; even <= ROUNDS, "slept {even} times on event 0");
    assert!(rt; odd <= ROUNDS, "slept {odd} times on event 1");
    Ok(())
}
