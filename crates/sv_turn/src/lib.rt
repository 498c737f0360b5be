//! The turn: a lock whose state is moved out while it is held. It is the monitor with sleep and wakeup of small kernels.
//!
//! - `Turn::new` is given the state and gives the first `Pass`; `split` cuts a pass in two, `join` puts two together.
//! - `enter` waits for the turn and moves the state out to the caller; `leave` moves it back, and gives the turn on.
//! - `sleep_on` leaves, sleeps until a `wake` of its event, and enters again; the caller looks again at what it waited for.
//! - `close`, with the pass that has the whole weight, gives the state back.
//! - A `TurnRule` relates the state and the views of all passes: it holds of each state that `enter` or `sleep_on` gives.
#![tactic(auto)]

mod origin;
mod pass;
mod rule;
mod stage;
mod steps;
#[cfg(test)]
mod tests;
mod turn;

pub use pass::Pass;
pub use rule::{CutView, FirstView, NewView, TurnRule, WholeView};
pub use std::alloc::AllocError as NoMemory;
pub use turn::Turn;
