//! The language of scripts: lines of system calls, and the text of their answers.
//!
//! - `parse` reads a script whole, or answers the first line that is at fault and why.
//! - `Script` is its lines, each a `Line`: its number in the text, from 1, and its `Call`.
//! - `answer_text` writes the line of an `Answer`.
//!
//! What a call does stands in the crates above.
#![tactic(auto)]

mod answer;
mod arguments;
mod call;
mod cut;
mod fault;
mod line;
mod reading;
mod script;
#[cfg(test)]
mod tests;
mod verb;
mod word;

pub use answer::{Answer, Answers, Errno, answer_text, answers_have_own_texts};
pub use call::Call;
pub use fault::ScriptFault;
pub use line::Line;
pub use reading::{ASKED_MAX, COMPONENTS_MAX, LINES_MAX, TEXT_MAX, parse, texts_have_one_reading};
pub use script::Script;
pub use std::alloc::AllocError as NoMemory;
