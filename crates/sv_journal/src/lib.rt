//! The text of a journal: who asked a file system for what, in which order, and what was answered.
//!
//! - `write` appends the text of a list of entries to a sink, a line at a time.
//! - `WriteFault` says why it ended early.
//! - `read` reads such a text whole, as a `Journal` with its entries. A text is a journal exactly where it is the
//!   spelling of one, and `JournalFault` names the first line that is none.
//! - `gather` takes the text from a source, up to one byte past a limit.
//! - `replay` takes a file system through a list of entries, and `ReplayFault` says at which it could not go on.
//!
//! Which replies may stand behind which op, and how a line is spelled, are `Allowed` and `Spelling` of the specs. What
//! the file system allows, and what it does, stands in `sv_plain`.
#![tactic(auto)]

mod allowed;
mod cut;
mod field;
#[cfg(test)]
mod gather_tests;
mod gathering;
mod history;
mod journal;
mod journal_fault;
mod line;
mod need_name;
mod op_name;
mod read_line;
mod read_op;
mod read_reply;
#[cfg(test)]
mod read_tests;
mod reading;
mod refusal;
mod replay_fault;
#[cfg(test)]
mod replay_tests;
mod reply_name;
#[cfg(test)]
mod tests;
mod word;
mod write_fault;

pub use gathering::{GatherFault, gather};
pub use history::replay;
pub use journal::write;
pub use journal_fault::JournalFault;
pub use reading::{Journal, TEXT_MAX, read, texts_have_one_reading};
pub use replay_fault::ReplayFault;
pub use write_fault::WriteFault;
