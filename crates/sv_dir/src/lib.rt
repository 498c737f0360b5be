//! Names of a path, and the entries in one page of a directory (Bach, chapters 4.3 and 4.4).
//!
//! - `split_path` cuts a path into its names; `count_names` says how many those are, and takes no memory.
//! - `find` looks a name up in a page, `empty_place` finds room for one, and `is_empty` says that no entry is left.
//!
//! A page is any number of whole entries. What looks through more than one page stands in the crates above.
#![tactic(auto)]

mod page;
mod path;
#[cfg(test)]
mod tests;

pub use page::{PAGE_MAX, empty_place, find, is_empty};
pub use path::{BadPath, Names, PathWords, count_names, paths_have_one_answer, split_path};
pub use std::alloc::AllocError as NoMemory;
