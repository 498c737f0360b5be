//! The commands of the program, from its words to what they write.
#![tactic(auto)]

mod cat;
mod check;
mod find;
mod journal;
mod mkfs;
#[cfg(test)]
mod mkfs_tests;
mod pages;
mod replay;
#[cfg(test)]
mod replay_tests;
mod sound_line;
mod stop;
#[cfg(test)]
mod test_images;
#[cfg(test)]
mod test_runs;
#[cfg(test)]
mod tests;
mod top;
mod tree;
mod words;

pub use cat::cat_image;
pub use check::check_image;
pub use mkfs::mkfs_image;
pub use replay::replay_image;
pub use stop::{Stop, tell};
pub use top::svfs;
