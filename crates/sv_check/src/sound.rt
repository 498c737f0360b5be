// The check of the sixteen conditions: `conditions` asks them in their order, and each other file is one or two of them.
pub(crate) mod chain;
mod conditions;
mod directories;
mod dots;
mod entries;
mod inode_cache;
mod line_owners;
mod links;
mod met;
mod sizes;
mod standings;
pub(crate) mod whole_walk;

pub use conditions::check;
pub use sizes::read_sizes;
