// Finite maps and sets as contracts see them, and what is kept beside one of them: the names of a directory's entries, the inodes
// without links, the counts of what refers to an inode. Nothing here knows a step.
mod holder_counts;
mod name_index;
mod nodes;
mod number_map;
mod number_set;
mod pages;
mod pair_map;
mod pair_set;

pub(crate) use holder_counts::HolderCounts;
pub(crate) use nodes::Nodes;
pub use number_map::NumberMap;
pub(crate) use pages::Pages;
pub use pair_map::PairMap;
pub use pair_set::PairSet;
