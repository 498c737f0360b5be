// What the file turn guards.
use crate::history::History;
use crate::in_core::InCore;
use crate::references::References;
use indexmap::IndexMap;
use sv_store::Stake;
use sv_super::SuperCore;

/// The stakes of the inodes that nobody has locked, by their numbers; what is kept of inodes in core; the superblock with all that
/// no inode has; how often each inode is referred to; and the history.
pub struct State<S: Stake> {
    pub(crate) stakes: Vec<Option<S>>,
    pub(crate) table: IndexMap<u16, InCore>,
    pub(crate) rest: SuperCore<S>,
    pub(crate) references: References,
    pub(crate) history: History,
}
