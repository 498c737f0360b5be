// What steps ask of the file system: each costs a logarithm in what it holds.
ghost use Rattle.std.specs.Prelude.{◌≡◌, ◌≤◌, ◌<◌, ◌^◌, option_copied};
ghost use Rattle.std.specs.FinMap as map;
ghost use Rattle.sv_plain.specs.Totals.{at_or_0};
ghost use Rattle.sv_plain.specs.Fs.{holders, is_referenced, is_full_for, room};
ghost use Rattle.sv_plain.specs.Names.{references_of, has_reference, promise_of, is_pending, is_directory, links_of, is_table_full};
ghost use Rattle.sv_plain.specs.Names.{is_idle, is_opened, is_open_to_names, child};
ghost use Rattle.sv_plain.specs.Step.{has_file, is_in_use};

use crate::{Fs, Node, Opening};
use sv_form::{Kind, Name};

impl Fs {
    // How many references the process has to inode i.
    pub(crate) fn references_of(&self, process: u8, i: u16) -> u32
        ensures { result ≡ references_of self.now process i }
    {
        match self.references.get(u32::from(process), u32::from(i)) {
            Some(count) => *count,
            None => 0,
        }
    }

    pub(crate) fn has_reference(&self, process: u8, i: u16) -> bool
        ensures { result ≡ has_reference self.now process i }
    {
        self.references_of(process, i) != 0
    }

    // How many processes and files refer to inode i.
    pub(crate) fn holder_count(&self, i: u16) -> u64
        ensures { result ≡ holders self.now.references self.now.files i }
    {
        self.holders.count(i)
    }

    // A process or a file refers to inode i.
    pub(crate) fn is_referenced(&self, i: u16) -> bool
        ensures { result ≡ is_referenced self.now i }
    {
        self.holders.count(i) != 0
    }

    pub(crate) fn is_table_full(&self) -> bool
        ensures { result ≡ is_table_full self.now }
    {
        self.holders.taken == self.places
    }

    pub(crate) fn is_full_for(&self, i: u16) -> bool
        ensures { result ≡ is_full_for self.now i }
    {
        !self.is_referenced(i) && self.is_table_full()
    }

    pub(crate) fn is_directory(&self, i: u16) -> bool
        ensures { result ≡ is_directory self.now i }
    {
        match self.nodes.get(u32::from(i)) {
            Some(node) => match node.kind {
                Kind::File => false,
                Kind::Dir => true,
            },
            None => false,
        }
    }

    pub(crate) fn links_of(&self, i: u16) -> u16
        ensures { result ≡ links_of self.now i }
    {
        match self.nodes.get(u32::from(i)) {
            Some(node) => node.links,
            None => 0,
        }
    }

    // The size of inode i in bytes, and 0 where there is none.
    pub(crate) fn size_of(&self, i: u16) -> u32
        ensures { result ≡ at_or_0 (λ node. node.size) (map.get self.now.nodes i) }
    {
        match self.nodes.get(u32::from(i)) {
            Some(node) => node.size,
            None => 0,
        }
    }

    // The node with the number i, which may be any.
    pub(crate) fn node_at(&self, i: u32) -> Option<&Node>
        ensures { option_copied result ≡ map.get self.now.nodes i }
    {
        self.nodes.get(i)
    }

    // How many inodes there are, free ones included.
    pub(crate) fn inode_count(&self) -> u32
        ensures same { result ≡ self.now.inodes }
        ensures few { result < 2 ^ 16 }
    {
        self.inodes
    }

    // How many places the table of in-core inodes has.
    pub(crate) fn places(&self) -> u32
        ensures { result ≡ self.now.places }
    {
        self.places
    }

    // How many bytes a block has.
    pub(crate) fn block_size(&self) -> u32
        ensures same { result ≡ self.now.block }
        ensures some { 32 ≤ result }
        ensures small { result ≤ 1024 }
    {
        self.block_size
    }

    // The greatest size of a file in bytes.
    pub(crate) fn greatest(&self) -> u32
        ensures same { result ≡ self.now.greatest }
        ensures fits { result < 2147483648 }
    {
        self.greatest
    }

    // A directory that has links, so that names can be looked up and entered.
    pub(crate) fn is_open_to_names(&self, d: u16) -> bool
        ensures { result ≡ is_open_to_names self.now d }
    {
        self.is_directory(d) && self.links_of(d) != 0
    }

    // The inode that a name in directory d leads to.
    pub(crate) fn child(&self, d: u16, name: &Name) -> Option<u16>
        ensures { result ≡ child self.now d name.now }
    {
        let Some(node) = self.nodes.get(u32::from(d)) else {
            return None;
        };
        node.child_of(self.block_size, name.as_slice())
    }

    // Directory i has an entry besides the first two.
    pub(crate) fn is_in_use(&self, i: u16) -> bool
        ensures { result ≡ is_in_use self.now i }
    {
        match self.nodes.get(u32::from(i)) {
            Some(node) => node.has_more(self.block_size),
            None => false,
        }
    }

    pub(crate) fn promise_of(&self, process: u8) -> u32
        ensures { result ≡ promise_of self.now process }
    {
        match self.promises.get(u32::from(process)) {
            Some(blocks) => *blocks,
            None => 0,
        }
    }

    pub(crate) fn has_promise(&self, process: u8) -> bool
        ensures { result ≡ map.contains_key self.now.promises process }
    {
        self.promises.contains(u32::from(process))
    }

    // The data blocks that are neither used nor promised.
    pub(crate) fn room(&self) -> u64
        ensures { result ≡ room self.now }
    {
        u64::from(self.data_blocks)
            .saturating_sub(self.used)
            .saturating_sub(self.promised)
    }

    // The process has a pending link on inode i.
    pub(crate) fn is_pending(&self, process: u8, i: u16) -> bool
        ensures { result ≡ is_pending self.now process i }
    {
        match self.pending.get(u32::from(process)) {
            Some(inode) => *inode == i,
            None => false,
        }
    }

    pub(crate) fn has_pending(&self, process: u8) -> bool
        ensures { result ≡ map.contains_key self.now.pending process }
    {
        self.pending.contains(u32::from(process))
    }

    pub(crate) fn file(&self, file: u16) -> Option<Opening>
        ensures { result ≡ map.get self.now.files file }
    {
        self.files.get(u32::from(file)).copied()
    }

    pub(crate) fn has_file(&self, file: u16) -> bool
        ensures { result ≡ has_file self.now file }
    {
        self.files.contains(u32::from(file))
    }

    pub(crate) fn file_count(&self) -> usize
        ensures { result ≡ map.len self.now.files }
    {
        self.files.len()
    }

    // A file of the file table has inode i.
    pub(crate) fn is_opened(&self, i: u16) -> bool
        ensures { result ≡ is_opened self.now i }
    {
        self.files.has_inode(i)
    }

    // Nothing is referred to.
    pub(crate) fn is_idle(&self) -> bool
        ensures { result ≡ is_idle self.now }
    {
        self.references.len() == 0 && self.files.len() == 0
    }
}
