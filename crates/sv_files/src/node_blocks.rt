// The blocks of an inode, in terms of the node that it stands for.
ghost use Rattle.sv_files.specs.NodeBlocks.{NeedIsAdded, TreeIsUsed};

/// The blocks of the address tree of an inode, its pages and its indirect blocks, are so many as the node uses that the inode
/// stands for: the pages that it has, and the indirect blocks above at least one of them.
pub fn tree_is_used()
    ensures { TreeIsUsed }
{}

/// What a write takes by the address tree, the data and indirect blocks that its pages lack, is what its pages add to the blocks
/// that the node uses, for each write that ends within the greatest size of a file.
pub fn need_is_added()
    ensures { NeedIsAdded }
{}
