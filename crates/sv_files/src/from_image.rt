// From an image to held lines, without code.
ghost use Rattle.sv_files.specs.FromImage.{FreeBlocksAlone, FreeBlocksMount, FreeInodesMount, InodeLinesAlone, InodesStandForNodes};

/// Where the first nine conditions of an image hold, a stake that holds the lines of a used inode with the image's bytes holds
/// what stands for the inode's node of the tree: its body, its address tree, and each page with its bytes. What else the stake
/// holds is left open.
pub fn inodes_stand_for_nodes()
    ensures { InodesStandForNodes }
{}

/// Where the first nine conditions of an image hold, a stake that holds the lines of a used inode, and no others, holds the
/// inode's own line and lines of the blocks of its address tree, and nothing else.
pub fn inode_lines_alone()
    ensures { InodeLinesAlone }
{}

/// Where the first nine conditions and that of the cache of free inodes hold, a stake that holds the lines of nobody has all
/// that a core asks of the inodes: the line of each free inode is zero bytes, that of inode 1 too, and the cached numbers of the
/// superblock are those of free inodes, each once.
pub fn free_inodes_mount()
    ensures { FreeInodesMount }
{}

/// Where the first eleven conditions hold, a stake that holds the lines of nobody has all that a core asks of the blocks: the
/// superblock, and a chain that begins with the superblock's list and has each free block of the owner table once, and no other.
pub fn free_blocks_mount()
    ensures { FreeBlocksMount }
{}

/// Where the first eleven conditions hold, a stake that holds the lines of nobody, and no others, holds of the data blocks only
/// those that are free, as a core asks too.
pub fn free_blocks_alone()
    ensures { FreeBlocksAlone }
{}
