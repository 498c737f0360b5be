// From the nodes of a file system, and from held lines, back to a sound image.
ghost use Rattle.sv_files.specs.ConverseChain.{FlushedIsChained};
ghost use Rattle.sv_files.specs.ConverseInodes.{NodesAreWalkedOnce, NodesHaveInodes};
ghost use Rattle.sv_files.specs.ConverseLines.{FlushedIsCached, FlushedIsSized};
ghost use Rattle.sv_files.specs.ConverseSound.{ClosedIsSound};
ghost use Rattle.sv_files.specs.ConversePages.{NodesArePagedWell, NodesAreTree};
ghost use Rattle.sv_files.specs.RoundTrip.{SoundIsClosed};
ghost use Rattle.sv_files.specs.ConverseNames.{NodesAreNamed, PurgedIsAtRest, SoundIsAtRest};

/// An image that has the lines of a file system that was closed is sound, and its tree is the nodes: each node of a whole file
/// system in which each node has links and no link is pending stands in a part of the lines, and the rest are those of a
/// flushed core whose chain has the blocks that no node uses, and of the free inodes.
pub fn closed_is_sound()
    ensures law { ClosedIsSound }
{}

/// An image that has the lines of a flushed core is sized: the conditions 1 to 3 of a sound image hold, and its sizes are
/// those of the core.
pub fn flushed_is_sized()
    ensures law { FlushedIsSized }
{}

/// An image of those sizes that has the lines of the inodes of a whole file system at rest, and zero bytes in those of the free
/// ones, has each inode readable and of a size that it may have: the conditions 4 and 5.
pub fn nodes_have_inodes()
    ensures law { NodesHaveInodes }
{}

/// The walk over the blocks of such inodes meets data blocks alone, and each once, whichever parts they are held in: the
/// conditions 6 and 7.
pub fn nodes_are_walked_once()
    ensures law { NodesAreWalkedOnce }
{}

/// An image that has the lines of the nodes of a whole file system at rest has no page past a size, no indirect block without
/// a number, and zero bytes after the end of each last page: the conditions 8 and 9.
pub fn nodes_are_paged_well()
    ensures law { NodesArePagedWell }
{}

/// The tree of such an image is the nodes.
pub fn nodes_are_tree()
    ensures law { NodesAreTree }
{}

/// Where the free blocks of the core are the data blocks that the walk does not meet, its chain is in order and no data block
/// is lost: the conditions 10 and 11.
pub fn flushed_is_chained()
    ensures law { FlushedIsChained }
{}

/// Where the cached inodes of the core are free, and each stands there once, condition 12 holds.
pub fn flushed_is_cached()
    ensures law { FlushedIsCached }
{}

/// Where the walk finds an image in order, and its tree is the nodes of a whole file system in which each node has links and
/// no link is pending, its root, entries, dots and links are in order: the conditions 13 to 16.
pub fn nodes_are_named()
    ensures law { NodesAreNamed }
{}

/// Each sound image meets what that asks: its own tree is a whole file system in which each node has links and no link is
/// pending.
pub fn sound_is_at_rest()
    ensures law { SoundIsAtRest }
{}

/// Each sound image is that of a file system that was closed, with its own lines: they are shared out by their owners, each used
/// inode's part stands for its node, and the rest are those of a flushed core. So what `closed_is_sound` asks can be met, whatever
/// tree an image has.
pub fn sound_is_closed()
    ensures { SoundIsClosed }
{}

/// After a purge that is done, a whole file system in which no link was pending is at rest: each node has links.
pub fn purged_is_at_rest()
    ensures law { PurgedIsAtRest }
{}
