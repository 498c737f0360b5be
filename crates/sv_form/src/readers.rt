// What two readers see, without code: of an address tree, of the chain of free blocks, of a file and of a directory.
ghost use Rattle.sv_form.specs.Readers.{ChainTheSame, ListTheSame, NodesReadPieces, ReachTheSame, ShowTheSame};

/// Two readers that agree on the indirect blocks that one of them reaches have the same address tree (Bach, chapter 4.2).
pub fn readers_reach_the_same()
    ensures { ReachTheSame }
{}

/// Two readers that agree on the blocks of a chain have the same chain (Bach, chapter 4.7).
pub fn readers_chain_the_same()
    ensures { ChainTheSame }
{}

/// Two readers that agree on the pages of a file show the same bytes.
pub fn readers_show_the_same()
    ensures { ShowTheSame }
{}

/// Two readers that agree on the pieces of a directory list the same entries (Bach, chapter 4.3).
pub fn readers_list_the_same()
    ensures { ListTheSame }
{}

/// The inode and the name of an entry of a node are those that its sixteen bytes have.
pub fn nodes_read_pieces()
    ensures { NodesReadPieces }
{}
