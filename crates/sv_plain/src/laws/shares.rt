// What holds of the shares of inodes, without code: a count that can be kept as references and files come and go.
ghost use Rattle.sv_plain.specs.Shares.{FilesAreShares, NothingIsShared, ReferencesAreShares};

/// A reference more or less is a share more or less of its inode, and so is a file.
pub fn shares_are_counted()
    ensures references { ReferencesAreShares }
    ensures files { FilesAreShares }
{}

/// In a whole file system an inode has no shares exactly where nothing refers to it.
pub fn unshared_is_unreferenced()
    ensures { NothingIsShared }
{}
