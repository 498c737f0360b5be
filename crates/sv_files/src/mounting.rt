// What a mount makes of a checked image and its lines, without code.
ghost use Rattle.sv_files.specs.Mounting.{MountedHolds, MountedParts, OwnedRanges};
ghost use Rattle.sv_files.specs.View.{seen_by};

use sv_store::Stake;

/// Where an image was checked, and a stake with all its lines is parted by their owners, each node of its tree stands in the part of
/// its inode, and nothing else stands there; each line is held once; and the rest, with the lines of nobody, is all that a core asks.
pub fn mounted_parts<S: Stake>()
    ensures { MountedParts (seen_by S.held S.lent S.origin S.faults S.forced) }
{}

/// With those parts, an empty history that has room for the entries by which the processes give their first references back, nothing
/// kept in core, and two shares of the root for each process, the rule of the file turn holds of all processes as they begin.
pub fn mounted_holds<S: Stake>()
    ensures { MountedHolds (seen_by S.held S.lent S.origin S.faults S.forced) }
{}

/// The ranges in which the lines of an inode are handed out cover exactly the places that are the inode's, each once.
pub fn owned_ranges()
    ensures { OwnedRanges }
{}
