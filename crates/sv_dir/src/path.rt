// The names of a path.
ghost use Rattle.std.specs.Prelude.{◌≡◌, ◌≢◌, ◌<◌, ◌≤◌, ℕ, [], length, slice_index, All, IfNone, IfSome, MatchResult};
ghost use Rattle.sv_form.specs.Name.{IsName};
ghost use Rattle.sv_dir.specs.declared.path.BadPath.{BadPath};
ghost use Rattle.sv_dir.specs.declared.path.PathWords.{PathWords};
ghost use Rattle.sv_dir.specs.Path.{IsFirstPiece, IsRefused, IsRefusedOneWay, IsSplit, IsSplitOneWay, IsSplitOrRefused, Refuses};
ghost use Rattle.sv_dir.specs.Path.{RefusesName, RefusesPiece, has_no_zero, is_name, name_count, pieces};

use std::alloc::{AllocError, AllocFailed, Global};
use std::marker::Model;
use sv_form::{NAME_MAX, Name};

/// Some names, in order. A contract sees them as a list of names.
#[derive(Debug, Drop)]
pub struct Names {
    names: Vec<Name>,
}

impl Model for Names {
    ghost use Rattle.std.specs.Prelude.{List, ℕ};

    ghost Value = { List (List ℕ) };

    ghost view = { λ n. n.names.items };
}

impl Names {
    pub fn from_vec(names: Vec<Name>) -> Names
        ensures { result ≡ names.items }
    {
        Names { names }
    }

    pub fn as_slice(&self) -> &[Name]
        ensures { result.now ≡ self.now }
    {
        self.names.as_slice()
    }
}

/// A path: whether it begins at the root, and its names.
#[derive(Debug, Drop)]
pub struct PathWords {
    pub absolute: bool,
    pub names: Names,
}

/// Why a path has no names: it has no byte, or its piece at that place, from 0, is too long for a name or holds a zero
/// byte.
#[derive(Clone, Copy, Debug, PartialEq, Eq)]
pub enum BadPath {
    Empty,
    TooLong(u32),
    BadByte(u32),
    NoMemory,
}

/// The names of a path. Empty pieces are passed over, so slashes may follow one another and stand last.
pub fn split_path(alloc: Global, path: &[u8]) -> Result<PathWords, BadPath>
    requires { length path.now ≤ 16777216 }
    ensures { MatchResult result (IsSplit path.now) (Refuses path.now) }
{
    let Some(first) = path.first() else {
        return Err(BadPath::Empty);
    };
    let absolute = *first == b'/';
    let names = names_of(alloc, path)?;
    Ok(PathWords { absolute, names })
}

/// A path is split in one way, or refused for one reason.
pub fn paths_have_one_answer()
    ensures split { IsSplitOneWay }
    ensures refused { IsRefusedOneWay }
    ensures apart { IsSplitOrRefused }
{}

fn names_of(alloc: Global, path: &[u8]) -> Result<Names, BadPath>
    requires { length path.now ≤ 16777216 }
    ensures { MatchResult result (λ names. (names ≡ pieces path.now) × All IsName (pieces path.now)) (RefusesPiece path.now) }
{
    let mut names = Vec::new(alloc);
    let mut rest = path;
    while let Some((piece, after)) = next_piece(rest) {
        let name = read_piece(piece, names.len() as u32)?;
        names.push(name)?;
        rest = after;
    }
    Ok(Names::from_vec(names))
}

/// How many names a path has; 0 where one of its pieces is no name. It takes no memory.
pub fn count_names(path: &[u8]) -> u32
    requires { length path.now ≤ 16777216 }
    ensures value { result ≡ name_count path.now }
    ensures split { (words : PathWords) → IsSplit path.now words → result ≡ length words.names }
    ensures refused { (why : BadPath) → IsRefused path.now why → result ≡ 0 }
{
    let mut count = 0;
    let mut rest = path;
    while let Some((piece, after)) = next_piece(rest) {
        if !is_name(piece) {
            return 0;
        }
        count += 1;
        rest = after;
    }
    count
}

// Whether a piece of a path is a name.
fn is_name(piece: &[u8]) -> bool
    ensures { result ≡ is_name piece.now }
{
    piece.len() <= NAME_MAX && has_no_zero(piece)
}

fn has_no_zero(piece: &[u8]) -> bool
    ensures { result ≡ has_no_zero piece.now }
{
    piece.iter().all(|b| *b != 0)
}

// The name that a piece is, the one at that place.
fn read_piece(piece: &[u8], place: u32) -> Result<Name, BadPath>
    requires some { 0 < length piece.now }
    requires plain { All (λ b. b ≢ 47) piece.now }
    ensures { MatchResult result (λ name. (name ≡ piece.now) × IsName piece.now) (RefusesName piece.now place) }
{
    if piece.len() > NAME_MAX {
        return Err(BadPath::TooLong(place));
    }
    if piece.contains(&0) {
        return Err(BadPath::BadByte(place));
    }
    Ok(Name::read(piece).unwrap())
}

// The first piece that has a byte, and what follows it.
fn next_piece(path: &[u8]) -> Option<(&[u8], &[u8])>
    ensures some { IfSome result (λ cut. IsFirstPiece path.now cut.0.now cut.1.now) }
    ensures none { IfNone result (pieces path.now ≡ []) }
{
    let rest = after_slashes(path);
    if rest.is_empty() {
        return None;
    }
    Some(rest.split_at(before_slash(rest)))
}

fn after_slashes(path: &[u8]) -> &[u8]
    ensures same { pieces result.now ≡ pieces path.now }
    ensures first { 0 < length result.now → slice_index result.now 0 ≢ 47 }
    ensures shorter { length result.now ≤ length path.now }
{
    for (i, b) in path.iter().enumerate() {
        if *b != b'/' {
            return &path[i..];
        }
    }
    &[]
}

// How many bytes stand before the first slash.
fn before_slash(path: &[u8]) -> usize
    ensures within { result ≤ length path.now }
    ensures before { (k : ℕ) → k < result → slice_index path.now k ≢ 47 }
    ensures slash { result < length path.now → slice_index path.now result ≡ 47 }
{
    for (i, b) in path.iter().enumerate() {
        if *b == b'/' {
            return i;
        }
    }
    path.len()
}

impl From<AllocError> for BadPath {
    ghost use Rattle.sv_dir.specs.declared.path.BadPath.TheVariants.{NoMemory};

    ghost from_gives = { λ _ e. e ≡ NoMemory };

    fn from(_: AllocError) -> BadPath {
        BadPath::NoMemory
    }
}

impl<T: Drop> From<AllocFailed<T>> for BadPath {
    ghost use Rattle.sv_dir.specs.declared.path.BadPath.TheVariants.{NoMemory};

    ghost from_gives = { λ _ e. e ≡ NoMemory };

    fn from(_: AllocFailed<T>) -> BadPath {
        BadPath::NoMemory
    }
}
