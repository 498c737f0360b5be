// The words of the command line.
ghost use Rattle.std.specs.Prelude.{◌≡◌, ◌≢◌, ◌<◌, ◌≤◌, ◌^◌, ◌↔◌, ℕ, List, map, length, slice_index, string_bytes, decimal, IsTrue, IfSome};
ghost use Rattle.std.specs.Prelude.{IfNone};
ghost use Rattle.sv_check.specs.Mkfs.{CanBeMade};
ghost use Rattle.sv_session.specs.Command.{Command, Asks, cat, check, mkfs, replay};
ghost use Rattle.sv_session.specs.Words.{asked};

use sv_check::can_be_made;

/// What the words of the command line ask for.
#[derive(Clone, Copy, Debug)]
pub enum Request<'a> {
    /// Write the bytes of a regular file.
    Cat {
        image: &'a str,
        inode: u32,
    },
    /// Write one line on a sound image.
    Check {
        image: &'a str,
    },
    /// Make an image, of so many blocks and for so many inodes.
    Mkfs {
        image: &'a str,
        blocks: u32,
        inodes: u32,
    },
    /// Write the listing that a journal over an image leads to.
    Replay {
        image: &'a str,
        journal: &'a str,
    },
}

/// Reads the words after the program's name. A number is decimal digits, without sign or leading zero.
pub fn read_words(words: &[String]) -> Option<Request<'_>>
    ensures some { IfSome result (λ request. Asks (map string_bytes words.now) (asked request)) }
    ensures none { IfNone result ((command : Command) → Asks (map string_bytes words.now) command → ⊥) }
{
    match read_check(words) {
        Some(request) => Some(request),
        None => read_longer(words),
    }
}

// One of the commands of more than two words.
fn read_longer(words: &[String]) -> Option<Request<'_>>
    ensures some { IfSome result (λ request. Asks (map string_bytes words.now) (asked request)) }
    ensures no_cat { IfNone result ((image : List ℕ) (inode : ℕ) → Asks (map string_bytes words.now) (cat image inode) → ⊥) }
    ensures no_mkfs { IfNone result ((image : List ℕ) (blocks inodes : ℕ) → Asks (map string_bytes words.now) (mkfs image blocks inodes)
        → ⊥) }
    ensures no_replay { IfNone result ((image journal : List ℕ) → Asks (map string_bytes words.now) (replay image journal) → ⊥) }
{
    match read_mkfs(words) {
        Some(request) => Some(request),
        None => read_three(words),
    }
}

// One of the commands of three words.
fn read_three(words: &[String]) -> Option<Request<'_>>
    ensures some { IfSome result (λ request. Asks (map string_bytes words.now) (asked request)) }
    ensures no_cat { IfNone result ((image : List ℕ) (inode : ℕ) → Asks (map string_bytes words.now) (cat image inode) → ⊥) }
    ensures no_replay { IfNone result ((image journal : List ℕ) → Asks (map string_bytes words.now) (replay image journal) → ⊥) }
{
    match read_cat(words) {
        Some(request) => Some(request),
        None => read_replay(words),
    }
}

// `check IMAGE`.
fn read_check(words: &[String]) -> Option<Request<'_>>
    ensures some { IfSome result (λ request. Asks (map string_bytes words.now) (asked request)) }
    ensures none { IfNone result ((image : List ℕ) → Asks (map string_bytes words.now) (check image) → ⊥) }
{
    let [command, image] = words else {
        return None;
    };
    if command.as_str() != "check" {
        return None;
    }
    Some(Request::Check {
        image: image.as_str(),
    })
}

// `cat IMAGE INODE`.
fn read_cat(words: &[String]) -> Option<Request<'_>>
    ensures some { IfSome result (λ request. Asks (map string_bytes words.now) (asked request)) }
    ensures none { IfNone result ((image : List ℕ) (inode : ℕ) → Asks (map string_bytes words.now) (cat image inode) → ⊥) }
{
    let [command, image, inode] = words else {
        return None;
    };
    if command.as_str() != "cat" {
        return None;
    }
    let inode = number(inode.as_str())?;
    Some(Request::Cat {
        image: image.as_str(),
        inode,
    })
}

// `mkfs IMAGE BLOCKS INODES`.
fn read_mkfs(words: &[String]) -> Option<Request<'_>>
    ensures some { IfSome result (λ request. Asks (map string_bytes words.now) (asked request)) }
    ensures none { IfNone result ((image : List ℕ) (blocks inodes : ℕ) → Asks (map string_bytes words.now) (mkfs image blocks inodes) → ⊥) }
{
    let [command, image, blocks, inodes] = words else {
        return None;
    };
    if command.as_str() != "mkfs" {
        return None;
    }
    let (blocks, inodes) = sizes_of(blocks.as_str(), inodes.as_str())?;
    Some(Request::Mkfs {
        image: image.as_str(),
        blocks,
        inodes,
    })
}

// The numbers of blocks and inodes that two words are, where there is an image of so many.
fn sizes_of(blocks: &str, inodes: &str) -> Option<(u32, u32)>
    ensures some { IfSome result (λ n. (blocks.now ≡ decimal n.0) × (inodes.now ≡ decimal n.1) × CanBeMade n.0 n.1) }
    ensures none { IfNone result ((m n : ℕ) → CanBeMade m n → blocks.now ≡ decimal m → inodes.now ≡ decimal n → ⊥) }
{
    let blocks = number(blocks)?;
    let inodes = number(inodes)?;
    if can_be_made(blocks, inodes) {
        Some((blocks, inodes))
    } else {
        None
    }
}

// `replay IMAGE JOURNAL`.
fn read_replay(words: &[String]) -> Option<Request<'_>>
    ensures some { IfSome result (λ request. Asks (map string_bytes words.now) (asked request)) }
    ensures none { IfNone result ((image journal : List ℕ) → Asks (map string_bytes words.now) (replay image journal) → ⊥) }
{
    let [command, image, journal] = words else {
        return None;
    };
    if command.as_str() != "replay" {
        return None;
    }
    Some(Request::Replay {
        image: image.as_str(),
        journal: journal.as_str(),
    })
}

// The number that a word is.
fn number(word: &str) -> Option<u32>
    ensures some { IfSome result (λ n. word.now ≡ decimal n) }
    ensures none { IfNone result ((n : ℕ) → n < 2 ^ 32 → word.now ≡ decimal n → ⊥) }
{
    if !begins_plainly(word) {
        return None;
    }
    word.parse::<u32>().ok()
}

// Whether a word has no sign, and no zero before another byte.
fn begins_plainly(word: &str) -> bool
    ensures { IsTrue result ↔ ((slice_index word.now 0 ≢ 43) × (slice_index word.now 0 ≡ 48 → length word.now ≤ 1)) }
{
    match word.as_bytes().first() {
        Some(b'+') => false,
        Some(b'0') => word.len() == 1,
        _ => true,
    }
}
