// The conditions of a sound image.
ghost use Rattle.std.specs.Prelude.{◌≡◌, ◌≤◌, length};
ghost use Rattle.sv_check.specs.Condition.{number_of, word_of};

/// A condition of a sound image, in the order in which they are asked. What each says stands in specs/Sound.antt.
#[derive(Clone, Copy, Debug, PartialEq, Eq)]
pub enum Condition {
    Magic,
    BlockSize,
    Sizes,
    Kind,
    Size,
    Range,
    Twice,
    PastSize,
    Tail,
    FreeChain,
    Lost,
    CachedInode,
    Root,
    Entry,
    Dots,
    Links,
}

impl Condition {
    /// Its number, from 1.
    pub fn number(self) -> u8
        ensures { result ≡ number_of self }
    {
        match self {
            Condition::Magic => 1,
            Condition::BlockSize => 2,
            Condition::Sizes => 3,
            Condition::Kind => 4,
            Condition::Size => 5,
            Condition::Range => 6,
            Condition::Twice => 7,
            Condition::PastSize => 8,
            Condition::Tail => 9,
            Condition::FreeChain => 10,
            Condition::Lost => 11,
            Condition::CachedInode => 12,
            Condition::Root => 13,
            Condition::Entry => 14,
            Condition::Dots => 15,
            Condition::Links => 16,
        }
    }

    /// Its word, as a refusal names it.
    pub fn word(self) -> &'static str
        ensures word { result.now ≡ word_of self }
        ensures short { length result.now ≤ 11 }
    {
        match self {
            Condition::Magic => "Magic",
            Condition::BlockSize => "BlockSize",
            Condition::Sizes => "Sizes",
            Condition::Kind => "Kind",
            Condition::Size => "Size",
            Condition::Range => "Range",
            Condition::Twice => "Twice",
            Condition::PastSize => "PastSize",
            Condition::Tail => "Tail",
            Condition::FreeChain => "FreeChain",
            Condition::Lost => "Lost",
            Condition::CachedInode => "CachedInode",
            Condition::Root => "Root",
            Condition::Entry => "Entry",
            Condition::Dots => "Dots",
            Condition::Links => "Links",
        }
    }
}
