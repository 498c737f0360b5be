// The word that a reply begins with.
ghost use Rattle.std.specs.Prelude.{◌≡◌};
ghost use Rattle.sv_journal.specs.ReplyName.{reply_name, reply_name_text};

/// Which reply a line has.
#[derive(Clone, Copy, Debug, PartialEq, Eq)]
pub enum ReplyName {
    Found,
    NotFound,
    NotDir,
    Gone,
    Full,
    Fault,
    Kept,
    Freed,
    Late,
    LateMemory,
    Made,
    ManyLinks,
    NoInode,
    Raised,
    IsDir,
    Entered,
    Exists,
    Lowered,
    Removed,
    Plain,
    NotEmpty,
    Opened,
    Dupped,
    Got,
    Wrote,
    FaultAfter,
    At,
    Bad,
    Done,
    Status,
    Granted,
    NoSpace,
    TooBig,
}

const REPLY_NAMES: [ReplyName; 33] = [
    ReplyName::Found,
    ReplyName::NotFound,
    ReplyName::NotDir,
    ReplyName::Gone,
    ReplyName::Full,
    ReplyName::Fault,
    ReplyName::Kept,
    ReplyName::Freed,
    ReplyName::Late,
    ReplyName::LateMemory,
    ReplyName::Made,
    ReplyName::ManyLinks,
    ReplyName::NoInode,
    ReplyName::Raised,
    ReplyName::IsDir,
    ReplyName::Entered,
    ReplyName::Exists,
    ReplyName::Lowered,
    ReplyName::Removed,
    ReplyName::Plain,
    ReplyName::NotEmpty,
    ReplyName::Opened,
    ReplyName::Dupped,
    ReplyName::Got,
    ReplyName::Wrote,
    ReplyName::FaultAfter,
    ReplyName::At,
    ReplyName::Bad,
    ReplyName::Done,
    ReplyName::Status,
    ReplyName::Granted,
    ReplyName::NoSpace,
    ReplyName::TooBig,
];

impl ReplyName {
    /// The reply that has this word for its name.
    pub fn read(word: &[u8]) -> Option<ReplyName>
        ensures { result ≡ reply_name word.now }
    {
        REPLY_NAMES
            .iter()
            .copied()
            .find(|name| name.text().as_bytes() == word)
    }

    pub fn text(self) -> &'static str
        ensures { result.now ≡ reply_name_text self }
    {
        match self {
            ReplyName::Found => "found",
            ReplyName::NotFound => "notfound",
            ReplyName::NotDir => "notdir",
            ReplyName::Gone => "gone",
            ReplyName::Full => "full",
            ReplyName::Fault => "fault",
            ReplyName::Kept => "kept",
            ReplyName::Freed => "freed",
            ReplyName::Late => "late",
            ReplyName::LateMemory => "latememory",
            ReplyName::Made => "made",
            ReplyName::ManyLinks => "manylinks",
            ReplyName::NoInode => "noinode",
            ReplyName::Raised => "raised",
            ReplyName::IsDir => "isdir",
            ReplyName::Entered => "entered",
            ReplyName::Exists => "exists",
            ReplyName::Lowered => "lowered",
            ReplyName::Removed => "removed",
            ReplyName::Plain => "plain",
            ReplyName::NotEmpty => "notempty",
            ReplyName::Opened => "opened",
            ReplyName::Dupped => "dupped",
            ReplyName::Got => "got",
            ReplyName::Wrote => "wrote",
            ReplyName::FaultAfter => "faultafter",
            ReplyName::At => "at",
            ReplyName::Bad => "bad",
            ReplyName::Done => "done",
            ReplyName::Status => "is",
            ReplyName::Granted => "granted",
            ReplyName::NoSpace => "nospace",
            ReplyName::TooBig => "toobig",
        }
    }
}
