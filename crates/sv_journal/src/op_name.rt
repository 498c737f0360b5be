// The word that an op begins with.
ghost use Rattle.std.specs.Prelude.{◌≡◌};
ghost use Rattle.sv_journal.specs.OpName.{op_name, op_name_text};

/// Which op a line has.
#[derive(Clone, Copy, Debug, PartialEq, Eq)]
pub enum OpName {
    Look,
    Drop,
    Create,
    AddLink,
    Enter,
    SubLink,
    Unlink,
    Rmdir,
    OpenFile,
    CloseFile,
    DupFile,
    Read,
    Write,
    Seek,
    Trunc,
    Stat,
    Promise,
    Forgo,
    Sync,
    Purge,
}

const OP_NAMES: [OpName; 20] = [
    OpName::Look,
    OpName::Drop,
    OpName::Create,
    OpName::AddLink,
    OpName::Enter,
    OpName::SubLink,
    OpName::Unlink,
    OpName::Rmdir,
    OpName::OpenFile,
    OpName::CloseFile,
    OpName::DupFile,
    OpName::Read,
    OpName::Write,
    OpName::Seek,
    OpName::Trunc,
    OpName::Stat,
    OpName::Promise,
    OpName::Forgo,
    OpName::Sync,
    OpName::Purge,
];

impl OpName {
    /// The op that has this word for its name.
    pub fn read(word: &[u8]) -> Option<OpName>
        ensures { result ≡ op_name word.now }
    {
        OP_NAMES
            .iter()
            .copied()
            .find(|name| name.text().as_bytes() == word)
    }

    pub fn text(self) -> &'static str
        ensures { result.now ≡ op_name_text self }
    {
        match self {
            OpName::Look => "look",
            OpName::Drop => "drop",
            OpName::Create => "create",
            OpName::AddLink => "addlink",
            OpName::Enter => "enter",
            OpName::SubLink => "sublink",
            OpName::Unlink => "unlink",
            OpName::Rmdir => "rmdir",
            OpName::OpenFile => "open",
            OpName::CloseFile => "close",
            OpName::DupFile => "dup",
            OpName::Read => "read",
            OpName::Write => "write",
            OpName::Seek => "seek",
            OpName::Trunc => "trunc",
            OpName::Stat => "stat",
            OpName::Promise => "promise",
            OpName::Forgo => "forgo",
            OpName::Sync => "sync",
            OpName::Purge => "purge",
        }
    }
}
