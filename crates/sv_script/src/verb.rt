// The first word of a line.
ghost use Rattle.std.specs.Prelude.{◌≡◌, codes, IfSome, IfNone};
ghost use Rattle.sv_script.specs.declared.verb.Verb.{Verb};
ghost use Rattle.sv_script.specs.Verb.{verb_of, verb_of_call, verb_text};

use crate::call::Call;

/// What a line asks for.
#[derive(Clone, Copy, Debug, PartialEq, Eq)]
pub enum Verb {
    Open,
    Creat,
    Mkdir,
    Read,
    Write,
    Fill,
    Lseek,
    Close,
    Dup,
    Link,
    Unlink,
    Rmdir,
    Chdir,
    Stat,
    Fstat,
    Sync,
}

const VERBS: [Verb; 16] = [
    Verb::Open,
    Verb::Creat,
    Verb::Mkdir,
    Verb::Read,
    Verb::Write,
    Verb::Fill,
    Verb::Lseek,
    Verb::Close,
    Verb::Dup,
    Verb::Link,
    Verb::Unlink,
    Verb::Rmdir,
    Verb::Chdir,
    Verb::Stat,
    Verb::Fstat,
    Verb::Sync,
];

impl Verb {
    /// The verb that this word is.
    pub fn read(word: &[u8]) -> Option<Verb>
        ensures { result ≡ verb_of word.now }
    {
        VERBS
            .iter()
            .copied()
            .find(|verb| verb.text().as_bytes() == word)
    }

    pub fn text(self) -> &'static str
        ensures { result.now ≡ verb_text self }
    {
        match self {
            Verb::Open => "open",
            Verb::Creat => "creat",
            Verb::Mkdir => "mkdir",
            Verb::Read => "read",
            Verb::Write => "write",
            Verb::Fill => "fill",
            Verb::Lseek => "lseek",
            Verb::Close => "close",
            Verb::Dup => "dup",
            Verb::Link => "link",
            Verb::Unlink => "unlink",
            Verb::Rmdir => "rmdir",
            Verb::Chdir => "chdir",
            Verb::Stat => "stat",
            Verb::Fstat => "fstat",
            Verb::Sync => "sync",
        }
    }

    /// The verb that asks for this call.
    pub fn of(call: &Call) -> Verb
        ensures { result ≡ verb_of_call call.now }
    {
        match call {
            Call::Open { .. } => Verb::Open,
            Call::Creat { .. } => Verb::Creat,
            Call::Mkdir { .. } => Verb::Mkdir,
            Call::Read { .. } => Verb::Read,
            Call::Write { .. } => Verb::Write,
            Call::Fill { .. } => Verb::Fill,
            Call::Lseek { .. } => Verb::Lseek,
            Call::Close { .. } => Verb::Close,
            Call::Dup { .. } => Verb::Dup,
            Call::Link { .. } => Verb::Link,
            Call::Unlink { .. } => Verb::Unlink,
            Call::Rmdir { .. } => Verb::Rmdir,
            Call::Chdir { .. } => Verb::Chdir,
            Call::Stat { .. } => Verb::Stat,
            Call::Fstat { .. } => Verb::Fstat,
            Call::Sync => Verb::Sync,
        }
    }
}
