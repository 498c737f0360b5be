// What a call answers, and the line that says so.
ghost use Rattle.std.specs.Prelude.{◌≡◌, ◌++◌, IfOk};
ghost use Rattle.std.specs.String.{string_bytes};
ghost use Rattle.sv_script.specs.Answer.{HaveOwnTexts, answer_text, errno_text, kind_text, read_text, result_text};

use crate::call::Call;
use crate::verb::Verb;
use std::alloc::{AllocError, Global};
use std::fmt::Write;
use std::marker::Model;
use sv_form::{Bytes, Kind};

/// Why a call is refused, by the name that System V has for it.
#[derive(Clone, Copy, Debug, PartialEq, Eq)]
pub enum Errno {
    EIO,
    ENOSPC,
    ENOENT,
    EEXIST,
    ENOTDIR,
    EISDIR,
    ENFILE,
    EMFILE,
    EBADF,
    EINVAL,
    EMLINK,
    EFBIG,
    ENOTEMPTY,
    ENOMEM,
}

/// What a call answers.
#[derive(Debug, Drop, PartialEq, Eq)]
pub enum Answer {
    Zero,
    /// A descriptor, an offset, or how many bytes were written.
    Number(u32),
    /// The bytes that were read.
    Read(Bytes),
    Stat {
        ino: u16,
        kind: Kind,
        mode: u16,
        links: u16,
        size: u32,
    },
    Error(Errno),
    /// A fault of the device stopped the writing after so many bytes.
    ErrorAfter(u32),
}

/// The answers of one process, in the order of its calls. A contract sees them as a list.
#[derive(Debug, Drop)]
pub struct Answers {
    answers: Vec<Answer>,
}

impl Model for Answers {
    ghost use Rattle.std.specs.Prelude.{List};
    ghost use Rattle.sv_script.specs.declared.answer.Answer.{Answer};

    ghost Value = { List Answer };

    ghost view = { λ a. a.answers.items };
}

impl Answers {
    pub fn from_vec(answers: Vec<Answer>) -> Answers
        ensures { result ≡ answers.items }
    {
        Answers { answers }
    }

    pub fn as_slice(&self) -> &[Answer]
        ensures { result.now ≡ self.now }
    {
        self.answers.as_slice()
    }
}

impl Errno {
    pub fn text(self) -> &'static str
        ensures { result.now ≡ errno_text self }
    {
        match self {
            Errno::EIO => "EIO",
            Errno::ENOSPC => "ENOSPC",
            Errno::ENOENT => "ENOENT",
            Errno::EEXIST => "EEXIST",
            Errno::ENOTDIR => "ENOTDIR",
            Errno::EISDIR => "EISDIR",
            Errno::ENFILE => "ENFILE",
            Errno::EMFILE => "EMFILE",
            Errno::EBADF => "EBADF",
            Errno::EINVAL => "EINVAL",
            Errno::EMLINK => "EMLINK",
            Errno::EFBIG => "EFBIG",
            Errno::ENOTEMPTY => "ENOTEMPTY",
            Errno::ENOMEM => "ENOMEM",
        }
    }
}

/// The text of an answer: the line's number, the call's name, and the result. No newline byte ends it.
pub fn answer_text(
    alloc: Global,
    line: u32,
    call: &Call,
    answer: &Answer,
) -> Result<Vec<u8>, AllocError>
    ensures { IfOk result (λ text. text.items ≡ answer_text line call.now answer.now) }
{
    let name = Verb::of(call).text();
    let mut text = format!(in alloc; "{line} {name} = ")?;
    push_result(alloc, &mut text, answer)?;
    Ok(text.into_bytes())
}

/// No two answers of a call have one text.
pub fn answers_have_own_texts()
    ensures { HaveOwnTexts }
{}

fn push_result(alloc: Global, text: &mut String, answer: &Answer) -> Result<(), AllocError>
    ensures { IfOk result (λ _. string_bytes text.new ≡ string_bytes text.old ++ result_text answer.now) }
{
    match answer {
        Answer::Zero => text.push_str("0"),
        Answer::Number(number) => write!(text, "{number}"),
        Answer::Read(bytes) => push_read(alloc, text, bytes.as_slice()),
        Answer::Stat {
            ino,
            kind,
            mode,
            links,
            size,
        } => {
            let kind = kind_text(*kind);
            write!(text, "{ino} {kind} {mode:o} {links} {size}")
        }
        Answer::Error(errno) => text.push_str(errno.text()),
        Answer::ErrorAfter(count) => write!(text, "EIO {count}"),
    }
}

fn push_read(alloc: Global, text: &mut String, bytes: &[u8]) -> Result<(), AllocError>
    ensures { IfOk result (λ _. string_bytes text.new ≡ string_bytes text.old ++ read_text bytes.now) }
{
    let count = bytes.len();
    write!(text, "{count} ")?;
    if bytes.is_empty() {
        return text.push_str("-");
    }
    let digits = hex::encode(alloc, bytes)?;
    text.push_str(digits.as_str())
}

fn kind_text(kind: Kind) -> &'static str
    ensures { result.now ≡ kind_text kind }
{
    match kind {
        Kind::File => "f",
        Kind::Dir => "d",
    }
}
