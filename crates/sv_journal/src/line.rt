// One line of a journal.
ghost use Rattle.std.specs.Prelude.{◌≡◌, ◌++◌, IfOk};
ghost use Rattle.std.specs.String.{string_bytes};
ghost use Rattle.sv_journal.specs.Spelling.{bytes_text, entry_line, head_line, kind_text, made_text, mode_text, need_text, op_text};
ghost use Rattle.sv_journal.specs.Spelling.{place_text, reply_text};

use std::alloc::{AllocError, Global};
use std::fmt::Write;
use sv_form::{Kind, Name};
use sv_plain::{Entry, Mode, Need, Op, Reply};

/// The first line, with its newline byte: the number of processes, and the size of the table of in-core inodes.
pub fn head_line(alloc: Global, processes: u8, table: u32) -> Result<String, AllocError>
    ensures { IfOk result (λ text. string_bytes text ≡ head_line processes table) }
{
    format!(in alloc; "svj 1 {processes} {table}\n")
}

/// The line of an entry, with its newline byte.
pub fn entry_line(alloc: Global, entry: &Entry) -> Result<String, AllocError>
    ensures { IfOk result (λ text. string_bytes text ≡ entry_line entry.now) }
{
    let process = entry.process;
    let mut text = format!(in alloc; "{process} ")?;
    push_op(alloc, &mut text, &entry.op)?;
    text.push_str(" = ")?;
    push_reply(alloc, &mut text, &entry.reply)?;
    text.push_str("\n")?;
    Ok(text)
}

fn push_op(alloc: Global, text: &mut String, op: &Op) -> Result<(), AllocError>
    ensures { IfOk result (λ _. string_bytes text.new ≡ string_bytes text.old ++ op_text op.now) }
{
    match op {
        Op::Look { dir, name } => push_place(alloc, text, "look", *dir, name),
        Op::Drop { ino } => write!(text, "drop {ino}"),
        Op::Create {
            dir,
            name,
            kind,
            mode,
        } => {
            push_place(alloc, text, "create", *dir, name)?;
            push_made(text, *kind, *mode)
        }
        Op::AddLink { ino } => write!(text, "addlink {ino}"),
        Op::Enter { dir, name, ino } => {
            push_place(alloc, text, "enter", *dir, name)?;
            write!(text, " {ino}")
        }
        Op::SubLink { ino } => write!(text, "sublink {ino}"),
        Op::Unlink { dir, name } => push_place(alloc, text, "unlink", *dir, name),
        Op::Rmdir { dir, name } => push_place(alloc, text, "rmdir", *dir, name),
        Op::OpenFile { ino, mode } => {
            let mode = mode_text(*mode);
            write!(text, "open {ino} {mode}")
        }
        Op::CloseFile { file } => write!(text, "close {file}"),
        Op::DupFile { file } => write!(text, "dup {file}"),
        Op::Read { file, count } => write!(text, "read {file} {count}"),
        Op::Write { file, bytes } => {
            write!(text, "write {file} ")?;
            push_bytes(alloc, text, bytes.as_slice())
        }
        Op::Seek {
            file,
            offset,
            whence,
        } => write!(text, "seek {file} {offset} {whence}"),
        Op::Trunc { ino } => write!(text, "trunc {ino}"),
        Op::Stat { ino } => write!(text, "stat {ino}"),
        Op::Promise { need } => push_need(alloc, text, need),
        Op::Forgo => text.push_str("forgo"),
        Op::Sync => text.push_str("sync"),
        Op::Purge => text.push_str("purge"),
    }
}

fn push_need(alloc: Global, text: &mut String, need: &Need) -> Result<(), AllocError>
    ensures { IfOk result (λ _. string_bytes text.new ≡ string_bytes text.old ++ need_text need.now) }
{
    match need {
        Need::Write { file, count } => write!(text, "promise write {file} {count}"),
        Need::Enter { dir, name } => push_place(alloc, text, "promise enter", *dir, name),
        Need::Make { dir, name } => push_place(alloc, text, "promise make", *dir, name),
    }
}

fn push_reply(alloc: Global, text: &mut String, reply: &Reply) -> Result<(), AllocError>
    ensures { IfOk result (λ _. string_bytes text.new ≡ string_bytes text.old ++ reply_text reply.now) }
{
    match reply {
        Reply::Found(ino) => write!(text, "found {ino}"),
        Reply::NotFound => text.push_str("notfound"),
        Reply::NotDir => text.push_str("notdir"),
        Reply::Gone => text.push_str("gone"),
        Reply::Full => text.push_str("full"),
        Reply::Fault => text.push_str("fault"),
        Reply::Kept => text.push_str("kept"),
        Reply::Freed => text.push_str("freed"),
        Reply::Late => text.push_str("late"),
        Reply::LateMemory => text.push_str("latememory"),
        Reply::Made(ino) => write!(text, "made {ino}"),
        Reply::ManyLinks => text.push_str("manylinks"),
        Reply::NoInode => text.push_str("noinode"),
        Reply::Raised => text.push_str("raised"),
        Reply::IsDir => text.push_str("isdir"),
        Reply::Entered => text.push_str("entered"),
        Reply::Exists => text.push_str("exists"),
        Reply::Lowered => text.push_str("lowered"),
        Reply::Removed(ino) => write!(text, "removed {ino}"),
        Reply::Plain => text.push_str("plain"),
        Reply::NotEmpty => text.push_str("notempty"),
        Reply::Opened(file) => write!(text, "opened {file}"),
        Reply::Dupped => text.push_str("dupped"),
        Reply::Got(bytes) => {
            text.push_str("got ")?;
            push_bytes(alloc, text, bytes.as_slice())
        }
        Reply::Wrote(count) => write!(text, "wrote {count}"),
        Reply::FaultAfter(count) => write!(text, "faultafter {count}"),
        Reply::At(offset) => write!(text, "at {offset}"),
        Reply::Bad => text.push_str("bad"),
        Reply::Done => text.push_str("done"),
        Reply::Status {
            kind,
            mode,
            links,
            size,
        } => {
            let kind = kind_text(*kind);
            write!(text, "is {kind} {mode:o} {links} {size}")
        }
        Reply::Granted(count) => write!(text, "granted {count}"),
        Reply::NoSpace => text.push_str("nospace"),
        Reply::TooBig => text.push_str("toobig"),
    }
}

fn push_place(
    alloc: Global,
    text: &mut String,
    word: &str,
    dir: u16,
    name: &Name,
) -> Result<(), AllocError>
    ensures { IfOk result (λ _. string_bytes text.new ≡ string_bytes text.old ++ place_text word.now dir name.now) }
{
    let name = hex::encode(alloc, name.as_slice())?;
    write!(text, "{word} {dir} {name}")
}

fn push_made(text: &mut String, kind: Kind, mode: u16) -> Result<(), AllocError>
    ensures { IfOk result (λ _. string_bytes text.new ≡ string_bytes text.old ++ made_text kind mode) }
{
    let kind = kind_text(kind);
    write!(text, " {kind} {mode:o}")
}

fn push_bytes(alloc: Global, text: &mut String, bytes: &[u8]) -> Result<(), AllocError>
    ensures { IfOk result (λ _. string_bytes text.new ≡ string_bytes text.old ++ bytes_text bytes.now) }
{
    if bytes.is_empty() {
        return text.push_str("-");
    }
    let digits = hex::encode(alloc, bytes)?;
    text.push_str(digits.as_str())
}

fn kind_text(kind: Kind) -> &'static str
    ensures { result.now ≡ kind_text kind }
{
    match kind {
        Kind::File => "f",
        Kind::Dir => "d",
    }
}

fn mode_text(mode: Mode) -> &'static str
    ensures { result.now ≡ mode_text mode }
{
    match mode {
        Mode::R => "r",
        Mode::W => "w",
        Mode::RW => "rw",
    }
}
