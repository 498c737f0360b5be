// What is asked, read from the text of its line.
ghost use Rattle.std.specs.Prelude.{◌≡◌};
ghost use Rattle.sv_journal.specs.Grammar.{need_at, need_by, op_at, op_by};
ghost use Rattle.sv_journal.specs.Outcome.{Takes};

use crate::cut::next_word;
use crate::field::{byte, bytes, long, made, offset, open_mode, place, short};
use crate::need_name::NeedName;
use crate::op_name::OpName;
use crate::refusal::Refusal;
use std::alloc::Global;
use sv_plain::{Need, Op};

/// Takes a space and the op behind it.
pub fn op(alloc: Global, text: &mut &[u8]) -> Result<Op, Refusal>
    ensures { Takes (λ op. op) result text.new.now (op_at text.old.now) }
{
    let word = next_word(text)?;
    let Some(name) = OpName::read(word) else {
        return Err(Refusal::Grammar);
    };
    op_by(alloc, name, text)
}

fn op_by(alloc: Global, name: OpName, text: &mut &[u8]) -> Result<Op, Refusal>
    ensures { Takes (λ op. op) result text.new.now (op_by name text.old.now) }
{
    match name {
        OpName::Look => {
            let (dir, name) = place(alloc, text)?;
            Ok(Op::Look { dir, name })
        }
        OpName::Drop => Ok(Op::Drop { ino: short(text)? }),
        OpName::Create => create(alloc, text),
        OpName::AddLink => Ok(Op::AddLink { ino: short(text)? }),
        OpName::Enter => enter(alloc, text),
        OpName::SubLink => Ok(Op::SubLink { ino: short(text)? }),
        OpName::Unlink => {
            let (dir, name) = place(alloc, text)?;
            Ok(Op::Unlink { dir, name })
        }
        OpName::Rmdir => {
            let (dir, name) = place(alloc, text)?;
            Ok(Op::Rmdir { dir, name })
        }
        OpName::OpenFile => open(text),
        OpName::CloseFile => Ok(Op::CloseFile { file: short(text)? }),
        OpName::DupFile => Ok(Op::DupFile { file: short(text)? }),
        OpName::Read => read(text),
        OpName::Write => write(alloc, text),
        OpName::Seek => seek(text),
        OpName::Trunc => Ok(Op::Trunc { ino: short(text)? }),
        OpName::Stat => Ok(Op::Stat { ino: short(text)? }),
        OpName::Promise => Ok(Op::Promise {
            need: need(alloc, text)?,
        }),
        OpName::Forgo => Ok(Op::Forgo),
        OpName::Sync => Ok(Op::Sync),
        OpName::Purge => Ok(Op::Purge),
    }
}

fn create(alloc: Global, text: &mut &[u8]) -> Result<Op, Refusal>
    ensures { Takes (λ op. op) result text.new.now (op_by OpName.Create text.old.now) }
{
    let (dir, name) = place(alloc, text)?;
    let (kind, mode) = made(text)?;
    Ok(Op::Create {
        dir,
        name,
        kind,
        mode,
    })
}

fn enter(alloc: Global, text: &mut &[u8]) -> Result<Op, Refusal>
    ensures { Takes (λ op. op) result text.new.now (op_by OpName.Enter text.old.now) }
{
    let (dir, name) = place(alloc, text)?;
    let ino = short(text)?;
    Ok(Op::Enter { dir, name, ino })
}

fn open(text: &mut &[u8]) -> Result<Op, Refusal>
    ensures { Takes (λ op. op) result text.new.now (op_by OpName.OpenFile text.old.now) }
{
    let ino = short(text)?;
    let mode = open_mode(text)?;
    Ok(Op::OpenFile { ino, mode })
}

fn read(text: &mut &[u8]) -> Result<Op, Refusal>
    ensures { Takes (λ op. op) result text.new.now (op_by OpName.Read text.old.now) }
{
    let file = short(text)?;
    let count = long(text)?;
    Ok(Op::Read { file, count })
}

fn write(alloc: Global, text: &mut &[u8]) -> Result<Op, Refusal>
    ensures { Takes (λ op. op) result text.new.now (op_by OpName.Write text.old.now) }
{
    let file = short(text)?;
    let bytes = bytes(alloc, text)?;
    Ok(Op::Write { file, bytes })
}

fn seek(text: &mut &[u8]) -> Result<Op, Refusal>
    ensures { Takes (λ op. op) result text.new.now (op_by OpName.Seek text.old.now) }
{
    let file = short(text)?;
    let offset = offset(text)?;
    let whence = byte(text)?;
    Ok(Op::Seek {
        file,
        offset,
        whence,
    })
}

fn need(alloc: Global, text: &mut &[u8]) -> Result<Need, Refusal>
    ensures { Takes (λ need. need) result text.new.now (need_at text.old.now) }
{
    let word = next_word(text)?;
    let Some(name) = NeedName::read(word) else {
        return Err(Refusal::Grammar);
    };
    need_by(alloc, name, text)
}

fn need_by(alloc: Global, name: NeedName, text: &mut &[u8]) -> Result<Need, Refusal>
    ensures { Takes (λ need. need) result text.new.now (need_by name text.old.now) }
{
    match name {
        NeedName::Write => {
            let file = short(text)?;
            let count = long(text)?;
            Ok(Need::Write { file, count })
        }
        NeedName::Enter => {
            let (dir, name) = place(alloc, text)?;
            Ok(Need::Enter { dir, name })
        }
        NeedName::Make => {
            let (dir, name) = place(alloc, text)?;
            Ok(Need::Make { dir, name })
        }
    }
}
