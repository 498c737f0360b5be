// What was answered, read from the text of its line.
ghost use Rattle.std.specs.Prelude.{◌≡◌};
ghost use Rattle.sv_journal.specs.Grammar.{reply_at, reply_by, status};
ghost use Rattle.sv_journal.specs.Outcome.{Takes};

use crate::cut::next_word;
use crate::field::{bytes, long, made, short};
use crate::refusal::Refusal;
use crate::reply_name::ReplyName;
use std::alloc::Global;
use sv_plain::Reply;

/// Takes a space and the reply behind it.
pub fn reply(alloc: Global, text: &mut &[u8]) -> Result<Reply, Refusal>
    ensures { Takes (λ reply. reply) result text.new.now (reply_at text.old.now) }
{
    let word = next_word(text)?;
    let Some(name) = ReplyName::read(word) else {
        return Err(Refusal::Grammar);
    };
    reply_by(alloc, name, text)
}

fn reply_by(alloc: Global, name: ReplyName, text: &mut &[u8]) -> Result<Reply, Refusal>
    ensures { Takes (λ reply. reply) result text.new.now (reply_by name text.old.now) }
{
    match name {
        ReplyName::Found => Ok(Reply::Found(short(text)?)),
        ReplyName::NotFound => Ok(Reply::NotFound),
        ReplyName::NotDir => Ok(Reply::NotDir),
        ReplyName::Gone => Ok(Reply::Gone),
        ReplyName::Full => Ok(Reply::Full),
        ReplyName::Fault => Ok(Reply::Fault),
        ReplyName::Kept => Ok(Reply::Kept),
        ReplyName::Freed => Ok(Reply::Freed),
        ReplyName::Late => Ok(Reply::Late),
        ReplyName::LateMemory => Ok(Reply::LateMemory),
        ReplyName::Made => Ok(Reply::Made(short(text)?)),
        ReplyName::ManyLinks => Ok(Reply::ManyLinks),
        ReplyName::NoInode => Ok(Reply::NoInode),
        ReplyName::Raised => Ok(Reply::Raised),
        ReplyName::IsDir => Ok(Reply::IsDir),
        ReplyName::Entered => Ok(Reply::Entered),
        ReplyName::Exists => Ok(Reply::Exists),
        ReplyName::Lowered => Ok(Reply::Lowered),
        ReplyName::Removed => Ok(Reply::Removed(short(text)?)),
        ReplyName::Plain => Ok(Reply::Plain),
        ReplyName::NotEmpty => Ok(Reply::NotEmpty),
        ReplyName::Opened => Ok(Reply::Opened(short(text)?)),
        ReplyName::Dupped => Ok(Reply::Dupped),
        ReplyName::Got => Ok(Reply::Got(bytes(alloc, text)?)),
        ReplyName::Wrote => Ok(Reply::Wrote(long(text)?)),
        ReplyName::FaultAfter => Ok(Reply::FaultAfter(long(text)?)),
        ReplyName::At => Ok(Reply::At(long(text)?)),
        ReplyName::Bad => Ok(Reply::Bad),
        ReplyName::Done => Ok(Reply::Done),
        ReplyName::Status => status(text),
        ReplyName::Granted => Ok(Reply::Granted(long(text)?)),
        ReplyName::NoSpace => Ok(Reply::NoSpace),
        ReplyName::TooBig => Ok(Reply::TooBig),
    }
}

fn status(text: &mut &[u8]) -> Result<Reply, Refusal>
    ensures { Takes (λ reply. reply) result text.new.now (status text.old.now) }
{
    let (kind, mode) = made(text)?;
    let links = short(text)?;
    let size = long(text)?;
    Ok(Reply::Status {
        kind,
        mode,
        links,
        size,
    })
}
