// Which entries a journal may hold.
ghost use Rattle.std.specs.Prelude.{◌≡◌};
ghost use Rattle.sv_journal.specs.Allowed.{answers_look, answers_last, answers_create, answers_add_link, answers_enter, answers_sub_link};
ghost use Rattle.sv_journal.specs.Allowed.{answers_unlink, answers_rmdir, answers_open, answers_dup, answers_read, answers_write};
ghost use Rattle.sv_journal.specs.Allowed.{answers_seek, answers_trunc, answers_stat, answers_promise, answers_forgo, answers_sync};
ghost use Rattle.sv_journal.specs.Allowed.{answers_purge, is_reply_of};
ghost use Rattle.sv_journal.specs.Grammar.{is_allowed, is_asked_by};

use sv_plain::{Entry, Op, Reply};

/// Whether an entry is one of so many processes, or a purge of the system, and its reply stands behind its op.
pub fn is_allowed(entry: &Entry, processes: u8) -> bool
    ensures { result ≡ is_allowed processes entry.now }
{
    entry.process <= processes
        && is_asked_by(&entry.op, entry.process)
        && is_reply_of(&entry.op, &entry.reply)
}

fn is_asked_by(op: &Op, process: u8) -> bool
    ensures { result ≡ is_asked_by op.now process }
{
    match op {
        Op::Purge => process == 0,
        _ => process != 0,
    }
}

fn is_reply_of(op: &Op, reply: &Reply) -> bool
    ensures { result ≡ is_reply_of op.now reply.now }
{
    match op {
        Op::Look { .. } => answers_look(reply),
        Op::Drop { .. } => answers_last(reply),
        Op::Create { .. } => answers_create(reply),
        Op::AddLink { .. } => answers_add_link(reply),
        Op::Enter { .. } => answers_enter(reply),
        Op::SubLink { .. } => answers_sub_link(reply),
        Op::Unlink { .. } => answers_unlink(reply),
        Op::Rmdir { .. } => answers_rmdir(reply),
        Op::OpenFile { .. } => answers_open(reply),
        Op::CloseFile { .. } => answers_last(reply),
        Op::DupFile { .. } => answers_dup(reply),
        Op::Read { .. } => answers_read(reply),
        Op::Write { .. } => answers_write(reply),
        Op::Seek { .. } => answers_seek(reply),
        Op::Trunc { .. } => answers_trunc(reply),
        Op::Stat { .. } => answers_stat(reply),
        Op::Promise { .. } => answers_promise(reply),
        Op::Forgo => answers_forgo(reply),
        Op::Sync => answers_sync(reply),
        Op::Purge => answers_purge(reply),
    }
}

fn answers_look(reply: &Reply) -> bool
    ensures { result ≡ answers_look reply.now }
{
    matches!(
        reply,
        Reply::NotDir | Reply::Gone | Reply::NotFound | Reply::Full | Reply::Found(_) | Reply::Fault
    )
}

fn answers_last(reply: &Reply) -> bool
    ensures { result ≡ answers_last reply.now }
{
    matches!(
        reply,
        Reply::Kept | Reply::Freed | Reply::Late | Reply::LateMemory
    )
}

fn answers_create(reply: &Reply) -> bool
    ensures { result ≡ answers_create reply.now }
{
    matches!(
        reply,
        Reply::NotDir
            | Reply::Gone
            | Reply::Full
            | Reply::Found(_)
            | Reply::ManyLinks
            | Reply::NoInode
            | Reply::Made(_)
            | Reply::Fault
    )
}

fn answers_add_link(reply: &Reply) -> bool
    ensures { result ≡ answers_add_link reply.now }
{
    matches!(
        reply,
        Reply::IsDir | Reply::Gone | Reply::ManyLinks | Reply::Raised | Reply::Fault
    )
}

fn answers_enter(reply: &Reply) -> bool
    ensures { result ≡ answers_enter reply.now }
{
    matches!(
        reply,
        Reply::NotDir | Reply::Gone | Reply::Exists | Reply::Entered | Reply::Fault
    )
}

fn answers_sub_link(reply: &Reply) -> bool
    ensures { result ≡ answers_sub_link reply.now }
{
    matches!(reply, Reply::Lowered)
}

fn answers_unlink(reply: &Reply) -> bool
    ensures { result ≡ answers_unlink reply.now }
{
    matches!(
        reply,
        Reply::NotDir
            | Reply::Gone
            | Reply::NotFound
            | Reply::Full
            | Reply::IsDir
            | Reply::Removed(_)
            | Reply::Fault
    )
}

fn answers_rmdir(reply: &Reply) -> bool
    ensures { result ≡ answers_rmdir reply.now }
{
    matches!(
        reply,
        Reply::NotDir
            | Reply::Gone
            | Reply::NotFound
            | Reply::Full
            | Reply::Plain
            | Reply::NotEmpty
            | Reply::Removed(_)
            | Reply::Fault
    )
}

fn answers_open(reply: &Reply) -> bool
    ensures { result ≡ answers_open reply.now }
{
    matches!(reply, Reply::IsDir | Reply::Opened(_) | Reply::Fault)
}

fn answers_dup(reply: &Reply) -> bool
    ensures { result ≡ answers_dup reply.now }
{
    matches!(reply, Reply::Dupped)
}

fn answers_read(reply: &Reply) -> bool
    ensures { result ≡ answers_read reply.now }
{
    matches!(reply, Reply::Got(_) | Reply::Fault)
}

fn answers_write(reply: &Reply) -> bool
    ensures { result ≡ answers_write reply.now }
{
    matches!(reply, Reply::Wrote(_) | Reply::FaultAfter(_))
}

fn answers_seek(reply: &Reply) -> bool
    ensures { result ≡ answers_seek reply.now }
{
    matches!(reply, Reply::Bad | Reply::At(_))
}

fn answers_trunc(reply: &Reply) -> bool
    ensures { result ≡ answers_trunc reply.now }
{
    matches!(reply, Reply::IsDir | Reply::Done | Reply::Fault)
}

fn answers_stat(reply: &Reply) -> bool
    ensures { result ≡ answers_stat reply.now }
{
    matches!(reply, Reply::Status { .. } | Reply::Fault)
}

fn answers_promise(reply: &Reply) -> bool
    ensures { result ≡ answers_promise reply.now }
{
    matches!(
        reply,
        Reply::TooBig | Reply::NoSpace | Reply::Granted(_) | Reply::Fault
    )
}

fn answers_forgo(reply: &Reply) -> bool
    ensures { result ≡ answers_forgo reply.now }
{
    matches!(reply, Reply::Done)
}

fn answers_sync(reply: &Reply) -> bool
    ensures { result ≡ answers_sync reply.now }
{
    matches!(reply, Reply::Done | Reply::Fault)
}

fn answers_purge(reply: &Reply) -> bool
    ensures { result ≡ answers_purge reply.now }
{
    matches!(reply, Reply::Done | Reply::Late | Reply::LateMemory)
}
