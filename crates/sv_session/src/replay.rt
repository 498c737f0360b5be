// `replay`: the listing of what a journal over an image leads to.
ghost use Rattle.std.specs.Prelude.{◌≡◌, ◌≢◌, ◌⊎◌, IfOk, IfErr, OnOk};
ghost use Rattle.sv_dev.specs.Causes.{Rose};
ghost use Rattle.sv_check.specs.Sound.{Flaw};
ghost use Rattle.sv_session.specs.declared.stop.Stop.{Stop};
ghost use Rattle.sv_session.specs.Answer.{OnImage};
ghost use Rattle.sv_session.specs.Replay.{LeavesListing, Lists, RefusesLine, Replays, StopsReplay};
ghost use Rattle.sv_session.specs.Stop.{status_of, noted_line, Noted};

use crate::Stop;
use crate::journal::journal_listing;
use crate::stop::tell;
use crate::tree::load_image;
use std::alloc::Global;
use std::fs::File;
use std::rt::Files;
use sv_dev::{Host, Sink};

/// Checks an image, replays the journal over it, appends the listing of what its entries lead to to `out`, and answers the
/// exit status. The image comes before the journal, and the whole journal is read before its first entry is replayed.
///
/// After the check it reads each block of the inode list once, and each page and each indirect block once. It reads the
/// journal's text until its end, or until one byte past the most that a journal has. It returns always.
pub fn replay_image<R: Files<File = File>, H: Host, O: Sink>(
    rt: &R,
    alloc: Global,
    host: &mut H,
    image: &str,
    journal: &str,
    out: &mut O,
    note: &mut O,
) -> u8
    ensures done { result ≡ 0 → OnImage (H.images host.old) image.now (Lists (H.texts host.old) journal.now (O.written out.old)
        (O.written out.new)) }
    ensures stopped { result ≢ 0 → (stop : Stop) × (result ≡ status_of stop)
        × StopsReplay (λ number place. OnImage (H.images host.old) image.now (λ content. Flaw content number place))
        (λ line. OnImage (H.images host.old) image.now (RefusesLine (H.texts host.old) journal.now line))
        (Rose (H.disk_faults host.old) (H.disk_faults host.new))
        (Rose (H.faults host.old) (H.faults host.new) ⊎ Rose (H.source_faults host.old) (H.source_faults host.new))
        (Rose (O.faults out.old) (O.faults out.new)) stop
        × LeavesListing (OnImage (H.images host.old) image.now) (H.texts host.old) journal.now (O.written out.old) (O.written out.new) stop
        × Noted (O.written note.old) (O.written note.new) (O.faults note.old) (O.faults note.new) (noted_line stop) }
    ensures quiet { result ≡ 0 → O.written note.new ≡ O.written note.old }
    ensures images { H.images host.new ≡ H.images host.old }
    ensures texts { H.texts host.new ≡ H.texts host.old }
{
    match write_replayed(rt, alloc, host, image, journal, out) {
        Ok(()) => 0,
        Err(stop) => tell(&stop, note),
    }
}

// The same, with the reason in place of the status.
fn write_replayed<R: Files<File = File>, H: Host, O: Sink>(
    rt: &R,
    alloc: Global,
    host: &mut H,
    image: &str,
    journal: &str,
    out: &mut O,
) -> Result<(), Stop>
    ensures done { OnOk result (OnImage (H.images host.old) image.now (Lists (H.texts host.old) journal.now (O.written out.old)
        (O.written out.new))) }
    ensures reason { IfErr result (StopsReplay (λ number place. OnImage (H.images host.old) image.now
        (λ content. Flaw content number place))
        (λ line. OnImage (H.images host.old) image.now (RefusesLine (H.texts host.old) journal.now line))
        (Rose (H.disk_faults host.old) (H.disk_faults host.new))
        (Rose (H.faults host.old) (H.faults host.new) ⊎ Rose (H.source_faults host.old) (H.source_faults host.new))
        (Rose (O.faults out.old) (O.faults out.new))) }
    ensures left { IfErr result (LeavesListing (OnImage (H.images host.old) image.now) (H.texts host.old) journal.now (O.written out.old)
        (O.written out.new)) }
    ensures images { H.images host.new ≡ H.images host.old }
    ensures texts { H.texts host.new ≡ H.texts host.old }
{
    let text = replayed(rt, alloc, host, image, journal)?;
    let Ok(()) = out.write(text.as_slice()) else {
        return Err(Stop::WriteFault);
    };
    Ok(())
}

// The listing.
fn replayed<R: Files<File = File>, H: Host>(
    rt: &R,
    alloc: Global,
    host: &mut H,
    image: &str,
    journal: &str,
) -> Result<Vec<u8>, Stop>
    ensures listing { IfOk result (λ text. OnImage (H.images host.old) image.now
        (Replays (H.texts host.old) journal.now (λ listing. text.items ≡ listing))) }
    ensures reason { IfErr result (StopsReplay (λ number place. OnImage (H.images host.old) image.now
        (λ content. Flaw content number place))
        (λ line. OnImage (H.images host.old) image.now (RefusesLine (H.texts host.old) journal.now line))
        (Rose (H.disk_faults host.old) (H.disk_faults host.new))
        (Rose (H.faults host.old) (H.faults host.new) ⊎ Rose (H.source_faults host.old) (H.source_faults host.new)) ⊥) }
    ensures images { H.images host.new ≡ H.images host.old }
    ensures texts { H.texts host.new ≡ H.texts host.old }
{
    let tree = load_image(rt, alloc, host, image)?;
    journal_listing(rt, alloc, host, journal, tree)
}
