// `check`: one line on a sound image.
ghost use Rattle.std.specs.Prelude.{◌≡◌, ◌≢◌, ◌≤◌, OnOk, IfErr};
ghost use Rattle.sv_dev.specs.Causes.{Rose};
ghost use Rattle.sv_session.specs.declared.stop.Stop.{Stop};
ghost use Rattle.sv_session.specs.Answer.{OnImage, HasReason, IsCalledSound, LeavesLine};
ghost use Rattle.sv_session.specs.Stop.{status_of, noted_line, Noted};

use crate::Stop;
use crate::sound_line::sound_line;
use crate::stop::tell;
use std::alloc::Global;
use std::fs::File;
use std::rt::Files;
use sv_check::check;
use sv_dev::{Disk, Host, Sink};

/// Checks an image, appends one line to `out` if it is sound, and answers the exit status. The line is `ok blocks B free
/// F inodes N used U`: the image's blocks, the numbers in its chain of free blocks, its inodes, and those in use.
///
/// It returns always.
pub fn check_image<R: Files<File = File>, H: Host, O: Sink>(
    rt: &R,
    alloc: Global,
    host: &mut H,
    image: &str,
    out: &mut O,
    note: &mut O,
) -> u8
    ensures done { result ≡ 0 → OnImage (H.images host.old) image.now (IsCalledSound (O.written out.old) (O.written out.new)) }
    ensures stopped { result ≢ 0 → (stop : Stop) × (result ≡ status_of stop)
        × HasReason (OnImage (H.images host.old) image.now) ⊥ (Rose (H.disk_faults host.old) (H.disk_faults host.new))
        (Rose (H.faults host.old) (H.faults host.new)) (Rose (O.faults out.old) (O.faults out.new)) stop
        × LeavesLine (OnImage (H.images host.old) image.now) (O.written out.old) (O.written out.new) stop
        × Noted (O.written note.old) (O.written note.new) (O.faults note.old) (O.faults note.new) (noted_line stop) }
    ensures quiet { result ≡ 0 → O.written note.new ≡ O.written note.old }
    ensures images { H.images host.new ≡ H.images host.old }
    ensures texts { H.texts host.new ≡ H.texts host.old }
{
    match check_and_tell(rt, alloc, host, image, out) {
        Ok(()) => 0,
        Err(stop) => tell(&stop, note),
    }
}

// The same, with the reason in place of the status.
fn check_and_tell<R: Files<File = File>, H: Host, O: Sink>(
    rt: &R,
    alloc: Global,
    host: &mut H,
    image: &str,
    out: &mut O,
) -> Result<(), Stop>
    ensures done { OnOk result (OnImage (H.images host.old) image.now (IsCalledSound (O.written out.old) (O.written out.new))) }
    ensures reason { IfErr result (HasReason (OnImage (H.images host.old) image.now) ⊥
        (Rose (H.disk_faults host.old) (H.disk_faults host.new))
        (Rose (H.faults host.old) (H.faults host.new)) (Rose (O.faults out.old) (O.faults out.new))) }
    ensures left { IfErr result (LeavesLine (OnImage (H.images host.old) image.now) (O.written out.old) (O.written out.new)) }
    ensures images { H.images host.new ≡ H.images host.old }
    ensures texts { H.texts host.new ≡ H.texts host.old }
{
    let mut disk = host.disk(rt, alloc, image)?;
    let answer = check_disk(alloc, &mut disk, out);
    host.end_disk(disk);
    answer
}

// The same over a disk that was given.
pub(crate) fn check_disk<D: Disk, O: Sink>(
    alloc: Global,
    disk: &mut D,
    out: &mut O,
) -> Result<(), Stop>
    ensures done { OnOk result (IsCalledSound (O.written out.old) (O.written out.new) (D.content disk.old)) }
    ensures reason { IfErr result (HasReason (λ P. P (D.content disk.old)) ⊥ (Rose (D.faults disk.old) (D.faults disk.new)) ⊥
        (Rose (O.faults out.old) (O.faults out.new))) }
    ensures left { IfErr result (LeavesLine (λ P. P (D.content disk.old)) (O.written out.old) (O.written out.new)) }
    ensures content { D.content disk.new ≡ D.content disk.old }
    ensures faults { D.faults disk.old ≤ D.faults disk.new }
{
    let mounted = check(alloc, disk)?;
    let Ok(()) = out.write(sound_line(&mounted).as_bytes()) else {
        return Err(Stop::WriteFault);
    };
    Ok(())
}
