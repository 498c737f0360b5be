// The tree of an image, with its check.
ghost use Rattle.std.specs.Prelude.{◌≡◌, ◌≤◌, IfOk, IfErr};
ghost use Rattle.sv_dev.specs.Causes.{Rose};
ghost use Rattle.sv_plain.specs.Whole.{IsWhole};
ghost use Rattle.sv_check.specs.Sound.{Flaw};
ghost use Rattle.sv_session.specs.Answer.{OnImage};
ghost use Rattle.sv_session.specs.Replay.{HasTree, IsUnused, StopsReplay};

use crate::Stop;
use std::alloc::Global;
use std::fs::File;
use std::rt::Files;
use sv_check::{check, load};
use sv_dev::{Disk, Host};
use sv_plain::Fs;

/// Checks an image, and gives its tree as a file system of which no process has anything.
pub fn load_image<R: Files<File = File>, H: Host>(
    rt: &R,
    alloc: Global,
    host: &mut H,
    image: &str,
) -> Result<Fs, Stop>
    ensures tree { IfOk result (λ fs. OnImage (H.images host.old) image.now (HasTree fs)) }
    ensures whole { IfOk result (λ fs. IsWhole fs) }
    ensures unused { IfOk result (λ fs. IsUnused fs) }
    ensures reason { IfErr result (StopsReplay (λ number place. OnImage (H.images host.old) image.now
        (λ content. Flaw content number place)) (λ line. ⊥)
        (Rose (H.disk_faults host.old) (H.disk_faults host.new)) (Rose (H.faults host.old) (H.faults host.new)) ⊥) }
    ensures images { H.images host.new ≡ H.images host.old }
    ensures texts { H.texts host.new ≡ H.texts host.old }
    ensures faults { H.faults host.old ≤ H.faults host.new }
    ensures source_faults { H.source_faults host.new ≡ H.source_faults host.old }
{
    let mut disk = host.disk(rt, alloc, image)?;
    let answer = load_disk(alloc, &mut disk);
    host.end_disk(disk);
    answer
}

// The same over a disk that was given.
fn load_disk<D: Disk>(alloc: Global, disk: &mut D) -> Result<Fs, Stop>
    ensures tree { IfOk result (λ fs. HasTree fs (D.content disk.old)) }
    ensures whole { IfOk result (λ fs. IsWhole fs) }
    ensures unused { IfOk result (λ fs. IsUnused fs) }
    ensures reason { IfErr result (StopsReplay (Flaw (D.content disk.old)) (λ line. ⊥) (Rose (D.faults disk.old) (D.faults disk.new)) ⊥ ⊥) }
    ensures content { D.content disk.new ≡ D.content disk.old }
    ensures faults { D.faults disk.old ≤ D.faults disk.new }
{
    let mounted = check(alloc, disk)?;
    let tree = load(alloc, disk, &mounted)?;
    Ok(tree)
}
