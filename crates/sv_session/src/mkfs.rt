// `mkfs`: an image made anew.
ghost use Rattle.std.specs.Prelude.{◌≡◌, ◌≢◌, OnOk, IfErr};
ghost use Rattle.sv_dev.specs.Causes.{Rose};
ghost use Rattle.sv_check.specs.Mkfs.{CanBeMade};
ghost use Rattle.sv_session.specs.declared.stop.Stop.{Stop};
ghost use Rattle.sv_session.specs.declared.stop.Stop.TheVariants.{Words};
ghost use Rattle.sv_session.specs.Making.{LeavesUnmade, Makes, StopsMaking};
ghost use Rattle.sv_session.specs.Stop.{status_of, noted_line, Noted};

use crate::Stop;
use crate::stop::tell;
use std::alloc::Global;
use std::fs::File;
use std::rt::Files;
use sv_check::{can_be_made, mkfs};
use sv_dev::{Host, Sink};

/// Makes an image of so many blocks of 1,024 bytes for so many inodes, a root with nothing in it, under the name, in place
/// of what stood there, and answers the exit status. The status is 1 exactly where no image has these two numbers.
///
/// The image begins as zero bytes. Where the disk fails it is not kept. Each block is read once, and written once where the image
/// has other bytes there. It returns always.
pub fn mkfs_image<R: Files<File = File>, H: Host, O: Sink>(
    rt: &R,
    alloc: Global,
    host: &mut H,
    image: &str,
    blocks: u32,
    inodes: u32,
    note: &mut O,
) -> u8
    ensures can { result ≢ 1 → CanBeMade blocks inodes }
    ensures cannot { result ≡ 1 → (CanBeMade blocks inodes → ⊥) × (host.new ≡ host.old)
        × Noted (O.written note.old) (O.written note.new) (O.faults note.old) (O.faults note.new) (noted_line Words) }
    ensures done { result ≡ 0 → Makes (H.images host.old) (H.images host.new) image.now blocks inodes }
    ensures stopped { result ≢ 0 → result ≢ 1 → (stop : Stop) × (result ≡ status_of stop)
        × StopsMaking (Rose (H.disk_faults host.old) (H.disk_faults host.new)) (Rose (H.faults host.old) (H.faults host.new)) stop
        × LeavesUnmade (H.images host.old) (H.images host.new) image.now blocks inodes stop
        × Noted (O.written note.old) (O.written note.new) (O.faults note.old) (O.faults note.new) (noted_line stop) }
    ensures quiet { result ≡ 0 → O.written note.new ≡ O.written note.old }
    ensures texts { H.texts host.new ≡ H.texts host.old }
{
    if !can_be_made(blocks, inodes) {
        return tell(&Stop::Words, note);
    }
    match make_image(rt, alloc, host, image, blocks, inodes) {
        Ok(()) => 0,
        Err(stop) => tell(&stop, note),
    }
}

// The image under the name, with the reason in place of the status.
fn make_image<R: Files<File = File>, H: Host>(
    rt: &R,
    alloc: Global,
    host: &mut H,
    image: &str,
    blocks: u32,
    inodes: u32,
) -> Result<(), Stop>
    requires { CanBeMade blocks inodes }
    ensures done { OnOk result (Makes (H.images host.old) (H.images host.new) image.now blocks inodes) }
    ensures reason { IfErr result (StopsMaking (Rose (H.disk_faults host.old) (H.disk_faults host.new))
        (Rose (H.faults host.old) (H.faults host.new))) }
    ensures left { IfErr result (LeavesUnmade (H.images host.old) (H.images host.new) image.now blocks inodes) }
    ensures texts { H.texts host.new ≡ H.texts host.old }
{
    let mut disk = host.fresh(rt, alloc, image, u64::from(blocks) * 1_024)?;
    match mkfs(&mut disk, blocks, inodes) {
        Ok(()) => {
            host.keep(rt, alloc, image, disk)?;
            Ok(())
        }
        Err(fault) => {
            host.end_disk(disk);
            Err(Stop::from(fault))
        }
    }
}
