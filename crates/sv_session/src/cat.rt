// `cat`: the bytes of a regular file.
ghost use Rattle.std.specs.Prelude.{◌≡◌, ◌≢◌, ◌≤◌, OnOk, IfErr};
ghost use Rattle.sv_dev.specs.Causes.{Rose};
ghost use Rattle.sv_form.specs.Image.{geometry_of};
ghost use Rattle.sv_check.specs.Sound.{IsSound};
ghost use Rattle.sv_session.specs.declared.stop.Stop.{Stop};
ghost use Rattle.sv_session.specs.Answer.{OnImage, HasReason, LacksFile, LeavesSink, Shows};
ghost use Rattle.sv_session.specs.Stop.{status_of, noted_line, Noted};

use crate::Stop;
use crate::find::find_file;
use crate::pages::{PIECE_BLOCKS, write_file};
use crate::stop::tell;
use std::alloc::Global;
use std::fs::File;
use std::rt::Files;
use sv_check::{check, read_pages};
use sv_dev::{Disk, Host, Sink};
use sv_form::Geometry;

/// Checks an image, appends the bytes of one of its regular files to `out`, and answers the exit status. A hole is zero
/// bytes.
///
/// After the check it reads the file's inode twice, each of its indirect blocks once, and each of its pages once, the
/// last one twice. It returns always.
pub fn cat_image<R: Files<File = File>, H: Host, O: Sink>(
    rt: &R,
    alloc: Global,
    host: &mut H,
    image: &str,
    inode: u32,
    out: &mut O,
    note: &mut O,
) -> u8
    ensures done { result ≡ 0 → OnImage (H.images host.old) image.now (Shows inode (O.written out.old) (O.written out.new)) }
    ensures stopped { result ≢ 0 → (stop : Stop) × (result ≡ status_of stop)
        × HasReason (OnImage (H.images host.old) image.now) (OnImage (H.images host.old) image.now (LacksFile inode))
        (Rose (H.disk_faults host.old) (H.disk_faults host.new))
        (Rose (H.faults host.old) (H.faults host.new)) (Rose (O.faults out.old) (O.faults out.new)) stop
        × LeavesSink (OnImage (H.images host.old) image.now) inode (O.written out.old) (O.written out.new) stop
        × Noted (O.written note.old) (O.written note.new) (O.faults note.old) (O.faults note.new) (noted_line stop) }
    ensures quiet { result ≡ 0 → O.written note.new ≡ O.written note.old }
    ensures images { H.images host.new ≡ H.images host.old }
    ensures texts { H.texts host.new ≡ H.texts host.old }
{
    match cat(rt, alloc, host, image, inode, out) {
        Ok(()) => 0,
        Err(stop) => tell(&stop, note),
    }
}

// The same, with the reason in place of the status.
fn cat<R: Files<File = File>, H: Host, O: Sink>(
    rt: &R,
    alloc: Global,
    host: &mut H,
    image: &str,
    inode: u32,
    out: &mut O,
) -> Result<(), Stop>
    ensures done { OnOk result (OnImage (H.images host.old) image.now (Shows inode (O.written out.old) (O.written out.new))) }
    ensures reason { IfErr result (HasReason (OnImage (H.images host.old) image.now)
        (OnImage (H.images host.old) image.now (LacksFile inode)) (Rose (H.disk_faults host.old) (H.disk_faults host.new))
        (Rose (H.faults host.old) (H.faults host.new)) (Rose (O.faults out.old) (O.faults out.new))) }
    ensures left { IfErr result (LeavesSink (OnImage (H.images host.old) image.now) inode (O.written out.old) (O.written out.new)) }
    ensures images { H.images host.new ≡ H.images host.old }
    ensures texts { H.texts host.new ≡ H.texts host.old }
{
    let mut disk = host.disk(rt, alloc, image)?;
    let answer = cat_disk(alloc, &mut disk, inode, out);
    host.end_disk(disk);
    answer
}

// The same over a disk that was given.
pub(crate) fn cat_disk<D: Disk, O: Sink>(
    alloc: Global,
    disk: &mut D,
    inode: u32,
    out: &mut O,
) -> Result<(), Stop>
    ensures done { OnOk result (Shows inode (O.written out.old) (O.written out.new) (D.content disk.old)) }
    ensures reason { IfErr result (HasReason (λ P. P (D.content disk.old)) (LacksFile inode (D.content disk.old))
        (Rose (D.faults disk.old) (D.faults disk.new)) ⊥
        (Rose (O.faults out.old) (O.faults out.new))) }
    ensures left { IfErr result (LeavesSink (λ P. P (D.content disk.old)) inode (O.written out.old) (O.written out.new)) }
    ensures content { D.content disk.new ≡ D.content disk.old }
    ensures faults { D.faults disk.old ≤ D.faults disk.new }
{
    let mounted = check(alloc, disk)?;
    cat_sound(alloc, disk, &mounted.geometry, inode, out)
}

// The same over a disk whose image is sound.
fn cat_sound<D: Disk, O: Sink>(
    alloc: Global,
    disk: &mut D,
    sizes: &Geometry,
    inode: u32,
    out: &mut O,
) -> Result<(), Stop>
    requires sound { IsSound (D.content disk.old) }
    requires sizes { sizes.now ≡ geometry_of (D.content disk.old) }
    ensures done { OnOk result (Shows inode (O.written out.old) (O.written out.new) (D.content disk.old)) }
    ensures reason { IfErr result (HasReason (λ P. P (D.content disk.old)) (LacksFile inode (D.content disk.old))
        (Rose (D.faults disk.old) (D.faults disk.new)) ⊥
        (Rose (O.faults out.old) (O.faults out.new))) }
    ensures left { IfErr result (LeavesSink (λ P. P (D.content disk.old)) inode (O.written out.old) (O.written out.new)) }
    ensures content { D.content disk.new ≡ D.content disk.old }
    ensures faults { D.faults disk.old ≤ D.faults disk.new }
{
    let mut block = vec![in alloc; 0; sizes.block_size as usize]?;
    let (number, size) = find_file(disk, sizes, inode, &mut block)?;
    let pages = read_pages(alloc, disk, sizes, number, &mut block)?;
    let mut piece = vec![in alloc; 0; PIECE_BLOCKS * sizes.block_size as usize]?;
    write_file(disk, sizes, &pages, size, &mut piece, out)
}
