// From the words of the command line to what the program writes.
ghost use Rattle.std.specs.Prelude.{◌≡◌, ◌≢◌, map, string_bytes};
ghost use Rattle.sv_dev.specs.Causes.{Rose};
ghost use Rattle.sv_session.specs.Answer.{Answers};
ghost use Rattle.sv_session.specs.Command.{Command, Asks};
ghost use Rattle.sv_session.specs.Stop.{noted_line, Noted};
ghost use Rattle.sv_session.specs.declared.stop.Stop.TheVariants.{Words};

use crate::cat::cat_image;
use crate::check::check_image;
use crate::mkfs::mkfs_image;
use crate::replay::replay_image;
use crate::stop::{Stop, tell};
use crate::words::{Request, read_words};
use std::alloc::Global;
use std::fs::File;
use std::rt::Files;
use std::sync::Wait;
use std::thread::Threads;
use sv_dev::{Host, Sink, Watch};

/// Does what the words after the program's name ask for, and answers the exit status.
///
/// Where they do not read, the status is 1 and the host is left as it was.
pub fn svfs<R: Files<File = File> + Threads + Wait, H: Host, W: Watch, O: Sink>(
    rt: &R,
    alloc: Global,
    words: &[String],
    host: &mut H,
    watch: &W,
    out: &mut O,
    note: &mut O,
) -> u8
    ensures words { result ≡ 1 → ((command : Command) → Asks (map string_bytes words.now) command → ⊥)
        × (host.new ≡ host.old) × (out.new ≡ out.old)
        × Noted (O.written note.old) (O.written note.new) (O.faults note.old) (O.faults note.new) (noted_line Words) }
    ensures answer { result ≢ 1 → (command : Command) × Asks (map string_bytes words.now) command
        × Answers (H.images host.old) (H.images host.new) (H.texts host.old) (Rose (H.disk_faults host.old) (H.disk_faults host.new))
        (Rose (H.faults host.old) (H.faults host.new))
        (Rose (H.source_faults host.old) (H.source_faults host.new)) (Rose (O.faults out.old) (O.faults out.new)) (O.written out.old)
        (O.written out.new)
        (Noted (O.written note.old) (O.written note.new) (O.faults note.old) (O.faults note.new)) result command }
    ensures quiet { result ≡ 0 → O.written note.new ≡ O.written note.old }
    ensures texts { H.texts host.new ≡ H.texts host.old }
{
    match read_words(words) {
        None => tell(&Stop::Words, note),
        Some(Request::Cat { image, inode }) => cat_image(rt, alloc, host, image, inode, out, note),
        Some(Request::Check { image }) => check_image(rt, alloc, host, image, out, note),
        Some(
            Request::Mkfs {
                image,
                blocks,
                inodes,
            },
        ) => mkfs_image(rt, alloc, host, image, blocks, inodes, note),
        Some(Request::Replay { image, journal }) => {
            replay_image(rt, alloc, host, image, journal, out, note)
        }
    }
}
