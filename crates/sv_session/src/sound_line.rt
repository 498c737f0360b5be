// The line that `check` writes on a sound image.
ghost use Rattle.std.specs.Prelude.{◌≡◌, [], ℕ, List};
ghost use Rattle.sv_check.specs.Sound.{IsMountedFrom};
ghost use Rattle.sv_session.specs.SoundLine.{counts_line, sound_line};

use arrayvec::ArrayString;
use itoa::Buffer;
use sv_check::{free_count, used_count};
use sv_form::Mounted;

// Room for the longest line, which has 71 bytes.
const LINE_BYTES: usize = 80;

/// The line of a sound image, from what its check leaves. It needs no memory.
pub fn sound_line(mounted: &Mounted) -> ArrayString<LINE_BYTES>
    requires { (image : List ℕ) × IsMountedFrom image mounted.now }
    ensures { (image : List ℕ) → IsMountedFrom image mounted.now → result.bytes ≡ sound_line image }
{
    let mut line = ArrayString::new();
    push_counts(
        &mut line,
        mounted.geometry.blocks,
        free_count(mounted),
        mounted.geometry.inode_count(),
        used_count(mounted),
    );
    line
}

fn push_counts(line: &mut ArrayString<LINE_BYTES>, blocks: u32, free: u32, inodes: u32, used: u32)
    requires { line.old.bytes ≡ [] }
    ensures { line.new.bytes ≡ counts_line blocks free inodes used }
{
    let mut digits = Buffer::new();
    line.push_str("ok blocks ");
    line.push_str(digits.format(blocks));
    line.push_str(" free ");
    line.push_str(digits.format(free));
    line.push_str(" inodes ");
    line.push_str(digits.format(inodes));
    line.push_str(" used ");
    line.push_str(digits.format(used));
    line.push_str("\n");
}
