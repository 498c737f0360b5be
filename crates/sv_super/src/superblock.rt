// The superblock's lines.
ghost use Rattle.std.specs.Prelude.{◌≡◌, ◌≤◌, ◌+◌, OnOk, OnErr, length, slice_range};
ghost use Rattle.sv_form.specs.Number.{ChangesOnly};
ghost use Rattle.sv_form.specs.Superblock.{HasSpelling, IsSuper};
ghost use Rattle.sv_store.specs.Causes.{HasFault};
ghost use Rattle.sv_store.specs.Held.{nothing_lent};
ghost use Rattle.sv_super.specs.Core.{HoldsSuper};
ghost use Rattle.sv_super.specs.Written.{PutsSuper};

use std::sync::Wait;
use sv_form::Super;
use sv_store::{Refusal, Stake};

// The bytes of a superblock.
const SUPER_SIZE: usize = 512;

// Writes the superblock into its block, from a place on.
fn write_head(head: &Super, bytes: &mut [u8], at: usize)
    requires size { at + 512 ≤ length bytes.old }
    requires spelled { HasSpelling head.now }
    ensures spelled { IsSuper (slice_range bytes.new at (at + 512)) head.now }
    ensures others { ChangesOnly bytes.old bytes.new at (at + 512) }
{
    let (_before, rest) = bytes.split_at_mut(at);
    let (into, _after) = rest.split_at_mut(SUPER_SIZE);
    head.write(into);
}

// Puts the superblock.
pub(crate) fn put_head<R: Wait, S: Stake>(rt: &R, s: &mut S, head: &Super) -> Result<(), Refusal>
    requires lines { HoldsSuper (S.origin s.old) (S.held s.old) }
    requires spelled { HasSpelling head.now }
    requires lent { S.lent s.old ≡ nothing_lent }
    ensures ok { OnOk result (PutsSuper (S.origin s.old).sizes (S.held s.old) (S.held s.new) head.now) }
    ensures err { OnErr result (S.held s.new ≡ S.held s.old) }
    ensures lends { S.lent s.new ≡ nothing_lent }
    ensures forced { S.forced s.new ≡ S.forced s.old }
    ensures origin { S.origin s.new ≡ S.origin s.old }
    ensures cause { HasFault (S.faults s.old) (S.faults s.new) result }
{
    let place = s.geometry().super_place();
    let mut buf = s.bread(rt, place.block)?;
    let bytes = buf.bytes_mut();
    write_head(head, bytes, usize::from(place.line) * 64);
    s.bdwrite(rt, buf);
    Ok(())
}
