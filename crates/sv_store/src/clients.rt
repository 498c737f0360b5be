// Small holders of stakes, over any stake: what a holder can count on is proved here from the trait alone.
ghost use Rattle.std.specs.Prelude.{◌≡◌, ◌<◌, ◌≤◌, ◌⊎◌, ◌/◌, true, false, replicate, IfOk, IfErr, IsSome, OnOk, OnErr, IsErrOf};
ghost use Rattle.sv_dev.specs.Causes.{Rose};
ghost use Rattle.sv_store.specs.Bytes.{byte_in, with_byte};
ghost use Rattle.sv_store.specs.Calls.{CanGet, CanFresh, CanPart};
ghost use Rattle.sv_store.specs.Causes.{HasFault, HasReason};
ghost use Rattle.sv_store.specs.Held.{SameLines, in_ranges, nothing_lent, put};
ghost use Rattle.sv_store.specs.declared.refusal.Refusal.TheVariants.{Fault, NoMemory};

use crate::{LineRange, Refusal, Stake};
use std::alloc::Global;
use std::sync::Wait;

/// One byte of a held line.
pub fn read_byte<R: Wait, S: Stake>(
    rt: &R,
    stake: &mut S,
    block: u32,
    place: usize,
) -> Result<u8, Refusal>
    requires block { CanGet (S.held stake.old) (S.lent stake.old) block }
    requires place { place < (S.origin stake.old).sizes.block_size }
    requires line { IsSome (S.held stake.old block (place / 64)) }
    ensures value { IfOk result (λ got. got ≡ byte_in (S.held stake.old) block place) }
    ensures held { S.held stake.new ≡ S.held stake.old }
    ensures lends { S.lent stake.new ≡ S.lent stake.old }
    ensures forced { S.forced stake.new ≡ S.forced stake.old }
    ensures origin { S.origin stake.new ≡ S.origin stake.old }
    ensures cause { HasFault (S.faults stake.old) (S.faults stake.new) result }
{
    let buf = stake.bread(rt, block)?;
    let got = buf.bytes()[place];
    stake.brelse(rt, buf);
    Ok(got)
}

/// Sets one byte of a held line, by way of a delayed write.
pub fn set_byte<R: Wait, S: Stake>(
    rt: &R,
    stake: &mut S,
    block: u32,
    place: usize,
    value: u8,
) -> Result<(), Refusal>
    requires block { CanGet (S.held stake.old) (S.lent stake.old) block }
    requires place { place < (S.origin stake.old).sizes.block_size }
    requires line { IsSome (S.held stake.old block (place / 64)) }
    ensures held { OnOk result (S.held stake.new ≡ with_byte block place value (S.held stake.old)) }
    ensures value { OnOk result (byte_in (S.held stake.new) block place ≡ value) }
    ensures kept { OnErr result (S.held stake.new ≡ S.held stake.old) }
    ensures lines { SameLines (S.held stake.new) (S.held stake.old) }
    ensures lends { S.lent stake.new ≡ S.lent stake.old }
    ensures forced { S.forced stake.new ≡ S.forced stake.old }
    ensures origin { S.origin stake.new ≡ S.origin stake.old }
    ensures cause { HasFault (S.faults stake.old) (S.faults stake.new) result }
{
    let mut first = stake.bread(rt, block)?;
    let bytes = first.bytes_mut();
    bytes[place] = value;
    stake.bdwrite(rt, first);
    Ok(())
}

/// Sets one byte of a held line, and reads it back. After a fault the byte is set or as it was.
pub fn set_and_read<R: Wait, S: Stake>(
    rt: &R,
    stake: &mut S,
    block: u32,
    place: usize,
    value: u8,
) -> Result<u8, Refusal>
    requires block { CanGet (S.held stake.old) (S.lent stake.old) block }
    requires place { place < (S.origin stake.old).sizes.block_size }
    requires line { IsSome (S.held stake.old block (place / 64)) }
    ensures value { IfOk result (λ got. got ≡ value) }
    ensures held { OnOk result (S.held stake.new ≡ with_byte block place value (S.held stake.old)) }
    ensures kept { OnErr result ((S.held stake.new ≡ S.held stake.old) ⊎ (S.held stake.new
        ≡ with_byte block place value (S.held stake.old))) }
    ensures lends { S.lent stake.new ≡ S.lent stake.old }
    ensures forced { S.forced stake.new ≡ S.forced stake.old }
    ensures origin { S.origin stake.new ≡ S.origin stake.old }
    ensures cause { HasFault (S.faults stake.old) (S.faults stake.new) result }
{
    set_byte(rt, stake, block, place, value)?;
    read_byte(rt, stake, block, place)
}

// Sets a byte in one stake, and then one in another. A fault of the first leaves both, one of the second leaves the second.
fn set_both<R: Wait, S: Stake>(
    rt: &R,
    one: &mut S,
    two: &mut S,
    mine: u32,
    theirs: u32,
) -> Result<(), Refusal>
    requires mine { CanGet (S.held one.old) (S.lent one.old) mine }
    requires first_mine { IsSome (S.held one.old mine 0) }
    requires theirs { CanGet (S.held two.old) (S.lent two.old) theirs }
    requires first_theirs { IsSome (S.held two.old theirs 0) }
    ensures held { OnOk result (S.held one.new ≡ with_byte mine 0 7 (S.held one.old)) }
    ensures other_held { OnOk result (S.held two.new ≡ with_byte theirs 0 9 (S.held two.old)) }
    ensures kept { OnErr result ((S.held one.new ≡ S.held one.old) ⊎ (S.held one.new ≡ with_byte mine 0 7 (S.held one.old))) }
    ensures other_kept { OnErr result (S.held two.new ≡ S.held two.old) }
    ensures lines { SameLines (S.held one.new) (S.held one.old) }
    ensures other_lines { SameLines (S.held two.new) (S.held two.old) }
    ensures lends { S.lent one.new ≡ S.lent one.old }
    ensures other_lends { S.lent two.new ≡ S.lent two.old }
    ensures forced { S.forced one.new ≡ S.forced one.old }
    ensures other_forced { S.forced two.new ≡ S.forced two.old }
    ensures origin { S.origin one.new ≡ S.origin one.old }
    ensures other_origin { S.origin two.new ≡ S.origin two.old }
    ensures count { S.faults one.old ≤ S.faults one.new }
    ensures cause { IfErr result (λ refusal. (refusal ≡ Fault) × (Rose (S.faults one.old) (S.faults one.new)
        ⊎ Rose (S.faults two.old) (S.faults two.new))) }
{
    let _sizes = one.geometry();
    let _other_sizes = two.geometry();
    set_byte(rt, one, mine, 0, 7)?;
    set_byte(rt, two, theirs, 0, 9)
}

/// Cuts some lines off, changes a byte on either side of the cut, and merges: all else is as it was. Want of memory
/// changes nothing.
pub fn cut_and_merge<R: Wait, S: Stake>(
    rt: &R,
    alloc: Global,
    stake: &mut S,
    lines: &[LineRange],
    mine: u32,
    theirs: u32,
) -> Result<(), Refusal>
    requires lines { CanPart (S.held stake.old) (S.lent stake.old) lines.now }
    requires first_mine { IsSome (S.held stake.old mine 0) }
    requires away { S.lent stake.old mine ≡ None }
    requires stays { in_ranges lines.now mine 0 ≡ false }
    requires goes { in_ranges lines.now theirs 0 ≡ true }
    ensures held { OnOk result (S.held stake.new ≡ with_byte mine 0 7 (with_byte theirs 0 9 (S.held stake.old))) }
    ensures kept { OnErr result ((S.held stake.new ≡ S.held stake.old) ⊎ (S.held stake.new ≡ with_byte mine 0 7 (S.held stake.old))) }
    ensures memory { IsErrOf result NoMemory → S.held stake.new ≡ S.held stake.old }
    ensures lends { S.lent stake.new ≡ S.lent stake.old }
    ensures forced { S.forced stake.new ≡ S.forced stake.old }
    ensures origin { S.origin stake.new ≡ S.origin stake.old }
    ensures cause { HasReason (S.faults stake.old) (S.faults stake.new) result }
{
    let _sizes = stake.geometry();
    let mut part = stake.part(alloc, lines)?;
    let done = set_both(rt, stake, &mut part, mine, theirs);
    stake.merge(part);
    done
}

/// Makes a block anew, of zero bytes, and lets it go.
pub fn make_zeros<R: Wait, S: Stake>(rt: &R, stake: &mut S, block: u32) -> Result<(), Refusal>
    requires { CanFresh (S.origin stake.old) (S.held stake.old) (S.lent stake.old) block }
    ensures zeros { OnOk result (S.held stake.new ≡ put block (replicate (S.origin stake.old).sizes.block_size 0) (S.held stake.old)) }
    ensures kept { OnErr result (S.held stake.new ≡ S.held stake.old) }
    ensures lends { S.lent stake.new ≡ S.lent stake.old }
    ensures forced { S.forced stake.new ≡ S.forced stake.old }
    ensures origin { S.origin stake.new ≡ S.origin stake.old }
    ensures cause { HasFault (S.faults stake.old) (S.faults stake.new) result }
{
    let zeros = stake.fresh(rt, block)?;
    stake.brelse(rt, zeros);
    Ok(())
}

/// Gets a block, has another read ahead, and writes the block as it is.
pub fn write_again<R: Wait, S: Stake>(
    rt: &R,
    stake: &mut S,
    block: u32,
    next: u32,
) -> Result<(), Refusal>
    requires block { CanGet (S.held stake.old) (S.lent stake.old) block }
    requires next { next < (S.origin stake.old).sizes.blocks }
    ensures held { S.held stake.new ≡ S.held stake.old }
    ensures lends { S.lent stake.new ≡ S.lent stake.old }
    ensures forced { OnOk result (S.forced stake.new ≡ true) }
    ensures origin { S.origin stake.new ≡ S.origin stake.old }
    ensures cause { HasFault (S.faults stake.old) (S.faults stake.new) result }
{
    let again = stake.breada(rt, block, next)?;
    stake.bwrite(rt, again)
}

/// Makes a block anew, writes it, and asks for the writing of what waits. After a fault it has zero bytes, or all is as it
/// was.
pub fn make_and_write<R: Wait, S: Stake>(
    rt: &R,
    stake: &mut S,
    block: u32,
    next: u32,
) -> Result<(), Refusal>
    requires block { CanFresh (S.origin stake.old) (S.held stake.old) (S.lent stake.old) block }
    requires next { next < (S.origin stake.old).sizes.blocks }
    requires lent { S.lent stake.old ≡ nothing_lent }
    ensures zeros { OnOk result (S.held stake.new ≡ put block (replicate (S.origin stake.old).sizes.block_size 0) (S.held stake.old)) }
    ensures kept { OnErr result ((S.held stake.new ≡ S.held stake.old) ⊎ (S.held stake.new
        ≡ put block (replicate (S.origin stake.old).sizes.block_size 0) (S.held stake.old))) }
    ensures lends { S.lent stake.new ≡ nothing_lent }
    ensures forced { OnOk result (S.forced stake.new ≡ true) }
    ensures origin { S.origin stake.new ≡ S.origin stake.old }
    ensures cause { HasFault (S.faults stake.old) (S.faults stake.new) result }
{
    make_zeros(rt, stake, block)?;
    write_again(rt, stake, block, next)?;
    stake.flush(rt)
}
