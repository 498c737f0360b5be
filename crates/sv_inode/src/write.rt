// Bytes are put into a file, page by page.
ghost use Rattle.std.specs.Prelude.{◌≡◌, ◌≤◌, ◌<◌, ◌+◌, ◌⊎◌, [], ℕ, IfOk, IfErr, OnOk, OnErr, IsErrOf, length, max, take};
ghost use Rattle.std.specs.List.{All, sum_by};
ghost use Rattle.sv_dev.specs.Causes.{Rose};
ghost use Rattle.sv_form.specs.Node.{Node};
ghost use Rattle.sv_form.specs.NodeChanges.{put, touched};
ghost use Rattle.sv_form.specs.PagePath.{greatest_size};
ghost use Rattle.sv_store.specs.Held.{Held, nothing_lent};
ghost use Rattle.sv_store.specs.declared.refusal.Refusal.TheVariants.{Fault};
ghost use Rattle.sv_super.specs.Core.{left_of};
ghost use Rattle.sv_inode.specs.StandsFor.{StandsFor};
ghost use Rattle.sv_inode.specs.Frames.{KeepsCore, KeepsFront, KeepsRoom, KeepsStake};
ghost use Rattle.sv_inode.specs.Truncate.{CanFreeAll, HoldsOnly, names_of};
ghost use Rattle.sv_inode.specs.Write.{ComesBack, HasRisen, HasRooms, IsPageEnd, IsSupplied, PutsBack, StopsAt, Uses, done_by, put_by};
ghost use Rattle.sv_inode.specs.Write.{write_need};

use crate::LockedInode;
use crate::cuts::free_all;
use crate::fill::write_page;
use crate::stop::WriteStop;
use crate::supplies::{Supplies, drop_rooms, gather};
use std::alloc::Global;
use std::sync::Wait;
use sv_bmap::need;
use sv_store::{Refusal, Stake};
use sv_super::SuperCore;

// Puts the bytes page by page, until one is refused: then it answers how many were put.
fn write_pages<R: Wait, S: Stake>(
    rt: &R,
    inode: &mut LockedInode<S>,
    at: u32,
    from: &[u8],
    supplies: &mut Supplies<S>,
) -> Result<(), u32>
    requires stands { (node : Node) × StandsFor (S.origin inode.old.stake) (S.held inode.old.stake) inode.old.body node }
    requires some { 0 < length from.now }
    requires end { at + length from.now ≤ greatest_size (S.origin inode.old.stake).sizes }
    requires cuts { (h : Held)
        × CanFreeAll S.held S.lent S.origin S.forced (S.origin inode.old.stake) h (S.held inode.old.stake) supplies.old.cuts.items }
    requires enough { length supplies.old.cuts.items
        ≡ write_need (S.origin inode.old.stake).sizes (S.held inode.old.stake) inode.old.body.addresses at (length from.now) }
    requires rooms { HasRooms (length (touched (S.origin inode.old.stake).sizes.block_size at (length from.now)))
        (S.origin inode.old.stake).sizes.block_size supplies.old.rooms.items supplies.old.page.items }
    requires lent { S.lent inode.old.stake ≡ nothing_lent }
    ensures node { (node : Node) → StandsFor (S.origin inode.old.stake) (S.held inode.old.stake) inode.old.body node
        → StandsFor (S.origin inode.new.stake) (S.held inode.new.stake) inode.new.body
        (put (S.origin inode.old.stake).sizes.block_size node at (take (put_by (length from.now) result) from.now)) }
    ensures cuts { (h : Held)
        → CanFreeAll S.held S.lent S.origin S.forced (S.origin inode.old.stake) h (S.held inode.old.stake) supplies.old.cuts.items
        → Uses S.held S.lent S.origin S.forced (S.origin inode.old.stake) h
        (S.held inode.old.stake) (S.held inode.new.stake) supplies.old.cuts.items supplies.new.cuts.items }
    ensures need { write_need (S.origin inode.old.stake).sizes (S.held inode.old.stake) inode.old.body.addresses at
        (put_by (length from.now) result)
        + length supplies.new.cuts.items ≡ length supplies.old.cuts.items }
    ensures done { IfErr result (λ done. (done < length from.now) × IsPageEnd (S.origin inode.old.stake).sizes.block_size at done) }
    ensures empty { All (λ room. room.items ≡ []) supplies.new.rooms.items }
    ensures body { inode.new.body ≡ record inode.old.body { size = inode.new.body.size; addresses = inode.new.body.addresses } }
    ensures number { inode.new.number ≡ inode.old.number }
    ensures only { (n : ℕ) → HoldsOnly (S.origin inode.old.stake) (S.held inode.old.stake) n inode.old.body.addresses
        → HoldsOnly (S.origin inode.old.stake) (S.held inode.new.stake) n inode.new.body.addresses }
    ensures front { KeepsFront S.held S.lent S.origin S.forced S.faults inode.old.stake inode.new.stake }
    ensures cause { OnErr result (Rose (S.faults inode.old.stake) (S.faults inode.new.stake)
        ⊎ (0 < sum_by (λ cut. S.faults cut.1) supplies.new.cuts.items)) }
{
    let sizes = inode.stake.geometry();
    let all = from.len() as u32;
    let first = at / sizes.block_size;
    let last = (at + all - 1) / sizes.block_size;
    let mut done = 0;
    for page in first..last + 1 {
        let inside = (at + done) % sizes.block_size;
        let next = done + (sizes.block_size - inside).min(all - done);
        let piece = &from[done as usize..next as usize];
        if write_page(rt, inode, page, inside as usize, piece, supplies).is_err() {
            return Err(done);
        }
        inode.body.size = inode.body.size.max(at + next);
        done = next;
    }
    Ok(())
}

// All that a write needs, or nothing.
pub(crate) fn prepare<R: Wait, S: Stake>(
    rt: &R,
    alloc: Global,
    inode: &mut LockedInode<S>,
    core: &mut SuperCore<S>,
    at: u32,
    all: u32,
) -> Result<Supplies<S>, Refusal>
    requires stands { (node : Node) × StandsFor (S.origin inode.old.stake) (S.held inode.old.stake) inode.old.body node }
    requires some { 0 < all }
    requires end { at + all ≤ greatest_size (S.origin inode.old.stake).sizes }
    requires left { write_need (S.origin inode.old.stake).sizes
        (S.held inode.old.stake) inode.old.body.addresses at all ≤ left_of core.old }
    requires lent { S.lent inode.old.stake ≡ nothing_lent }
    ensures supplies { IfOk result (λ supplies. IsSupplied S.held S.lent S.origin S.forced S.faults
        (write_need (S.origin inode.old.stake).sizes (S.held inode.old.stake) inode.old.body.addresses at all) core.old core.new
        supplies.cuts.items) }
    ensures rooms { IfOk result (λ supplies. HasRooms (length (touched (S.origin inode.old.stake).sizes.block_size at all))
        (S.origin inode.old.stake).sizes.block_size supplies.rooms.items supplies.page.items) }
    ensures spare { OnOk result (core.new.spare
        ≡ max core.old.spare (write_need (S.origin inode.old.stake).sizes (S.held inode.old.stake) inode.old.body.addresses at all)) }
    ensures spare_kept { OnErr result
        (KeepsRoom (write_need (S.origin inode.old.stake).sizes (S.held inode.old.stake) inode.old.body.addresses at all)
        0 core.old.spare core.new.spare) }
    ensures back { OnErr result (ComesBack S.held core.old core.new) }
    ensures left_kept { OnErr result (left_of core.new ≡ left_of core.old) }
    ensures body { inode.new.body ≡ inode.old.body }
    ensures number { inode.new.number ≡ inode.old.number }
    ensures held { S.held inode.new.stake ≡ S.held inode.old.stake }
    ensures stake { KeepsStake S.lent S.origin S.forced S.faults inode.old.stake inode.new.stake }
    ensures core { KeepsCore S.lent S.origin S.forced S.faults core.old core.new }
    ensures cause { IsErrOf result Fault → HasRisen (S.faults inode.old.stake) (S.faults inode.new.stake)
        ⊎ HasRisen (S.faults core.old.stake) (S.faults core.new.stake) }
{
    let _left = core.left();
    let sizes = inode.stake.geometry();
    let first = at / sizes.block_size;
    let last = (at + all - 1) / sizes.block_size;
    let pages = last - first + 1;
    let count = need(rt, &inode.body.addresses, &mut inode.stake, first, pages)?;
    gather(rt, alloc, core, count, pages, sizes.block_size)
}

// Puts the bytes, and gives back what was not used.
pub(crate) fn put_bytes<R: Wait, S: Stake>(
    rt: &R,
    inode: &mut LockedInode<S>,
    core: &mut SuperCore<S>,
    at: u32,
    from: &[u8],
    supplies: Supplies<S>,
) -> Result<(), WriteStop>
    requires stands { (node : Node) × StandsFor (S.origin inode.old.stake) (S.held inode.old.stake) inode.old.body node }
    requires some { 0 < length from.now }
    requires end { at + length from.now ≤ greatest_size (S.origin inode.old.stake).sizes }
    requires cuts { (h : Held)
        × (CanFreeAll S.held S.lent S.origin S.forced (S.origin inode.old.stake) h (S.held inode.old.stake) supplies.cuts.items
        × CanFreeAll S.held S.lent S.origin S.forced (S.origin core.old.stake) h (S.held core.old.stake) supplies.cuts.items) }
    requires spare { length supplies.cuts.items ≤ core.old.spare }
    requires enough { length supplies.cuts.items
        ≡ write_need (S.origin inode.old.stake).sizes (S.held inode.old.stake) inode.old.body.addresses at (length from.now) }
    requires rooms { HasRooms (length (touched (S.origin inode.old.stake).sizes.block_size at (length from.now)))
        (S.origin inode.old.stake).sizes.block_size supplies.rooms.items supplies.page.items }
    requires lent { S.lent inode.old.stake ≡ nothing_lent }
    requires origin { S.origin core.old.stake ≡ S.origin inode.old.stake }
    ensures node { (node : Node) → StandsFor (S.origin inode.old.stake) (S.held inode.old.stake) inode.old.body node
        → StandsFor (S.origin inode.new.stake) (S.held inode.new.stake) inode.new.body
        (put (S.origin inode.old.stake).sizes.block_size node at (take (done_by (length from.now) result) from.now)) }
    ensures back { (h : Held)
        → CanFreeAll S.held S.lent S.origin S.forced (S.origin inode.old.stake) h (S.held inode.old.stake) supplies.cuts.items
        → CanFreeAll S.held S.lent S.origin S.forced (S.origin core.old.stake) h (S.held core.old.stake) supplies.cuts.items
        → PutsBack S.held h (write_need (S.origin inode.old.stake).sizes (S.held inode.old.stake) inode.old.body.addresses at
        (done_by (length from.now) result))
        (names_of supplies.cuts.items) core.old core.new (S.held inode.old.stake) (S.held inode.new.stake) }
    ensures stop { IfErr result (StopsAt (S.origin inode.old.stake).sizes.block_size at (length from.now)
        (HasRisen (S.faults inode.old.stake) (S.faults inode.new.stake)
        ⊎ HasRisen (S.faults core.old.stake) (S.faults core.new.stake))) }
    ensures spare { KeepsRoom (write_need (S.origin inode.old.stake).sizes (S.held inode.old.stake) inode.old.body.addresses at
        (length from.now))
        (write_need (S.origin inode.old.stake).sizes (S.held inode.old.stake) inode.old.body.addresses at
        (done_by (length from.now) result))
        core.old.spare core.new.spare }
    ensures body { inode.new.body ≡ record inode.old.body { size = inode.new.body.size; addresses = inode.new.body.addresses } }
    ensures number { inode.new.number ≡ inode.old.number }
    ensures only { (n : ℕ) → HoldsOnly (S.origin inode.old.stake) (S.held inode.old.stake) n inode.old.body.addresses
        → HoldsOnly (S.origin inode.old.stake) (S.held inode.new.stake) n inode.new.body.addresses }
    ensures front { KeepsFront S.held S.lent S.origin S.forced S.faults inode.old.stake inode.new.stake }
    ensures core { KeepsCore S.lent S.origin S.forced S.faults core.old core.new }
{
    let mut supplies = supplies;
    let written = write_pages(rt, inode, at, from, &mut supplies);
    let Supplies {
        cuts,
        rooms,
        page: _,
    } = supplies;
    free_all(rt, core, cuts);
    drop_rooms(rooms);
    match written {
        Ok(()) => Ok(()),
        Err(done) => Err(WriteStop::Short { done }),
    }
}
