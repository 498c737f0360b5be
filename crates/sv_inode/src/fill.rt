// One page of a file is written.
ghost use Rattle.std.specs.Prelude.{◌≡◌, ◌≢◌, ◌≤◌, ◌<◌, ◌+◌, ◌-◌, ◌⊎◌, ◌++◌, ◌∷◌, [], ℕ, suc, OnOk, OnErr, length};
ghost use Rattle.std.specs.Prelude.{replicate, reverse, vec_capacity, vec_len};
ghost use Rattle.std.specs.List.{All, sum_by};
ghost use Rattle.std.specs.FinMap as fmap;
ghost use Rattle.sv_dev.specs.Causes.{Rose};
ghost use Rattle.sv_form.specs.Node.{Node};
ghost use Rattle.sv_form.specs.PagePath.{IsPage};
ghost use Rattle.sv_store.specs.Calls.{Gets};
ghost use Rattle.sv_store.specs.Causes.{HasFault};
ghost use Rattle.sv_store.specs.Loan.{Loan};
ghost use Rattle.sv_store.specs.Held.{Held, HoldsBlock, Origin, SameLines, nothing_lent, put};
ghost use Rattle.sv_bmap.specs.Need.{need_of};
ghost use Rattle.sv_inode.specs.StandsFor.{StandsFor};
ghost use Rattle.sv_inode.specs.Frames.{KeepsFront};
ghost use Rattle.sv_inode.specs.Truncate.{CanFreeAll, HoldsOnly, IsPart, names_of};
ghost use Rattle.sv_inode.specs.Write.{ArePaired, HasRooms, IsHole, IsRoom, LiesIn, Uses, patched, with_piece};

use crate::LockedInode;
use crate::cuts::Cut;
use crate::supplies::{Supplies, push_cut};
use arrayvec::ArrayVec;
use std::sync::Wait;
use sv_bmap::{attach, lookup, need};
use sv_store::{Refusal, Stake};

// The numbers of the blocks that a page needs.
type Names = ArrayVec<u32, 4>;

// Puts a piece into a page that is present.
fn overwrite<R: Wait, S: Stake>(
    rt: &R,
    s: &mut S,
    b: u32,
    from: usize,
    piece: &[u8],
) -> Result<(), Refusal>
    requires block { HoldsBlock (S.origin s.old) (S.held s.old) b }
    requires fits { from + length piece.now ≤ (S.origin s.old).sizes.block_size }
    requires lent { S.lent s.old ≡ nothing_lent }
    ensures ok { OnOk result ((buf : Loan)
        × (Gets (S.origin s.old) (S.held s.old) b buf × (S.held s.new ≡ put b (patched buf.bytes from piece.now) (S.held s.old)))) }
    ensures err { OnErr result (S.held s.new ≡ S.held s.old) }
    ensures lines { SameLines (S.held s.new) (S.held s.old) }
    ensures others { (c l : ℕ) → c ≢ b → S.held s.new c l ≡ S.held s.old c l }
    ensures lends { S.lent s.new ≡ nothing_lent }
    ensures forced { S.forced s.new ≡ S.forced s.old }
    ensures origin { S.origin s.new ≡ S.origin s.old }
    ensures cause { HasFault (S.faults s.old) (S.faults s.new) result }
{
    let _sizes = s.geometry();
    let mut buf = s.bread(rt, b)?;
    let bytes = buf.bytes_mut();
    copy_in(bytes, from, piece);
    s.bdwrite(rt, buf);
    Ok(())
}

// Copies a piece into bytes.
fn copy_in(bytes: &mut [u8], from: usize, piece: &[u8])
    requires fits { from + length piece.now ≤ length bytes.old }
    ensures bytes { bytes.new ≡ patched bytes.old from piece.now }
    ensures len { length bytes.new ≡ length bytes.old }
{
    bytes[from..from + piece.len()].copy_from_slice(piece);
}

// Makes these the bytes of a page of zeros with a piece in it.
fn lay_out(bytes: &mut [u8], from: usize, piece: &[u8])
    requires fits { from + length piece.now ≤ length bytes.old }
    ensures bytes { bytes.new ≡ patched (replicate (length bytes.old) 0) from piece.now }
    ensures len { length bytes.new ≡ length bytes.old }
{
    bytes.fill(0);
    copy_in(bytes, from, piece);
}

// Takes the last blocks out, so many.
fn take_out<S: Stake>(cuts: &mut Vec<Cut<S>>, count: u32, names: &mut Names, parts: &mut Vec<S>)
    requires few { count ≤ 4 }
    requires enough { count ≤ length cuts.old.items }
    requires room { 4 ≤ vec_capacity parts.old }
    requires no_names { names.old.items ≡ [] }
    requires no_parts { parts.old.items ≡ [] }
    ensures names { names_of cuts.new.items ++ reverse names.new.items ≡ names_of cuts.old.items }
    ensures count { length names.new.items ≡ count }
    ensures capacity { vec_capacity cuts.new ≡ vec_capacity cuts.old }
    ensures left { (o : Origin) (h : Held) → All (IsPart S.held S.lent S.origin S.forced o h) cuts.old.items
        → All (IsPart S.held S.lent S.origin S.forced o h) cuts.new.items }
    ensures parts { (o : Origin) (h : Held) → All (IsPart S.held S.lent S.origin S.forced o h) cuts.old.items
        → ArePaired S.held S.lent S.origin S.forced o h names.new.items parts.new.items }
{
    for _block in 0..count {
        let Some((b, part)) = cuts.pop() else {
            unreachable!()
        };
        names.push(b);
        push_part(parts, part);
    }
}

// Adds a part where there is room.
fn push_part<S: Stake>(parts: &mut Vec<S>, part: S)
    requires room { vec_len parts.old < vec_capacity parts.old }
    ensures items { parts.new.items ≡ parts.old.items ++ part ∷ [] }
    ensures capacity { vec_capacity parts.old ≤ vec_capacity parts.new }
{
    match parts.push(part) {
        Ok(()) => {}
        Err(_) => unreachable!(),
    }
}

// Puts blocks back that were taken out.
fn put_back<S: Stake>(cuts: &mut Vec<Cut<S>>, names: Names, parts: Vec<S>)
    requires room { length cuts.old.items + length names.items ≤ vec_capacity cuts.old }
    requires count { length parts.items ≡ length names.items }
    ensures names { names_of cuts.new.items ≡ names_of cuts.old.items ++ reverse names.items }
    ensures each { (o : Origin) (h : Held) → All (IsPart S.held S.lent S.origin S.forced o h) cuts.old.items
        → ArePaired S.held S.lent S.origin S.forced o h names.items parts.items
        → All (IsPart S.held S.lent S.origin S.forced o h) cuts.new.items }
    ensures faults { sum_by (λ cut. S.faults cut.1) cuts.new.items ≡ sum_by (λ cut. S.faults cut.1) cuts.old.items
        + sum_by S.faults parts.items }
{
    let count = parts.len();
    let mut names = names;
    let mut parts = parts;
    for _block in 0..count {
        let Some(b) = names.pop() else { unreachable!() };
        let Some(part) = parts.pop() else {
            unreachable!()
        };
        push_cut(cuts, (b, part));
    }
    parts.destroy_empty();
}

// Makes a page present that was a hole, with these bytes, by the last blocks of those at hand.
fn add_page<R: Wait, S: Stake>(
    rt: &R,
    inode: &mut LockedInode<S>,
    page: u32,
    bytes: &[u8],
    cuts: &mut Vec<Cut<S>>,
    room: Vec<S>,
) -> Result<(), Refusal>
    requires stands { (node : Node) × StandsFor (S.origin inode.old.stake) (S.held inode.old.stake) inode.old.body node }
    requires hole { IsHole (S.origin inode.old.stake).sizes (S.held inode.old.stake) inode.old.body.addresses page }
    requires size { length bytes.now ≡ (S.origin inode.old.stake).sizes.block_size }
    requires cuts { (h : Held)
        × CanFreeAll S.held S.lent S.origin S.forced (S.origin inode.old.stake) h (S.held inode.old.stake) cuts.old.items }
    requires enough { need_of (S.origin inode.old.stake).sizes
        (S.held inode.old.stake) inode.old.body.addresses page 1 ≤ length cuts.old.items }
    requires room { IsRoom room }
    requires lent { S.lent inode.old.stake ≡ nothing_lent }
    ensures node { (node : Node) → StandsFor (S.origin inode.old.stake) (S.held inode.old.stake) inode.old.body node
        → OnOk result (StandsFor (S.origin inode.new.stake) (S.held inode.new.stake) inode.new.body
        (record node { pages = fmap.insert node.pages page bytes.now })) }
    ensures cuts { (h : Held)
        → CanFreeAll S.held S.lent S.origin S.forced (S.origin inode.old.stake) h (S.held inode.old.stake) cuts.old.items
        → Uses S.held S.lent S.origin S.forced (S.origin inode.old.stake) h
        (S.held inode.old.stake) (S.held inode.new.stake) cuts.old.items cuts.new.items }
    ensures need { OnOk result ((n : ℕ) → IsPage (S.origin inode.old.stake).sizes (page + n)
        → need_of (S.origin inode.old.stake).sizes (S.held inode.old.stake) inode.old.body.addresses page (suc n) + length cuts.new.items
        ≡ need_of (S.origin inode.old.stake).sizes (S.held inode.new.stake) inode.new.body.addresses (suc page) n + length cuts.old.items) }
    ensures count { OnErr result (length cuts.new.items ≡ length cuts.old.items) }
    ensures body { inode.new.body ≡ record inode.old.body { addresses = inode.new.body.addresses } }
    ensures body_kept { OnErr result (inode.new.body ≡ inode.old.body) }
    ensures held { OnErr result (S.held inode.new.stake ≡ S.held inode.old.stake) }
    ensures number { inode.new.number ≡ inode.old.number }
    ensures only { (n : ℕ) → HoldsOnly (S.origin inode.old.stake) (S.held inode.old.stake) n inode.old.body.addresses
        → HoldsOnly (S.origin inode.old.stake) (S.held inode.new.stake) n inode.new.body.addresses }
    ensures front { KeepsFront S.held S.lent S.origin S.forced S.faults inode.old.stake inode.new.stake }
    ensures cause { OnErr result (Rose (S.faults inode.old.stake) (S.faults inode.new.stake)
        ⊎ (0 < sum_by (λ cut. S.faults cut.1) cuts.new.items)) }
{
    let _sizes = inode.stake.geometry();
    let count = match need(rt, &inode.body.addresses, &mut inode.stake, page, 1) {
        Ok(count) => count,
        Err(refusal) => {
            room.destroy_empty();
            return Err(refusal);
        }
    };
    let mut names = ArrayVec::new();
    let mut parts = room;
    take_out(cuts, count, &mut names, &mut parts);
    match attach(
        rt,
        &mut inode.body.addresses,
        &mut inode.stake,
        page,
        names.as_slice(),
        parts,
        bytes,
    ) {
        Ok(()) => Ok(()),
        Err((refusal, parts)) => {
            put_back(cuts, names, parts);
            Err(refusal)
        }
    }
}

// Puts a piece into a page.
pub(crate) fn write_page<R: Wait, S: Stake>(
    rt: &R,
    inode: &mut LockedInode<S>,
    page: u32,
    from: usize,
    piece: &[u8],
    supplies: &mut Supplies<S>,
) -> Result<(), Refusal>
    requires stands { (node : Node) × StandsFor (S.origin inode.old.stake) (S.held inode.old.stake) inode.old.body node }
    requires piece { LiesIn (S.origin inode.old.stake).sizes page from (length piece.now) }
    requires cuts { (h : Held)
        × CanFreeAll S.held S.lent S.origin S.forced (S.origin inode.old.stake) h (S.held inode.old.stake) supplies.old.cuts.items }
    requires enough { need_of (S.origin inode.old.stake).sizes
        (S.held inode.old.stake) inode.old.body.addresses page 1 ≤ length supplies.old.cuts.items }
    requires rooms { HasRooms 1 (S.origin inode.old.stake).sizes.block_size supplies.old.rooms.items supplies.old.page.items }
    requires lent { S.lent inode.old.stake ≡ nothing_lent }
    ensures node { (node : Node) → StandsFor (S.origin inode.old.stake) (S.held inode.old.stake) inode.old.body node
        → OnOk result (StandsFor (S.origin inode.new.stake) (S.held inode.new.stake) inode.new.body
        (with_piece (S.origin inode.old.stake).sizes.block_size node page from piece.now)) }
    ensures cuts { (h : Held)
        → CanFreeAll S.held S.lent S.origin S.forced (S.origin inode.old.stake) h (S.held inode.old.stake) supplies.old.cuts.items
        → Uses S.held S.lent S.origin S.forced (S.origin inode.old.stake) h
        (S.held inode.old.stake) (S.held inode.new.stake) supplies.old.cuts.items supplies.new.cuts.items }
    ensures need { OnOk result ((n : ℕ) → IsPage (S.origin inode.old.stake).sizes (page + n)
        → need_of (S.origin inode.old.stake).sizes (S.held inode.old.stake) inode.old.body.addresses page (suc n)
        + length supplies.new.cuts.items
        ≡ need_of (S.origin inode.old.stake).sizes (S.held inode.new.stake) inode.new.body.addresses (suc page) n
        + length supplies.old.cuts.items) }
    ensures count { OnErr result (length supplies.new.cuts.items ≡ length supplies.old.cuts.items) }
    ensures rooms { HasRooms (length supplies.old.rooms.items - 1)
        (S.origin inode.old.stake).sizes.block_size supplies.new.rooms.items supplies.new.page.items }
    ensures body { inode.new.body ≡ record inode.old.body { addresses = inode.new.body.addresses } }
    ensures body_kept { OnErr result (inode.new.body ≡ inode.old.body) }
    ensures held { OnErr result (S.held inode.new.stake ≡ S.held inode.old.stake) }
    ensures number { inode.new.number ≡ inode.old.number }
    ensures only { (n : ℕ) → HoldsOnly (S.origin inode.old.stake) (S.held inode.old.stake) n inode.old.body.addresses
        → HoldsOnly (S.origin inode.old.stake) (S.held inode.new.stake) n inode.new.body.addresses }
    ensures front { KeepsFront S.held S.lent S.origin S.forced S.faults inode.old.stake inode.new.stake }
    ensures cause { OnErr result (Rose (S.faults inode.old.stake) (S.faults inode.new.stake)
        ⊎ (0 < sum_by (λ cut. S.faults cut.1) supplies.new.cuts.items)) }
{
    let _sizes = inode.stake.geometry();
    let block = lookup(rt, &inode.body.addresses, &mut inode.stake, page)?;
    match block {
        Some(b) => overwrite(rt, &mut inode.stake, b, from, piece),
        None => {
            let Some(room) = supplies.rooms.pop() else {
                unreachable!()
            };
            lay_out(&mut supplies.page, from, piece);
            add_page(rt, inode, page, &supplies.page, &mut supplies.cuts, room)
        }
    }
}
