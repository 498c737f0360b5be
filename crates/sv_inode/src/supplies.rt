// What a write takes before it puts a byte, so that it needs no memory afterwards.
ghost use Rattle.std.specs.Prelude.{◌≡◌, ◌≤◌, ◌<◌, ◌+◌, ◌++◌, ◌∷◌, [], ℕ, IfOk, OnOk, OnErr, IsErrOf, length, max, vec_capacity, vec_len};
ghost use Rattle.std.specs.List.{All};
ghost use Rattle.sv_store.specs.Causes.{HasReason};
ghost use Rattle.sv_super.specs.Core.{IsSound, free_times, left_of};
ghost use Rattle.sv_super.specs.Count.{times};
ghost use Rattle.sv_store.specs.declared.refusal.Refusal.TheVariants.{Fault};
ghost use Rattle.sv_inode.specs.Truncate.{IsCutFrom, names_of};
ghost use Rattle.sv_inode.specs.Frames.{KeepsCore, KeepsRoom};
ghost use Rattle.sv_inode.specs.Write.{ComesBack, HasRisen, HasRooms, IsSupplied, TakesCut};

use crate::cuts::{Cut, free_all};
use std::alloc::{AllocFailed, Global};
use std::sync::Wait;
use sv_store::{NoMemory, Refusal, Stake};
use sv_super::SuperCore;

// How many blocks a page can need: itself, and three indirect blocks.
const PAGE_BLOCKS: usize = 4;

// Blocks with their stakes; for each page a list in which the stakes of its blocks find place; and the bytes of a page.
pub(crate) struct Supplies<S: Stake> {
    pub(crate) cuts: Vec<Cut<S>>,
    pub(crate) rooms: Vec<Vec<S>>,
    pub(crate) page: Vec<u8>,
}

// Adds an empty list with room for the stakes of one page.
fn add_room<S: Stake>(alloc: Global, rooms: &mut Vec<Vec<S>>) -> Result<(), NoMemory>
    requires empty { All (λ room. room.items ≡ []) rooms.old.items }
    requires roomy { All (λ room. 4 ≤ vec_capacity room) rooms.old.items }
    ensures empty { All (λ room. room.items ≡ []) rooms.new.items }
    ensures roomy { All (λ room. 4 ≤ vec_capacity room) rooms.new.items }
    ensures count { OnOk result (length rooms.new.items ≡ length rooms.old.items + 1) }
{
    let room = Vec::with_capacity(alloc, PAGE_BLOCKS)?;
    match rooms.push(room) {
        Ok(()) => Ok(()),
        Err(failed) => {
            let AllocFailed { value } = failed;
            value.destroy_empty();
            Err(NoMemory)
        }
    }
}

// Adds such a list for each page.
fn add_rooms<S: Stake>(alloc: Global, pages: u32, rooms: &mut Vec<Vec<S>>) -> Result<(), NoMemory>
    requires none { rooms.old.items ≡ [] }
    ensures empty { All (λ room. room.items ≡ []) rooms.new.items }
    ensures roomy { All (λ room. 4 ≤ vec_capacity room) rooms.new.items }
    ensures count { OnOk result (length rooms.new.items ≡ pages) }
{
    for _page in 0..pages {
        add_room(alloc, rooms)?;
    }
    Ok(())
}

// Gives the memory of such lists back.
pub(crate) fn drop_rooms<S: Stake>(rooms: Vec<Vec<S>>)
    requires empty { All (λ room. room.items ≡ []) rooms.items }
{
    let count = rooms.len();
    let mut rooms = rooms;
    for _room in 0..count {
        let Some(room) = rooms.pop() else {
            unreachable!()
        };
        room.destroy_empty();
    }
    rooms.destroy_empty();
}

// Such a list for each page.
fn make_rooms<S: Stake>(alloc: Global, pages: u32) -> Result<Vec<Vec<S>>, NoMemory>
    ensures empty { IfOk result (λ rooms. All (λ room. room.items ≡ []) rooms.items) }
    ensures roomy { IfOk result (λ rooms. All (λ room. 4 ≤ vec_capacity room) rooms.items) }
    ensures count { IfOk result (λ rooms. length rooms.items ≡ pages) }
{
    let mut rooms = Vec::new(alloc);
    match add_rooms(alloc, pages, &mut rooms) {
        Ok(()) => Ok(rooms),
        Err(failed) => {
            drop_rooms(rooms);
            Err(failed)
        }
    }
}

// Takes one free block more.
fn take_next<R: Wait, S: Stake>(
    rt: &R,
    alloc: Global,
    core: &mut SuperCore<S>,
    cuts: &mut Vec<Cut<S>>,
) -> Result<(), Refusal>
    requires { 1 ≤ left_of core.old }
    ensures taken { OnOk result (TakesCut S.held S.lent S.origin S.forced S.faults core.old core.new cuts.old.items cuts.new.items) }
    ensures none { OnErr result (cuts.new.items ≡ cuts.old.items) }
    ensures held { OnErr result (S.held core.new.stake ≡ S.held core.old.stake) }
    ensures chain { OnErr result (core.new.chain ≡ core.old.chain) }
    ensures aside { OnErr result (core.new.aside ≡ core.old.aside) }
    ensures spare { core.new.spare ≡ core.old.spare }
    ensures core { KeepsCore S.lent S.origin S.forced S.faults core.old core.new }
    ensures cause { HasReason (S.faults core.old.stake) (S.faults core.new.stake) result }
{
    let _left = core.left();
    cuts.reserve(1)?;
    let (b, part) = core.alloc(rt, alloc)?;
    push_cut(cuts, (b, part));
    Ok(())
}

// Adds a block where there is room.
pub(crate) fn push_cut<S: Stake>(cuts: &mut Vec<Cut<S>>, cut: Cut<S>)
    requires room { vec_len cuts.old < vec_capacity cuts.old }
    ensures items { cuts.new.items ≡ cuts.old.items ++ cut ∷ [] }
    ensures capacity { vec_capacity cuts.old ≤ vec_capacity cuts.new }
{
    match cuts.push(cut) {
        Ok(()) => {}
        Err(_) => unreachable!(),
    }
}

// Takes so many free blocks, as far as it goes.
fn take_each<R: Wait, S: Stake>(
    rt: &R,
    alloc: Global,
    core: &mut SuperCore<S>,
    count: u32,
    cuts: &mut Vec<Cut<S>>,
) -> Result<(), Refusal>
    requires left { count ≤ left_of core.old }
    requires none { cuts.old.items ≡ [] }
    ensures cuts { IsCutFrom S.held S.lent S.origin S.forced S.faults (S.origin core.old.stake) (S.held core.old.stake)
        (S.held core.new.stake) cuts.new.items }
    ensures taken { (b : ℕ) → free_times core.new.chain core.new.aside b + times b (names_of cuts.new.items)
        ≡ free_times core.old.chain core.old.aside b }
    ensures sound { IsSound (S.origin core.old.stake) (S.held core.old.stake) (S.lent core.old.stake)
        (free_times core.old.chain core.old.aside) }
    ensures few { length cuts.new.items ≤ count }
    ensures left { left_of core.new + length cuts.new.items ≡ left_of core.old }
    ensures count { OnOk result (length cuts.new.items ≡ count) }
    ensures spare { core.new.spare ≡ core.old.spare }
    ensures core { KeepsCore S.lent S.origin S.forced S.faults core.old core.new }
    ensures cause { HasReason (S.faults core.old.stake) (S.faults core.new.stake) result }
{
    let _left = core.left();
    for _block in 0..count {
        take_next(rt, alloc, core, cuts)?;
    }
    Ok(())
}

// Takes so many free blocks, or none.
fn take_all<R: Wait, S: Stake>(
    rt: &R,
    alloc: Global,
    core: &mut SuperCore<S>,
    count: u32,
) -> Result<Vec<Cut<S>>, Refusal>
    requires left { count ≤ left_of core.old }
    requires spare { count ≤ core.old.spare }
    ensures cuts { IfOk result (λ cuts. IsSupplied S.held S.lent S.origin S.forced S.faults count core.old core.new cuts.items) }
    ensures left_kept { OnErr result (left_of core.new ≡ left_of core.old) }
    ensures spare { OnOk result (core.new.spare ≡ core.old.spare) }
    ensures spare_kept { OnErr result (KeepsRoom count 0 core.old.spare core.new.spare) }
    ensures back { OnErr result (ComesBack S.held core.old core.new) }
    ensures core { KeepsCore S.lent S.origin S.forced S.faults core.old core.new }
    ensures cause { IsErrOf result Fault → HasRisen (S.faults core.old.stake) (S.faults core.new.stake) }
{
    let mut cuts = Vec::new(alloc);
    match take_each(rt, alloc, core, count, &mut cuts) {
        Ok(()) => Ok(cuts),
        Err(refusal) => {
            free_all(rt, core, cuts);
            Err(refusal)
        }
    }
}

// All that a write of so many blocks and pages needs, or nothing.
pub(crate) fn gather<R: Wait, S: Stake>(
    rt: &R,
    alloc: Global,
    core: &mut SuperCore<S>,
    count: u32,
    pages: u32,
    block_size: u32,
) -> Result<Supplies<S>, Refusal>
    requires left { count ≤ left_of core.old }
    ensures supplies { IfOk result (λ supplies.
        IsSupplied S.held S.lent S.origin S.forced S.faults count core.old core.new supplies.cuts.items) }
    ensures rooms { IfOk result (λ supplies. HasRooms pages block_size supplies.rooms.items supplies.page.items) }
    ensures left_kept { OnErr result (left_of core.new ≡ left_of core.old) }
    ensures spare { OnOk result (core.new.spare ≡ max core.old.spare count) }
    ensures spare_kept { OnErr result (KeepsRoom count 0 core.old.spare core.new.spare) }
    ensures back { OnErr result (ComesBack S.held core.old core.new) }
    ensures core { KeepsCore S.lent S.origin S.forced S.faults core.old core.new }
    ensures cause { IsErrOf result Fault → HasRisen (S.faults core.old.stake) (S.faults core.new.stake) }
{
    let _left = core.left();
    core.room(count)?;
    let page = vec![in alloc; 0u8; block_size as usize]?;
    let rooms = make_rooms(alloc, pages)?;
    match take_all(rt, alloc, core, count) {
        Ok(cuts) => Ok(Supplies { cuts, rooms, page }),
        Err(refusal) => {
            drop_rooms(rooms);
            Err(refusal)
        }
    }
}
