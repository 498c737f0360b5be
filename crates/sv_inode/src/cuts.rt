// Blocks that are cut off a stake, to be given back.
ghost use Rattle.std.specs.Prelude.{◌≡◌, ◌≤◌, ◌<◌, ◌+◌, ◌++◌, ◌∷◌, [], ℕ, IfOk, OnOk, OnErr, IsErrOf, false, length};
ghost use Rattle.std.specs.List.{All, sum_by};
ghost use Rattle.sv_dev.specs.Causes.{counted};
ghost use Rattle.sv_form.specs.Geometry.{IsDataBlock};
ghost use Rattle.sv_store.specs.Held.{Both, Held, HoldsBlock, SameLines, nothing_lent};
ghost use Rattle.sv_store.specs.declared.refusal.Refusal.TheVariants.{NoMemory};
ghost use Rattle.sv_super.specs.Core.{alone, less};
ghost use Rattle.sv_super.specs.Count.{times};
ghost use Rattle.sv_inode.specs.Frames.{KeepsCore};
ghost use Rattle.sv_inode.specs.Truncate.{AreBlocks, CanFreeAll, FreesAll, HoldsOther, IsCut, IsCutFrom, names_of, only};

use std::alloc::{AllocFailed, Global};
use std::sync::Wait;
use sv_store::{LineRange, Refusal, Stake};
use sv_super::SuperCore;

// A block, and the stake that has its lines.
pub(crate) type Cut<S> = (u32, S);

// Cuts all lines of a data block off.
fn cut_off<S: Stake>(alloc: Global, s: &mut S, b: u32) -> Result<S, Refusal>
    requires block { HoldsBlock (S.origin s.old) (S.held s.old) b }
    requires in_data { IsDataBlock (S.origin s.old).sizes b }
    requires other { HoldsOther (S.origin s.old) (S.held s.old) }
    requires lent { S.lent s.old ≡ nothing_lent }
    ensures mine { OnOk result (S.held s.new ≡ less b (S.held s.old)) }
    ensures theirs { IfOk result (λ part. S.held part ≡ alone b (S.held s.old)) }
    ensures part_lent { IfOk result (λ part. S.lent part ≡ nothing_lent) }
    ensures part_faults { IfOk result (λ part. S.faults part ≡ 0) }
    ensures part_forced { IfOk result (λ part. S.forced part ≡ false) }
    ensures part_origin { IfOk result (λ part. S.origin part ≡ S.origin s.old) }
    ensures err { OnErr result (S.held s.new ≡ S.held s.old) }
    ensures memory { OnErr result (IsErrOf result NoMemory) }
    ensures lends { S.lent s.new ≡ nothing_lent }
    ensures faults { S.faults s.new ≡ S.faults s.old }
    ensures forced { S.forced s.new ≡ S.forced s.old }
    ensures origin { S.origin s.new ≡ S.origin s.old }
{
    let sizes = s.geometry();
    let lines = [LineRange {
        block: b,
        first: 0,
        count: sizes.block_lines() as u8,
    }];
    s.part(alloc, &lines)
}

// Cuts one block more off.
fn cut_next<S: Stake>(
    alloc: Global,
    s: &mut S,
    b: u32,
    cuts: &mut Vec<Cut<S>>,
) -> Result<(), Refusal>
    requires block { HoldsBlock (S.origin s.old) (S.held s.old) b }
    requires in_data { IsDataBlock (S.origin s.old).sizes b }
    requires other { HoldsOther (S.origin s.old) (S.held s.old) }
    requires lent { S.lent s.old ≡ nothing_lent }
    ensures mine { OnOk result (S.held s.new ≡ less b (S.held s.old)) }
    ensures cut { OnOk result ((part : S)
        × ((cuts.new.items ≡ cuts.old.items ++ (b, part) ∷ []) × IsCut S.held S.lent S.origin S.forced S.faults (S.origin s.old)
        (S.held s.old) (b, part))) }
    ensures err { OnErr result (S.held s.new ≡ S.held s.old) }
    ensures none { OnErr result (cuts.new.items ≡ cuts.old.items) }
    ensures memory { OnErr result (IsErrOf result NoMemory) }
    ensures lends { S.lent s.new ≡ nothing_lent }
    ensures faults { S.faults s.new ≡ S.faults s.old }
    ensures forced { S.forced s.new ≡ S.forced s.old }
    ensures origin { S.origin s.new ≡ S.origin s.old }
{
    let _sizes = s.geometry();
    let part = cut_off(alloc, s, b)?;
    match cuts.push((b, part)) {
        Ok(()) => Ok(()),
        Err(failed) => {
            let AllocFailed { value } = failed;
            let (_, part) = value;
            s.merge(part);
            Err(Refusal::NoMemory)
        }
    }
}

// Cuts these blocks off one after another, as far as memory goes.
fn cut_each<S: Stake>(
    alloc: Global,
    s: &mut S,
    blocks: &[u32],
    cuts: &mut Vec<Cut<S>>,
) -> Result<(), Refusal>
    requires blocks { AreBlocks (S.origin s.old) (S.held s.old) blocks.now }
    requires other { HoldsOther (S.origin s.old) (S.held s.old) }
    requires none { cuts.old.items ≡ [] }
    requires lent { S.lent s.old ≡ nothing_lent }
    ensures cuts { IsCutFrom S.held S.lent S.origin S.forced S.faults (S.origin s.old) (S.held s.old) (S.held s.new) cuts.new.items }
    ensures names { OnOk result (names_of cuts.new.items ≡ blocks.now) }
    ensures memory { OnErr result (IsErrOf result NoMemory) }
    ensures lends { S.lent s.new ≡ nothing_lent }
    ensures faults { S.faults s.new ≡ S.faults s.old }
    ensures forced { S.forced s.new ≡ S.forced s.old }
    ensures origin { S.origin s.new ≡ S.origin s.old }
{
    for b in blocks {
        cut_next(alloc, s, *b, cuts)?;
    }
    Ok(())
}

// Takes in what was cut off.
fn merge_back<S: Stake>(s: &mut S, cuts: Vec<Cut<S>>)
    requires cuts { (h : Held) × IsCutFrom S.held S.lent S.origin S.forced S.faults (S.origin s.old) h (S.held s.old) cuts.items }
    requires lent { S.lent s.old ≡ nothing_lent }
    ensures held { (h : Held) → IsCutFrom S.held S.lent S.origin S.forced S.faults (S.origin s.old) h (S.held s.old) cuts.items
        → S.held s.new ≡ h }
    ensures lends { S.lent s.new ≡ nothing_lent }
    ensures faults { S.faults s.new ≡ S.faults s.old }
    ensures forced { S.forced s.new ≡ S.forced s.old }
    ensures origin { S.origin s.new ≡ S.origin s.old }
{
    let _sizes = s.geometry();
    let count = cuts.len();
    let mut cuts = cuts;
    for _cut in 0..count {
        let Some((_, part)) = cuts.pop() else {
            unreachable!()
        };
        s.merge(part);
    }
    cuts.destroy_empty();
}

// Cuts all these blocks off, or none.
pub(crate) fn cut_all<S: Stake>(
    alloc: Global,
    s: &mut S,
    blocks: &[u32],
) -> Result<Vec<Cut<S>>, Refusal>
    requires blocks { AreBlocks (S.origin s.old) (S.held s.old) blocks.now }
    requires other { HoldsOther (S.origin s.old) (S.held s.old) }
    requires lent { S.lent s.old ≡ nothing_lent }
    ensures cuts { IfOk result (λ cuts. IsCutFrom S.held S.lent S.origin S.forced S.faults (S.origin s.old) (S.held s.old)
        (S.held s.new) cuts.items) }
    ensures names { IfOk result (λ cuts. names_of cuts.items ≡ blocks.now) }
    ensures err { OnErr result (S.held s.new ≡ S.held s.old) }
    ensures memory { OnErr result (IsErrOf result NoMemory) }
    ensures lends { S.lent s.new ≡ nothing_lent }
    ensures faults { S.faults s.new ≡ S.faults s.old }
    ensures forced { S.forced s.new ≡ S.forced s.old }
    ensures origin { S.origin s.new ≡ S.origin s.old }
{
    let mut cuts = Vec::new(alloc);
    match cut_each(alloc, s, blocks, &mut cuts) {
        Ok(()) => Ok(cuts),
        Err(refusal) => {
            merge_back(s, cuts);
            Err(refusal)
        }
    }
}

// Frees all blocks that were cut off, the last one first.
pub(crate) fn free_all<R: Wait, S: Stake>(rt: &R, core: &mut SuperCore<S>, cuts: Vec<Cut<S>>)
    requires spare { length cuts.items ≤ core.old.spare }
    requires cuts { (h : Held) × CanFreeAll S.held S.lent S.origin S.forced (S.origin core.old.stake) h (S.held core.old.stake) cuts.items }
    ensures blocks { FreesAll (S.faults core.old.stake) (S.faults core.new.stake) core.old core.new (names_of cuts.items) }
    ensures spare { core.new.spare + length cuts.items ≡ core.old.spare }
    ensures lines { (h : Held) → CanFreeAll S.held S.lent S.origin S.forced (S.origin core.old.stake) h (S.held core.old.stake) cuts.items
        → SameLines (S.held core.new.stake) (Both (S.held core.old.stake) (only (names_of cuts.items) h)) }
    ensures others { (c l : ℕ) → times c (names_of cuts.items) ≡ 0 → S.held core.new.stake c l ≡ S.held core.old.stake c l }
    ensures core { KeepsCore S.lent S.origin S.forced S.faults core.old core.new }
    ensures faults { counted (S.faults core.old.stake) (sum_by (λ cut. S.faults cut.1) cuts.items) ≤ S.faults core.new.stake }
{
    let _left = core.left();
    let count = cuts.len();
    let mut cuts = cuts;
    for _cut in 0..count {
        let Some((b, part)) = cuts.pop() else {
            unreachable!()
        };
        core.free(rt, b, part);
    }
    cuts.destroy_empty();
}
