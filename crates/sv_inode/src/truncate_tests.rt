// Tests of a file that is made empty. The core has no free block before.
ghost use Rattle.std.specs.Prelude.{◌≡◌, ◌<◌, ◌∷◌, [], ℕ, IfOk, OnOk, IsSome, Some, length, replicate, set, slice_index, true};
ghost use Rattle.std.specs.List.{All};
ghost use Rattle.sv_store.specs.Held.{line_of, nothing_lent};
ghost use Rattle.sv_super.specs.Calls.{head_of};
ghost use Rattle.sv_super.specs.Sample.{IsSource, sample_sizes};

use crate::LockedInode;
use arrayvec::ArrayVec;
use std::alloc::Global;
use std::sync::Wait;
use std::test::Fail;
use sv_form::{Geometry, InodeBody, Kind, LineRange, Mounted, Owners, Super};
use sv_store::{NoMemory, OwnStake, Refusal, Stake};
use sv_super::SuperCore;

const SIZES: Geometry = Geometry {
    block_size: 1024,
    blocks: 64,
    first_data: 4,
};

// A file of eleven pages: the blocks 50 to 59, and 61, to which the indirect block 60 leads.
const FILE: InodeBody = InodeBody {
    kind: Kind::File,
    mode: 0o644,
    links: 1,
    owner: 0,
    group: 0,
    size: 11264,
    addresses: [50, 51, 52, 53, 54, 55, 56, 57, 58, 59, 60, 0, 0],
    times: [0; 3],
};

// A block whose first number is 61, and whose others are 0.
fn block(alloc: Global) -> Result<Vec<u8>, NoMemory>
    ensures size { IfOk result (λ bytes. length bytes.items ≡ 1024) }
    ensures row { IfOk result (λ bytes. bytes.items ≡ set (replicate 1024 0) 0 61) }
{
    let mut bytes = vec![in alloc; 0u8; 1024]?;
    bytes[0] = 61;
    Ok(bytes)
}

// 64 such blocks.
fn blocks(alloc: Global) -> Result<Vec<Vec<u8>>, NoMemory>
    ensures count { IfOk result (λ blocks. length blocks.items ≡ 64) }
    ensures bytes { IfOk result (λ blocks. All (λ bytes. length bytes.items ≡ 1024) blocks.items) }
    ensures row { IfOk result (λ blocks. All (λ bytes. bytes.items ≡ set (replicate 1024 0) 0 61) blocks.items) }
{
    let mut blocks = Vec::new(alloc);
    for _block in 0..64usize {
        let bytes = block(alloc)?;
        blocks.push(bytes)?;
    }
    Ok(blocks)
}

// A block of zero bytes.
fn zero_block(alloc: Global) -> Result<Vec<u8>, NoMemory>
    ensures size { IfOk result (λ bytes. length bytes.items ≡ 1024) }
    ensures zeros { IfOk result (λ bytes. bytes.items ≡ replicate 1024 0) }
{
    let bytes = vec![in alloc; 0u8; 1024]?;
    Ok(bytes)
}

// A stake of 64 blocks, in which one call fails. The lines of the first sixteen inodes are zero bytes.
fn whole_stake(alloc: Global, failing: u64) -> Result<OwnStake, NoMemory>
    ensures held { IfOk result (λ s. (b l : ℕ) → b < 64 → l < 16 → IsSome (⟦<OwnStake as Stake>⟧.held s b l)) }
    ensures first { IfOk result (λ s. ⟦<OwnStake as Stake>⟧.held s 2 0 ≡ Some (replicate 64 0)) }
    ensures row { IfOk result (λ s. (l : ℕ) → l < 16 → ⟦<OwnStake as Stake>⟧.held s 60 l ≡ Some (line_of (set (replicate 1024 0) 0 61) l)) }
    ensures lent { IfOk result (λ s. ⟦<OwnStake as Stake>⟧.lent s ≡ nothing_lent) }
    ensures sizes { IfOk result (λ s. (⟦<OwnStake as Stake>⟧.origin s).sizes ≡ sample_sizes) }
{
    let mut content = blocks(alloc)?;
    content[2] = zero_block(alloc)?;
    let mut fails = Vec::new(alloc);
    fails.push(failing)?;
    let stake = OwnStake::new(alloc, SIZES, content, fails)?;
    Ok(stake)
}

// What the check leaves of an image of which every line belongs to an inode, and each inode is used.
fn mounted(alloc: Global) -> Result<Mounted, NoMemory>
    ensures geometry { IfOk result (λ m. m.owners.geometry ≡ sample_sizes) }
    ensures count { IfOk result (λ m. length m.owners.owners ≡ 1024) }
    ensures owners { IfOk result (λ m. (k : ℕ) → k < 1024 → slice_index m.owners.owners k ≡ 2) }
    ensures sizes { IfOk result (λ m. head_of m.head ≡ record { block_type = 2; first_data = 4; blocks = 64 }) }
    ensures list { IfOk result (λ m. m.head.free.items ≡ 0 ∷ []) }
    ensures used { IfOk result (λ m. m.used.items ≡ replicate 32 true) }
    ensures inodes { IfOk result (λ m. m.head.inodes.items ≡ []) }
{
    let owner = vec![in alloc; 2u16; 1024]?;
    let used = vec![in alloc; true; 32]?;
    let mut free = ArrayVec::new();
    free.push(0);
    let head = Super {
        block_type: 2,
        first_data: 4,
        blocks: 64,
        free,
        inodes: ArrayVec::new(),
    };
    Ok(Mounted {
        geometry: SIZES,
        head,
        owners: Owners::from_vec(SIZES, owner),
        used,
    })
}

// The lines of the superblock and of inode 1, as a core without free blocks.
fn empty_core<S: Stake + Drop>(alloc: Global, source: &mut S) -> Result<SuperCore<S>, Refusal>
    requires held { (b l : ℕ) → b < 64 → l < 16 → IsSome (S.held source.old b l) }
    requires first { S.held source.old 2 0 ≡ Some (replicate 64 0) }
    requires row { (l : ℕ) → l < 16 → S.held source.old 60 l ≡ Some (line_of (set (replicate 1024 0) 0 61) l) }
    requires lent { S.lent source.old ≡ nothing_lent }
    requires sizes { (S.origin source.old).sizes ≡ sample_sizes }
    ensures source { IfOk result (λ core. IsSource (S.origin core.stake) (S.held core.stake) (S.origin source.new) (S.held source.new)
        (S.lent source.new) 64) }
    ensures line { OnOk result (IsSome (S.held source.new 2 2)) }
    ensures row { OnOk result ((l : ℕ) → l < 16 → S.held source.new 60 l ≡ Some (line_of (set (replicate 1024 0) 0 61) l)) }
{
    let lines = [
        LineRange {
            block: 0,
            first: 8,
            count: 8,
        },
        LineRange {
            block: 2,
            first: 0,
            count: 1,
        },
    ];
    let mounted = mounted(alloc)?;
    let stake = source.part(alloc, &lines)?;
    match SuperCore::new(alloc, stake, &mounted) {
        Ok(core) => Ok(core),
        Err(_) => Err(Refusal::NoMemory),
    }
}

// A core without free blocks, and a file whose stake has all other lines.
pub(crate) struct Disk {
    pub(crate) core: SuperCore<OwnStake>,
    pub(crate) inode: LockedInode<OwnStake>,
}

// A disk with this file as inode 3, where the calls of each stake with this number fail.
pub(crate) fn disk_with(alloc: Global, failing: u64, body: InodeBody) -> Result<Disk, Refusal>
    ensures source { IfOk result (λ disk. IsSource (⟦<OwnStake as Stake>⟧.origin disk.core.stake)
        (⟦<OwnStake as Stake>⟧.held disk.core.stake) (⟦<OwnStake as Stake>⟧.origin disk.inode.stake)
        (⟦<OwnStake as Stake>⟧.held disk.inode.stake) (⟦<OwnStake as Stake>⟧.lent disk.inode.stake) 64) }
    ensures line { IfOk result (λ disk. IsSome (⟦<OwnStake as Stake>⟧.held disk.inode.stake 2 2)) }
    ensures row { IfOk result (λ disk. (l : ℕ) → l < 16
        → ⟦<OwnStake as Stake>⟧.held disk.inode.stake 60 l ≡ Some (line_of (set (replicate 1024 0) 0 61) l)) }
    ensures number { IfOk result (λ disk. disk.inode.number ≡ 3) }
    ensures body { IfOk result (λ disk. disk.inode.body ≡ body) }
{
    let mut source = whole_stake(alloc, failing)?;
    let core = empty_core(alloc, &mut source)?;
    let inode = LockedInode {
        number: 3,
        body,
        stake: source,
    };
    Ok(Disk { core, inode })
}

// Lets a disk go.
pub(crate) fn let_go(disk: Disk) {
    let Disk { core, inode } = disk;
    let _stake = core.give_up();
    let LockedInode {
        number: _,
        body: _,
        stake: _rest,
    } = inode;
}

// The next block that is handed out.
fn next_block<R: Wait, S: Stake + Drop>(
    rt: &R,
    alloc: Global,
    core: &mut SuperCore<S>,
) -> Option<u32> {
    if core.left() == 0 {
        return None;
    }
    match core.alloc(rt, alloc) {
        Ok((block, _part)) => Some(block),
        Err(_) => None,
    }
}

// What is seen of a file as it is made empty: the answer, how many blocks are free before that and after it, which comes first
// then, and the file's size and addresses.
type Seen = (Result<(), Refusal>, u32, u32, Option<u32>, u32, [u32; 13]);

fn truncated<R: Wait, S: Stake + Drop>(
    rt: &R,
    alloc: Global,
    inode: &mut LockedInode<S>,
    core: &mut SuperCore<S>,
) -> Seen
    requires source { IsSource (S.origin core.old.stake) (S.held core.old.stake) (S.origin inode.old.stake) (S.held inode.old.stake)
        (S.lent inode.old.stake) 64 }
    requires number { inode.old.number ≡ 3 }
    requires line { IsSome (S.held inode.old.stake 2 2) }
    requires row { (l : ℕ) → l < 16 → S.held inode.old.stake 60 l ≡ Some (line_of (set (replicate 1024 0) 0 61) l) }
    requires addresses { inode.old.body.addresses ≡ 50 ∷ 51 ∷ 52 ∷ 53 ∷ 54 ∷ 55 ∷ 56 ∷ 57 ∷ 58 ∷ 59 ∷ 60 ∷ 0 ∷ 0 ∷ [] }
{
    let before = core.left();
    let answer = inode.truncate(rt, alloc, core);
    let after = core.left();
    let next = next_block(rt, alloc, core);
    (
        answer,
        before,
        after,
        next,
        inode.body.size,
        inode.body.addresses,
    )
}

// The file of eleven pages is made empty while one call fails.
fn run_truncate<R: Wait>(rt: &R, alloc: Global, failing: u64) -> Result<Seen, Refusal> {
    let mut disk = disk_with(alloc, failing, FILE)?;
    let seen = truncated(rt, alloc, &mut disk.inode, &mut disk.core);
    let_go(disk);
    Ok(seen)
}

#[test]
fn the_blocks_of_a_file_that_was_made_empty_are_free(rt: HostRuntime) -> Result<(), Fail> {
    assert_eq!(rt;
        run_truncate(&rt, rt.alloc(), 0),
        Ok((Ok(()), 0, 12, Some(50), 0, [0; 13]))
    );
    Ok(())
}

#[test]
fn a_file_whose_indirect_block_cannot_be_read_stays(rt: HostRuntime) -> Result<(), Fail> {
    assert_eq!(rt;
        run_truncate(&rt, rt.alloc(), 1),
        Ok((Err(Refusal::Fault), 0, 0, None, 11264, FILE.addresses))
    );
    Ok(())
}
