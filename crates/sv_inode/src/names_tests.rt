ghost use Rattle.std.specs.Prelude.{◌≡◌, ◌<◌, ◌∷◌, [], ℕ, IfOk, IsSome, length};
ghost use Rattle.std.specs.List.{All};
ghost use Rattle.sv_store.specs.Held.{nothing_lent};

use crate::LockedInode;
use std::alloc::Global;
use std::sync::Wait;
use std::test::Fail;
use sv_form::{Geometry, InodeBody, Kind, Name};
use sv_store::{NoMemory, OwnStake, Refusal, Stake};

// The page of the directory: its two dots, an empty entry, "a" of inode 7, fourteen times "b" of inode 257, and "a" again.
fn page(alloc: Global) -> Result<Vec<u8>, NoMemory>
    ensures { IfOk result (λ bytes. length bytes.items ≡ 1024) }
{
    let mut bytes = vec![in alloc; 0u8; 1024]?;
    bytes[0] = 3;
    bytes[2] = b'.';
    bytes[16] = 2;
    bytes[18] = b'.';
    bytes[19] = b'.';
    bytes[48] = 7;
    bytes[50] = b'a';
    bytes[64] = 1;
    bytes[65] = 1;
    bytes[66..80].fill(b'b');
    bytes[80] = 8;
    bytes[82] = b'a';
    Ok(bytes)
}

// Block 50 is that page, and every other block has zero bytes.
fn block(alloc: Global, number: u8) -> Result<Vec<u8>, NoMemory>
    ensures { IfOk result (λ bytes. length bytes.items ≡ 1024) }
{
    if number == 50 {
        return page(alloc);
    }
    let bytes = vec![in alloc; 0u8; 1024]?;
    Ok(bytes)
}

// 200 such blocks.
fn blocks(alloc: Global) -> Result<Vec<Vec<u8>>, NoMemory>
    ensures count { IfOk result (λ blocks. length blocks.items ≡ 200) }
    ensures bytes { IfOk result (λ blocks. All (λ bytes. length bytes.items ≡ 1024) blocks.items) }
{
    let mut blocks = Vec::new(alloc);
    for number in 0..200u8 {
        let bytes = block(alloc, number)?;
        blocks.push(bytes)?;
    }
    Ok(blocks)
}

// A stake of these blocks, whose call with this number fails.
fn stake(alloc: Global, failing: u64) -> Result<OwnStake, NoMemory>
    ensures held { IfOk result (λ s. (b l : ℕ) → b < 200 → l < 16 → IsSome (⟦<OwnStake as Stake>⟧.held s b l)) }
    ensures lent { IfOk result (λ s. ⟦<OwnStake as Stake>⟧.lent s ≡ nothing_lent) }
    ensures sizes { IfOk result (λ s. ⟦<OwnStake as Stake>⟧.origin s
        ≡ record { id = failing ∷ []; sizes = record { block_size = 1024; blocks = 200; first_data = 3 } }) }
{
    let sizes = Geometry {
        block_size: 1024,
        blocks: 200,
        first_data: 3,
    };
    let content = blocks(alloc)?;
    let mut fails = Vec::new(alloc);
    fails.push(failing)?;
    let stake = OwnStake::new(alloc, sizes, content, fails)?;
    Ok(stake)
}

// The directory of six entries in block 50.
const DIRECTORY: InodeBody = InodeBody {
    kind: Kind::Dir,
    mode: 0o755,
    links: 2,
    owner: 0,
    group: 0,
    size: 96,
    addresses: [50, 0, 0, 0, 0, 0, 0, 0, 0, 0, 0, 0, 0],
    times: [0; 3],
};

// What a name leads to, where the call with this number fails.
fn looked<R: Wait>(
    rt: &R,
    alloc: Global,
    failing: u64,
    name: &[u8],
) -> Result<Option<u16>, Refusal> {
    let Some(name) = Name::read(name) else {
        return Ok(None);
    };
    let stake = stake(alloc, failing)?;
    let mut inode = LockedInode {
        number: 3,
        body: DIRECTORY,
        stake,
    };
    let found = inode.look(rt, &name);
    let LockedInode {
        number: _,
        body: _,
        stake: _rest,
    } = inode;
    found
}

// What the second name leads to once the first was cleared, where the call with this number fails.
fn cleared<R: Wait>(
    rt: &R,
    alloc: Global,
    failing: u64,
    name: &[u8],
    other: &[u8],
) -> Result<Option<u16>, Refusal> {
    let Some(name) = Name::read(name) else {
        return Ok(None);
    };
    let Some(other) = Name::read(other) else {
        return Ok(None);
    };
    let stake = stake(alloc, failing)?;
    let mut inode = LockedInode {
        number: 3,
        body: DIRECTORY,
        stake,
    };
    let done = inode.clear(rt, &name);
    let found = inode.look(rt, &other);
    let LockedInode {
        number: _,
        body: _,
        stake: _rest,
    } = inode;
    done?;
    found
}

// No call has this number.
const NONE: u64 = 0;

#[test]
fn a_name_leads_to_its_inode(rt: HostRuntime) -> Result<(), Fail> {
    assert_eq!(rt; looked(&rt, rt.alloc(), NONE, b"."), Ok(Some(3)));
    assert_eq!(rt; looked(&rt, rt.alloc(), NONE, b".."), Ok(Some(2)));
    assert_eq!(rt; looked(&rt, rt.alloc(), NONE, b"a"), Ok(Some(7)));
    assert_eq!(rt;
        looked(&rt, rt.alloc(), NONE, b"bbbbbbbbbbbbbb"),
        Ok(Some(257))
    );
    Ok(())
}

#[test]
fn a_name_that_is_absent_leads_nowhere(rt: HostRuntime) -> Result<(), Fail> {
    assert_eq!(rt; looked(&rt, rt.alloc(), NONE, b"b"), Ok(None));
    assert_eq!(rt; looked(&rt, rt.alloc(), NONE, b"bbbbbbbbbbbbb"), Ok(None));
    assert_eq!(rt; looked(&rt, rt.alloc(), NONE, b"aa"), Ok(None));
    Ok(())
}

#[test]
fn a_page_is_read_once_and_a_failed_read_is_a_fault(rt: HostRuntime) -> Result<(), Fail> {
    assert_eq!(rt; looked(&rt, rt.alloc(), 1, b"a"), Err(Refusal::Fault));
    assert_eq!(rt; looked(&rt, rt.alloc(), 2, b"a"), Ok(Some(7)));
    Ok(())
}

#[test]
fn a_name_that_was_cleared_is_gone(rt: HostRuntime) -> Result<(), Fail> {
    assert_eq!(rt; cleared(&rt, rt.alloc(), NONE, b"..", b".."), Ok(None));
    assert_eq!(rt; cleared(&rt, rt.alloc(), NONE, b"..", b"a"), Ok(Some(7)));
    assert_eq!(rt; cleared(&rt, rt.alloc(), NONE, b"a", b"a"), Ok(Some(8)));
    assert_eq!(rt; cleared(&rt, rt.alloc(), NONE, b"c", b"a"), Ok(Some(7)));
    Ok(())
}

#[test]
fn each_failed_call_of_clear_is_a_fault(rt: HostRuntime) -> Result<(), Fail> {
    assert_eq!(rt;
        cleared(&rt, rt.alloc(), 1, b"a", b"."),
        Err(Refusal::Fault)
    );
    assert_eq!(rt;
        cleared(&rt, rt.alloc(), 2, b"a", b"."),
        Err(Refusal::Fault)
    );
    Ok(())
}
