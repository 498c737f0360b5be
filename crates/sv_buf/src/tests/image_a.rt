//! A read ahead over the image that `mkfs A 64 32` makes: the root's page, which is block 4, with block 5.
ghost use Rattle.std.specs.Prelude.{◌≡◌, ◌<◌, IfOk, length};
ghost use Rattle.sv_turn.specs.Passes.{first_view};
ghost use Rattle.sv_store.specs.Calls.{CanGet};
ghost use Rattle.sv_buf.specs.Ending.{HasAll};
ghost use Rattle.sv_buf.specs.Sharing.{KeepsLines};

use super::{end, open, stop_all};
use crate::NoMemory;
use crate::cache::{Cache, CachePass};
use std::alloc::Global;
use std::sync::Wait;
use std::test::Fail as TestFail;
use sv_dev::{Access, Disk, MemDisk};
use sv_form::Geometry;
use sv_store::{Refusal, Stake};

const SIZES_A: Geometry = Geometry {
    block_size: 1024,
    blocks: 64,
    first_data: 4,
};

// Bytes of the image, each with its place: the superblock, the root's inode, its page, and the count of the list in block 14.
const BYTES: &[(usize, &[u8])] = &[
    (512, b"SV5F\x02\0\x04\0\x40\0\0\0\x0a\0\x1e\0"),
    (2112, b"\xed\x41\x02\0\0\0\0\0\x20\0\0\0\x04"),
    (4096, b"\x02\0."),
    (4112, b"\x02\0.."),
    (14336, b"\x32"),
];

// Numbers of the image that go down by one: the place of the first, how many bytes lie from each to the next, the first, and how many.
// They are the free blocks, the free inodes, and the list in block 14.
const NUMBERS: &[(usize, usize, u8, u8)] = &[
    (528, 4, 14, 10),
    (728, 2, 32, 30),
    (14344, 4, 63, 49),
];

fn put(image: &mut [u8], at: usize, bytes: &[u8]) {
    for (k, byte) in bytes.iter().enumerate() {
        if let Some(place) = image.get_mut(at.saturating_add(k)) {
            *place = *byte;
        }
    }
}

fn put_falling(image: &mut [u8], at: usize, step: usize, first: u8, count: u8) {
    for k in 0..count {
        let place = at.saturating_add(step.saturating_mul(usize::from(k)));
        put(image, place, &[first.saturating_sub(k)]);
    }
}

fn put_all(image: &mut [u8]) {
    for (at, bytes) in BYTES {
        put(image, *at, bytes);
    }
    for (at, step, first, count) in NUMBERS {
        put_falling(image, *at, *step, *first, *count);
    }
}

fn image_a(alloc: Global) -> Result<MemDisk, NoMemory>
    ensures { IfOk result (λ d. length d.content ≡ 65536) }
{
    let mut content = vec![in alloc; 0u8; 65536]?;
    put_all(&mut content);
    Ok(MemDisk::new(content, Vec::new(alloc)))
}

// Reads the block with the next one ahead, and answers its first byte.
fn read_ahead<R: Wait, S: Stake>(
    rt: &R,
    stake: &mut S,
    block: u32,
    next: u32,
) -> Result<u8, Refusal>
    requires block { CanGet (S.held stake.old) (S.lent stake.old) block }
    requires next { next < (S.origin stake.old).sizes.blocks }
    requires size { (S.origin stake.old).sizes.block_size ≡ 1024 }
    ensures kept { KeepsLines S.held S.lent S.origin stake.old stake.new }
{
    let buf = stake.breada(rt, block, next)?;
    let got = buf.bytes()[0];
    stake.brelse(rt, buf);
    Ok(got)
}

// The read of the root's page, by a stake of all lines.
fn read_root<R: Wait, D: Disk>(
    rt: &R,
    cache: &Cache<D>,
    first: CachePass<D>,
) -> (CachePass<D>, Result<u8, Refusal>)
    requires all { HasAll cache.now.turn first }
    requires sizes { (first_view cache.now.turn).opening.sizes ≡ record { block_size = 1024; blocks = 64; first_data = 4 } }
    ensures { HasAll cache.now.turn result.0 }
{
    let mut stake = cache.stake(first);
    let got = read_ahead(rt, &mut stake, 4, 5);
    (stake.give_up(), got)
}

// The page begins with the number of the root, 2. The worker reads block 5, once the stake is given up.
#[test]
fn the_next_block_is_read_ahead(rt: HostRuntime) -> Result<(), TestFail> {
    let (cache, first, worker, passes) = open(rt.alloc(), image_a(rt.alloc())?, 8, SIZES_A)?;
    let (mut first, got) = read_root(&rt, &cache, first);
    stop_all(&rt, &cache, &mut first);
    let worker = cache.worker(&rt, worker);
    let (disk, closed) = end(passes, cache, first, worker);
    let log = [Access::Read(4096), Access::Read(5120)];
    assert_eq!(rt;
        (got, disk.log() == log.as_slice(), closed.is_ok()),
        (Ok(2), true, true)
    );
    Ok(())
}
