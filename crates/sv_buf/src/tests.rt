//! A cache over a disk of ten blocks of zero bytes, and what it leaves.
ghost use Rattle.std.specs.Prelude.{◌≡◌, ◌*◌, ◌<◌, ◌/◌, [], IfOk, IsSome, length, vec_capacity};
ghost use Rattle.sv_form.specs.Geometry.{IsGeometry};
ghost use Rattle.sv_cache.specs.Cache.{IsBufferCount};
ghost use Rattle.sv_turn.specs.Passes.{first_view};
ghost use Rattle.sv_store.specs.Calls.{CanGet};
ghost use Rattle.sv_buf.specs.Ending.{HasAll, IsWorkers};
ghost use Rattle.sv_buf.specs.Sharing.{KeepsLines};

mod asks;
mod calls;
mod held_read;
mod image_a;
mod threads;

use crate::NoMemory;
use crate::cache::{Cache, CachePass};
use crate::medium::Medium;
use std::alloc::Global;
use std::sync::Wait;
use sv_dev::{Disk, Fail, Failed, MemDisk};
use sv_form::Geometry;
use sv_store::{Refusal, Stake};

const SIZES: Geometry = Geometry {
    block_size: 1024,
    blocks: 10,
    first_data: 3,
};

// Ten blocks of zero bytes; these transfers fail.
fn disk(alloc: Global, fails: &[Fail]) -> Result<MemDisk, NoMemory>
    ensures { IfOk result (λ d. length d.content ≡ 10240) }
{
    let content = vec![in alloc; 0u8; 10240]?;
    let mut list = Vec::new(alloc);
    for fail in fails {
        list.push(*fail)?;
    }
    Ok(MemDisk::new(content, list))
}

// A cache over the disk, a pass that holds all lines, the worker's, and room for both.
fn open<D: Disk + Drop>(
    alloc: Global,
    disk: D,
    buffers: u32,
    sizes: Geometry,
) -> Result<(Cache<D>, CachePass<D>, CachePass<D>, Vec<CachePass<D>>), NoMemory>
    requires sizes { IsGeometry sizes }
    requires length { length (D.content disk) ≡ sizes.blocks * sizes.block_size }
    requires buffers { IsBufferCount buffers }
    ensures sizes { IfOk result (λ r. (first_view r.0.turn).opening.sizes ≡ sizes) }
    ensures all { IfOk result (λ r. HasAll r.0.turn r.1) }
    ensures worker { IfOk result (λ r. IsWorkers r.0.turn r.2) }
    ensures passes { IfOk result (λ r. (r.3.items ≡ []) × (vec_capacity r.3 ≡ 2)) }
{
    let passes = Vec::with_capacity(alloc, 2)?;
    match Cache::new(alloc, disk, buffers, sizes) {
        Ok((cache, first, worker)) => Ok((cache, first, worker, passes)),
        Err((_, refused)) => {
            passes.destroy_empty();
            Err(refused)
        }
    }
}

// Closes a cache with both passes.
fn end<D: Medium>(
    mut passes: Vec<CachePass<D>>,
    cache: Cache<D>,
    first: CachePass<D>,
    worker: CachePass<D>,
) -> (D, Result<(), Failed>)
    requires none { passes.items ≡ [] }
    requires room { vec_capacity passes ≡ 2 }
    requires all { HasAll cache.turn first }
    requires worker { IsWorkers cache.turn worker }
    ensures { length (D.content result.0) ≡ (first_view cache.turn).opening.sizes.blocks * (first_view cache.turn).opening.sizes.block_size }
{
    passes.push_reserved(first);
    passes.push_reserved(worker);
    cache.close(passes)
}

// Lets the worker stop.
fn stop_all<R: Wait, D: Medium>(rt: &R, cache: &Cache<D>, first: &mut CachePass<D>)
    requires all { HasAll cache.now.turn first.old }
    ensures all { HasAll cache.now.turn first.new }
{
    cache.stop(rt, first);
}

// Puts a byte at a place of a held line, and answers the one that was there.
fn exchange<R: Wait, S: Stake>(
    rt: &R,
    stake: &mut S,
    block: u32,
    place: usize,
    byte: u8,
) -> Result<u8, Refusal>
    requires block { CanGet (S.held stake.old) (S.lent stake.old) block }
    requires place { place < (S.origin stake.old).sizes.block_size }
    requires line { IsSome (S.held stake.old block (place / 64)) }
    ensures kept { KeepsLines S.held S.lent S.origin stake.old stake.new }
{
    let mut buf = stake.bread(rt, block)?;
    let bytes = buf.bytes_mut();
    let was = bytes[place];
    bytes[place] = byte;
    stake.bdwrite(rt, buf);
    Ok(was)
}
