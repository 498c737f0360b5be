// The cache: all buffers, their hash queues and the free list.
ghost use Rattle.std.specs.Prelude.{◌≡◌, ◌↔◌, ◌<◌, ◌*◌, ℕ, None, Some, IfOk, IfErr, IsTrue, IfSome, find, length, map, slice_set};
ghost use Rattle.std.specs.Prelude.{replicate, vec_len, [], ◌∷◌};
ghost use Rattle.std.specs.List.{range_with_len};
ghost use Rattle.sv_form.specs.Geometry.{IsGeometry};
ghost use Rattle.sv_links.specs.Arrangement.{list_at, without, IsArranged, IsOnNone};
ghost use Rattle.sv_cache.specs.Cache.{Cache, buffer_at, is_delayed, new_buffer, holder, IsFree, IsBusy, IsBufferCount, new_cache};
ghost use Rattle.sv_cache.specs.Getblk.{scenario_of, after_search, IsCause, IsUnnamed, reuses, renamed};
ghost use Rattle.sv_cache.specs.Fresh.{IsFreshFirst, HasUnused, TakesUnused, IsToTail};
ghost use Rattle.sv_cache.specs.Held.{IsHeld, given};
ghost use Rattle.sv_cache.specs.Brelse.{after_lend, after_release, freed};

use crate::header::Header;
use crate::{HASH_QUEUES, NoMemory, Release, Scenario};
use std::alloc::{AllocFailed, Global};
use std::marker::Model;
use sv_dev::Disk;
use sv_form::Geometry;
use sv_links::Lists;

/// The only list of `free`.
const FREE: u32 = 0;

/// The buffers of one device, and the device itself while it is not out. As a value it is one pointer, so that it is cheap to move.
pub struct CacheCore<D> {
    all: Box<Buffers<D>>,
}

// What stands behind the pointer.
struct Buffers<D> {
    headers: Vec<Header>,
    queues: Lists,
    free: Lists,
    geometry: Geometry,
    device: Option<D>,
}

impl<D> Model for CacheCore<D> {
    ghost use Rattle.sv_cache.specs.Cache.{Cache};

    ghost Value = { Cache D };

    ghost use Rattle.sv_cache.specs.Lawful.{cache, IsKept};

    ghost view = { λ a. cache a.all.value };

    ghost invariant = { λ a. IsKept a.all.value };
}

impl<D: Disk> CacheCore<D> {
    ghost use Rattle.sv_cache.specs.Lawful.{IsLawful};

    /// A cache of this many buffers, none of which names a block. It refuses only for want of memory, and hands the device
    /// back then.
    pub fn new(
        alloc: Global,
        disk: D,
        buffers: u32,
        geometry: Geometry,
    ) -> Result<Self, (D, NoMemory)>
        requires geometry { IsGeometry geometry }
        requires length { length (D.content disk) ≡ geometry.blocks * geometry.block_size }
        requires buffers { IsBufferCount buffers }
        ensures empty { IfOk result (λ c. c ≡ new_cache disk buffers geometry) }
        ensures fresh { IfOk result IsFreshFirst }
        ensures handed_back { IfErr result (λ e. e.0 ≡ disk) }
        ensures lawful { IfOk result IsLawful }
    {
        match make_parts(alloc, buffers, geometry.block_size) {
            Ok(parts) => {
                let all = Buffers {
                    headers: parts.headers,
                    queues: parts.queues,
                    free: parts.free,
                    geometry,
                    device: Some(disk),
                };
                match Box::new(alloc, all) {
                    Ok(all) => Ok(CacheCore { all }),
                    Err(AllocFailed { value }) => Err((value.into_device().unwrap(), NoMemory)),
                }
            }
            Err(refusal) => Err((disk, refusal)),
        }
    }
}

impl<D> CacheCore<D> {
    ghost use Rattle.sv_cache.specs.Lawful.{IsLawful};

    /// Looks for a block (Bach, chapter 3.3, `getblk` up to where it sleeps or writes), and answers which of the five
    /// scenarios it met.
    pub fn attempt(&mut self, block: u32) -> Scenario
        ensures scenario { result ≡ scenario_of self.old block }
        ensures after { self.new ≡ after_search self.old block result }
        ensures cause { IsCause self.old block result }
        ensures held { IfSome (given result) (IsHeld self.new) }
        ensures fresh { IsFreshFirst self.old → IsFreshFirst self.new }
        ensures unused { IsFreshFirst self.old → HasUnused self.old → IsUnnamed self.old block → TakesUnused self.old result }
        ensures lawful { IsLawful self.new }
    {
        let Some(buffer) = self.find(block) else {
            return self.reuse(block);
        };
        if !self.is_free(buffer) {
            return Scenario::Busy(buffer);
        }
        self.take_off(buffer);
        Scenario::Hit(buffer)
    }

    /// Moves the bytes of a busy buffer out.
    pub fn lend(&mut self, buffer: u32) -> Vec<u8>
        requires { IsHeld self.old buffer }
        ensures lent { (buffer_at self.old buffer).bytes ≡ Some result.items }
        ensures size { vec_len result ≡ self.old.geometry.block_size }
        ensures after { self.new ≡ after_lend self.old buffer }
        ensures fresh { IsFreshFirst self.old → IsFreshFirst self.new }
        ensures lawful { IsLawful self.new }
    {
        self.all.headers[buffer as usize].lend()
    }

    /// Ends with a busy buffer (Bach, chapter 3.3, `brelse`): its bytes come home, and it goes on the free list.
    pub fn give_back(&mut self, buffer: u32, bytes: Vec<u8>, how: Release)
        requires busy { IsBusy self.old buffer }
        requires out { (buffer_at self.old buffer).bytes ≡ None }
        requires size { vec_len bytes ≡ self.old.geometry.block_size }
        ensures after { self.new ≡ after_release self.old buffer bytes.items how }
        ensures fresh { IsToTail how → IsFreshFirst self.old → IsFreshFirst self.new }
        ensures lawful { IsLawful self.new }
    {
        let all = &mut *self.all;
        all.headers[buffer as usize].give_back(bytes, how);
        put_on(&mut all.free, buffer, how);
    }

    /// Whether the buffer's bytes are those of its block.
    pub fn is_valid(&self, buffer: u32) -> bool
        requires in_range { buffer < length self.now.buffers }
        ensures valid { result ≡ (buffer_at self.now buffer).valid }
        ensures lawful { IsLawful self.now }
    {
        self.all.headers[buffer as usize].is_valid()
    }

    /// Whether the buffer's bytes are still to be written.
    pub fn is_delayed(&self, buffer: u32) -> bool
        requires in_range { buffer < length self.now.buffers }
        ensures delayed { result ≡ (buffer_at self.now buffer).delayed }
        ensures lawful { IsLawful self.now }
    {
        self.all.headers[buffer as usize].is_delayed()
    }

    /// Whether a write of the buffer's bytes has failed, and they are still to be written.
    pub fn is_marked(&self, buffer: u32) -> bool
        requires in_range { buffer < length self.now.buffers }
        ensures marked { result ≡ (buffer_at self.now buffer).marked }
        ensures lawful { IsLawful self.now }
    {
        self.all.headers[buffer as usize].is_marked()
    }

    /// The buffer that names the block, free or busy. Nothing is taken.
    pub fn find(&self, block: u32) -> Option<u32>
        ensures holder { result ≡ holder self.now block }
        ensures lawful { IsLawful self.now }
    {
        let all = &*self.all;
        let mut next = all.queues.first(block % HASH_QUEUES);
        while let Some(buffer) = next {
            if all.headers[buffer as usize].names(block) {
                return Some(buffer);
            }
            next = all.queues.next(buffer);
        }
        None
    }

    /// The block that the buffer names.
    pub fn block_of(&self, buffer: u32) -> Option<u32>
        requires in_range { buffer < length self.now.buffers }
        ensures block { result ≡ (buffer_at self.now buffer).block }
        ensures lawful { IsLawful self.now }
    {
        self.all.headers[buffer as usize].block()
    }

    /// Whether the buffer is on the free list.
    pub fn is_free(&self, buffer: u32) -> bool
        requires in_range { buffer < length self.now.buffers }
        ensures free { IsTrue result ↔ IsFree self.now buffer }
        ensures lawful { IsLawful self.now }
    {
        self.all.free.list_of(buffer).is_some()
    }

    /// The first buffer on the free list that is delayed.
    pub fn next_delayed(&self) -> Option<u32>
        ensures first { result ≡ find (is_delayed self.now) self.now.free }
        ensures lawful { IsLawful self.now }
    {
        let all = &*self.all;
        let mut next = all.free.first(FREE);
        while let Some(buffer) = next {
            if all.headers[buffer as usize].is_delayed() {
                return Some(buffer);
            }
            next = all.free.next(buffer);
        }
        None
    }

    /// Moves the device out, for a transfer that the caller makes.
    pub fn take_device(&mut self) -> Option<D>
        ensures device { result ≡ self.old.device }
        ensures after { self.new ≡ record self.old { device = None } }
        ensures fresh { IsFreshFirst self.old → IsFreshFirst self.new }
        ensures lawful { IsLawful self.new }
    {
        self.all.device.take()
    }

    /// Brings the device home.
    pub fn put_device(&mut self, disk: D)
        requires out { self.old.device ≡ None }
        ensures after { self.new ≡ record self.old { device = Some disk } }
        ensures fresh { IsFreshFirst self.old → IsFreshFirst self.new }
        ensures lawful { IsLawful self.new }
    {
        match self.all.device.replace(disk) {
            None => {}
            Some(_) => unreachable!(),
        }
    }

    /// Ends the cache, with all bytes that it has, and hands the device back if it is at home.
    pub fn into_device(self) -> Option<D>
        ensures { result ≡ self.device }
    {
        let CacheCore { all } = self;
        Box::into_inner(all).into_device()
    }

    /// Takes the head of the free list for a block that no buffer names: scenarios 2, 3 and 4.
    fn reuse(&mut self, block: u32) -> Scenario
        requires unnamed { IsUnnamed self.old block }
        ensures scenario { result ≡ reuses self.old self.old.free }
        ensures after { self.new ≡ after_search self.old block result }
        ensures lawful { IsLawful self.new }
    {
        let Some(buffer) = self.all.free.first(FREE) else {
            return Scenario::Empty;
        };
        self.take_off(buffer);
        if self.is_delayed(buffer) {
            return Scenario::Delayed(buffer);
        }
        self.rename(buffer, block);
        Scenario::Taken(buffer)
    }

    /// Takes a free buffer off the free list: it is busy then.
    fn take_off(&mut self, buffer: u32)
        requires { IsFree self.old buffer }
        ensures after { self.new ≡ record self.old { free = without buffer self.old.free } }
        ensures lawful { IsLawful self.new }
    {
        self.all.free.unlink(buffer);
    }

    /// Gives a buffer to a block that no buffer names, and moves it to the hash queue of this block.
    fn rename(&mut self, buffer: u32, block: u32)
        requires in_range { buffer < length self.old.buffers }
        requires unnamed { IsUnnamed self.old block }
        ensures after { self.new ≡ record self.old {
          buffers = slice_set self.old.buffers buffer
              (renamed (buffer_at self.old buffer) block);
        } }
        ensures lawful { IsLawful self.new }
    {
        let all = &mut *self.all;
        leave(&mut all.queues, buffer);
        all.queues.push_tail(block % HASH_QUEUES, buffer);
        all.headers[buffer as usize].rename(block);
    }
}

impl<D> Buffers<D> {
    // Ends them all, and hands the device back if it is at home.
    fn into_device(self) -> Option<D>
        ensures { result ≡ self.device }
    {
        let Buffers {
            headers: _,
            queues: _,
            free: _,
            geometry: _,
            device,
        } = self;
        device
    }
}

/// Puts a buffer on the free list: to the tail, or to the head where it should be reused soon.
fn put_on(free: &mut Lists, buffer: u32, how: Release)
    requires one_list { length free.old.lists ≡ 1 }
    requires in_range { buffer < free.old.numbers }
    requires on_none { IsOnNone free.old buffer }
    ensures put { free.new ≡ record free.old { lists = slice_set free.old.lists 0 (freed (list_at free.old 0) buffer how) } }
    ensures arranged { IsArranged free.new }
{
    match how {
        Release::Valid | Release::Delayed => free.push_tail(FREE, buffer),
        Release::Old | Release::Invalid | Release::FailedWrite => free.push_head(FREE, buffer),
    }
}

/// Takes a buffer off its hash queue, if it is on one.
fn leave(queues: &mut Lists, buffer: u32)
    requires in_range { buffer < queues.old.numbers }
    ensures left { queues.new ≡ record queues.old { lists = map (without buffer) queues.old.lists } }
    ensures arranged { IsArranged queues.new }
{
    if queues.list_of(buffer).is_some() {
        queues.unlink(buffer);
    }
}

#[derive(Drop)]
struct Parts {
    headers: Vec<Header>,
    queues: Lists,
    free: Lists,
}

/// All that a cache of this many buffers needs.
fn make_parts(alloc: Global, buffers: u32, block_size: u32) -> Result<Parts, NoMemory>
    ensures headers { IfOk result (λ p. p.headers.items ≡ replicate buffers (new_buffer block_size)) }
    ensures queues { IfOk result (λ p. p.queues ≡ record { numbers = buffers; lists = replicate HASH_QUEUES [] }) }
    ensures free { IfOk result (λ p. p.free ≡ record { numbers = buffers; lists = range_with_len 0 buffers ∷ [] }) }
{
    Ok(Parts {
        headers: make_headers(alloc, buffers, block_size)?,
        queues: Lists::new(alloc, buffers, HASH_QUEUES)?,
        free: make_free(alloc, buffers)?,
    })
}

fn make_headers(alloc: Global, buffers: u32, block_size: u32) -> Result<Vec<Header>, NoMemory>
    ensures { IfOk result (λ v. v.items ≡ replicate buffers (new_buffer block_size)) }
{
    let mut headers = Vec::with_capacity(alloc, buffers as usize)?;
    for _ in 0..buffers {
        headers.push(Header::new(alloc, block_size)?)?;
    }
    Ok(headers)
}

fn make_free(alloc: Global, buffers: u32) -> Result<Lists, NoMemory>
    ensures { IfOk result (λ a. a ≡ record { numbers = buffers; lists = range_with_len 0 buffers ∷ [] }) }
{
    let mut free = Lists::new(alloc, buffers, 1)?;
    for buffer in 0..buffers {
        free.push_tail(FREE, buffer);
    }
    Ok(free)
}

#[cfg(test)]
mod alone;
#[cfg(test)]
mod tests;
