// The free inodes, without their lines.
ghost use Rattle.std.specs.Prelude.{◌≡◌, ◌≤◌, ◌<◌, ◌-◌, ◌++◌, ◌∷◌, [], ℕ, true, false, IfOk, IfNone, IfSome, length};
ghost use Rattle.std.specs.Prelude.{slice_get, slice_index, filter};
ghost use Rattle.sv_super.specs.Count.{one_if, times};
ghost use Rattle.sv_super.specs.Inodes.{IsCache, filled, free_count, is_free_inode, past, smallest, with_free, without_last};

use arrayvec::ArrayVec;
use std::alloc::Global;
use std::marker::Model;
use sv_store::NoMemory;

// The most numbers in the cache.
const CACHE_MAX: usize = 100;

/// Which inodes are in use, and a cache of free ones (Bach, chapter 4.6).
///
/// The last number of the cache is handed out first. A cache that is empty is filled from the number up to which all free
/// inodes are known, and not from the first: so handing all inodes out looks at each once.
#[derive(Drop)]
pub(crate) struct FreeInodes {
    used: Vec<bool>,
    cached: ArrayVec<u16, 100>,
    remembered: u16,
    left: u32,
}

impl Model for FreeInodes {
    ghost use Rattle.sv_super.specs.Inodes.{Inodes, IsCache};

    ghost Value = { Inodes };

    ghost view = { λ i. record { used = i.used.items; cached = i.cached.items; remembered = i.remembered } };

    ghost invariant = { λ i. IsCache (record { used = i.used.items; cached = i.cached.items; remembered = i.remembered }) i.left };
}

impl FreeInodes {
    /// The inodes of an image: which are in use, and the cache of its superblock.
    pub fn new(alloc: Global, used: &[bool], cached: &[u16]) -> Result<FreeInodes, NoMemory>
        requires few { length used.now ≤ 65520 }
        requires fits { length cached.now ≤ 100 }
        requires free { (n : ℕ) → 0 < times n cached.now → is_free_inode used.now n ≡ true }
        requires once { (n : ℕ) → times n cached.now ≤ 1 }
        ensures { IfOk result (λ inodes. inodes ≡ record { used = used.now; cached = cached.now; remembered = 2 }) }
    {
        Ok(FreeInodes {
            used: Vec::from_slice(alloc, used)?,
            cached: copy_of(cached),
            remembered: 2,
            left: count_free_inodes(used),
        })
    }

    /// How many are free. Each cached number is free and stands there once, and each free number below the remembered one is
    /// cached.
    pub fn left(&self) -> u32
        ensures left { result ≡ free_count self.now.used }
        ensures cache { IsCache self.now result }
    {
        self.left
    }

    /// The cached numbers.
    pub fn cache(&self) -> ArrayVec<u16, 100>
        ensures { result.items ≡ self.now.cached }
    {
        copy_of(self.cached.as_slice())
    }

    /// The inode that is handed out next: the last of the cache, which is filled first where it is empty.
    pub fn next(&self) -> Option<u16>
        ensures some { IfSome result (λ n. n ≡ slice_index (filled self.now).cached (length (filled self.now).cached - 1)) }
        ensures cached { IfSome result (λ _. 1 ≤ length (filled self.now).cached) }
        ensures free { IfSome result (λ n. is_free_inode self.now.used n ≡ true) }
        ensures none { IfNone result ((n : ℕ) → is_free_inode self.now.used n ≡ false) }
    {
        if self.left == 0 {
            return None;
        }
        if self.cached.is_empty() {
            return first_free(self.used.as_slice(), self.remembered);
        }
        self.cached.as_slice().last().copied()
    }

    // Fills the cache where it is empty.
    fn fill(&mut self)
        ensures { self.new ≡ filled self.old }
    {
        if !self.cached.is_empty() {
            return;
        }
        let mut more = smallest_free(self.used.as_slice(), self.remembered);
        more.as_mut_slice().reverse();
        self.remembered = past_first(more.as_slice(), self.remembered);
        self.cached = more;
    }

    /// The last of the cache, which is filled first where it is empty, is in use from now on.
    pub fn take(&mut self)
        requires { 1 ≤ length (filled self.old).cached }
        ensures { self.new ≡ without_last (filled self.old) }
    {
        self.fill();
        self.take_last();
    }

    // The last of the cache is in use from now on.
    fn take_last(&mut self)
        requires { 1 ≤ length self.old.cached }
        ensures { self.new ≡ without_last self.old }
    {
        let Some(n) = self.cached.pop() else {
            unreachable!()
        };
        self.used[usize::from(n) - 1] = true;
        self.left -= 1;
    }

    /// An inode that was in use is free from now on.
    pub fn give(&mut self, n: u16)
        requires least { 2 ≤ n }
        requires most { n ≤ length self.old.used }
        requires used { is_free_inode self.old.used n ≡ false }
        ensures { self.new ≡ with_free n self.old }
    {
        self.used[usize::from(n) - 1] = false;
        self.left += 1;
        if self.cached.is_full() {
            self.remembered = self.remembered.min(n);
            return;
        }
        self.cached.push(n);
    }
}

// The numbers of a cache.
fn copy_of(numbers: &[u16]) -> ArrayVec<u16, 100>
    requires { length numbers.now ≤ 100 }
    ensures { result.items ≡ numbers.now }
{
    let mut copy = ArrayVec::new();
    for number in numbers {
        copy.push(*number);
    }
    copy
}

// How many inodes are free.
fn count_free_inodes(used: &[bool]) -> u32
    requires { length used.now ≤ 65520 }
    ensures { result ≡ free_count used.now }
{
    let mut count = 0;
    for n in 0..used.len() as u32 + 1 {
        count += u32::from(is_free(used, n));
    }
    count
}

// Whether an inode is free.
fn is_free(used: &[bool], n: u32) -> bool
    requires { n ≤ length used.now }
    ensures { result ≡ is_free_inode used.now n }
{
    if n < 2 {
        return false;
    }
    !used[n as usize - 1]
}

// The first hundred free inodes from this one on, ascending.
fn smallest_free(used: &[bool], from: u16) -> ArrayVec<u16, 100>
    requires { length used.now ≤ 65520 }
    ensures { result.items ≡ smallest used.now 100 from }
{
    let mut found = ArrayVec::new();
    for n in from..used.len() as u16 + 1 {
        if found.is_full() {
            return found;
        }
        add_free(used, n, &mut found);
    }
    found
}

// The first free inode from this one on.
fn first_free(used: &[bool], from: u16) -> Option<u16>
    requires { length used.now ≤ 65520 }
    ensures { result ≡ slice_get (smallest used.now 100 from) 0 }
{
    smallest_free(used, from).as_slice().first().copied()
}

// Adds an inode where it is free.
fn add_free(used: &[bool], n: u16, found: &mut ArrayVec<u16, 100>)
    requires room { length found.old.items < 100 }
    requires place { n ≤ length used.now }
    ensures { found.new.items ≡ found.old.items ++ filter (is_free_inode used.now) (n ∷ []) }
{
    if is_free(used, u32::from(n)) {
        found.push(n);
    }
}

// One more than the first of these numbers, which is their greatest.
fn past_first(numbers: &[u16], otherwise: u16) -> u16
    requires { (k : ℕ) → slice_index numbers.now k ≤ 65520 }
    ensures { result ≡ past numbers.now otherwise }
{
    match numbers.first() {
        Some(first) => first + 1,
        None => otherwise,
    }
}
