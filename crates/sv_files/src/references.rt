// How often each inode is referred to, and how many are.
ghost use Rattle.std.specs.Prelude.{◌≡◌, ◌<◌, ◌+◌, ◌^◌, ◌==◌, ◌&&◌, ◌*◌, ◌≤◌, true, nat_lt, IfOk, length, replicate, set, slice_index};
ghost use Rattle.sv_plain.specs.Totals.{one_if};

use crate::NoMemory;
use std::alloc::Global;

// The root's inode (Bach, chapter 4.3).
const ROOT: usize = 2;

// The shares of each inode by its number, of how many inodes there are shares, and how many places the table has: each inode that is
// referred to takes one.
pub struct References {
    pub(crate) counts: Vec<u32>,
    pub(crate) taken: u32,
    pub(crate) places: u32,
}

impl References {
    // Two shares of the root for each of so many processes, and no others, with the numbers of inodes and of places.
    pub fn new(
        alloc: Global,
        inodes: u16,
        processes: u8,
        places: u32,
    ) -> Result<References, NoMemory>
        requires root { 2 ≤ inodes }
        ensures counts { IfOk result (λ r. r.counts.items ≡ set (replicate (inodes + 1) 0) 2 (2 * processes)) }
        ensures taken { IfOk result (λ r. r.taken ≡ 1) }
        ensures places { IfOk result (λ r. r.places ≡ places) }
    {
        let mut counts = vec![in alloc; 0_u32; usize::from(inodes) + 1]?;
        counts[ROOT] = 2 * u32::from(processes);
        Ok(References {
            counts,
            taken: 1,
            places,
        })
    }

    // The table has no place for the inode: all are taken, and none by this one.
    pub fn is_full_for(&self, ino: u16) -> bool
        requires inside { ino < length self.now.counts.items }
        ensures { result ≡ ((slice_index self.now.counts.items ino == 0) && (self.now.taken == self.now.places)) }
    {
        self.counts[usize::from(ino)] == 0 && self.taken == self.places
    }

    // A share more of the inode is a number that can be told.
    pub fn can_count(&self, ino: u16) -> bool
        requires inside { ino < length self.now.counts.items }
        ensures exact { result ≡ (nat_lt (slice_index self.now.counts.items ino) 4294967295 && nat_lt self.now.taken 4294967295) }
        ensures fits { result ≡ true → (slice_index self.now.counts.items ino + 1 < 2 ^ 32) × (self.now.taken + 1 < 2 ^ 32) }
    {
        self.counts[usize::from(ino)] < u32::MAX && self.taken < u32::MAX
    }

    // One share more of an inode, which takes a place where it is the first.
    pub fn refer(&mut self, ino: u16)
        requires inside { ino < length self.old.counts.items }
        requires fits { (slice_index self.old.counts.items ino + 1 < 2 ^ 32) × (self.old.taken + 1 < 2 ^ 32) }
        ensures counts { self.new.counts.items ≡ set self.old.counts.items ino (slice_index self.old.counts.items ino + 1) }
        ensures taken { self.new.taken ≡ self.old.taken + one_if (slice_index self.old.counts.items ino == 0) }
        ensures places { self.new.places ≡ self.old.places }
    {
        let at = usize::from(ino);
        let had = self.counts[at];
        self.counts[at] = had + 1;
        self.taken += u32::from(had == 0);
    }
}
