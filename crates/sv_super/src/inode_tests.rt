// The cache of free inodes, by itself.
ghost use Rattle.std.specs.Prelude.{◌≡◌, ◌≤◌, false, IfOk, length, replicate};

use crate::inodes::FreeInodes;
use std::alloc::Global;
use std::test::Fail;
use sv_store::NoMemory;

// An image of which inodes 1 and 2 are used.
fn two_used(alloc: Global, count: usize) -> Result<FreeInodes, NoMemory>
    requires { count ≤ 65520 }
{
    let mut used = vec![in alloc; false; count]?;
    for flag in used.as_mut_slice().iter_mut().take(2) {
        *flag = true;
    }
    FreeInodes::new(alloc, used.as_slice(), &[])
}

// The cache of the image that `mkfs A 64 32` makes.
const CACHE: [u16; 30] = [
    32, 31, 30, 29, 28, 27, 26, 25, 24, 23, 22, 21, 20, 19, 18, 17, 16, 15, 14, 13, 12, 11, 10, 9,
    8, 7, 6, 5, 4, 3,
];

// A map of 32 inodes of which none is in use.
fn none_used(alloc: Global) -> Result<Vec<bool>, NoMemory>
    ensures { IfOk result (λ used. used.items ≡ replicate 32 false) }
{
    let used = vec![in alloc; false; 32]?;
    Ok(used)
}

// The inodes of that image: inode 2 is the root, and 1 is never used.
fn image_inodes(alloc: Global) -> Result<FreeInodes, NoMemory> {
    let mut used = none_used(alloc)?;
    used[0] = true;
    used[1] = true;
    FreeInodes::new(alloc, used.as_slice(), &CACHE)
}

// The next inode is taken.
fn take_next(inodes: &mut FreeInodes) -> Option<u16> {
    let n = inodes.next()?;
    inodes.take();
    Some(n)
}

// All are taken, each the number after the one before: the first, the last, and how many came in order.
fn take_all(inodes: &mut FreeInodes) -> (u16, u32) {
    let mut last = 2u16;
    let mut in_order = 0u32;
    for _turn in 0..65536u32 {
        let Some(n) = take_next(inodes) else {
            return (last, in_order);
        };
        in_order = in_order.saturating_add(u32::from(n == last.saturating_add(1)));
        last = n;
    }
    (last, in_order)
}

// An inode is taken, freed, and taken again.
fn taken_again(inodes: &mut FreeInodes) -> Option<(u16, u16)> {
    let n = inodes.next()?;
    inodes.take();
    inodes.give(n);
    let again = take_next(inodes)?;
    Some((n, again))
}

#[test]
fn the_cache_of_an_image_is_handed_out_from_its_end(rt: HostRuntime) -> Result<(), Fail> {
    let mut inodes = image_inodes(rt.alloc())?;
    assert_eq!(rt; inodes.left(), 30);
    assert_eq!(rt; take_next(&mut inodes), Some(3));
    assert_eq!(rt; take_next(&mut inodes), Some(4));
    assert_eq!(rt; take_all(&mut inodes).0, 32);
    assert_eq!(rt; take_next(&mut inodes), None);
    Ok(())
}

#[test]
fn an_inode_that_was_freed_comes_first(rt: HostRuntime) -> Result<(), Fail> {
    let mut inodes = two_used(rt.alloc(), 32)?;
    assert_eq!(rt; taken_again(&mut inodes), Some((3, 3)));
    assert_eq!(rt; inodes.left(), 29);
    assert_eq!(rt; take_next(&mut inodes), Some(4));
    Ok(())
}

#[test]
fn all_inodes_are_handed_out_in_order(rt: HostRuntime) -> Result<(), Fail> {
    let mut inodes = two_used(rt.alloc(), 65520)?;
    assert_eq!(rt; inodes.left(), 65518);
    assert_eq!(rt; take_all(&mut inodes), (65520, 65518));
    assert_eq!(rt; inodes.left(), 0);
    assert_eq!(rt; take_next(&mut inodes), None);
    Ok(())
}
