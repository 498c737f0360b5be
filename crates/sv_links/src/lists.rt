// Many lists over numbers, linked in both directions.
ghost use Rattle.std.specs.Prelude.{◌≡◌, ◌<◌, ℕ, [], ◌∷◌, ◌++◌, length, map, replicate, slice_get, slice_set, IfOk, MatchOption, Some};
ghost use Rattle.std.specs.Prelude.{None};
ghost use Rattle.sv_links.specs.Arrangement.{list_at, IsArranged, IsOn, IsOnSome, IsOnNone, without, after};
ghost use Rattle.sv_links.specs.Way.{next_of, linked, HasPlace};

use crate::NoMemory;
use crate::way::Way;
use std::alloc::Global;
use std::marker::Model;

/// The lists 0 to m - 1 over the numbers 0 to n - 1. Contracts see each list in order, from its head to its tail.
#[derive(Drop)]
pub struct Lists {
    places: Vec<Option<u32>>,
    forwards: Way,
    backwards: Way,
}

impl Model for Lists {
    ghost use Rattle.sv_links.specs.Arrangement.{Arrangement};

    ghost Value = { Arrangement };

    ghost use Rattle.sv_links.specs.Keeping.{arrangement, IsKept};

    ghost view = { arrangement };

    ghost invariant = { IsKept };
}

impl Lists {
    /// Empty lists.
    pub fn new(alloc: Global, numbers: u32, lists: u32) -> Result<Self, NoMemory>
        ensures empty { IfOk result (λ a. a ≡ record { numbers = numbers; lists = replicate lists [] }) }
        ensures arranged { IfOk result IsArranged }
    {
        Ok(Lists {
            places: nowhere(alloc, numbers)?,
            forwards: Way::new(alloc, numbers, lists)?,
            backwards: Way::new(alloc, numbers, lists)?,
        })
    }

    /// Puts a number that is on no list at the head of a list.
    pub fn push_head(&mut self, list: u32, x: u32)
        requires list_in_range { list < length self.old.lists }
        requires number_in_range { x < self.old.numbers }
        requires on_none { IsOnNone self.old x }
        ensures pushed { self.new ≡ record self.old { lists = slice_set self.old.lists list (x ∷ list_at self.old list) } }
        ensures arranged { IsArranged self.new }
    {
        put_first(&mut self.forwards, &mut self.backwards, list, x);
        self.places[x as usize] = Some(list);
    }

    /// Puts a number that is on no list at the tail of a list.
    pub fn push_tail(&mut self, list: u32, x: u32)
        requires list_in_range { list < length self.old.lists }
        requires number_in_range { x < self.old.numbers }
        requires on_none { IsOnNone self.old x }
        ensures pushed { self.new ≡ record self.old { lists = slice_set self.old.lists list (list_at self.old list ++ x ∷ []) } }
        ensures arranged { IsArranged self.new }
    {
        put_first(&mut self.backwards, &mut self.forwards, list, x);
        self.places[x as usize] = Some(list);
    }

    /// Takes a number off the list on which it stands; all others stay in order.
    pub fn unlink(&mut self, x: u32)
        requires on_a_list { IsOnSome self.old x }
        ensures unlinked { self.new ≡ record self.old { lists = map (without x) self.old.lists } }
        ensures arranged { IsArranged self.new }
    {
        if let Some(list) = self.places[x as usize] {
            take_out(&mut self.forwards, &mut self.backwards, list, x);
            self.places[x as usize] = None;
        }
    }

    /// The head of a list.
    pub fn first(&self, list: u32) -> Option<u32>
        requires list_in_range { list < length self.now.lists }
        ensures head { result ≡ slice_get (list_at self.now list) 0 }
        ensures arranged { IsArranged self.now }
    {
        self.forwards.next(list, None)
    }

    /// The number after this one on its list.
    pub fn next(&self, x: u32) -> Option<u32>
        requires on_a_list { IsOnSome self.now x }
        ensures next { (l : ℕ) → IsOn self.now l x → result ≡ slice_get (after x (list_at self.now l)) 0 }
        ensures arranged { IsArranged self.now }
    {
        let list = self.places[x as usize]?;
        self.forwards.next(list, Some(x))
    }

    /// The list on which a number stands.
    pub fn list_of(&self, x: u32) -> Option<u32>
        requires number_in_range { x < self.now.numbers }
        ensures on { MatchOption result (IsOnNone self.now x) (λ l. IsOn self.now l x) }
        ensures arranged { IsArranged self.now }
    {
        self.places[x as usize]
    }
}

/// The table of numbers that are on no list.
fn nowhere(alloc: Global, numbers: u32) -> Result<Vec<Option<u32>>, NoMemory>
    ensures { IfOk result (λ v. v.items ≡ replicate numbers None) }
{
    vec![in alloc; None; numbers as usize]
}

/// Puts x first on a list, seen in the direction of `forth`: `back` is the other direction.
fn put_first(forth: &mut Way, back: &mut Way, list: u32, x: u32)
    requires forth { HasPlace forth.old list None × HasPlace forth.old list (Some x) }
    requires back { HasPlace back.old list (Some x) × HasPlace back.old list (next_of forth.old list None) }
    ensures forth { forth.new ≡ linked (linked forth.old list (Some x) (next_of forth.old list None)) list None (Some x) }
    ensures back { back.new ≡ linked (linked back.old list (Some x) None) list (next_of forth.old list None) (Some x) }
{
    let second = forth.next(list, None);
    forth.link(list, Some(x), second);
    forth.link(list, None, Some(x));
    back.link(list, Some(x), None);
    back.link(list, second, Some(x));
}

/// Takes x out of a list: its neighbours follow each other.
fn take_out(forth: &mut Way, back: &mut Way, list: u32, x: u32)
    requires forth { HasPlace forth.old list (Some x) × HasPlace forth.old list (next_of back.old list (Some x)) }
    requires back { HasPlace back.old list (Some x) × HasPlace back.old list (next_of forth.old list (Some x)) }
    ensures forth { forth.new ≡ linked forth.old list (next_of back.old list (Some x)) (next_of forth.old list (Some x)) }
    ensures back { back.new ≡ linked back.old list (next_of forth.old list (Some x)) (next_of back.old list (Some x)) }
{
    let before = back.next(list, Some(x));
    let after = forth.next(list, Some(x));
    forth.link(list, before, after);
    back.link(list, after, before);
}

#[cfg(test)]
mod tests {
    use super::*;
    use std::test::Fail;

    #[test]
    fn two_lists_over_four_numbers(rt: HostRuntime) -> Result<(), Fail> {
        let mut lists = Lists::new(rt.alloc(), 4, 2)?;
        assert_eq!(rt; lists.first(0), None);
        lists.push_tail(0, 2);
        lists.push_tail(0, 3);
        lists.push_head(0, 1);
        lists.push_head(1, 0);

        // List 0 is 1, 2, 3 and list 1 is 0.
        assert_eq!(rt; lists.first(0), Some(1));
        assert_eq!(rt; lists.next(1), Some(2));
        assert_eq!(rt; lists.next(2), Some(3));
        assert_eq!(rt; lists.next(3), None);
        assert_eq!(rt; lists.first(1), Some(0));
        assert_eq!(rt; lists.list_of(3), Some(0));
        assert_eq!(rt; lists.list_of(0), Some(1));

        lists.unlink(2);
        assert_eq!(rt; lists.next(1), Some(3));
        assert_eq!(rt; lists.list_of(2), None);
        lists.push_tail(1, 2);
        assert_eq!(rt; lists.next(0), Some(2));
        Ok(())
    }
}
