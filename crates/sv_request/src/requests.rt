// A bounded queue.
ghost use Rattle.std.specs.Prelude.{◌≡◌, ◌<◌, ◌++◌, [], ◌∷◌, length, IfOk, IfErr, OnOk, MatchOption, MatchResult};
ghost use Rattle.sv_request.specs.Queue.{IsWithin, IsEmpty, IsTaken};

use crate::NoMemory;
use std::alloc::Global;
use std::collections::VecDeque;
use std::marker::Model;

/// The numbers that wait, of which there are at most as many as the queue was made for. As a value it is one pointer, so that it is
/// cheap to move.
#[derive(Drop)]
pub struct Requests {
    ring: Box<Ring>,
}

// What stands behind the pointer.
#[derive(Drop)]
struct Ring {
    waiting: VecDeque<u32>,
    capacity: u32,
}

impl Model for Requests {
    ghost use Rattle.sv_request.specs.Queue.{Queue};

    ghost Value = { Queue };

    ghost use Rattle.sv_request.specs.Keeping.{queue, IsKept};

    ghost view = { λ a. queue a.ring.value };

    ghost invariant = { λ a. IsKept a.ring.value };
}

impl Requests {
    /// An empty queue.
    pub fn new(alloc: Global, capacity: u32) -> Result<Self, NoMemory>
        ensures { IfOk result (λ q. q ≡ record { capacity = capacity; waiting = [] }) }
    {
        let waiting = VecDeque::with_capacity(alloc, capacity as usize)?;
        let ring = Box::new(alloc, Ring { waiting, capacity })?;
        Ok(Requests { ring })
    }

    /// Lets a number wait behind all others. A full queue hands it back.
    pub fn push(&mut self, buffer: u32) -> Result<(), u32>
        ensures room { MatchResult result (λ _. length self.old.waiting < self.old.capacity)
            (λ _. length self.old.waiting ≡ self.old.capacity) }
        ensures pushed { OnOk result (self.new ≡ record self.old { waiting = self.old.waiting ++ buffer ∷ [] }) }
        ensures refused { IfErr result (λ x. (x ≡ buffer) × (self.new ≡ self.old)) }
        ensures within { IsWithin self.new }
    {
        let ring = &mut *self.ring;
        if ring.waiting.len() >= ring.capacity as usize {
            return Err(buffer);
        }
        // There is room for every number, so nothing is refused.
        let _ = ring.waiting.push_back(buffer);
        Ok(())
    }

    /// Takes the number that waits longest.
    pub fn pop(&mut self) -> Option<u32>
        ensures taken { MatchOption result (IsEmpty self.old self.new) (IsTaken self.old self.new) }
        ensures within { IsWithin self.new }
    {
        self.ring.waiting.pop_front()
    }
}

#[cfg(test)]
mod tests {
    use super::*;
    use std::test::Fail;

    #[test]
    fn first_in_first_out(rt: HostRuntime) -> Result<(), Fail> {
        let mut requests = Requests::new(rt.alloc(), 2)?;
        assert_eq!(rt; requests.pop(), None);
        assert_eq!(rt; requests.push(5), Ok(()));
        assert_eq!(rt; requests.push(6), Ok(()));
        assert_eq!(rt; requests.push(7), Err(7));
        assert_eq!(rt; requests.pop(), Some(5));
        assert_eq!(rt; requests.push(7), Ok(()));
        assert_eq!(rt; requests.pop(), Some(6));
        assert_eq!(rt; requests.pop(), Some(7));
        assert_eq!(rt; requests.pop(), None);
        Ok(())
    }

    #[test]
    fn a_queue_for_none_is_full(rt: HostRuntime) -> Result<(), Fail> {
        let mut requests = Requests::new(rt.alloc(), 0)?;
        assert_eq!(rt; requests.push(5), Err(5));
        assert_eq!(rt; requests.pop(), None);
        Ok(())
    }
}
