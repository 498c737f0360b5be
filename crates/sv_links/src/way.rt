// One direction through all lists.
ghost use Rattle.std.specs.Prelude.{◌≡◌, ◌<◌, ℕ, None, IfOk, length, replicate};
ghost use Rattle.sv_links.specs.Way.{next_of, linked, HasPlace};

use crate::NoMemory;
use std::alloc::Global;
use std::marker::Model;

/// For each list the number with which it begins, and for each number the number that follows it on its list.
#[derive(Drop)]
pub struct Way {
    begins: Vec<Option<u32>>,
    follows: Vec<Option<u32>>,
}

impl Model for Way {
    ghost use Rattle.sv_links.specs.Way as kept;

    ghost Value = { kept.Way };

    ghost view = { λ w. record { begins = w.begins.items; follows = w.follows.items } };
}

impl Way {
    /// No list begins with a number, and no number follows another.
    pub fn new(alloc: Global, numbers: u32, lists: u32) -> Result<Self, NoMemory>
        ensures { IfOk result (λ w. w ≡ record { begins = replicate lists None; follows = replicate numbers None }) }
    {
        Ok(Way {
            begins: vec![in alloc; None; lists as usize]?,
            follows: vec![in alloc; None; numbers as usize]?,
        })
    }

    /// What follows a number on this list, or, after no number, the beginning of the list.
    pub fn next(&self, list: u32, at: Option<u32>) -> Option<u32>
        requires { HasPlace self.now list at }
        ensures { result ≡ next_of self.now list at }
    {
        match at {
            None => self.begins[list as usize],
            Some(x) => self.follows[x as usize],
        }
    }

    /// Lets a number follow another on this list, or, after no number, lets the list begin with it.
    pub fn link(&mut self, list: u32, at: Option<u32>, to: Option<u32>)
        requires { HasPlace self.old list at }
        ensures { self.new ≡ linked self.old list at to }
    {
        match at {
            None => self.begins[list as usize] = to,
            Some(x) => self.follows[x as usize] = to,
        }
    }
}
