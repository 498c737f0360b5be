// Calls that fail by their number.
ghost use Rattle.std.specs.Prelude.{◌≡◌, ◌≤◌, IfOk, OnOk, OnErr};
ghost use Rattle.sv_dev.specs.Causes.{HasCause, Rose, counted};
ghost use Rattle.sv_dev.specs.Tally.{is_named, IsNumbered};

use crate::{Failed, NoMemory};
use std::alloc::Global;
use std::marker::Model;

/// Numbers the calls of a thing in memory from 1, lets those fail that it was told to, and counts the failures.
#[derive(Drop)]
pub struct Tally {
    fails: Vec<u64>,
    calls: u64,
    faults: u64,
}

impl Model for Tally {
    ghost use Rattle.sv_dev.specs.Tally.{Numbers};

    ghost Value = { Numbers };

    ghost view = { λ t. record { fails = t.fails.items; calls = t.calls; faults = t.faults } };
}

impl Tally {
    /// A tally of no call yet. The calls with these numbers, from 1, fail.
    pub fn new(fails: Vec<u64>) -> Tally
        ensures { result ≡ record { fails = fails.items; calls = 0; faults = 0 } }
    {
        Tally {
            fails,
            calls: 0,
            faults: 0,
        }
    }

    /// A tally of the same list, of no call yet.
    pub fn anew(&self, alloc: Global) -> Result<Tally, NoMemory>
        ensures { IfOk result (λ tally. tally ≡ record { fails = self.now.fails; calls = 0; faults = 0 }) }
    {
        Ok(Tally::new(self.fails.to_vec(alloc)?))
    }

    /// The next call. It fails exactly where the list has its number, and that failure is counted.
    pub fn next(&mut self) -> Result<(), Failed>
        ensures cause { HasCause self.old.faults self.new.faults result }
        ensures named { IsNumbered self.old self.new result }
        ensures faults_ok { OnOk result (self.new.faults ≡ self.old.faults) }
        ensures faults_err { OnErr result (self.new.faults ≡ counted self.old.faults 1) }
    {
        self.calls = self.calls.saturating_add(1);
        if is_listed(self.fails.as_slice(), self.calls) {
            self.faults = self.faults.saturating_add(1);
            return Err(Failed);
        }
        Ok(())
    }

    /// Counts one failure more.
    pub fn fail(&mut self)
        ensures count { self.new ≡ record self.old { faults = counted self.old.faults 1 } }
        ensures no_less { self.old.faults ≤ self.new.faults }
        ensures rose { Rose self.old.faults self.new.faults }
    {
        self.faults = self.faults.saturating_add(1);
    }

    /// Counts this many failures more. Their number stands still at `u64::MAX`.
    pub fn count(&mut self, faults: u64)
        ensures { self.new ≡ record self.old { faults = counted self.old.faults faults } }
    {
        self.faults = self.faults.saturating_add(faults);
    }

    /// How many failures were counted.
    pub fn faults(&self) -> u64
        ensures { result ≡ self.now.faults }
    {
        self.faults
    }

    /// The allocator of the list.
    pub(crate) fn allocator(&self) -> Global {
        *self.fails.allocator()
    }
}

fn is_listed(fails: &[u64], number: u64) -> bool
    ensures { result ≡ is_named fails.now number }
{
    fails.contains(&number)
}
