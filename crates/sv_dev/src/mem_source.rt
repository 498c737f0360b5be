// The source in memory.
ghost use Rattle.std.specs.Prelude.{◌≡◌, ◌≤◌, ◌<◌, ℕ, [], Some, length, min, take, drop, IfOk, OnOk, OnErr, IsErr, IsTrue};
ghost use Rattle.sv_dev.specs.Causes.{HasCause, counted};
ghost use Rattle.sv_dev.specs.Tally.{is_named};
ghost use Rattle.sv_dev.specs.Told.{Takes, IsAtEnd};

use crate::{Failed, Source, Tally};
use std::marker::Model;

/// A source over bytes in memory, some of whose calls fail. A call gives as many bytes as the slice and what is left
/// allow.
#[derive(Drop)]
pub struct MemSource {
    bytes: Vec<u8>,
    given: usize,
    tally: Tally,
}

impl Model for MemSource {
    ghost use Rattle.std.specs.Prelude.{◌≤◌, length, drop};
    ghost use Rattle.sv_dev.specs.MemSourceSeen.{MemSourceSeen};

    ghost Value = { MemSourceSeen };

    ghost view = { λ s. record {
      left = drop s.given s.bytes.items;
      fails = s.tally.fails;
      calls = s.tally.calls;
      faults = s.tally.faults;
    } };

    ghost invariant = { λ s. s.given ≤ length s.bytes.items };
}

impl MemSource {
    /// A source of these bytes. The calls of `read` with these numbers, from 1, fail.
    pub fn new(left: Vec<u8>, fails: Vec<u64>) -> MemSource
        ensures { result ≡ record { left = left.items; fails = fails.items; calls = 0; faults = 0 } }
    {
        MemSource {
            bytes: left,
            given: 0,
            tally: Tally::new(fails),
        }
    }

    /// How many calls have failed.
    pub(crate) fn faults(&self) -> u64
        ensures { result ≡ self.now.faults }
    {
        self.tally.faults()
    }
}

impl Source for MemSource {
    ghost left = { λ s. Some s.left };

    ghost faults = { λ s. s.faults };

    fn read(&mut self, into: &mut [u8]) -> Result<usize, Failed>
        ensures within { IfOk result (λ n. n ≤ length into.old) }
        ensures bytes { Takes (Some self.old.left) (Some self.new.left) into.new result }
        ensures end { IfOk result (λ n. n ≡ 0 → 0 < length into.old → IsAtEnd (Some self.old.left)) }
        ensures cause { HasCause self.old.faults self.new.faults result }

        // It fails exactly where the list names it, and each failure is counted.
        ensures named { IsTrue (is_named self.old.fails (counted self.old.calls 1)) → IsErr result }
        ensures err { OnErr result (IsTrue (is_named self.old.fails (counted self.old.calls 1))) }
        ensures count { IfOk result (λ n. n ≡ min (length self.old.left) (length into.old)) }
        ensures faults_ok { OnOk result (self.new.faults ≡ self.old.faults) }
        ensures faults_err { OnErr result (self.new.faults ≡ counted self.old.faults 1) }
        ensures calls { self.new.calls ≡ counted self.old.calls 1 }
        ensures fails { self.new.fails ≡ self.old.fails }
    {
        self.tally.next()?;
        let left = &self.bytes[self.given..];
        let count = left.len().min(into.len());
        into[..count].copy_from_slice(&left[..count]);
        self.given += count;
        Ok(count)
    }
}
