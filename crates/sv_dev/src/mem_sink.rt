// The sink in memory.
ghost use Rattle.std.specs.Prelude.{◌≡◌, ◌⊎◌, ◌<◌, ◌+◌, [], Some, length, OnOk, OnErr, IsErr, IsTrue};
ghost use Rattle.sv_dev.specs.Causes.{HasCause, counted};
ghost use Rattle.sv_dev.specs.Tally.{is_named};
ghost use Rattle.sv_dev.specs.Told.{Writes};

use crate::{Failed, Sink, Tally};
use std::marker::Model;

/// A sink that holds in memory all bytes that it took, and some of whose calls fail. After `Failed` it holds none
/// of the bytes of that call.
#[derive(Drop)]
pub struct MemSink {
    written: Vec<u8>,
    tally: Tally,
}

impl Model for MemSink {
    ghost use Rattle.std.specs.Prelude.{vec_capacity};
    ghost use Rattle.sv_dev.specs.MemSinkSeen.{MemSinkSeen};

    ghost Value = { MemSinkSeen };

    ghost view = { λ s. record {
      written = s.written.items;
      room = vec_capacity s.written;
      fails = s.tally.fails;
      calls = s.tally.calls;
      faults = s.tally.faults;
    } };
}

impl MemSink {
    /// An empty sink. The calls of `write` with these numbers, from 1, fail.
    pub fn new(fails: Vec<u64>) -> MemSink
        ensures written { result.written ≡ [] }
        ensures fails { result.fails ≡ fails.items }
        ensures calls { result.calls ≡ 0 }
        ensures faults { result.faults ≡ 0 }
    {
        let written = Vec::new(*fails.allocator());
        MemSink {
            written,
            tally: Tally::new(fails),
        }
    }

    pub fn written(&self) -> &[u8]
        ensures { result.now ≡ self.now.written }
    {
        self.written.as_slice()
    }

    /// How many calls have failed.
    pub(crate) fn faults(&self) -> u64
        ensures { result ≡ self.now.faults }
    {
        self.tally.faults()
    }

    /// All bytes that it took.
    pub(crate) fn into_written(self) -> Vec<u8>
        ensures { result.items ≡ self.written }
    {
        self.written
    }
}

impl Sink for MemSink {
    ghost written = { λ s. Some s.written };

    ghost faults = { λ s. s.faults };

    fn write(&mut self, from: &[u8]) -> Result<(), Failed>
        ensures written { Writes (Some self.old.written) (Some self.new.written) from.now result }
        ensures cause { HasCause self.old.faults self.new.faults result }

        // It fails exactly where the list names it or its growth found no memory, and each failure is counted.
        ensures named { IsTrue (is_named self.old.fails (counted self.old.calls 1)) → IsErr result }
        ensures err { OnErr result (IsTrue (is_named self.old.fails (counted self.old.calls 1)) ⊎
            (self.old.room < length self.old.written + length from.now)) }
        ensures nothing { OnErr result (self.new.written ≡ self.old.written) }
        ensures faults_ok { OnOk result (self.new.faults ≡ self.old.faults) }
        ensures faults_err { OnErr result (self.new.faults ≡ counted self.old.faults 1) }
        ensures calls { self.new.calls ≡ counted self.old.calls 1 }
        ensures fails { self.new.fails ≡ self.old.fails }
    {
        self.tally.next()?;
        match self.written.extend_from_slice(from) {
            Ok(()) => Ok(()),
            Err(_) => {
                self.tally.fail();
                Err(Failed)
            }
        }
    }
}
