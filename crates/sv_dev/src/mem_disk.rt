// The block device in memory.
ghost use Rattle.std.specs.Prelude.{◌≡◌, ◌+◌, [], length, slice_range, OnOk, OnErr, is_err};
ghost use Rattle.sv_dev.specs.Causes.{HasCause, counted};
ghost use Rattle.sv_dev.specs.Transfer.{CanTransfer, IsTorn, overwritten};
ghost use Rattle.sv_dev.specs.MemDisk.{fails_read, fails_write, Logs};

use crate::{Disk, Failed};
use std::marker::Model;

/// A call of a `MemDisk` that fails, by its number among the calls of its kind, from 1.
#[derive(Clone, Copy, Debug, PartialEq, Eq)]
pub enum Fail {
    Read(u64),
    Write(u64),
    AllReads,
    AllWrites,
}

/// A call of a `MemDisk`, with the place that it asked.
#[derive(Clone, Copy, Debug, PartialEq, Eq)]
pub enum Access {
    Read(u64),
    Write(u64),
}

/// A block device in memory, some of whose calls fail. A write that fails leaves the content as it was.
#[derive(Drop)]
pub struct MemDisk {
    content: Vec<u8>,
    fails: Vec<Fail>,
    log: Vec<Access>,
    reads: u64,
    writes: u64,
    faults: u64,
}

impl Model for MemDisk {
    ghost use Rattle.sv_dev.specs.MemDiskSeen.{MemDiskSeen};

    ghost Value = { MemDiskSeen };

    ghost view = { λ d. record {
      content = d.content.items;
      fails = d.fails.items;
      log = d.log.items;
      reads = d.reads;
      writes = d.writes;
      faults = d.faults;
    } };
}

impl MemDisk {
    ghost use Rattle.sv_dev.specs.MemDiskSeen.{untouched_disk};

    /// A disk over these bytes, whose calls named by `fails` fail.
    pub fn new(content: Vec<u8>, fails: Vec<Fail>) -> MemDisk
        ensures { result ≡ untouched_disk content.items fails.items }
    {
        let log = Vec::new(*content.allocator());
        MemDisk {
            content,
            fails,
            log,
            reads: 0,
            writes: 0,
            faults: 0,
        }
    }

    /// The places asked, in order, of every call, failed ones too. A log that finds no memory leaves the access out.
    pub fn log(&self) -> &[Access]
        ensures { result.now ≡ self.now.log }
    {
        self.log.as_slice()
    }

    /// How many transfers have failed.
    pub(crate) fn faults(&self) -> u64
        ensures { result ≡ self.now.faults }
    {
        self.faults
    }

    /// The bytes of the device.
    pub(crate) fn into_content(self) -> Vec<u8>
        ensures { result.items ≡ self.content }
    {
        self.content
    }
}

impl Fail {
    ghost use Rattle.sv_dev.specs.MemDisk.{names_read, names_write};

    fn names_read(self, number: u64) -> bool
        ensures { result ≡ names_read number self }
    {
        match self {
            Fail::Read(named) => named == number,
            Fail::AllReads => true,
            Fail::Write(_) | Fail::AllWrites => false,
        }
    }

    fn names_write(self, number: u64) -> bool
        ensures { result ≡ names_write number self }
    {
        match self {
            Fail::Write(named) => named == number,
            Fail::AllWrites => true,
            Fail::Read(_) | Fail::AllReads => false,
        }
    }
}

fn is_failing_read(fails: &[Fail], number: u64) -> bool
    ensures { result ≡ fails_read fails.now number }
{
    fails.iter().any(|fail| fail.names_read(number))
}

fn is_failing_write(fails: &[Fail], number: u64) -> bool
    ensures { result ≡ fails_write fails.now number }
{
    fails.iter().any(|fail| fail.names_write(number))
}

impl Disk for MemDisk {
    ghost content = { λ d. d.content };

    ghost reads = { λ d. d.reads };

    ghost writes = { λ d. d.writes };

    ghost faults = { λ d. d.faults };

    fn length(&self) -> u64 {
        self.content.len() as u64
    }

    fn read(&mut self, at: u64, into: &mut [u8]) -> Result<(), Failed>
        requires { CanTransfer self.old.content at (length into.old) }
        ensures bytes { OnOk result (into.new ≡ slice_range self.old.content at (at + length into.old)) }
        ensures content { self.new.content ≡ self.old.content }
        ensures reads { self.new.reads ≡ counted self.old.reads 1 }
        ensures writes { self.new.writes ≡ self.old.writes }
        ensures cause { HasCause self.old.faults self.new.faults result }

        // It fails exactly where the list names it, and each failure is counted.
        ensures named { is_err result ≡ fails_read self.old.fails (counted self.old.reads 1) }
        ensures faults_ok { OnOk result (self.new.faults ≡ self.old.faults) }
        ensures faults_err { OnErr result (self.new.faults ≡ counted self.old.faults 1) }
        ensures fails { self.new.fails ≡ self.old.fails }
        ensures log { Logs self.old.log self.new.log (Access.Read at) }
    {
        self.reads = self.reads.saturating_add(1);
        let _ = self.log.push(Access::Read(at));
        let number = self.reads;
        if is_failing_read(self.fails.as_slice(), number) {
            self.faults = self.faults.saturating_add(1);
            return Err(Failed);
        }
        let from = at as usize;
        into.copy_from_slice(&self.content[from..from + into.len()]);
        Ok(())
    }

    fn write(&mut self, at: u64, from: &[u8]) -> Result<(), Failed>
        requires { CanTransfer self.old.content at (length from.now) }
        ensures written { OnOk result (self.new.content ≡ overwritten self.old.content at from.now) }
        ensures nothing_else { OnOk result (self.new.faults ≡ self.old.faults) }
        ensures torn { OnErr result (IsTorn self.old.content at (length from.now) self.new.content) }
        ensures reads { self.new.reads ≡ self.old.reads }
        ensures writes { self.new.writes ≡ counted self.old.writes 1 }
        ensures cause { HasCause self.old.faults self.new.faults result }

        // It fails exactly where the list names it, each failure is counted, and then the content stays.
        ensures named { is_err result ≡ fails_write self.old.fails (counted self.old.writes 1) }
        ensures faults_err { OnErr result (self.new.faults ≡ counted self.old.faults 1) }
        ensures content_err { OnErr result (self.new.content ≡ self.old.content) }
        ensures fails { self.new.fails ≡ self.old.fails }
        ensures log { Logs self.old.log self.new.log (Access.Write at) }
    {
        self.writes = self.writes.saturating_add(1);
        let _ = self.log.push(Access::Write(at));
        let number = self.writes;
        if is_failing_write(self.fails.as_slice(), number) {
            self.faults = self.faults.saturating_add(1);
            return Err(Failed);
        }
        let start = at as usize;
        self.content[start..start + from.len()].copy_from_slice(from);
        Ok(())
    }
}
