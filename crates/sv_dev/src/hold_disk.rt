// A disk that holds a read.
ghost use Rattle.std.specs.Prelude.{◌≡◌, ◌+◌, None, length, slice_range, OnOk, OnErr, is_err};
ghost use Rattle.sv_dev.specs.Causes.{HasCause, counted};
ghost use Rattle.sv_dev.specs.Transfer.{CanTransfer, IsTorn, overwritten};
ghost use Rattle.sv_dev.specs.MemDisk.{fails_read, fails_write, Logs};
ghost use Rattle.sv_dev.specs.HoldDiskSeen.{Holds};

use crate::{Access, Disk, Failed, MemDisk};
use std::alloc::Global;
use std::marker::Model;
use std::sync::Arc;
use std::sync::atomic::{AtomicBool, Ordering};
use std::thread;

/// A disk in memory whose first read at one place takes as long as another thread wants: it is held until a flag is set. So a test
/// forces an order in which that thread goes on while a transfer runs, and relies on no luck.
#[derive(Drop)]
pub struct HoldDisk {
    inner: MemDisk,
    at: u64,
    flag: Arc<AtomicBool, Global>,
    turns: u64,
    ended: Option<bool>,
}

impl Model for HoldDisk {
    ghost use Rattle.sv_dev.specs.HoldDiskSeen.{HoldDiskSeen};

    ghost Value = { HoldDiskSeen };

    ghost view = { λ d. record { disk = d.inner; at = d.at; turns = d.turns; ended = d.ended } };
}

impl HoldDisk {
    /// Holds the first read of `inner` at place `at`, in bytes, until the flag is true, for at most `turns` looks at it, after each of
    /// which the thread yields.
    pub fn new(inner: MemDisk, at: u64, flag: Arc<AtomicBool, Global>, turns: u64) -> HoldDisk
        ensures { result ≡ record { disk = inner; at = at; turns = turns; ended = None } }
    {
        HoldDisk {
            inner,
            at,
            flag,
            turns,
            ended: None,
        }
    }

    /// Whether the hold ended because the flag was true. It is `None` exactly where that read was not made.
    pub fn ended_by_flag(&self) -> Option<bool>
        ensures { result ≡ self.now.ended }
    {
        self.ended
    }

    /// The places asked, in order, of every call, as `MemDisk::log` has them.
    pub fn log(&self) -> &[Access]
        ensures { result.now ≡ self.now.disk.log }
    {
        self.inner.log()
    }

    /// The disk in memory.
    pub fn into_inner(self) -> MemDisk
        ensures { result ≡ self.disk }
    {
        self.inner
    }
}

// Looks at the flag until it is true, at most this often.
fn is_set_within(flag: &AtomicBool, turns: u64) -> bool {
    for _ in 0..turns {
        if flag.load(Ordering::SeqCst) {
            return true;
        }
        thread::yield_now();
    }
    flag.load(Ordering::SeqCst)
}

// What is known of the hold after a read at this place.
fn hold(ended: Option<bool>, at: u64, place: u64, flag: &AtomicBool, turns: u64) -> Option<bool>
    ensures { Holds ended at place result }
{
    if at != place {
        return ended;
    }
    match ended {
        None => Some(is_set_within(flag, turns)),
        Some(by_flag) => Some(by_flag),
    }
}

impl Disk for HoldDisk {
    ghost content = { λ d. d.disk.content };

    ghost reads = { λ d. d.disk.reads };

    ghost writes = { λ d. d.disk.writes };

    ghost faults = { λ d. d.disk.faults };

    fn length(&self) -> u64 {
        self.inner.length()
    }

    fn read(&mut self, at: u64, into: &mut [u8]) -> Result<(), Failed>
        requires { CanTransfer self.old.disk.content at (length into.old) }
        ensures bytes { OnOk result (into.new ≡ slice_range self.old.disk.content at (at + length into.old)) }
        ensures content { self.new.disk.content ≡ self.old.disk.content }
        ensures reads { self.new.disk.reads ≡ counted self.old.disk.reads 1 }
        ensures writes { self.new.disk.writes ≡ self.old.disk.writes }
        ensures cause { HasCause self.old.disk.faults self.new.disk.faults result }

        // It is held or not, and fails exactly where the disk in memory does.
        ensures holds { Holds self.old.ended at self.old.at self.new.ended }
        ensures named { is_err result ≡ fails_read self.old.disk.fails (counted self.old.disk.reads 1) }
        ensures faults_ok { OnOk result (self.new.disk.faults ≡ self.old.disk.faults) }
        ensures faults_err { OnErr result (self.new.disk.faults ≡ counted self.old.disk.faults 1) }
        ensures fails { self.new.disk.fails ≡ self.old.disk.fails }
        ensures log { Logs self.old.disk.log self.new.disk.log (Access.Read at) }
        ensures kept { (self.new.at ≡ self.old.at) × (self.new.turns ≡ self.old.turns) }
    {
        self.ended = hold(self.ended, at, self.at, &self.flag, self.turns);
        self.inner.read(at, into)
    }

    fn write(&mut self, at: u64, from: &[u8]) -> Result<(), Failed>
        requires { CanTransfer self.old.disk.content at (length from.now) }
        ensures written { OnOk result (self.new.disk.content ≡ overwritten self.old.disk.content at from.now) }
        ensures nothing_else { OnOk result (self.new.disk.faults ≡ self.old.disk.faults) }
        ensures torn { OnErr result (IsTorn self.old.disk.content at (length from.now) self.new.disk.content) }
        ensures reads { self.new.disk.reads ≡ self.old.disk.reads }
        ensures writes { self.new.disk.writes ≡ counted self.old.disk.writes 1 }
        ensures cause { HasCause self.old.disk.faults self.new.disk.faults result }

        // It is never held, and fails exactly where the disk in memory does.
        ensures named { is_err result ≡ fails_write self.old.disk.fails (counted self.old.disk.writes 1) }
        ensures faults_err { OnErr result (self.new.disk.faults ≡ counted self.old.disk.faults 1) }
        ensures content_err { OnErr result (self.new.disk.content ≡ self.old.disk.content) }
        ensures fails { self.new.disk.fails ≡ self.old.disk.fails }
        ensures log { Logs self.old.disk.log self.new.disk.log (Access.Write at) }
        ensures kept { self.new ≡ record self.old { disk = self.new.disk } }
    {
        self.inner.write(at, from)
    }
}
