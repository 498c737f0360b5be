// The host over a real file system.
ghost use Rattle.std.specs.Prelude.{◌≡◌, ◌≤◌, None, IfOk, IsOk, replicate};
ghost use Rattle.sv_dev.specs.Causes.{HasHostCause, Rose, counted, faults_after, more_faults};

use crate::{FileSink, FileSource, Host, HostFault, MirrorDisk};
use std::alloc::Global;
use std::fs::File;
use std::marker::Model;
use std::rt::Files;

/// The host over the real file system: a name is a path. It does not tell what stands under a name. A disk and a sink
/// write through to the file that they were made for, so keeping a disk under that name writes nothing more; a sink
/// is kept under the name that it was made for.
#[derive(Drop)]
pub struct RealHost {
    faults: u64,
    disk_faults: u64,
    source_faults: u64,
    sink_faults: u64,
    asked: u64,
}

impl Model for RealHost {
    ghost use Rattle.sv_dev.specs.RealHostSeen.{RealHostSeen};

    ghost Value = { RealHostSeen };

    ghost view = { λ h. record {
      faults = h.faults;
      disk_faults = h.disk_faults;
      source_faults = h.source_faults;
      sink_faults = h.sink_faults;
      asked = h.asked;
    } };
}

impl RealHost {
    pub fn new() -> RealHost
        ensures { result ≡ record { faults = 0; disk_faults = 0; source_faults = 0; sink_faults = 0; asked = 0 } }
    {
        RealHost {
            faults: 0,
            disk_faults: 0,
            source_faults: 0,
            sink_faults: 0,
            asked: 0,
        }
    }

    // Counts a failure, and no want of memory.
    fn count(&mut self, fault: HostFault) -> HostFault
        ensures fault { result ≡ fault }
        ensures counts { self.new ≡ record self.old { faults = more_faults self.old.faults fault } }
        ensures no_less { self.old.faults ≤ self.new.faults }
        ensures rose { fault ≡ HostFault.Failed → Rose self.old.faults self.new.faults }
    {
        if fault == HostFault::Failed {
            self.faults = self.faults.saturating_add(1);
        }
        fault
    }
}

impl Host for RealHost {
    type Disk = MirrorDisk;

    type Source = FileSource;

    type Sink = FileSink;

    ghost images = { λ _. None };

    ghost texts = { λ _. None };

    ghost faults = { λ h. h.faults };

    ghost disk_faults = { λ h. h.disk_faults };

    ghost source_faults = { λ h. h.source_faults };

    ghost sink_faults = { λ h. h.sink_faults };

    ghost asked = { λ h. h.asked };

    fn disk<R: Files<File = File>>(
        &mut self,
        rt: &R,
        alloc: Global,
        name: &str,
    ) -> Result<MirrorDisk, HostFault>
        ensures count { IfOk result (λ d. d.faults ≡ 0) }
        ensures cause { HasHostCause self.old.faults self.new.faults result }
        ensures counts { self.new ≡ record self.old { faults = faults_after self.old.faults result } }
    {
        match MirrorDisk::open(rt, alloc, name) {
            Ok(made) => Ok(made),
            Err(fault) => Err(self.count(fault)),
        }
    }

    fn fresh<R: Files<File = File>>(
        &mut self,
        rt: &R,
        alloc: Global,
        name: &str,
        length: u64,
    ) -> Result<MirrorDisk, HostFault>
        ensures content { IfOk result (λ d. d.content ≡ replicate length 0) }
        ensures count { IfOk result (λ d. d.faults ≡ 0) }
        ensures cause { HasHostCause self.old.faults self.new.faults result }
        ensures counts { self.new ≡ record self.old { faults = faults_after self.old.faults result } }
    {
        match MirrorDisk::create(rt, alloc, name, length) {
            Ok(made) => Ok(made),
            Err(fault) => Err(self.count(fault)),
        }
    }

    fn source<R: Files<File = File>>(
        &mut self,
        rt: &R,
        _alloc: Global,
        name: &str,
    ) -> Result<FileSource, HostFault>
        ensures count { IfOk result (λ s. s ≡ 0) }
        ensures cause { HasHostCause self.old.faults self.new.faults result }
        ensures counts { self.new ≡ record self.old { faults = faults_after self.old.faults result; asked = counted self.old.asked 1 } }
    {
        self.asked = self.asked.saturating_add(1);
        match FileSource::open(rt, name) {
            Ok(made) => Ok(made),
            Err(fault) => Err(self.count(fault)),
        }
    }

    fn sink<R: Files<File = File>>(
        &mut self,
        rt: &R,
        _alloc: Global,
        name: &str,
    ) -> Result<FileSink, HostFault>
        ensures count { IfOk result (λ s. s ≡ 0) }
        ensures cause { HasHostCause self.old.faults self.new.faults result }
        ensures counts { self.new ≡ record self.old { faults = faults_after self.old.faults result } }
    {
        match FileSink::create(rt, name) {
            Ok(made) => Ok(made),
            Err(fault) => Err(self.count(fault)),
        }
    }

    fn keep<R: Files<File = File>>(
        &mut self,
        rt: &R,
        _alloc: Global,
        name: &str,
        disk: MirrorDisk,
    ) -> Result<(), HostFault>
        ensures cause { HasHostCause self.old.faults self.new.faults result }
        ensures counts { self.new ≡ record self.old {
          faults = faults_after self.old.faults result;
          disk_faults = counted
              self.old.disk_faults disk.faults;
        } }
    {
        self.disk_faults = self.disk_faults.saturating_add(disk.faults());
        match disk.save(rt, name) {
            Ok(made) => Ok(made),
            Err(fault) => Err(self.count(fault)),
        }
    }

    fn keep_text<R: Files<File = File>>(
        &mut self,
        _rt: &R,
        _alloc: Global,
        _name: &str,
        sink: FileSink,
    ) -> Result<(), HostFault>
        ensures cause { HasHostCause self.old.faults self.new.faults result }
        ensures ok { IsOk result }
        ensures counts { self.new ≡ record self.old { sink_faults = counted self.old.sink_faults sink } }
    {
        self.sink_faults = self.sink_faults.saturating_add(sink.faults());
        Ok(())
    }

    fn end_disk(&mut self, disk: MirrorDisk)
        ensures counts { self.new ≡ record self.old { disk_faults = counted self.old.disk_faults disk.faults } }
    {
        self.disk_faults = self.disk_faults.saturating_add(disk.faults());
    }

    fn end_source(&mut self, source: FileSource)
        ensures counts { self.new ≡ record self.old { source_faults = counted self.old.source_faults source } }
    {
        self.source_faults = self.source_faults.saturating_add(source.faults());
    }

    fn end_sink(&mut self, sink: FileSink)
        ensures counts { self.new ≡ record self.old { sink_faults = counted self.old.sink_faults sink } }
    {
        self.sink_faults = self.sink_faults.saturating_add(sink.faults());
    }
}
