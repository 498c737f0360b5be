// Who gives disks, sources and sinks by name.
ghost use Rattle.std.specs.Prelude.{◌≡◌, [], List, ℕ, Option, Some, IfOk, IfSome, replicate};
ghost use Rattle.std.specs.Option.{option_map};
ghost use Rattle.sv_dev.specs.Causes.{HasHostCause, counted};
ghost use Rattle.sv_dev.specs.Names.{GivesUnder, PutsUnder, PutsToldUnder};

use crate::{Disk, HostFault, Sink, Source};
use std::alloc::Global;
use std::fs::File;
use std::rt::Files;

/// Gives the disk of an image by the image's name, and takes it back; and so with texts, which are read by a source
/// and written by a sink.
///
/// The counts only rise, and stand still at `u64::MAX`. The host does not compare names: two names may be one
/// file of a real file system. After a call that put something under a name was refused, there stands what it was to
/// put or what stood there.
pub trait Host {
    type Disk: Disk;

    type Source: Source;

    type Sink: Sink;

    /// What image stands under each name, where the host tells.
    ghost images: { Self → Option (List ℕ → Option (List ℕ)) };

    /// What text stands under each name, where the host tells.
    ghost texts: { Self → Option (List ℕ → Option (List ℕ)) };

    /// How many calls have failed, at least.
    ghost faults: { Self → ℕ };

    /// The sum of the faults of all disks that came back.
    ghost disk_faults: { Self → ℕ };

    /// The sum of the faults of all sources that came back.
    ghost source_faults: { Self → ℕ };

    /// The sum of the faults of all sinks that came back.
    ghost sink_faults: { Self → ℕ };

    /// How often a source was asked for.
    ghost asked: { Self → ℕ };

    /// A disk whose content is the image under that name, with no fault counted yet. It fails where the name is
    /// not there.
    fn disk<R: Files<File = File>>(
        &mut self,
        rt: &R,
        alloc: Global,
        name: &str,
    ) -> Result<Self::Disk, HostFault>
        ensures content { IfOk result (λ d. IfSome (images self.old) (λ under. under name.now ≡ Some (Self.Disk.content d))) }
        ensures count { IfOk result (λ d. Self.Disk.faults d ≡ 0) }
        ensures images { images self.new ≡ images self.old }
        ensures texts { texts self.new ≡ texts self.old }
        ensures disk_faults { disk_faults self.new ≡ disk_faults self.old }
        ensures source_faults { source_faults self.new ≡ source_faults self.old }
        ensures sink_faults { sink_faults self.new ≡ sink_faults self.old }
        ensures asked { asked self.new ≡ asked self.old }
        ensures cause { HasHostCause (faults self.old) (faults self.new) result };

    /// A disk of `length` zero bytes, with no fault counted yet, whose image replaces what was there.
    fn fresh<R: Files<File = File>>(
        &mut self,
        rt: &R,
        alloc: Global,
        name: &str,
        length: u64,
    ) -> Result<Self::Disk, HostFault>
        ensures content { IfOk result (λ d. Self.Disk.content d ≡ replicate length 0) }
        ensures count { IfOk result (λ d. Self.Disk.faults d ≡ 0) }
        ensures images { PutsUnder (images self.old) (images self.new) name.now (replicate length 0) result }
        ensures texts { texts self.new ≡ texts self.old }
        ensures disk_faults { disk_faults self.new ≡ disk_faults self.old }
        ensures source_faults { source_faults self.new ≡ source_faults self.old }
        ensures sink_faults { sink_faults self.new ≡ sink_faults self.old }
        ensures asked { asked self.new ≡ asked self.old }
        ensures cause { HasHostCause (faults self.old) (faults self.new) result };

    /// A source of the text under that name, with no fault counted yet. It fails where the name is not there.
    fn source<R: Files<File = File>>(
        &mut self,
        rt: &R,
        alloc: Global,
        name: &str,
    ) -> Result<Self::Source, HostFault>
        ensures left { IfOk result (λ s. GivesUnder (texts self.old) name.now (Self.Source.left s)) }
        ensures count { IfOk result (λ s. Self.Source.faults s ≡ 0) }
        ensures images { images self.new ≡ images self.old }
        ensures texts { texts self.new ≡ texts self.old }
        ensures disk_faults { disk_faults self.new ≡ disk_faults self.old }
        ensures source_faults { source_faults self.new ≡ source_faults self.old }
        ensures sink_faults { sink_faults self.new ≡ sink_faults self.old }
        ensures asked { asked self.new ≡ counted (asked self.old) 1 }
        ensures cause { HasHostCause (faults self.old) (faults self.new) result };

    /// A sink that took nothing yet, with no fault counted yet. The empty text replaces what was there.
    fn sink<R: Files<File = File>>(
        &mut self,
        rt: &R,
        alloc: Global,
        name: &str,
    ) -> Result<Self::Sink, HostFault>
        ensures written { IfOk result (λ s. Self.Sink.written s ≡ option_map (λ _. []) (texts self.old)) }
        ensures count { IfOk result (λ s. Self.Sink.faults s ≡ 0) }
        ensures images { images self.new ≡ images self.old }
        ensures texts { PutsUnder (texts self.old) (texts self.new) name.now [] result }
        ensures disk_faults { disk_faults self.new ≡ disk_faults self.old }
        ensures source_faults { source_faults self.new ≡ source_faults self.old }
        ensures sink_faults { sink_faults self.new ≡ sink_faults self.old }
        ensures asked { asked self.new ≡ asked self.old }
        ensures cause { HasHostCause (faults self.old) (faults self.new) result };

    /// Takes a disk back, and puts its content under the name.
    fn keep<R: Files<File = File>>(
        &mut self,
        rt: &R,
        alloc: Global,
        name: &str,
        disk: Self::Disk,
    ) -> Result<(), HostFault>
        ensures images { PutsUnder (images self.old) (images self.new) name.now (Self.Disk.content disk) result }
        ensures texts { texts self.new ≡ texts self.old }
        ensures disk_faults { disk_faults self.new ≡ counted (disk_faults self.old) (Self.Disk.faults disk) }
        ensures source_faults { source_faults self.new ≡ source_faults self.old }
        ensures sink_faults { sink_faults self.new ≡ sink_faults self.old }
        ensures asked { asked self.new ≡ asked self.old }
        ensures cause { HasHostCause (faults self.old) (faults self.new) result };

    /// Takes a sink back, and puts what it took, where it tells, under the name.
    fn keep_text<R: Files<File = File>>(
        &mut self,
        rt: &R,
        alloc: Global,
        name: &str,
        sink: Self::Sink,
    ) -> Result<(), HostFault>
        ensures images { images self.new ≡ images self.old }
        ensures texts { PutsToldUnder (texts self.old) (texts self.new) name.now (Self.Sink.written sink) result }
        ensures disk_faults { disk_faults self.new ≡ disk_faults self.old }
        ensures source_faults { source_faults self.new ≡ source_faults self.old }
        ensures sink_faults { sink_faults self.new ≡ counted (sink_faults self.old) (Self.Sink.faults sink) }
        ensures asked { asked self.new ≡ asked self.old }
        ensures cause { HasHostCause (faults self.old) (faults self.new) result };

    /// Takes a disk back and lets it go. What stands under its name stays as it was.
    fn end_disk(&mut self, disk: Self::Disk)
        ensures images { images self.new ≡ images self.old }
        ensures texts { texts self.new ≡ texts self.old }
        ensures faults { faults self.new ≡ faults self.old }
        ensures disk_faults { disk_faults self.new ≡ counted (disk_faults self.old) (Self.Disk.faults disk) }
        ensures source_faults { source_faults self.new ≡ source_faults self.old }
        ensures sink_faults { sink_faults self.new ≡ sink_faults self.old }
        ensures asked { asked self.new ≡ asked self.old };

    /// Takes a source back and lets it go.
    fn end_source(&mut self, source: Self::Source)
        ensures images { images self.new ≡ images self.old }
        ensures texts { texts self.new ≡ texts self.old }
        ensures faults { faults self.new ≡ faults self.old }
        ensures disk_faults { disk_faults self.new ≡ disk_faults self.old }
        ensures source_faults { source_faults self.new ≡ counted (source_faults self.old) (Self.Source.faults source) }
        ensures sink_faults { sink_faults self.new ≡ sink_faults self.old }
        ensures asked { asked self.new ≡ asked self.old };

    /// Takes a sink back and lets it go. What stands under its name stays as it was.
    fn end_sink(&mut self, sink: Self::Sink)
        ensures images { images self.new ≡ images self.old }
        ensures texts { texts self.new ≡ texts self.old }
        ensures faults { faults self.new ≡ faults self.old }
        ensures disk_faults { disk_faults self.new ≡ disk_faults self.old }
        ensures source_faults { source_faults self.new ≡ source_faults self.old }
        ensures sink_faults { sink_faults self.new ≡ counted (sink_faults self.old) (Self.Sink.faults sink) }
        ensures asked { asked self.new ≡ asked self.old };
}
