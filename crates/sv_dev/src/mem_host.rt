// The host in memory.
ghost use Rattle.std.specs.Prelude.{◌≡◌, ◌≢◌, ◌⊎◌, ℕ, List, [], Some, None, IfOk, IfErr, OnOk, OnErr, IsNone, IsTrue, IsErrOf, replicate};
ghost use Rattle.std.specs.Prelude.{MatchResult};
ghost use Rattle.std.specs.Option.{option_copied};
ghost use Rattle.sv_dev.specs.Causes.{HasHostCause, counted, faults_after};
ghost use Rattle.sv_dev.specs.MemDiskSeen.{untouched_disk};
ghost use Rattle.sv_dev.specs.MemHostSeen.{fails_next};

use crate::{Disk, Fail, Host, HostFault, MemDisk, MemSink, MemSource, NoMemory, Tally};
use std::alloc::Global;
use std::collections::HashMap;
use std::fs::File;
use std::rt::Files;

// What stands under a name: the image, and which calls of a disk over it fail.
#[derive(Drop)]
struct Image {
    content: Vec<u8>,
    fails: Vec<Fail>,
}

/// A host that holds its images and texts in memory, and some of whose calls fail: those that take the runtime are
/// numbered, from 1, and the calls of a `MemHost` alone and the three that end a disk, source or sink are not.
#[derive(Drop)]
pub struct MemHost {
    images: HashMap<String, Image>,
    texts: HashMap<String, Vec<u8>>,
    tally: Tally,
    disk_faults: u64,
    source_faults: u64,
    sink_faults: u64,
    asked: u64,
}

impl Image {
    fn disk(&self, alloc: Global) -> Result<MemDisk, HostFault>
        ensures disk { IfOk result (λ d. d ≡ untouched_disk self.now.content.items self.now.fails.items) }
        ensures memory { IfErr result (λ e. e ≡ HostFault.NoMemory) }
    {
        let content = self.content.to_vec(alloc)?;
        let fails = self.fails.to_vec(alloc)?;
        Ok(MemDisk::new(content, fails))
    }
}

impl MemHost {
    ghost use Rattle.sv_dev.specs.MemHost.{image_under, fails_under, text_under, counts_of, SameImages, SameOtherImages, SameTexts};
    ghost use Rattle.sv_dev.specs.MemHost.{SameOtherTexts};

    /// A host that holds no name. The calls with these numbers, from 1, fail.
    pub fn new(fails: Vec<u64>) -> MemHost
        ensures images { (name : List ℕ) → IsNone (image_under result name) }
        ensures texts { (name : List ℕ) → IsNone (text_under result name) }
        ensures counts { counts_of result ≡ record {
          fails = fails.items;
          calls = 0;
          faults = 0;
          disk_faults = 0;
          source_faults = 0;
          sink_faults = 0;
          asked = 0;
        } }
    {
        MemHost {
            images: HashMap::new(*fails.allocator()),
            texts: HashMap::new(*fails.allocator()),
            tally: Tally::new(fails),
            disk_faults: 0,
            source_faults: 0,
            sink_faults: 0,
            asked: 0,
        }
    }

    /// Puts an image under the name, in place of the one that was there. The calls of its disks that `fails` names
    /// fail. It is not numbered among the calls that fail.
    pub fn put_image(
        &mut self,
        name: &str,
        content: Vec<u8>,
        fails: Vec<Fail>,
    ) -> Result<(), NoMemory>
        ensures image { OnOk result (image_under self.new name.now ≡ Some content.items) }
        ensures fails { OnOk result (fails_under self.new name.now ≡ fails.items) }
        ensures others { SameOtherImages self.old self.new name.now }
        ensures err { OnErr result (SameImages self.old self.new) }
        ensures texts { SameTexts self.old self.new }
        ensures counts { counts_of self.new ≡ counts_of self.old }
    {
        let key = String::from_str(self.tally.allocator(), name)?;
        self.images.insert(key, Image { content, fails })?;
        Ok(())
    }

    /// Puts a text under the name, in place of the one that was there. It is not numbered among the calls that fail.
    pub fn put_text(&mut self, name: &str, text: Vec<u8>) -> Result<(), NoMemory>
        ensures text { OnOk result (text_under self.new name.now ≡ Some text.items) }
        ensures others { SameOtherTexts self.old self.new name.now }
        ensures err { OnErr result (SameTexts self.old self.new) }
        ensures images { SameImages self.old self.new }
        ensures counts { counts_of self.new ≡ counts_of self.old }
    {
        let key = String::from_str(self.tally.allocator(), name)?;
        self.texts.insert(key, text)?;
        Ok(())
    }

    /// The image under the name.
    pub fn image(&self, name: &str) -> Option<&[u8]>
        ensures { option_copied result ≡ image_under self.now name.now }
    {
        match self.images.get(name) {
            Some(image) => Some(image.content.as_slice()),
            None => None,
        }
    }

    /// The text under the name.
    pub fn text(&self, name: &str) -> Option<&[u8]>
        ensures { option_copied result ≡ text_under self.now name.now }
    {
        match self.texts.get(name) {
            Some(text) => Some(text.as_slice()),
            None => None,
        }
    }

    // Puts a content under the name. Which calls fail of a disk over it stays as it was.
    fn put_content(&mut self, name: &str, content: Vec<u8>) -> Result<(), NoMemory>
        ensures image { OnOk result (image_under self.new name.now ≡ Some content.items) }
        ensures fails { fails_under self.new name.now ≡ fails_under self.old name.now }
        ensures others { SameOtherImages self.old self.new name.now }
        ensures err { OnErr result (SameImages self.old self.new) }
        ensures nothing_else { self.new ≡ record self.old { images = self.new.images } }
    {
        let alloc = self.tally.allocator();
        let Some(image) = self.images.get_mut(name) else {
            let key = String::from_str(alloc, name)?;
            let fails = Vec::new(alloc);
            self.images.insert(key, Image { content, fails })?;
            return Ok(());
        };
        image.content = content;
        Ok(())
    }

    // A copy of which calls fail of a disk over the image under the name.
    fn fails_of(&self, alloc: Global, name: &str) -> Result<Vec<Fail>, NoMemory>
        ensures { IfOk result (λ fails. fails.items ≡ fails_under self.now name.now) }
    {
        match self.images.get(name) {
            Some(image) => image.fails.to_vec(alloc),
            None => Ok(Vec::new(alloc)),
        }
    }
}

impl Host for MemHost {
    ghost use Rattle.sv_dev.specs.MemHost.{image_under, fails_under, text_under, counts_of, SameImages, SameTexts};
    ghost use Rattle.sv_dev.specs.Names.{SameElsewhere, PutsUnder};

    type Disk = MemDisk;

    type Source = MemSource;

    type Sink = MemSink;

    ghost images = { λ h. Some (image_under h) };

    ghost texts = { λ h. Some (text_under h) };

    ghost faults = { λ h. (counts_of h).faults };

    ghost disk_faults = { λ h. (counts_of h).disk_faults };

    ghost source_faults = { λ h. (counts_of h).source_faults };

    ghost sink_faults = { λ h. (counts_of h).sink_faults };

    ghost asked = { λ h. (counts_of h).asked };

    fn disk<R: Files<File = File>>(
        &mut self,
        _rt: &R,
        alloc: Global,
        name: &str,
    ) -> Result<MemDisk, HostFault>
        ensures content { IfOk result (λ d. image_under self.old name.now ≡ Some d.content) }
        ensures untouched { IfOk result (λ d. d ≡ untouched_disk d.content (fails_under self.old name.now)) }
        ensures images { SameImages self.old self.new }
        ensures texts { SameTexts self.old self.new }
        ensures cause { HasHostCause (counts_of self.old).faults (counts_of self.new).faults result }

        // It fails exactly where the list names it or the name is not there, and each failure is counted.
        ensures named { IsTrue (fails_next (counts_of self.old)) → IsErrOf result HostFault.Failed }
        ensures missing { IsNone (image_under self.old name.now) → IsErrOf result HostFault.Failed }
        ensures failed { IsErrOf result HostFault.Failed →
            IsTrue (fails_next (counts_of self.old)) ⊎ IsNone (image_under self.old name.now) }
        ensures counts { counts_of self.new ≡ record (counts_of self.old) {
          calls = counted (counts_of self.old).calls 1;
          faults = faults_after (counts_of self.old).faults result;
        } }
    {
        self.tally.next()?;
        match self.images.get(name) {
            Some(image) => image.disk(alloc),
            None => {
                self.tally.fail();
                Err(HostFault::Failed)
            }
        }
    }

    fn fresh<R: Files<File = File>>(
        &mut self,
        _rt: &R,
        alloc: Global,
        name: &str,
        length: u64,
    ) -> Result<MemDisk, HostFault>
        ensures disk { IfOk result (λ d. d ≡ untouched_disk (replicate length 0) (fails_under self.old name.now)) }
        ensures image { OnOk result (image_under self.new name.now ≡ Some (replicate length 0)) }
        ensures fails { fails_under self.new name.now ≡ fails_under self.old name.now }
        ensures others { SameElsewhere name.now (image_under self.old) (image_under self.new) }
        ensures err { OnErr result (SameImages self.old self.new) }
        ensures texts { SameTexts self.old self.new }
        ensures cause { HasHostCause (counts_of self.old).faults (counts_of self.new).faults result }

        // It fails exactly where the list names it, and each failure is counted.
        ensures named { IsTrue (fails_next (counts_of self.old)) → IsErrOf result HostFault.Failed }
        ensures failed { IsErrOf result HostFault.Failed → IsTrue (fails_next (counts_of self.old)) }
        ensures counts { counts_of self.new ≡ record (counts_of self.old) {
          calls = counted (counts_of self.old).calls 1;
          faults = faults_after (counts_of self.old).faults result;
        } }
    {
        self.tally.next()?;
        let zeros = vec![in alloc; 0; length as usize]?;
        let content = zeros.to_vec(alloc)?;
        let fails = self.fails_of(alloc, name)?;
        self.put_content(name, content)?;
        Ok(MemDisk::new(zeros, fails))
    }

    fn source<R: Files<File = File>>(
        &mut self,
        _rt: &R,
        alloc: Global,
        name: &str,
    ) -> Result<MemSource, HostFault>
        ensures left { IfOk result (λ s. text_under self.old name.now ≡ Some s.left) }
        ensures untouched { IfOk result (λ s. s ≡ record { left = s.left; fails = []; calls = 0; faults = 0 }) }
        ensures images { SameImages self.old self.new }
        ensures texts { SameTexts self.old self.new }
        ensures cause { HasHostCause (counts_of self.old).faults (counts_of self.new).faults result }

        // It fails exactly where the list names it or the name is not there, and each failure is counted.
        ensures named { IsTrue (fails_next (counts_of self.old)) → IsErrOf result HostFault.Failed }
        ensures missing { IsNone (text_under self.old name.now) → IsErrOf result HostFault.Failed }
        ensures failed { IsErrOf result HostFault.Failed →
            IsTrue (fails_next (counts_of self.old)) ⊎ IsNone (text_under self.old name.now) }
        ensures counts { counts_of self.new ≡ record (counts_of self.old) {
          calls = counted (counts_of self.old).calls 1;
          faults = faults_after (counts_of self.old).faults result;
          asked = counted (counts_of self.old).asked 1;
        } }
    {
        self.asked = self.asked.saturating_add(1);
        self.tally.next()?;
        match self.texts.get(name) {
            Some(text) => {
                let left = text.to_vec(alloc)?;
                Ok(MemSource::new(left, Vec::new(alloc)))
            }
            None => {
                self.tally.fail();
                Err(HostFault::Failed)
            }
        }
    }

    fn sink<R: Files<File = File>>(
        &mut self,
        _rt: &R,
        alloc: Global,
        name: &str,
    ) -> Result<MemSink, HostFault>
        ensures written { IfOk result (λ s. s.written ≡ []) }
        ensures untouched { IfOk result (λ s. (s.fails ≡ []) × (s.calls ≡ 0) × (s.faults ≡ 0)) }
        ensures text { OnOk result (text_under self.new name.now ≡ Some []) }
        ensures others { SameElsewhere name.now (text_under self.old) (text_under self.new) }
        ensures err { OnErr result (SameTexts self.old self.new) }
        ensures images { SameImages self.old self.new }
        ensures cause { HasHostCause (counts_of self.old).faults (counts_of self.new).faults result }

        // It fails exactly where the list names it, and each failure is counted.
        ensures named { IsTrue (fails_next (counts_of self.old)) → IsErrOf result HostFault.Failed }
        ensures failed { IsErrOf result HostFault.Failed → IsTrue (fails_next (counts_of self.old)) }
        ensures counts { counts_of self.new ≡ record (counts_of self.old) {
          calls = counted (counts_of self.old).calls 1;
          faults = faults_after (counts_of self.old).faults result;
        } }
    {
        self.tally.next()?;
        self.put_text(name, Vec::new(alloc))?;
        Ok(MemSink::new(Vec::new(alloc)))
    }

    fn keep<R: Files<File = File>>(
        &mut self,
        _rt: &R,
        _alloc: Global,
        name: &str,
        disk: MemDisk,
    ) -> Result<(), HostFault>
        ensures image { OnOk result (image_under self.new name.now ≡ Some disk.content) }
        ensures fails { fails_under self.new name.now ≡ fails_under self.old name.now }
        ensures others { SameElsewhere name.now (image_under self.old) (image_under self.new) }
        ensures err { OnErr result (SameImages self.old self.new) }
        ensures texts { SameTexts self.old self.new }
        ensures cause { HasHostCause (counts_of self.old).faults (counts_of self.new).faults result }

        // It fails exactly where the list names it, and each failure is counted.
        ensures named { IsTrue (fails_next (counts_of self.old)) → IsErrOf result HostFault.Failed }
        ensures failed { IsErrOf result HostFault.Failed → IsTrue (fails_next (counts_of self.old)) }
        ensures counts { counts_of self.new ≡ record (counts_of self.old) {
          calls = counted (counts_of self.old).calls 1;
          faults = faults_after (counts_of self.old).faults result;
          disk_faults = counted (counts_of self.old).disk_faults disk.faults;
        } }
    {
        self.disk_faults = self.disk_faults.saturating_add(disk.faults());
        self.tally.next()?;
        self.put_content(name, disk.into_content())?;
        Ok(())
    }

    fn keep_text<R: Files<File = File>>(
        &mut self,
        _rt: &R,
        _alloc: Global,
        name: &str,
        sink: MemSink,
    ) -> Result<(), HostFault>
        ensures text { OnOk result (text_under self.new name.now ≡ Some sink.written) }
        ensures others { SameElsewhere name.now (text_under self.old) (text_under self.new) }
        ensures err { OnErr result (SameTexts self.old self.new) }
        ensures images { SameImages self.old self.new }
        ensures cause { HasHostCause (counts_of self.old).faults (counts_of self.new).faults result }

        // It fails exactly where the list names it, and each failure is counted.
        ensures named { IsTrue (fails_next (counts_of self.old)) → IsErrOf result HostFault.Failed }
        ensures failed { IsErrOf result HostFault.Failed → IsTrue (fails_next (counts_of self.old)) }
        ensures counts { counts_of self.new ≡ record (counts_of self.old) {
          calls = counted (counts_of self.old).calls 1;
          faults = faults_after (counts_of self.old).faults result;
          sink_faults = counted (counts_of self.old).sink_faults sink.faults;
        } }
    {
        self.sink_faults = self.sink_faults.saturating_add(sink.faults());
        self.tally.next()?;
        self.put_text(name, sink.into_written())?;
        Ok(())
    }

    fn end_disk(&mut self, disk: MemDisk)
        ensures images { SameImages self.old self.new }
        ensures texts { SameTexts self.old self.new }
        ensures counts { counts_of self.new ≡ record (counts_of self.old) {
          disk_faults = counted (counts_of self.old).disk_faults disk.faults;
        } }
    {
        self.disk_faults = self.disk_faults.saturating_add(disk.faults());
    }

    fn end_source(&mut self, source: MemSource)
        ensures images { SameImages self.old self.new }
        ensures texts { SameTexts self.old self.new }
        ensures counts { counts_of self.new ≡ record (counts_of self.old) {
          source_faults = counted (counts_of self.old).source_faults source.faults;
        } }
    {
        self.source_faults = self.source_faults.saturating_add(source.faults());
    }

    fn end_sink(&mut self, sink: MemSink)
        ensures images { SameImages self.old self.new }
        ensures texts { SameTexts self.old self.new }
        ensures counts { counts_of self.new ≡ record (counts_of self.old) {
          sink_faults = counted (counts_of self.old).sink_faults sink.faults;
        } }
    {
        self.sink_faults = self.sink_faults.saturating_add(sink.faults());
    }
}
