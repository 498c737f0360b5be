// The block device over a real file.
ghost use Rattle.std.specs.Prelude.{◌≡◌, ◌+◌, ◌≤◌, length, take, slice_range, replicate, IfOk, IfSome, IfErr, IsOk, OnOk, OnErr};
ghost use Rattle.sv_dev.specs.Causes.{HasCause, counted};
ghost use Rattle.sv_dev.specs.Transfer.{CanTransfer, IsTorn, overwritten};

use crate::{Disk, Failed, HostFault};
use std::alloc::Global;
use std::fs::{File, OpenOptions};
use std::io::{ErrorKind, Read};
use std::marker::Model;
use std::os::unix::fs::FileExt;
use std::rt::Files;
use std::{fs, io};

// The most bytes of a file that are read: those of the greatest image, 64 MiB, and one more, by which a longer file
// is known.
const MOST_BYTES: u64 = 67_108_865;

/// A block device over a real file, which is read once, up to one byte past the greatest image. Reads are answered
/// from that mirror, and a write goes to the file before the mirror. That the file gives and takes those bytes is not
/// proved.
#[derive(Drop)]
pub struct MirrorDisk {
    file: File,
    name: String,
    mirror: Vec<u8>,
    reads: u64,
    writes: u64,
    faults: u64,
}

impl Model for MirrorDisk {
    ghost use Rattle.sv_dev.specs.MirrorDiskSeen.{MirrorDiskSeen};

    ghost Value = { MirrorDiskSeen };

    ghost view = { λ d. record { content = d.mirror.items; reads = d.reads; writes = d.writes; faults = d.faults } };
}

fn open_file<R: Files<File = File>>(rt: &R, name: &str) -> io::Result<File> {
    match OpenOptions::new().read(true).write(true).open(rt, name) {
        Ok(file) => Ok(file),
        Err(_) => File::open(rt, name),
    }
}

// Its first bytes, `MOST_BYTES` at most. The size that is expected is only a hint.
fn read_front<R: Read>(alloc: Global, reader: &mut R, size: u64) -> io::Result<Vec<u8>>
    ensures front { IfOk result (λ v. IfSome (R.remaining reader.old) (λ bytes. v.items ≡ take MOST_BYTES bytes)) }
{
    let mut front = Vec::with_capacity(alloc, size.min(MOST_BYTES) as usize + 1)?;
    reader.take(MOST_BYTES).read_to_end(&mut front)?;
    Ok(front)
}

pub(crate) fn host_fault(error: &io::Error) -> HostFault {
    match error.kind() {
        ErrorKind::OutOfMemory => HostFault::NoMemory,
        _ => HostFault::Failed,
    }
}

impl MirrorDisk {
    /// Opens the file of that name and reads it. A file that may not be written is taken too, and each write fails.
    pub fn open<R: Files<File = File>>(
        rt: &R,
        alloc: Global,
        name: &str,
    ) -> Result<MirrorDisk, HostFault>
        ensures { IfOk result (λ d. d ≡ record { content = d.content; reads = 0; writes = 0; faults = 0 }) }
    {
        let own_name = String::from_str(alloc, name)?;
        match read_file(rt, alloc, name) {
            Ok((file, mirror)) => Ok(MirrorDisk {
                file,
                name: own_name,
                mirror,
                reads: 0,
                writes: 0,
                faults: 0,
            }),
            Err(error) => Err(host_fault(&error)),
        }
    }

    /// Makes a file of zero bytes in place of the one of that name.
    pub fn create<R: Files<File = File>>(
        rt: &R,
        alloc: Global,
        name: &str,
        length: u64,
    ) -> Result<MirrorDisk, HostFault>
        ensures { IfOk result (λ d. d ≡ record { content = replicate length 0; reads = 0; writes = 0; faults = 0 }) }
    {
        let own_name = String::from_str(alloc, name)?;
        let mirror = vec![in alloc; 0; length as usize]?;
        match zero_file(rt, name, length) {
            Ok(file) => Ok(MirrorDisk {
                file,
                name: own_name,
                mirror,
                reads: 0,
                writes: 0,
                faults: 0,
            }),
            Err(error) => Err(host_fault(&error)),
        }
    }

    /// Puts the content into the file of that name. The file that it was made for has it already.
    pub(crate) fn save<R: Files<File = File>>(self, rt: &R, name: &str) -> Result<(), HostFault> {
        if self.name.as_str() == name {
            return Ok(());
        }
        match fs::write(rt, name, self.mirror.as_slice()) {
            Ok(()) => Ok(()),
            Err(error) => Err(host_fault(&error)),
        }
    }

    /// How many transfers have failed.
    pub(crate) fn faults(&self) -> u64
        ensures { result ≡ self.now.faults }
    {
        self.faults
    }
}

// A file of that many zero bytes, in place of what stood under the name.
fn zero_file<R: Files<File = File>>(rt: &R, name: &str, length: u64) -> io::Result<File> {
    let file = File::create(rt, name)?;
    file.set_len(length)?;
    Ok(file)
}

fn read_file<R: Files<File = File>>(
    rt: &R,
    alloc: Global,
    name: &str,
) -> io::Result<(File, Vec<u8>)> {
    let mut file = open_file(rt, name)?;
    let size = file.metadata()?.len();
    let mirror = read_front(alloc, &mut file, size)?;
    Ok((file, mirror))
}

impl Disk for MirrorDisk {
    ghost content = { λ d. d.content };

    ghost reads = { λ d. d.reads };

    ghost writes = { λ d. d.writes };

    ghost faults = { λ d. d.faults };

    fn length(&self) -> u64 {
        self.mirror.len() as u64
    }

    fn read(&mut self, at: u64, into: &mut [u8]) -> Result<(), Failed>
        requires { CanTransfer self.old.content at (length into.old) }
        ensures bytes { OnOk result (into.new ≡ slice_range self.old.content at (at + length into.old)) }
        ensures cause { HasCause self.old.faults self.new.faults result }

        // No read fails, and nothing but the count of reads changes.
        ensures ok { IsOk result }
        ensures nothing_else { self.new ≡ record self.old { reads = counted self.old.reads 1 } }
    {
        self.reads = self.reads.saturating_add(1);
        let from = at as usize;
        into.copy_from_slice(&self.mirror[from..from + into.len()]);
        Ok(())
    }

    fn write(&mut self, at: u64, from: &[u8]) -> Result<(), Failed>
        requires { CanTransfer self.old.content at (length from.now) }
        ensures written { OnOk result (self.new.content ≡ overwritten self.old.content at from.now) }
        ensures nothing_else { OnOk result (self.new.faults ≡ self.old.faults) }
        ensures torn { OnErr result (IsTorn self.old.content at (length from.now) self.new.content) }
        ensures reads { self.new.reads ≡ self.old.reads }
        ensures writes { self.new.writes ≡ counted self.old.writes 1 }
        ensures cause { HasCause self.old.faults self.new.faults result }

        // After a failure of the file the mirror is as it was.
        ensures content_err { OnErr result (self.new.content ≡ self.old.content) }
        ensures faults_err { OnErr result (self.new.faults ≡ counted self.old.faults 1) }
    {
        self.writes = self.writes.saturating_add(1);
        if self.file.write_all_at(from, at).is_err() {
            self.faults = self.faults.saturating_add(1);
            return Err(Failed);
        }
        let start = at as usize;
        self.mirror[start..start + from.len()].copy_from_slice(from);
        Ok(())
    }
}
