// The source over a real file.
ghost use Rattle.std.specs.Prelude.{◌≡◌, ◌≤◌, ◌<◌, ℕ, None, length, take, IfOk, OnOk, OnErr};
ghost use Rattle.std.specs.Io.KnownBytes.{ReadConsumes};
ghost use Rattle.sv_dev.specs.Causes.{HasCause, counted};
ghost use Rattle.sv_dev.specs.Told.{Takes, IsAtEnd};

use crate::mirror_disk::host_fault;
use crate::{Failed, HostFault, Source};
use std::fs::File;
use std::io::{ErrorKind, Read};
use std::marker::Model;
use std::rt::Files;

/// A source over a real file. It does not tell what it has left: that these are the file's bytes is not proved.
#[derive(Drop)]
pub struct FileSource {
    file: File,
    faults: u64,
}

impl Model for FileSource {
    ghost use Rattle.std.specs.Prelude.{ℕ};

    // the faults
    ghost Value = { ℕ };

    ghost view = { λ s. s.faults };
}

impl From<File> for FileSource {
    ghost from_gives = { λ _ s. s ≡ 0 };

    fn from(file: File) -> FileSource {
        FileSource { file, faults: 0 }
    }
}

// Reads once more where a read was interrupted.
fn read_some<R: Read>(from: &mut R, into: &mut [u8]) -> Result<usize, Failed>
    ensures within { IfOk result (λ n. n ≤ length into.old) }
    ensures bytes { ReadConsumes (R.remaining from.old) (R.remaining from.new) result into.new }
{
    for _ in 0..u64::MAX {
        match from.read(into) {
            Ok(count) => return Ok(count),
            Err(error) if error.kind() == ErrorKind::Interrupted => {}
            Err(_) => return Err(Failed),
        }
    }
    Err(Failed)
}

impl FileSource {
    /// The file of that name, from its beginning.
    pub fn open<R: Files<File = File>>(rt: &R, name: &str) -> Result<FileSource, HostFault>
        ensures { IfOk result (λ s. s ≡ 0) }
    {
        match File::open(rt, name) {
            Ok(file) => Ok(FileSource::from(file)),
            Err(error) => Err(host_fault(&error)),
        }
    }

    /// How many calls have failed.
    pub(crate) fn faults(&self) -> u64
        ensures { result ≡ self.now }
    {
        self.faults
    }
}

impl Source for FileSource {
    ghost left = { λ _. None };

    ghost faults = { λ s. s };

    fn read(&mut self, into: &mut [u8]) -> Result<usize, Failed>
        ensures within { IfOk result (λ n. n ≤ length into.old) }
        ensures bytes { Takes None None into.new result }
        ensures end { IfOk result (λ n. n ≡ 0 → 0 < length into.old → IsAtEnd None) }
        ensures cause { HasCause self.old self.new result }
        ensures faults_ok { OnOk result (self.new ≡ self.old) }
        ensures faults_err { OnErr result (self.new ≡ counted self.old 1) }
    {
        let got = read_some(&mut self.file, into);
        if got.is_err() {
            self.faults = self.faults.saturating_add(1);
        }
        got
    }
}
