// The sink over a real file, standard output or standard error.
ghost use Rattle.std.specs.Prelude.{◌≡◌, ◌≤◌, ℕ, None, [], length, take, IfOk, OnOk, OnErr};
ghost use Rattle.std.specs.Io.KnownBytes.{Appends};
ghost use Rattle.sv_dev.specs.Causes.{HasCause, counted};
ghost use Rattle.sv_dev.specs.Told.{Writes};

use crate::mirror_disk::host_fault;
use crate::{Failed, HostFault, Sink};
use std::fs::File;
use std::io::{ErrorKind, Write};
use std::marker::Model;
use std::rt::{Files, Stderr, Stdout};

#[derive(Drop)]
enum Stream {
    File(File),
    Output(Stdout),
    Error(Stderr),
}

/// A sink over a real file, standard output or standard error. It does not tell what it took: that those get the
/// bytes is not proved.
#[derive(Drop)]
pub struct FileSink {
    stream: Stream,
    faults: u64,
}

impl Model for FileSink {
    ghost use Rattle.std.specs.Prelude.{ℕ};

    // the faults
    ghost Value = { ℕ };

    ghost view = { λ s. s.faults };
}

impl From<File> for FileSink {
    ghost from_gives = { λ _ s. s ≡ 0 };

    fn from(file: File) -> FileSink {
        FileSink {
            stream: Stream::File(file),
            faults: 0,
        }
    }
}

impl From<Stdout> for FileSink {
    ghost from_gives = { λ _ s. s ≡ 0 };

    fn from(output: Stdout) -> FileSink {
        FileSink {
            stream: Stream::Output(output),
            faults: 0,
        }
    }
}

impl From<Stderr> for FileSink {
    ghost from_gives = { λ _ s. s ≡ 0 };

    fn from(error: Stderr) -> FileSink {
        FileSink {
            stream: Stream::Error(error),
            faults: 0,
        }
    }
}

// Writes some front of the bytes, maybe none where the call was interrupted.
fn write_some<W: Write>(to: &mut W, bytes: &[u8]) -> Result<usize, Failed>
    ensures within { IfOk result (λ n. n ≤ length bytes.now) }
    ensures bytes { IfOk result (λ n. Appends (W.contents to.old) (W.contents to.new) (take n bytes.now)) }
    ensures err { OnErr result (Appends (W.contents to.old) (W.contents to.new) []) }
{
    match to.write(bytes) {
        Ok(0) => Err(Failed),
        Ok(count) => Ok(count),
        Err(error) if error.kind() == ErrorKind::Interrupted => Ok(0),
        Err(_) => Err(Failed),
    }
}

// Appends all of the bytes, in as many writes as it takes, or some front of them.
fn append<W: Write>(to: &mut W, bytes: &[u8]) -> Result<(), Failed>
    ensures ok { OnOk result (Appends (W.contents to.old) (W.contents to.new) bytes.now) }
    ensures err { OnErr result ((n : ℕ) × (n ≤ length bytes.now) × Appends (W.contents to.old) (W.contents to.new) (take n bytes.now)) }
{
    let mut done = 0;
    for _ in 0..u64::MAX {
        if done == bytes.len() {
            return Ok(());
        }
        done += write_some(to, &bytes[done..])?;
    }
    Err(Failed)
}

impl FileSink {
    /// An empty file in place of the one of that name.
    pub fn create<R: Files<File = File>>(rt: &R, name: &str) -> Result<FileSink, HostFault>
        ensures { IfOk result (λ s. s ≡ 0) }
    {
        match File::create(rt, name) {
            Ok(file) => Ok(FileSink::from(file)),
            Err(error) => Err(host_fault(&error)),
        }
    }

    /// How many calls have failed.
    pub(crate) fn faults(&self) -> u64
        ensures { result ≡ self.now }
    {
        self.faults
    }
}

impl Sink for FileSink {
    ghost written = { λ _. None };

    ghost faults = { λ s. s };

    fn write(&mut self, from: &[u8]) -> Result<(), Failed>
        ensures written { Writes None None from.now result }
        ensures cause { HasCause self.old self.new result }
        ensures faults_ok { OnOk result (self.new ≡ self.old) }
        ensures faults_err { OnErr result (self.new ≡ counted self.old 1) }
    {
        let done = match &mut self.stream {
            Stream::File(file) => append(file, from),
            Stream::Output(output) => append(output, from),
            Stream::Error(error) => append(error, from),
        };
        if done.is_err() {
            self.faults = self.faults.saturating_add(1);
        }
        done
    }
}
