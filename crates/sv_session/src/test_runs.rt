// Runs of the program over the forms in memory, and tables of what they answer.
use crate::svfs;
use crate::test_images::{Image, Patch, bytes_of};
use std::alloc::{AllocError, Global};
use std::fs::File;
use std::process::Abort;
use std::rt::Files;
use std::sync::Wait;
use std::test::Fail as Failure;
use std::thread::Threads;
use sv_dev::{Fail, MemHost, MemSink, NoWatch};

// A host, the words of a run over it, and what the run wrote.
#[derive(Drop)]
pub struct Stage {
    pub host: MemHost,
    words: Vec<String>,
    pub out: MemSink,
    pub note: MemSink,
}

// What a run answers: its status, and what it writes to `out` and to `note`.
pub type Told<'a> = (u8, &'a [u8], &'a [u8]);

// The words of a run, and what it answers.
pub type Row<'a> = (&'a [&'a str], Told<'a>);

impl Stage {
    // A host that holds no name. The calls of it with these numbers, from 1, fail.
    pub fn new(alloc: Global, fails: Vec<u64>) -> Stage {
        Stage {
            host: MemHost::new(fails),
            words: Vec::new(alloc),
            out: MemSink::new(Vec::new(alloc)),
            note: MemSink::new(Vec::new(alloc)),
        }
    }

    // Puts an image after these changes under the name.
    pub fn put(
        &mut self,
        alloc: Global,
        name: &str,
        image: Image,
        changes: &[Patch],
    ) -> Result<(), Failure> {
        let bytes = bytes_of(alloc, image, changes)?;
        self.host.put_image(name, bytes, Vec::new(alloc))?;
        Ok(())
    }

    // Puts an image under the name, on whose disks that call fails.
    pub fn put_failing(
        &mut self,
        alloc: Global,
        name: &str,
        image: Image,
        fail: Fail,
    ) -> Result<(), Failure> {
        let fails = vec![in alloc; fail]?;
        let bytes = bytes_of(alloc, image, &[])?;
        self.host.put_image(name, bytes, fails)?;
        Ok(())
    }

    // The sinks are empty again.
    pub fn clear(&mut self, alloc: Global) {
        self.out = MemSink::new(Vec::new(alloc));
        self.note = MemSink::new(Vec::new(alloc));
    }

    // The same, and that call of `out` fails.
    pub fn clear_failing(&mut self, alloc: Global, call: u64) -> Result<(), AllocError> {
        self.clear(alloc);
        self.out = MemSink::new(vec![in alloc; call]?);
        Ok(())
    }

    // What a run answered that ended with this status.
    pub fn told(&self, status: u8) -> Told<'_> {
        (status, self.out.written(), self.note.written())
    }
}

fn put_words(alloc: Global, texts: &mut Vec<String>, words: &[&str]) -> Result<(), AllocError> {
    texts.clear();
    for word in words {
        texts.push(String::from_str(alloc, word)?)?;
    }
    Ok(())
}

// Runs the program, and gives its status. It writes behind what the sinks hold.
pub fn run<R: Files<File = File> + AllocGlobal + Threads + Wait>(
    rt: &R,
    stage: &mut Stage,
    words: &[&str],
) -> Result<u8, AllocError> {
    let alloc = rt.alloc();
    put_words(alloc, &mut stage.words, words)?;
    Ok(svfs(
        rt,
        alloc,
        &stage.words,
        &mut stage.host,
        &NoWatch,
        &mut stage.out,
        &mut stage.note,
    ))
}

// Ends the test at the first row that a run over this host answers otherwise.
pub fn hold<R: Files<File = File> + AllocGlobal + Threads + Wait + Abort>(
    rt: &R,
    stage: &mut Stage,
    rows: &[Row],
) -> Result<(), Failure> {
    for (words, told) in rows {
        stage.clear(rt.alloc());
        let status = run(rt, stage, words)?;
        assert_eq!(rt; stage.told(status), *told);
    }
    Ok(())
}

// The same over an image that stands under the name E.
pub fn hold_over<R: Files<File = File> + AllocGlobal + Threads + Wait + Abort>(
    rt: &R,
    image: Image,
    changes: &[Patch],
    rows: &[Row],
) -> Result<(), Failure> {
    let mut stage = Stage::new(rt.alloc(), Vec::new(rt.alloc()));
    hold_with(rt, &mut stage, image, changes, rows)
}

fn hold_with<R: Files<File = File> + AllocGlobal + Threads + Wait + Abort>(
    rt: &R,
    stage: &mut Stage,
    image: Image,
    changes: &[Patch],
    rows: &[Row],
) -> Result<(), Failure> {
    stage.put(rt.alloc(), "E", image, changes)?;
    hold(rt, stage, rows)
}
