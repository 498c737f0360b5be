//! The program: the words after its name, the real files, standard output and standard error.
#![tactic(auto)]

use std::io::ErrorKind;
use std::process::ExitCode;
use std::rt::Env;
use std::{env, io};
use sv_dev::{FileSink, NoWatch, RealHost};
use sv_session::{Stop, svfs, tell};

fn main(rt: HostRuntime) -> ExitCode {
    let mut out = FileSink::from(rt.stdout());
    let mut note = FileSink::from(rt.stderr());
    let status = match words_after_name(&rt) {
        Ok(words) => svfs(
            &rt,
            rt.alloc(),
            &words,
            &mut RealHost::new(),
            &NoWatch,
            &mut out,
            &mut note,
        ),
        Err(error) => tell(&stop_of(&error), &mut note),
    };
    ExitCode::from(status)
}

// The words after the program's name.
fn words_after_name(rt: &(impl Env + AllocGlobal)) -> io::Result<Vec<String>> {
    let mut words = Vec::new(rt.alloc());
    for word in env::args(rt)?.skip(1) {
        words.push(word)?;
    }
    Ok(words)
}

// Words that could not be read are no words.
fn stop_of(error: &io::Error) -> Stop {
    match error.kind() {
        ErrorKind::OutOfMemory => Stop::NoMemory,
        _ => Stop::Words,
    }
}
