// One line of a script.
ghost use Rattle.std.specs.Prelude.{◌≡◌, ◌<◌, ◌^◌, IfOk, IfSome};
ghost use Rattle.sv_dir.specs.Path.{name_count};
ghost use Rattle.sv_script.specs.Cut.{IsPart, IsPath, words_of};
ghost use Rattle.sv_script.specs.Grammar.{GivesCall, IsCall, call_in};
ghost use Rattle.sv_script.specs.Outcome.{Gives};
ghost use Rattle.sv_script.specs.Reading.{is_passed_over, read_line};
ghost use Rattle.sv_script.specs.Script.{asked, components};

use crate::arguments::call_by;
use crate::call::Call;
use crate::cut::first_word;
use crate::fault::ScriptFault;
use crate::verb::Verb;
use std::alloc::Global;
use sv_dir::count_names;
use sv_form::Bytes;

/// A call, and the number of its line in the text of its script, from 1.
#[derive(Debug, Drop, PartialEq, Eq)]
pub struct Line {
    pub number: u32,
    pub call: Call,
}

/// The call of a line, and none where the line is passed over.
#[tactic(auto, unfolding(crate::specs::Reading::read_line))]
pub fn read_line(alloc: Global, line: &[u8]) -> Result<Option<Call>, ScriptFault>
    requires { IsPart line.now }
    ensures value { Gives (λ said. said) result (read_line line.now) }
    ensures limits { IfOk result (λ said. IfSome said IsCall) }
{
    if is_passed_over(line) {
        return Ok(None);
    }
    let call = call_in(alloc, line)?;
    Ok(Some(call))
}

fn call_in(alloc: Global, line: &[u8]) -> Result<Call, ScriptFault>
    requires { IsPart line.now }
    ensures { GivesCall result (call_in (words_of line.now)) }
{
    let (word, rest) = first_word(line);
    match Verb::read(word) {
        Some(verb) => call_by(alloc, verb, rest),
        None => Err(ScriptFault::Word),
    }
}

fn is_passed_over(line: &[u8]) -> bool
    ensures { result ≡ is_passed_over line.now }
{
    line.is_empty() || line[0] == b'#'
}

/// How many names the paths of a call have.
pub fn components(call: &Call) -> u64
    requires { IsCall call.now }
    ensures value { result ≡ components call.now }
    ensures most { result < 2 ^ 33 }
{
    match call {
        Call::Open { path, .. }
        | Call::Creat { path, .. }
        | Call::Mkdir { path, .. }
        | Call::Unlink { path }
        | Call::Rmdir { path }
        | Call::Chdir { path }
        | Call::Stat { path } => names(path),
        Call::Link { first, second } => names(first) + names(second),
        _ => 0,
    }
}

fn names(path: &Bytes) -> u64
    requires { IsPath path.now }
    ensures value { result ≡ name_count path.now }
    ensures most { result < 2 ^ 32 }
{
    u64::from(count_names(path.as_slice()))
}

/// How many bytes a call asks to read, write or fill.
pub fn asked(call: &Call) -> u64
    ensures value { result ≡ asked call.now }
    ensures most { result < 2 ^ 63 }
{
    match call {
        Call::Read { count, .. } | Call::Fill { count, .. } => u64::from(*count),
        Call::Write { bytes, .. } => bytes.as_slice().len() as u64,
        _ => 0,
    }
}
