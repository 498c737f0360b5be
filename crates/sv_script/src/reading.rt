// A script is read line by line.
ghost use Rattle.std.specs.Prelude.{◌≡◌, ◌≤◌, ◌<◌, ◌+◌, ℕ, List, [], Some, length, IfNone, IfSome, MatchResult, ◌⊎◌};
ghost use Rattle.sv_script.specs.Cut.{IsPart, lines_of};
ghost use Rattle.sv_script.specs.Grammar.{IsCall};
ghost use Rattle.sv_script.specs.Progress.{Adds, BeginsWithLine, IsRead, IsWithin, PassesOver, ReadsBehind};
ghost use Rattle.sv_script.specs.Reading.{IsReadOneWay, IsReadOrRefused, IsRefused, IsRefusedOneWay, IsScriptOf, limit_of};
ghost use Rattle.sv_script.specs.Script.{IsScript, asked, components};

use crate::call::Call;
use crate::cut::bytes_before;
use crate::fault::ScriptFault;
use crate::line::{Line, asked, components, read_line};
use crate::script::Script;
use std::alloc::Global;

/// The most bytes of a script.
pub const TEXT_MAX: usize = 16777216;

/// The most lines of a script.
pub const LINES_MAX: u32 = 16384;

/// The most path components that the calls of a script name in all.
pub const COMPONENTS_MAX: u64 = 65536;

/// The most bytes that the calls of a script ask to read, write and fill in all.
pub const ASKED_MAX: u64 = 4194304;

/// Reads a script whole. A fault comes with the number of its line, from 1, or 0 for a text that is too long.
pub fn parse(alloc: Global, text: &[u8]) -> Result<Script, (u32, ScriptFault)>
    ensures { MatchResult result (IsScriptOf text.now) (λ at. IsRefused text.now at.0 at.1) }
{
    if text.len() > TEXT_MAX {
        return Err((0, ScriptFault::Volume));
    }
    let mut reading = Reading::new(alloc);
    let mut rest = text;
    while let Some((line, after)) = next_line(rest) {
        let number = reading.number + 1;
        match reading.take_line(alloc, line) {
            Ok(()) => rest = after,
            Err(fault) => return Err((number, fault)),
        }
    }
    Ok(reading.finish())
}

/// Memory aside, a text is a script in one way, or refused at one line for one fault.
pub fn texts_have_one_reading()
    ensures read { IsReadOneWay }
    ensures refused { IsRefusedOneWay }
    ensures apart { IsReadOrRefused }
{}

// The lines that were read so far, and their sums.
#[derive(Drop)]
struct Reading {
    number: u32,
    lines: Vec<Line>,
    components: u64,
    asked: u64,
}

impl Reading {
    fn new(alloc: Global) -> Reading
        ensures { IsRead [] result }
    {
        Reading {
            number: 0,
            lines: Vec::new(alloc),
            components: 0,
            asked: 0,
        }
    }

    fn take_line(&mut self, alloc: Global, line: &[u8]) -> Result<(), ScriptFault>
        requires part { IsPart line.now }
        requires within { IsWithin self.old }
        ensures { (before : List (List ℕ)) → IsRead before self.old → ReadsBehind before line.now self.new result }
    {
        match read_line(alloc, line) {
            Ok(Some(call)) => self.add(call),
            Ok(None) => self.pass_over(),
            Err(fault) => Err(fault),
        }
    }

    fn add(&mut self, call: Call) -> Result<(), ScriptFault>
        requires call { IsCall call }
        requires within { IsWithin self.old }
        ensures { MatchResult result (λ _. Adds self.old self.new call) (λ e. (e ≡ ScriptFault.NoMemory)
            ⊎ (limit_of (self.old.number + 1) (self.old.components + components call) (self.old.asked + asked call) ≡ Some e)) }
    {
        let number = self.number + 1;
        let components = self.components + components(&call);
        let asked = self.asked + asked(&call);
        if number > LINES_MAX {
            return Err(ScriptFault::Lines);
        }
        if components > COMPONENTS_MAX {
            return Err(ScriptFault::Lines);
        }
        if asked > ASKED_MAX {
            return Err(ScriptFault::Volume);
        }
        let Ok(()) = self.lines.push(Line { number, call }) else {
            return Err(ScriptFault::NoMemory);
        };
        self.number = number;
        self.components = components;
        self.asked = asked;
        Ok(())
    }

    fn pass_over(&mut self) -> Result<(), ScriptFault>
        requires { IsWithin self.old }
        ensures { MatchResult result (λ _. PassesOver self.old self.new) (λ e. (e ≡ ScriptFault.Lines) × (self.old.number ≡ 16384)) }
    {
        if self.number >= LINES_MAX {
            return Err(ScriptFault::Lines);
        }
        self.number += 1;
        Ok(())
    }

    fn finish(self) -> Script
        requires { IsScript self.lines.items }
        ensures { result ≡ self.lines.items }
    {
        Script::from_vec(self.lines)
    }
}

fn next_line(text: &[u8]) -> Option<(&[u8], &[u8])>
    ensures some { IfSome result (λ cut. BeginsWithLine text.now cut.0.now cut.1.now) }
    ensures none { IfNone result (lines_of text.now ≡ []) }
{
    if text.is_empty() {
        return None;
    }
    let end = bytes_before(text, b'\n');
    if end == text.len() {
        return Some((text, &[]));
    }
    Some((&text[..end], &text[end + 1..]))
}
