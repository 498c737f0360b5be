// The words that follow a call's name.
ghost use Rattle.std.specs.Prelude.{◌≡◌, ◌≤◌, IfErr, IfOk};
ghost use Rattle.sv_script.specs.Cut.{IsPart, IsPath, words_after};
ghost use Rattle.sv_script.specs.Outcome.{Gives};
ghost use Rattle.sv_script.specs.Grammar.{GivesCall, call_by, descriptor_in, path_and_bits_in, path_in};

use crate::call::Call;
use crate::cut::{none, one, three, two};
use crate::fault::ScriptFault;
use crate::verb::Verb;
use crate::word::{NUMBER_MAX, hex_of, mode_of, number_of, octal_of, offset_of};
use std::alloc::Global;
use sv_form::Bytes;

/// The call that a verb makes with the words that follow it.
pub fn call_by(alloc: Global, verb: Verb, rest: &[u8]) -> Result<Call, ScriptFault>
    requires { IsPart rest.now }
    ensures { GivesCall result (call_by verb (words_after rest.now)) }
{
    match verb {
        Verb::Open => open(alloc, rest),
        Verb::Creat => {
            let (path, mode) = path_and_bits(alloc, rest)?;
            Ok(Call::Creat { path, mode })
        }
        Verb::Mkdir => {
            let (path, mode) = path_and_bits(alloc, rest)?;
            Ok(Call::Mkdir { path, mode })
        }
        Verb::Read => read(rest),
        Verb::Write => write(alloc, rest),
        Verb::Fill => fill(rest),
        Verb::Lseek => lseek(rest),
        Verb::Close => Ok(Call::Close {
            fd: descriptor(rest)?,
        }),
        Verb::Dup => Ok(Call::Dup {
            fd: descriptor(rest)?,
        }),
        Verb::Link => link(alloc, rest),
        Verb::Unlink => Ok(Call::Unlink {
            path: path(alloc, rest)?,
        }),
        Verb::Rmdir => Ok(Call::Rmdir {
            path: path(alloc, rest)?,
        }),
        Verb::Chdir => Ok(Call::Chdir {
            path: path(alloc, rest)?,
        }),
        Verb::Stat => Ok(Call::Stat {
            path: path(alloc, rest)?,
        }),
        Verb::Fstat => Ok(Call::Fstat {
            fd: descriptor(rest)?,
        }),
        Verb::Sync => {
            none(rest)?;
            Ok(Call::Sync)
        }
    }
}

fn open(alloc: Global, rest: &[u8]) -> Result<Call, ScriptFault>
    requires { IsPart rest.now }
    ensures { GivesCall result (call_by Verb.Open (words_after rest.now)) }
{
    let (path, mode) = two(rest)?;
    let mode = mode_of(mode)?;
    let path = bytes_of(alloc, path)?;
    Ok(Call::Open { path, mode })
}

fn read(rest: &[u8]) -> Result<Call, ScriptFault>
    requires { IsPart rest.now }
    ensures { GivesCall result (call_by Verb.Read (words_after rest.now)) }
{
    let (fd, count) = two(rest)?;
    let fd = number_of(fd, NUMBER_MAX)?;
    let count = number_of(count, NUMBER_MAX)?;
    Ok(Call::Read { fd, count })
}

fn write(alloc: Global, rest: &[u8]) -> Result<Call, ScriptFault>
    requires { IsPart rest.now }
    ensures { GivesCall result (call_by Verb.Write (words_after rest.now)) }
{
    let (fd, bytes) = two(rest)?;
    let fd = number_of(fd, NUMBER_MAX)?;
    let bytes = hex_of(alloc, bytes)?;
    Ok(Call::Write { fd, bytes })
}

fn fill(rest: &[u8]) -> Result<Call, ScriptFault>
    requires { IsPart rest.now }
    ensures { GivesCall result (call_by Verb.Fill (words_after rest.now)) }
{
    let (fd, count, byte) = three(rest)?;
    let fd = number_of(fd, NUMBER_MAX)?;
    let count = number_of(count, NUMBER_MAX)?;
    let byte = number_of(byte, 255)? as u8;
    Ok(Call::Fill { fd, count, byte })
}

fn lseek(rest: &[u8]) -> Result<Call, ScriptFault>
    requires { IsPart rest.now }
    ensures { GivesCall result (call_by Verb.Lseek (words_after rest.now)) }
{
    let (fd, offset, whence) = three(rest)?;
    let fd = number_of(fd, NUMBER_MAX)?;
    let offset = offset_of(offset)?;
    let whence = number_of(whence, 2)? as u8;
    Ok(Call::Lseek { fd, offset, whence })
}

fn link(alloc: Global, rest: &[u8]) -> Result<Call, ScriptFault>
    requires { IsPart rest.now }
    ensures { GivesCall result (call_by Verb.Link (words_after rest.now)) }
{
    let (first, second) = two(rest)?;
    let first = bytes_of(alloc, first)?;
    let second = bytes_of(alloc, second)?;
    Ok(Call::Link { first, second })
}

fn path(alloc: Global, rest: &[u8]) -> Result<Bytes, ScriptFault>
    requires { IsPart rest.now }
    ensures value { Gives (λ path. path) result (path_in (words_after rest.now)) }
    ensures path { IfOk result IsPath }
{
    bytes_of(alloc, one(rest)?)
}

fn path_and_bits(alloc: Global, rest: &[u8]) -> Result<(Bytes, u16), ScriptFault>
    requires { IsPart rest.now }
    ensures value { Gives (λ ws. (ws.0, ws.1)) result (path_and_bits_in (words_after rest.now)) }
    ensures limits { IfOk result (λ ws. IsPath ws.0 × (ws.1 ≤ 4095)) }
{
    let (path, bits) = two(rest)?;
    let bits = octal_of(bits)?;
    Ok((bytes_of(alloc, path)?, bits))
}

fn descriptor(rest: &[u8]) -> Result<u32, ScriptFault>
    requires { IsPart rest.now }
    ensures { Gives (λ fd. fd) result (descriptor_in (words_after rest.now)) }
{
    number_of(one(rest)?, NUMBER_MAX)
}

fn bytes_of(alloc: Global, word: &[u8]) -> Result<Bytes, ScriptFault>
    ensures ok { IfOk result (λ bytes. bytes ≡ word.now) }
    ensures err { IfErr result (λ e. e ≡ ScriptFault.NoMemory) }
{
    Ok(Bytes::from_vec(Vec::from_slice(alloc, word)?))
}
