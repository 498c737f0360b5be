// The bytes of a source, gathered.
ghost use Rattle.std.specs.Prelude.{◌≡◌, ◌≤◌, ◌<◌, ◌+◌, ◌^◌, false, length, IfOk, IfErr, OnOk};
ghost use Rattle.sv_dev.specs.Causes.{Rose};
ghost use Rattle.sv_dev.specs.Told.{IsAtEnd, Loses};
ghost use Rattle.sv_journal.specs.Gather.{Gathers, HasCauseOf};

use std::alloc::Global;
use sv_dev::Source;

/// Why the bytes of a source are not gathered.
#[derive(Clone, Copy, Debug, PartialEq, Eq)]
pub enum GatherFault {
    /// The source failed, and its count of faults has risen.
    Fault,
    /// There was no memory for the bytes.
    NoMemory,
}

/// How many bytes are asked of a source at once.
const ASKED: usize = 65536;

/// All bytes that a source has still to give, or one more than the limit where they are more: then no further byte is
/// asked for, and what reads them finds them too long.
pub fn gather<S: Source>(alloc: Global, source: &mut S, most: usize) -> Result<Vec<u8>, GatherFault>
    requires { most < 2 ^ 32 }
    ensures gathered { IfOk result (λ bytes. Gathers (S.left source.old) most bytes.items) }
    ensures cause { IfErr result (HasCauseOf (Rose (S.faults source.old) (S.faults source.new))) }
    ensures no_less { S.faults source.old ≤ S.faults source.new }
{
    let Ok(mut block) = vec![in alloc; 0u8; ASKED] else {
        return Err(GatherFault::NoMemory);
    };
    let mut bytes = Vec::new(alloc);
    fill(source, block.as_mut_slice(), &mut bytes, most)?;
    Ok(bytes)
}

// Takes bytes until the end, or until there is one more than the limit.
fn fill<S: Source>(
    source: &mut S,
    block: &mut [u8],
    bytes: &mut Vec<u8>,
    most: usize,
) -> Result<(), GatherFault>
    requires limit { most < 2 ^ 32 }
    requires some { 0 < length block.old }
    requires none { length bytes.old.items ≡ 0 }
    ensures gathered { OnOk result (Gathers (S.left source.old) most bytes.new.items) }
    ensures cause { IfErr result (HasCauseOf (Rose (S.faults source.old) (S.faults source.new))) }
    ensures no_less { S.faults source.old ≤ S.faults source.new }
{
    while bytes.len() <= most {
        let room = block.len().min(most + 1 - bytes.len());
        let Ok(count) = source.read(&mut block[..room]) else {
            return Err(GatherFault::Fault);
        };
        if count == 0 {
            return Ok(());
        }
        let Ok(()) = bytes.extend_from_slice(&block[..count]) else {
            return Err(GatherFault::NoMemory);
        };
    }
    Ok(())
}
