// Where a write ends that cannot put all its bytes.
ghost use Rattle.std.specs.Prelude.{◌≡◌};
ghost use Rattle.sv_inode.specs.Write.{refusal_by, stop_of};

use sv_store::Refusal;

/// A write has put its first `done` bytes, and no others. `Short`: a transfer failed, and a stake has counted it.
#[derive(Clone, Copy, Debug, PartialEq, Eq)]
pub enum WriteStop {
    Short { done: u32 },
    NoMemory { done: u32 },
}

// A write that was refused before it put a byte.
pub(crate) fn at_once(refusal: Refusal) -> WriteStop
    ensures { result ≡ stop_of refusal }
{
    match refusal {
        Refusal::Fault => WriteStop::Short { done: 0 },
        Refusal::NoMemory => WriteStop::NoMemory { done: 0 },
    }
}

// The refusal of a write that put nothing.
pub(crate) fn refusal_of(stop: WriteStop) -> Refusal
    ensures { result ≡ refusal_by stop }
{
    match stop {
        WriteStop::Short { done: _ } => Refusal::Fault,
        WriteStop::NoMemory { done: _ } => Refusal::NoMemory,
    }
}
