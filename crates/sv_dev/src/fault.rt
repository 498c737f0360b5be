// The answers of the outside other than success.
ghost use Rattle.std.specs.Prelude.{◌≡◌};
ghost use Rattle.sv_dev.specs.declared.fault.HostFault.TheVariants as host;

use std::alloc::AllocError;

/// A disk, source or sink did not do what it was asked; its count of faults has risen.
#[derive(Clone, Copy, Debug, PartialEq, Eq)]
pub struct Failed;

/// Why a host gave nothing: it failed, and its count of faults has risen, or there was no memory.
#[derive(Clone, Copy, Debug, PartialEq, Eq)]
pub enum HostFault {
    Failed,
    NoMemory,
}

impl From<AllocError> for HostFault {
    ghost from_gives = { λ _ e. e ≡ host.NoMemory };

    fn from(_: AllocError) -> Self {
        HostFault::NoMemory
    }
}

impl From<Failed> for HostFault {
    ghost from_gives = { λ _ e. e ≡ host.Failed };

    fn from(_: Failed) -> Self {
        HostFault::Failed
    }
}
