// Why a stake, or a call that works on one, gave nothing.
ghost use Rattle.std.specs.Prelude.{◌≡◌};
ghost use Rattle.sv_store.specs.declared.refusal.Refusal.TheVariants.{NoMemory, Fault};

use std::alloc::AllocError;
use sv_dev::Failed;

/// A transfer failed, and the stake that ran it has counted it; or there was no memory.
#[derive(Clone, Copy, Debug, PartialEq, Eq)]
pub enum Refusal {
    Fault,
    NoMemory,
}

impl From<AllocError> for Refusal {
    ghost from_gives = { λ _ e. e ≡ NoMemory };

    fn from(_: AllocError) -> Self {
        Refusal::NoMemory
    }
}

impl From<Failed> for Refusal {
    ghost from_gives = { λ _ e. e ≡ Fault };

    fn from(_: Failed) -> Self {
        Refusal::Fault
    }
}
