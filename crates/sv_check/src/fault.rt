// Why a check gave no answer.
use crate::Condition;
use std::alloc::AllocError;
use sv_dev::Failed;

/// Why a check did not say that the image is sound.
#[derive(Clone, Copy, Debug, PartialEq, Eq)]
pub enum CheckFault {
    /// The first condition that fails, and the place where it fails.
    Refused { condition: Condition, place: u32 },
    /// The disk failed.
    Fault,
    NoMemory,
}

impl From<AllocError> for CheckFault {
    ghost use Rattle.std.specs.Prelude.{◌≡◌};
    ghost use Rattle.sv_check.specs.declared.fault.CheckFault.TheVariants.{NoMemory};

    ghost from_gives = { λ _ e. e ≡ NoMemory };

    fn from(_: AllocError) -> Self {
        CheckFault::NoMemory
    }
}

impl From<Failed> for CheckFault {
    ghost use Rattle.std.specs.Prelude.{◌≡◌};
    ghost use Rattle.sv_check.specs.declared.fault.CheckFault.TheVariants.{Fault};

    ghost from_gives = { λ _ e. e ≡ Fault };

    fn from(_: Failed) -> Self {
        CheckFault::Fault
    }
}
