// Why a script is refused.
ghost use Rattle.std.specs.Prelude.{◌≡◌};

use std::alloc::{AllocError, AllocFailed};
use thiserror::Error;

/// Why a line of a script is refused, in the order in which a line is tried; want of memory has no place in it.
#[derive(Clone, Copy, Debug, PartialEq, Eq, Error)]
pub enum ScriptFault {
    /// No call has the line's first word for its name, or no open mode this word.
    #[error("Word")]
    Word,
    /// The call takes another number of words.
    #[error("Count")]
    Count,
    /// A word is no number in its limits.
    #[error("Number")]
    Number,
    /// A word is no even number of lower case hexadecimal digits.
    #[error("Hex")]
    Hex,
    /// The script has too many lines, or names too many path components.
    #[error("Lines")]
    Lines,
    /// The script asks for too many bytes, or is too long.
    #[error("Volume")]
    Volume,
    #[error("NoMemory")]
    NoMemory,
}

impl From<AllocError> for ScriptFault {
    ghost use Rattle.sv_script.specs.declared.fault.ScriptFault.TheVariants.{NoMemory};

    ghost from_gives = { λ _ e. e ≡ NoMemory };

    fn from(_: AllocError) -> ScriptFault {
        ScriptFault::NoMemory
    }
}

impl<T: Drop> From<AllocFailed<T>> for ScriptFault {
    ghost use Rattle.sv_script.specs.declared.fault.ScriptFault.TheVariants.{NoMemory};

    ghost from_gives = { λ _ e. e ≡ NoMemory };

    fn from(_: AllocFailed<T>) -> ScriptFault {
        ScriptFault::NoMemory
    }
}
