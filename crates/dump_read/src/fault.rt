ghost use Rattle.std.specs.Prelude.{◌≡◌};

use std::alloc::{AllocError, AllocFailed};
use thiserror::Error;

/// Why a text is read as no dump.
#[derive(Clone, Copy, Debug, PartialEq, Eq, Error)]
pub enum ReadFault {
    /// This line, counted from 1, is the first that can't stand where it stands. It is the number of lines plus one
    /// where a table is open at the end.
    #[error("line {line}: malformed")]
    Malformed { line: u32 },
    /// The text has no table `filter`.
    #[error("no filter table")]
    NoFilter,
    /// The rule of this line, counted from 1, is the first whose chain isn't declared, or whose `-g` names no declared user
    /// chain.
    #[error("line {line}: undefined chain")]
    UndefinedChain { line: u32 },
    /// Memory ran out.
    #[error("out of memory")]
    Memory,
}

impl From<AllocError> for ReadFault {
    ghost use Rattle.dump_read.specs.declared.fault.ReadFault.TheVariants.{Memory};

    ghost from_gives = { λ _ e. e ≡ Memory };

    fn from(_: AllocError) -> Self {
        ReadFault::Memory
    }
}

/// Why a line isn't taken.
#[derive(Clone, Copy, Debug, PartialEq, Eq)]
pub(crate) enum LineFault {
    /// It can't stand where it stands.
    Malformed,
    /// Memory ran out.
    Memory,
}

impl From<AllocError> for LineFault {
    ghost use Rattle.dump_read.specs.declared.fault.LineFault.TheVariants.{Memory};

    ghost from_gives = { λ _ e. e ≡ Memory };

    fn from(_: AllocError) -> Self {
        LineFault::Memory
    }
}

impl<T: Drop> From<AllocFailed<T>> for LineFault {
    ghost use Rattle.dump_read.specs.declared.fault.LineFault.TheVariants.{Memory};

    ghost from_gives = { λ _ e. e ≡ Memory };

    fn from(_: AllocFailed<T>) -> Self {
        LineFault::Memory
    }
}
