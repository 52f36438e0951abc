ghost use Rattle.std.specs.Prelude.{◌≡◌};
ghost use Rattle.dump_print.specs.declared.fault.PrintFault.TheVariants.{Memory};

use std::alloc::{AllocError, AllocFailed};
use thiserror::Error;

/// Why nothing is printed.
#[derive(Clone, Copy, Debug, PartialEq, Eq, Error)]
pub enum PrintFault {
    /// There are more than 262,144 rule lines.
    #[error("too many rule lines")]
    Lines,
    /// Memory ran out.
    #[error("out of memory")]
    Memory,
}

impl From<AllocError> for PrintFault {
    ghost from_gives = { λ _ e. e ≡ Memory };

    fn from(_: AllocError) -> Self {
        PrintFault::Memory
    }
}

impl<T: Drop> From<AllocFailed<T>> for PrintFault {
    ghost from_gives = { λ _ e. e ≡ Memory };

    fn from(_: AllocFailed<T>) -> Self {
        PrintFault::Memory
    }
}
