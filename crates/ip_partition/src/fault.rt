ghost use Rattle.std.specs.Prelude.{◌≡◌};
ghost use Rattle.ip_partition.specs.declared.fault.GroupFault.TheVariants.{Memory};

use std::alloc::{AllocError, AllocFailed};
use thiserror::Error;

/// Why there are no groups.
#[derive(Clone, Copy, Debug, PartialEq, Eq, Error)]
pub enum GroupFault {
    /// The sets have more than 4,096 distinct boundaries.
    #[error("too many boundaries of sets")]
    Atoms,
    /// Memory ran out.
    #[error("out of memory")]
    Memory,
}

impl From<AllocError> for GroupFault {
    ghost from_gives = { λ _ e. e ≡ Memory };

    fn from(_: AllocError) -> Self {
        GroupFault::Memory
    }
}

impl<T: Drop> From<AllocFailed<T>> for GroupFault {
    ghost from_gives = { λ _ e. e ≡ Memory };

    fn from(_: AllocFailed<T>) -> Self {
        GroupFault::Memory
    }
}
