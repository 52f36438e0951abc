ghost use Rattle.std.specs.Prelude.{◌≡◌};
ghost use Rattle.region_cut.specs.declared.fault.RegionFault.TheVariants.{Memory};

use std::alloc::{AllocError, AllocFailed};
use thiserror::Error;

/// Why a search has no answer.
#[derive(Clone, Copy, Debug, PartialEq, Eq, Error)]
pub enum RegionFault {
    /// There were more than 65,536 regions.
    #[error("too many regions")]
    Regions,
    /// Memory ran out.
    #[error("out of memory")]
    Memory,
}

impl From<AllocError> for RegionFault {
    ghost from_gives = { λ _ e. e ≡ Memory };

    fn from(_: AllocError) -> Self {
        RegionFault::Memory
    }
}

impl<T: Drop> From<AllocFailed<T>> for RegionFault {
    ghost from_gives = { λ _ e. e ≡ Memory };

    fn from(_: AllocFailed<T>) -> Self {
        RegionFault::Memory
    }
}
