ghost use Rattle.std.specs.Prelude.{◌≡◌};

use simple_filter::Refusal;
use std::alloc::AllocError;
use thiserror::Error;

/// Why the question on two dumps has no answer.
#[derive(Debug, Drop, Error)]
pub enum CoverFault {
    /// The first dump isn't closed, for this cause, which isn't want of memory.
    #[error("the first dump: {0}")]
    First(Refusal),
    /// The first dump is closed, and the second isn't, for this cause, which isn't want of memory.
    #[error("the second dump: {0}")]
    Second(Refusal),
    /// Both are closed, and the search came to more than 65,536 regions.
    #[error("too many regions")]
    Regions,
    /// Memory ran out.
    #[error("out of memory")]
    Memory,
}

impl From<AllocError> for CoverFault {
    ghost use Rattle.region_queries.specs.declared.fault.CoverFault.TheVariants.{Memory};

    ghost from_gives = { λ _ e. e ≡ Memory };

    fn from(_: AllocError) -> Self {
        CoverFault::Memory
    }
}
