ghost use Rattle.std.specs.Prelude.{◌≡◌};
ghost use Rattle.dump_token.specs.declared.fault.TokenFault.TheVariants.{Memory};

use std::alloc::{AllocError, AllocFailed};
use thiserror::Error;

/// Why a line has no list of words.
#[derive(Debug, Drop, PartialEq, Eq, Error)]
pub enum TokenFault {
    /// A quote that opens a word is never closed.
    #[error("a quote is never closed")]
    Quote,
    /// There was no memory for the words.
    #[error("out of memory")]
    Memory,
}

impl From<AllocError> for TokenFault {
    ghost from_gives = { λ _ e. e ≡ Memory };

    fn from(_: AllocError) -> Self {
        TokenFault::Memory
    }
}

impl<T: Drop> From<AllocFailed<T>> for TokenFault {
    ghost from_gives = { λ _ e. e ≡ Memory };

    fn from(_: AllocFailed<T>) -> Self {
        TokenFault::Memory
    }
}
