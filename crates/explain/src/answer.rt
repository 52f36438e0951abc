ghost use Rattle.std.specs.Prelude.{◌≡◌};
ghost use Rattle.explain.specs.declared.answer.ExplainFault.TheVariants.{Memory};

use fw_rule::Place;
use match_expr::List;
use std::alloc::AllocError;
use thiserror::Error;

/// Why a verdict can't be explained.
#[derive(Debug, Drop, Error)]
pub enum ExplainFault {
    /// The chain's rules, counted over all paths of calls and gotos, are more than `limits::MOST_VISITS`.
    #[error("too many visits")]
    Visits,
    /// Memory ran out.
    #[error("out of memory")]
    Memory,
}

impl From<AllocError> for ExplainFault {
    ghost from_gives = { λ _ e. e ≡ Memory };

    fn from(_: AllocError) -> Self {
        ExplainFault::Memory
    }
}

/// For each verdict a meaning whose walk has it: the places of the unknown literals that are to hold, in the order in
/// which the walk comes to them. None where no meaning's walk has the verdict.
#[derive(Debug, Drop)]
pub struct Explain {
    pub accept: Option<List<Place>>,
    pub drop: Option<List<Place>>,
}
