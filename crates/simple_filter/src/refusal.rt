ghost use Rattle.std.specs.Prelude.{◌≡◌};

use chain_graph::GraphFault;
use match_expr::Bytes;
use std::alloc::AllocError;
use thiserror::Error;

/// What can be too many.
#[derive(Clone, Copy, Debug, PartialEq, Eq)]
pub enum Kind {
    /// A call path has 257 chains.
    Depth,
    /// The rewritten tree has more than `limits::MOST_NODES` items.
    Nodes,
    /// The flat list has more than `limits::MOST_LITERALS` literals, repeats counted.
    Literals,
    /// A list of more than `limits::MOST_CUBES` cubes comes up.
    Boxes,
    /// The simple rules are more than `limits::MOST_RULES`.
    Rules,
    /// The printed lines are too many.
    Lines,
    /// The distinct boundaries of address sets are too many.
    Atoms,
    /// The regions that are looked at are too many.
    Regions,
    /// The rules that a walk may visit are too many.
    Visits,
}

/// Why a question on a chain has no answer.
#[derive(Debug, Drop, Error)]
pub enum Refusal {
    /// The least line of a rule in reach whose target isn't supported, and the target's name.
    #[error("line {line}: a target isn't supported")]
    Unsupported { line: u32, name: Bytes },
    /// No target in reach is unsupported, and this is the first declared chain in reach that leads to itself over some
    /// path.
    #[error("chain {chain} leads to itself")]
    Loop { chain: u32 },
    /// Neither stands, and something is too much.
    #[error("too much")]
    Limit(Kind),
    /// Memory ran out.
    #[error("out of memory")]
    Memory,
}

impl From<AllocError> for Refusal {
    ghost use Rattle.simple_filter.specs.declared.refusal.Refusal.TheVariants.{Memory};

    ghost from_gives = { λ _ e. e ≡ Memory };

    fn from(_: AllocError) -> Self {
        Refusal::Memory
    }
}

impl From<GraphFault> for Refusal {
    ghost use Rattle.simple_filter.specs.Refused.{of_check};

    ghost from_gives = { λ fault e. e ≡ of_check fault };

    fn from(fault: GraphFault) -> Self {
        match fault {
            GraphFault::Unsupported { line, name } => Refusal::Unsupported { line, name },
            GraphFault::Loop { chain } => Refusal::Loop { chain },
            GraphFault::Depth => Refusal::Limit(Kind::Depth),
            GraphFault::Memory => Refusal::Memory,
        }
    }
}
