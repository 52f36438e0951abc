ghost use Rattle.std.specs.Prelude.{◌≡◌};
ghost use Rattle.chain_graph.specs.declared.graph.GraphFault.TheVariants.{Memory};

use match_expr::{Bytes, List};
use std::alloc::AllocError;
use thiserror::Error;

/// What is known of a chain whose calls end.
#[derive(Debug, Drop)]
pub struct Ranked {
    /// The asked chain.
    pub entry: u32,
    /// For each chain in order the number of chains on the longest path of calls and gotos that begins there, at most `MOST_CHAINS`. None
    /// where the asked chain doesn't reach it.
    pub ranks: List<Option<u32>>,
    /// The asked chain's rules, and with each call or goto the rules that the chain it names comes to. The sum stops at 2^64 - 1.
    pub visits: u64,
}

/// Why a chain can't be ranked.
#[derive(Debug, Drop, Error)]
pub enum GraphFault {
    /// The least line of a rule in reach whose target isn't supported, and the target's name.
    #[error("line {line}: a target isn't supported")]
    Unsupported { line: u32, name: Bytes },
    /// No target in reach is unsupported, and this is the first declared chain in reach that leads to itself over some path.
    #[error("chain {chain} leads to itself")]
    Loop { chain: u32 },
    /// Neither stands, and a call path from the chain has one chain more than `MOST_CHAINS`.
    #[error("a call path is too long")]
    Depth,
    /// Memory ran out.
    #[error("out of memory")]
    Memory,
}

impl From<AllocError> for GraphFault {
    ghost from_gives = { λ _ e. e ≡ Memory };

    fn from(_: AllocError) -> Self {
        GraphFault::Memory
    }
}
