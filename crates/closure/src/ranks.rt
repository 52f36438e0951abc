ghost use Rattle.std.specs.Prelude.{◌≡◌, ◌<◌, ◌↔◌, Some, slice_get, length, IsTrue};
ghost use Rattle.closure.specs.inner.Ranks.{HasRank};

use chain_graph::Ranked;

/// The number of chains on the longest path of calls and gotos from a chain that has a rank.
pub(crate) fn rank_of(ranked: &Ranked, chain: u32) -> u32
    requires { HasRank ranked.now chain }
    ensures { slice_get ranked.now.ranks chain ≡ Some (Some result) }
{
    match ranked.ranks.as_slice()[chain as usize] {
        Some(rank) => rank,
        None => unreachable!(),
    }
}

/// Whether a chain has this rank.
pub(crate) fn has_rank(ranked: &Ranked, chain: usize, rank: u32) -> bool
    requires { chain < length ranked.now.ranks }
    ensures { IsTrue result ↔ (slice_get ranked.now.ranks chain ≡ Some (Some rank)) }
{
    match ranked.ranks.as_slice()[chain] {
        Some(own) => own == rank,
        None => false,
    }
}
