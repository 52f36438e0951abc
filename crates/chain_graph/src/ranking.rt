ghost use Rattle.std.specs.Prelude.{◌≡◌, ◌+◌, ◌<◌, ◌≤◌, suc, length, map, IfSome, IfNone, IfOk, None};
ghost use Rattle.std.specs.Option.{option_map};
ghost use Rattle.fw_rule.specs.declared.rule.Chain.{Chain};
ghost use Rattle.limits.specs.declared.TheConstants.{MOST_CHAINS};
ghost use Rattle.chain_graph.specs.declared.ranking.Found.{Found};
ghost use Rattle.chain_graph.specs.Results.{IsRanked};
ghost use Rattle.chain_graph.specs.Paths.{CallsNameChains, HasPath};
ghost use Rattle.chain_graph.specs.inner.Tables.{Has, IsTable, Grows};

use crate::graph::Ranked;
use crate::reach::rules_of;
use fw_rule::Dump;
use limits::MOST_CHAINS;
use match_expr::{List, Primitive};
use std::alloc::{AllocError, Global};

/// The rank of a chain and its visits.
#[derive(Clone, Copy)]
pub(crate) struct Found {
    pub rank: u32,
    pub visits: u64,
}

/// What the table has for a chain, or what is found and put into it. None where a call path of more than `depth` chains begins there.
fn rank_of<P: Primitive>(
    dump: &Dump<P>,
    chain: u32,
    depth: u32,
    table: &mut [Option<Found>],
) -> Option<Found>
    requires there { chain < length dump.now.chains }
    requires named { CallsNameChains dump.now }
    requires right { IsTable dump.now table.old }
    ensures right { IsTable dump.now table.new }
    ensures grows { Grows dump.now chain table.old table.new }
    ensures some { IfSome result (λ f. Has table.new chain f × (f.rank ≤ depth)) }
    ensures none { IfNone result (HasPath dump.now chain (depth + 1)) }
{
    if let Some(known) = table[chain as usize] {
        if known.rank <= depth {
            return Some(known);
        }
        return None;
    }
    if depth == 0 {
        return None;
    }
    let mut below = 0u32;
    let mut visits = 0u64;
    for rule in rules_of(dump, chain) {
        visits = visits.saturating_add(1);
        if let Some(callee) = rule.action.target() {
            let Some(found) = rank_of(dump, callee, depth - 1, table) else {
                return None;
            };
            below = below.max(found.rank);
            visits = visits.saturating_add(found.visits);
        }
    }
    let found = Found {
        rank: below + 1,
        visits,
    };
    table[chain as usize] = Some(found);
    Some(found)
}

/// A table that has no chain.
fn no_ranks<P: Primitive>(alloc: Global, dump: &Dump<P>) -> Result<Vec<Option<Found>>, AllocError>
    ensures { IfOk result (λ v. v.items ≡ map (λ (here : Chain P). None) dump.now.chains) }
{
    dump.chains.as_slice().iter().map(|_| None).collect(alloc)
}

/// The rank alone.
fn rank_in(found: Option<Found>) -> Option<u32>
    ensures { result ≡ option_map (λ (f : Found). f.rank) found }
{
    match found {
        Some(found) => Some(found.rank),
        None => None,
    }
}

/// The ranks of a table.
fn ranks_in(alloc: Global, table: &[Option<Found>]) -> Result<Vec<Option<u32>>, AllocError>
    ensures { IfOk result (λ v. v.items ≡ map (option_map (λ (f : Found). f.rank)) table.now) }
{
    table.iter().map(|found| rank_in(*found)).collect(alloc)
}

/// The ranks of the chains that a chain reaches, and its visits. None where a call path from it
/// has more chains than `MOST_CHAINS`, as it has where one of them leads to itself.
pub fn ranked<P: Primitive>(
    alloc: Global,
    dump: &Dump<P>,
    chain: u32,
) -> Result<Option<Ranked>, AllocError>
    requires there { chain < length dump.now.chains }
    requires named { CallsNameChains dump.now }
    ensures some { IfOk result (λ o. IfSome o (IsRanked dump.now chain)) }
    ensures none { IfOk result (λ o. IfNone o (HasPath dump.now chain (suc MOST_CHAINS))) }
{
    let mut table = no_ranks(alloc, dump)?;
    let Some(top) = rank_of(dump, chain, MOST_CHAINS, &mut table) else {
        return Ok(None);
    };
    let ranks = ranks_in(alloc, &table)?;
    Ok(Some(Ranked {
        entry: chain,
        ranks: List::of(ranks),
        visits: top.visits,
    }))
}
