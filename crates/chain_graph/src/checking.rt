ghost use Rattle.std.specs.Prelude.{◌≡◌, ◌<◌, length, Some, IfOk, IfErr, OnOk};
ghost use Rattle.fw_rule.specs.declared.rule.Verdict.{Verdict};
ghost use Rattle.fw_rule.specs.Walk.{HasRoom, policy_of};
ghost use Rattle.chain_graph.specs.Faults.{NoneUnsupported};
ghost use Rattle.chain_graph.specs.Paths.{CallsNameChains};
ghost use Rattle.chain_graph.specs.Refusals.{IsChecked, Refuses, SettledByPolicy};
ghost use Rattle.chain_graph.specs.Results.{IsRanked};

use crate::graph::{GraphFault, Ranked};
use crate::loops::first_loop;
use crate::ranking::ranked;
use crate::targets::{Target, least_unsupported};
use fw_rule::Dump;
use match_expr::Primitive;
use std::alloc::Global;

/// Checks that the calls of a chain end and that each target in its reach is supported, and ranks the chains in its reach.
///
/// `Unsupported` comes exactly where a rule in reach has an unsupported target, `Loop` exactly where none has and a chain in reach leads to itself over some path, and `Depth` exactly where
/// neither stands and a call path from the chain has one chain more than `MOST_CHAINS`.
pub fn check<P: Primitive>(alloc: Global, dump: &Dump<P>, chain: u32) -> Result<Ranked, GraphFault>
    requires there { chain < length dump.now.chains }
    requires room { HasRoom dump.now }
    requires named { CallsNameChains dump.now }
    ensures ranked { IfOk result (IsRanked dump.now chain) }
    ensures known { OnOk result (NoneUnsupported dump.now chain) }
    ensures settled { OnOk result (SettledByPolicy dump.now chain) }
    // Where the chain has a policy, it is settled, and its call paths keep to the limit.
    ensures passes { OnOk result ((v : Verdict) → policy_of dump.now chain ≡ Some v → IsChecked dump.now chain) }
    ensures refused { IfErr result (Refuses dump.now chain) }
{
    if let Some(target) = least_unsupported(alloc, dump, chain)? {
        let Target { line, name } = target;
        return Err(GraphFault::Unsupported { line, name });
    }
    if let Some(answer) = ranked(alloc, dump, chain)? {
        return Ok(answer);
    }
    match first_loop(alloc, dump, chain)? {
        Some(chain) => Err(GraphFault::Loop { chain }),
        None => Err(GraphFault::Depth),
    }
}
