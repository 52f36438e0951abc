//! What triggers one visit.
ghost use Rattle.std.specs.Prelude.{◌≡◌, ◌<◌, ◌^◌, IfErr, IfOk, OnOk, Some, length};
ghost use Rattle.interval_set.specs.Numbers.{IsWidth};
ghost use Rattle.primitives.specs.Holds.{holds_of};
ghost use Rattle.fw_rule.specs.Walk.{HasRoom, Within, policy_of};
ghost use Rattle.fw_rule.specs.declared.rule.Verdict.{Verdict as AVerdict};
ghost use Rattle.limits.specs.declared.TheConstants.{MOST_CHAINS as DEEPEST};
ghost use Rattle.chain_graph.specs.Paths.{CallsNameChains};
ghost use Rattle.chain_graph.specs.Refusals.{IsChecked};
ghost use Rattle.explain.specs.Answers.{IsExplained};
ghost use Rattle.simple_filter.specs.declared.refusal.Refusal.{Refusal as ARefusal};
ghost use Rattle.region_queries.specs.Dead.{Hits, IsInLimits, IsListable, IsRightOf, IsShown};
ghost use Rattle.region_queries.specs.Probe.{entry_of, probe_of as the_probe};
ghost use Rattle.region_queries.specs.inner.Living.{HasFew, IsVisit, RefusesProbe, TellsOf};

use crate::answers::Live;
use crate::probing::{own_places, probe_of};
use box_norm::whole;
use chain_graph::check;
use explain::{ExplainFault, explain};
use fw_rule::{Dump, Place, Side, Step, Verdict};
use match_expr::List;
use primitives::{Packet, Prim_};
use region_cut::{RegionFault, first_hit};
use simple_filter::{Kind, Refusal, closed};
use std::alloc::Global;

/// Why the probe accepts the packet, by its own numbers of chains.
fn accepting_places<const W: u32>(
    alloc: Global,
    probe: &Dump<Prim_<W>>,
    entry: u32,
    packet: &Packet,
) -> Result<Option<List<Place>>, Refusal>
    requires checked { IsChecked probe.now entry }
    requires few { HasFew probe.now entry }
    requires room { HasRoom probe.now }
    requires named { CallsNameChains probe.now }
    ensures explained { IfOk result (IsExplained holds_of probe.now packet.now entry AVerdict.Accept) }
    ensures refused { IfErr result (λ refusal. refusal ≡ ARefusal.Memory) }
{
    let ranked = check(alloc, probe, entry)?;
    match explain(alloc, probe, &ranked, entry, packet) {
        Ok(explained) => Ok(explained.accept),
        Err(ExplainFault::Visits) => Err(Refusal::Limit(Kind::Visits)),
        Err(ExplainFault::Memory) => Err(Refusal::Memory),
    }
}

/// A packet that the probe may accept.
fn accepted_packet<const W: u32>(
    alloc: Global,
    probe: &Dump<Prim_<W>>,
    entry: u32,
) -> Result<Option<Packet>, Refusal>
    requires width { IsWidth W }
    requires checked { IsChecked probe.now entry }
    requires drops { policy_of probe.now entry ≡ Some AVerdict.Drop }
    requires room { HasRoom probe.now }
    requires named { CallsNameChains probe.now }
    ensures limits { OnOk result (IsInLimits probe.now entry) }
    ensures hits { IfOk result (Hits probe.now entry) }
    ensures tells { IfOk result (TellsOf probe.now entry) }
    ensures refused { IfErr result (RefusesProbe probe.now entry) }
{
    let rules = closed(alloc, probe, entry, Side::Upper)?;
    let region = whole(alloc)?;
    match first_hit(alloc, &region, rules.as_slice(), Verdict::Drop) {
        Ok(packet) => Ok(packet),
        Err(RegionFault::Regions) => Err(Refusal::Limit(Kind::Regions)),
        Err(RegionFault::Memory) => Err(Refusal::Memory),
    }
}

/// What triggers a visit of the chain.
pub(crate) fn live_of<const W: u32>(
    alloc: Global,
    dump: &Dump<Prim_<W>>,
    _chain: u32,
    visit: &[Step],
) -> Result<Option<Live>, Refusal>
    requires width { IsWidth W }
    requires listable { IsListable dump.now _chain }
    requires within { Within dump.now DEEPEST _chain }
    requires room { HasRoom dump.now }
    requires few { length dump.now.chains < 2 ^ 31 }
    requires named { CallsNameChains dump.now }
    requires visit { IsVisit dump.now _chain visit.now }
    ensures limits { OnOk result (IsInLimits (the_probe dump.now visit.now) (entry_of dump.now)) }
    ensures right { IfOk result (IsRightOf dump.now _chain visit.now) }
    ensures shown { IfOk result (IsShown dump.now visit.now) }
    ensures refused { IfErr result (RefusesProbe (the_probe dump.now visit.now) (entry_of dump.now)) }
{
    let probe = probe_of(alloc, dump, visit)?;
    let entry = dump.chains.as_slice().len() as u32;
    let Some(packet) = accepted_packet(alloc, &probe, entry)? else {
        return Ok(None);
    };
    match accepting_places(alloc, &probe, entry, &packet)? {
        Some(explained) => {
            let places = own_places(alloc, dump, visit, explained.as_slice())?;
            Ok(Some(Live { packet, places }))
        }
        None => unreachable!(),
    }
}
