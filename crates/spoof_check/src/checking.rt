ghost use Rattle.std.specs.Prelude.{◌≡◌, ◌⊎◌, IfErr, IfOk, OnOk, Some};
ghost use Rattle.interval_set.specs.Numbers.{IsWidth};
ghost use Rattle.fw_rule.specs.Calls.{HasRoom};
ghost use Rattle.fw_rule.specs.declared.rule.Verdict.{Verdict as AVerdict};
ghost use Rattle.fw_rule.specs.declared.side.Side.{Side};
ghost use Rattle.fw_rule.specs.Walk.{policy_of};
ghost use Rattle.chain_graph.specs.Paths.{CallsNameChains};
ghost use Rattle.closure.specs.Checked.{HasPolicy};
ghost use Rattle.simple_filter.specs.Closed.{Accepts, RefusesClosed};
ghost use Rattle.simple_filter.specs.Hidden.{hidden};
ghost use Rattle.simple_filter.specs.declared.hiding.Hide.{Hide};
ghost use Rattle.simple_filter.specs.declared.refusal.Kind.{Kind};
ghost use Rattle.region_cut.specs.Search.{Finds, RefusesSearch, Tells, with_policy};
ghost use Rattle.spoof_check.specs.Refusals.{HasSearchedRules, IsShown, RefusesSearched, RefusesSpoof, searched_rules};
ghost use Rattle.spoof_check.specs.Verdicts.{HoldsWhole, IsRight, IsSaid, IsSearched, forged_region};

use crate::answers::Spoof;
use box_norm::{Cube, SimpleRule, whole};
use fw_rule::{Dump, Side, Verdict, settled_policy};
use interval_set::Set;
use match_expr::{Bytes, List};
use name_set::{NameSet, Pattern};
use primitives::{Packet, Prim_};
use region_cut::{RegionFault, first_hit};
use simple_filter::{Hide, Kind, Refusal, abstracted, closed, hiding_keeps_calls};
use std::alloc::{AllocError, Global};

/// The packets that open a connection, come in by the interface of that name, and have a source that isn't `inside`.
fn forged_region<const W: u32>(
    alloc: Global,
    name: &[u8],
    inside: &Set<W>,
) -> Result<Cube<W>, AllocError>
    requires { IsWidth W }
    ensures { IfOk result (λ c. c ≡ forged_region name.now inside.now) }
{
    let mut region = whole(alloc)?;
    region.in_name = NameSet {
        base: Pattern::Exact(Bytes::of(Vec::from_slice(alloc, name)?)),
        excluded: List::of(Vec::new(alloc)),
    };
    region.src = inside.not(alloc)?;
    region.state = 2;
    Ok(region)
}

/// A packet of the region of forged packets that the rules accept, with the policy where no rule has the packet: the one
/// that `first_hit` of `region_cut` finds.
fn forged_hit<const W: u32>(
    alloc: Global,
    rules: &[SimpleRule<W>],
    policy: Verdict,
    name: &[u8],
    inside: &Set<W>,
) -> Result<Option<Packet>, RegionFault>
    requires { IsWidth W }
    ensures tells { IfOk result (Tells (forged_region name.now inside.now) rules.now policy) }
    ensures finds { IfOk result (Finds (forged_region name.now inside.now) (with_policy rules.now policy)) }
    ensures refused { IfErr result (RefusesSearch (forged_region name.now inside.now) (with_policy rules.now policy)) }
{
    let region = forged_region(alloc, name, inside)?;
    first_hit(alloc, &region, rules, policy)
}

/// The verdict of some rules, read by first match, and a policy on the packets that open a connection, come in by the
/// interface of that name, and have a source that isn't `inside`. W is 32 or 128.
///
/// The packet that is shown is the one that `first_hit` of `region_cut` finds. Where every address is inside, nothing is
/// searched.
///
/// # Errors
///
/// `Regions` exactly where the search comes to more than 65,536 regions. `Memory` where memory runs out.
fn searched<const W: u32>(
    alloc: Global,
    rules: &[SimpleRule<W>],
    policy: Verdict,
    name: &[u8],
    inside: &Set<W>,
) -> Result<Spoof, RegionFault>
    requires { IsWidth W }
    ensures said { IfOk result (IsSaid rules.now policy name.now inside.now) }
    ensures searched { IfOk result (IsSearched rules.now policy name.now inside.now) }
    ensures refused { IfErr result (RefusesSearched rules.now policy name.now inside.now) }
{
    if inside.is_full() {
        return Ok(Spoof::Holds);
    }
    match forged_hit(alloc, rules, policy, name, inside) {
        Ok(Some(packet)) => Ok(Spoof::Violated(packet)),
        Ok(None) => Ok(Spoof::Holds),
        Err(fault) => Err(fault),
    }
}

/// The simple rules in which verdicts on a chain are searched: those of side Upper, with the tests of output interfaces
/// hidden. They serve for any number of interfaces. The chain has a policy. W is 32 or 128.
///
/// # Errors
///
/// Those of `closed`, of side Upper, for the dump with the tests of output interfaces hidden. `Memory` where memory runs out.
pub fn searched_rules<const W: u32>(
    alloc: Global,
    dump: &Dump<Prim_<W>>,
    chain: u32,
) -> Result<List<SimpleRule<W>>, Refusal>
    requires width { IsWidth W }
    requires policy { HasPolicy dump.now chain }
    requires room { HasRoom dump.now }
    requires named { CallsNameChains dump.now }
    ensures rules { IfOk result (λ rules. rules ≡ searched_rules dump.now chain) }
    ensures closed { OnOk result (HasSearchedRules dump.now chain) }
    ensures meaning { IfOk result (λ rules. (policy : AVerdict) → policy_of dump.now chain ≡ Some policy → Accepts Side.Upper (hidden Hide.OutNames dump.now) chain policy rules) }
    ensures refused { IfErr result (RefusesClosed (hidden Hide.OutNames dump.now) chain Side.Upper) }
{
    hiding_keeps_calls(dump);
    let hidden = abstracted(alloc, dump, Hide::OutNames)?;
    closed(alloc, &hidden, chain, Side::Upper)
}

/// The verdict of a chain with this policy on one interface, by the rules that `searched_rules` answers for the chain. What
/// it says is what `spoof` says.
///
/// # Errors
///
/// `Limit(Regions)` exactly where the search comes to more than 65,536 regions. `Memory` where memory runs out.
pub fn verdict<const W: u32>(
    alloc: Global,
    dump: &Dump<Prim_<W>>,
    chain: u32,
    policy: Verdict,
    rules: &[SimpleRule<W>],
    name: &[u8],
    inside: &Set<W>,
) -> Result<Spoof, Refusal>
    requires width { IsWidth W }
    requires rules { rules.now ≡ searched_rules dump.now chain }
    requires closed { HasSearchedRules dump.now chain }
    requires policy { policy_of dump.now chain ≡ Some policy }
    requires meaning { Accepts Side.Upper (hidden Hide.OutNames dump.now) chain policy rules.now }
    ensures right { IfOk result (IsRight dump.now chain name.now inside.now) }
    ensures whole { IfOk result (HoldsWhole dump.now chain name.now inside.now) }
    ensures shown { IfOk result (IsShown dump.now chain name.now inside.now) }
    ensures refused { IfErr result (RefusesSpoof dump.now chain name.now inside.now) }
    ensures regions { IfErr result (λ r. (r ≡ Refusal.Memory) ⊎ (r ≡ Refusal.Limit Kind.Regions)) }
{
    match searched(alloc, rules, policy, name, inside) {
        Ok(verdict) => Ok(verdict),
        Err(RegionFault::Regions) => Err(Refusal::Limit(Kind::Regions)),
        Err(RegionFault::Memory) => Err(Refusal::Memory),
    }
}

/// Whether a chain may accept, with the tests of output interfaces hidden, a packet that opens a connection, comes in by the
/// interface of that name, and has a source that isn't `inside`; and such a packet where it may. The chain has a policy. W
/// is 32 or 128.
///
/// # Errors
///
/// Those of `closed`, of side Upper, for the dump with the tests of output interfaces hidden. Else `Limit(Regions)` exactly
/// where the search comes to more than 65,536 regions. `Memory` where memory runs out.
pub fn spoof<const W: u32>(
    alloc: Global,
    dump: &Dump<Prim_<W>>,
    chain: u32,
    name: &[u8],
    inside: &Set<W>,
) -> Result<Spoof, Refusal>
    requires width { IsWidth W }
    requires policy { HasPolicy dump.now chain }
    requires room { HasRoom dump.now }
    requires named { CallsNameChains dump.now }
    ensures right { IfOk result (IsRight dump.now chain name.now inside.now) }
    ensures whole { IfOk result (HoldsWhole dump.now chain name.now inside.now) }
    ensures shown { IfOk result (IsShown dump.now chain name.now inside.now) }
    ensures refused { IfErr result (RefusesSpoof dump.now chain name.now inside.now) }
{
    let rules = searched_rules(alloc, dump, chain)?;
    let policy = settled_policy(dump, chain);
    verdict(alloc, dump, chain, policy, rules.as_slice(), name, inside)
}
