//! The simple rules of what the first dump may accept and of what the second may drop.
ghost use Rattle.std.specs.Prelude.{◌≡◌, map, IfErr, IfOk, OnOk};
ghost use Rattle.interval_set.specs.Numbers.{IsWidth};
ghost use Rattle.fw_rule.specs.Walk.{HasRoom};
ghost use Rattle.fw_rule.specs.declared.side.Side.{Side as ASide};
ghost use Rattle.chain_graph.specs.Paths.{CallsNameChains};
ghost use Rattle.closure.specs.Checked.{HasPolicy};
ghost use Rattle.region_queries.specs.Refusals.{simple_rules};
ghost use Rattle.region_queries.specs.Search as spec;
ghost use Rattle.region_queries.specs.inner.Closing.{IsMeant, RefusesFirst, RefusesSecond};

use crate::fault::CoverFault;
use box_norm::SimpleRule;
use fw_rule::{Dump, Side, Verdict};
use match_expr::List;
use primitives::Prim_;
use simple_filter::{Refusal, closed};
use std::alloc::{AllocError, Global};

/// The policy with its verdict turned over.
pub(crate) fn turned_policy(policy: Verdict) -> Verdict
    ensures { result ≡ spec.turned_policy policy }
{
    match policy {
        Verdict::Accept => Verdict::Drop,
        Verdict::Drop => Verdict::Accept,
    }
}

/// The rules, each with its verdict turned over.
fn turned<const W: u32>(
    alloc: Global,
    rules: List<SimpleRule<W>>,
) -> Result<List<SimpleRule<W>>, AllocError>
    ensures { IfOk result (λ l. l ≡ map spec.turned rules.entry) }
{
    let mut all = Vec::new(alloc);
    for rule in rules.into_vec() {
        all.push(SimpleRule {
            cube: rule.cube,
            accept: !rule.accept,
        })?;
    }
    Ok(List::of(all))
}

/// The simple rules of what the first dump may accept.
pub(crate) fn upper_rules<const W: u32>(
    alloc: Global,
    dump: &Dump<Prim_<W>>,
    chain: u32,
) -> Result<List<SimpleRule<W>>, CoverFault>
    requires width { IsWidth W }
    requires policy { HasPolicy dump.now chain }
    requires room { HasRoom dump.now }
    requires named { CallsNameChains dump.now }
    ensures rules { IfOk result (λ rules. rules ≡ simple_rules dump.now chain ASide.Upper) }
    ensures meant { OnOk result (IsMeant dump.now chain ASide.Upper) }
    ensures refused { IfErr result (RefusesFirst dump.now chain) }
{
    match closed(alloc, dump, chain, Side::Upper) {
        Ok(rules) => Ok(rules),
        Err(Refusal::Memory) => Err(CoverFault::Memory),
        Err(refusal) => Err(CoverFault::First(refusal)),
    }
}

/// The simple rules of what the second dump must accept.
fn lower_rules<const W: u32>(
    alloc: Global,
    dump: &Dump<Prim_<W>>,
    chain: u32,
) -> Result<List<SimpleRule<W>>, CoverFault>
    requires width { IsWidth W }
    requires policy { HasPolicy dump.now chain }
    requires room { HasRoom dump.now }
    requires named { CallsNameChains dump.now }
    ensures rules { IfOk result (λ rules. rules ≡ simple_rules dump.now chain ASide.Lower) }
    ensures meant { OnOk result (IsMeant dump.now chain ASide.Lower) }
    ensures refused { IfErr result (RefusesSecond dump.now chain) }
{
    match closed(alloc, dump, chain, Side::Lower) {
        Ok(rules) => Ok(rules),
        Err(Refusal::Memory) => Err(CoverFault::Memory),
        Err(refusal) => Err(CoverFault::Second(refusal)),
    }
}

/// The simple rules of what the second dump must accept, each with its verdict turned over.
pub(crate) fn flipped_rules<const W: u32>(
    alloc: Global,
    dump: &Dump<Prim_<W>>,
    chain: u32,
) -> Result<List<SimpleRule<W>>, CoverFault>
    requires width { IsWidth W }
    requires policy { HasPolicy dump.now chain }
    requires room { HasRoom dump.now }
    requires named { CallsNameChains dump.now }
    ensures rules { IfOk result (λ rules. rules ≡ map spec.turned (simple_rules dump.now chain ASide.Lower)) }
    ensures meant { OnOk result (IsMeant dump.now chain ASide.Lower) }
    ensures refused { IfErr result (RefusesSecond dump.now chain) }
{
    let rules = lower_rules(alloc, dump, chain)?;
    Ok(turned(alloc, rules)?)
}
