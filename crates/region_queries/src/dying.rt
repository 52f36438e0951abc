ghost use Rattle.std.specs.Prelude.{◌≡◌, ◌<◌, ◌^◌, ◌++◌, ◌∷◌, [], IfErr, IfOk, OnOk, length};
ghost use Rattle.interval_set.specs.Numbers.{IsWidth};
ghost use Rattle.fw_rule.specs.Walk.{HasRoom, Within};
ghost use Rattle.limits.specs.declared.TheConstants.{MOST_CHAINS as DEEPEST};
ghost use Rattle.chain_graph.specs.Paths.{CallsNameChains};
ghost use Rattle.closure.specs.Checked.{HasPolicy};
ghost use Rattle.region_queries.specs.Dead.{AnswersDead, IsListable, RefusesDead};
ghost use Rattle.region_queries.specs.Visits.{AreVisits};

use crate::answers::{Live, Visit};
use crate::living::live_of;
use crate::visiting::{MOST_LISTED_VISITS, list_chain};
use chain_graph::check;
use fw_rule::{Dump, Step};
use limits::MOST_CHAINS;
use match_expr::List;
use primitives::Prim_;
use simple_filter::{Kind, Refusal};
use std::alloc::{AllocError, Global};

/// Puts a visit behind the others.
fn push_visit(
    visits: &mut Vec<Visit>,
    steps: List<Step>,
    live: Option<Live>,
) -> Result<(), AllocError>
    ensures { OnOk result (visits.new.items ≡ visits.old.items ++ record { steps = steps; live = live } ∷ []) }
{
    visits.push(Visit { steps, live })?;
    Ok(())
}

/// What is answered of these visits.
fn answers_of<const W: u32>(
    alloc: Global,
    dump: &Dump<Prim_<W>>,
    chain: u32,
    paths: Vec<List<Step>>,
) -> Result<List<Visit>, Refusal>
    requires width { IsWidth W }
    requires listable { IsListable dump.now chain }
    requires within { Within dump.now DEEPEST chain }
    requires room { HasRoom dump.now }
    requires few { length dump.now.chains < 2 ^ 31 }
    requires named { CallsNameChains dump.now }
    requires listed { AreVisits dump.now chain paths.items }
    ensures answers { IfOk result (AnswersDead dump.now chain) }
    ensures refused { IfErr result (RefusesDead dump.now chain) }
{
    let mut visits = Vec::new(alloc);
    for steps in paths {
        let live = live_of(alloc, dump, chain, steps.as_slice())?;
        push_visit(&mut visits, steps, live)?;
    }
    Ok(List::of(visits))
}

/// The visits of the rules that a chain reaches, each with what triggers it: a valid packet, and the unknown literals that are
/// to hold. A visit is a rule with the calls and gotos over which it is met. Nothing triggers a visit exactly where no valid
/// packet's walk comes to its rule so, under any meaning, and the rule matches there. The chain has a policy, and the dump
/// has fewer than 2^31 chains. W is 32 or 128.
///
/// The visits stand in the order in which their rules are met: a rule's own visit, then those inside the chain that it calls
/// or goes to, then those of the next rule. What is shown is the answer of `first_hit` for all packets, over `closed` of side
/// Upper, of the visit's probe: a dump that accepts nothing but what triggers the visit; and the places are those that
/// `explain` answers of that probe.
///
/// # Errors
///
/// `Unsupported`, `Loop` and `Limit(Depth)` exactly where a check of the chain's calls refuses it so. `Limit(Visits)` exactly
/// where it doesn't, and the visits are more than `MOST_LISTED_VISITS`. Else, for the first visit whose probe is refused,
/// `Limit` of `Nodes`, `Literals`, `Boxes` or `Rules` where `closed` refuses it so, and of `Regions` where `first_hit` does.
/// `Memory` where memory runs out.
pub fn dead<const W: u32>(
    alloc: Global,
    dump: &Dump<Prim_<W>>,
    chain: u32,
) -> Result<List<Visit>, Refusal>
    requires width { IsWidth W }
    requires policy { HasPolicy dump.now chain }
    requires room { HasRoom dump.now }
    requires few { length dump.now.chains < 2 ^ 31 }
    requires named { CallsNameChains dump.now }
    ensures listable { OnOk result (IsListable dump.now chain) }
    ensures answers { IfOk result (AnswersDead dump.now chain) }
    ensures refused { IfErr result (RefusesDead dump.now chain) }
{
    let ranked = check(alloc, dump, chain)?;
    if ranked.visits > MOST_LISTED_VISITS {
        return Err(Refusal::Limit(Kind::Visits));
    }
    let mut paths = Vec::new(alloc);
    list_chain(alloc, dump, chain, MOST_CHAINS, &[], &mut paths)?;
    answers_of(alloc, dump, chain, paths)
}
