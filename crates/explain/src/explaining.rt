ghost use Rattle.std.specs.Prelude.{◌≡◌, ◌↔◌, ◌<◌, IfOk};
ghost use Rattle.fw_rule.specs.Walk.{Settled, Within, HasRoom};
ghost use Rattle.fw_rule.specs.declared.rule.Verdict as verdict;
ghost use Rattle.chain_graph.specs.Results.{IsRanked};
ghost use Rattle.limits.specs.declared.TheConstants.{MOST_VISITS};
ghost use Rattle.explain.specs.Answers.{IsExplained};

use crate::answer::{Explain, ExplainFault};
use crate::choosing::choose_in;
use crate::reach::is_reached;
use crate::views::{no_views, view_chain};
use chain_graph::Ranked;
use fw_rule::{Dump, Place, Verdict, settled_policy};
use limits::{MOST_CHAINS, MOST_VISITS};
use match_expr::{List, Primitive};
use std::alloc::{AllocError, Global};

/// The explanation of one verdict.
fn explain_verdict<P: Primitive>(
    alloc: Global,
    dump: &Dump<P>,
    wanted: Verdict,
    chain: u32,
    depth: u32,
    p: &P::Packet,
) -> Result<Option<List<Place>>, AllocError>
    requires settled { Settled dump.now chain }
    requires within { Within dump.now depth chain }
    requires room { HasRoom dump.now }
    ensures { IfOk result (IsExplained P.meaning dump.now p.now chain wanted) }
{
    let mut views = no_views(alloc, dump)?;
    let start = view_chain(alloc, dump, wanted, p, chain, depth, &mut views)?;
    let by_policy = settled_policy(dump, chain) == wanted;
    if !is_reached(start, by_policy) {
        return Ok(None);
    }
    let mut path = Vec::new(alloc);
    let mut places = Vec::new(alloc);
    let _ = choose_in(
        alloc,
        dump,
        &views,
        chain,
        depth,
        by_policy,
        &mut path,
        &mut places,
    )?;
    Ok(Some(List::of(places)))
}

/// For each verdict that some meaning's walk of the packet has, the meaning of the chosen walk: before each doubtful
/// rule whose known literals hold, it passes the rule over where the verdict can still be reached behind it, and else
/// takes the rule. All unknown literals of the rules that it takes hold.
///
/// `Visits` comes exactly where the visits of the chain are more than `MOST_VISITS`.
pub fn explain<P: Primitive>(
    alloc: Global,
    dump: &Dump<P>,
    ranked: &Ranked,
    chain: u32,
    p: &P::Packet,
) -> Result<Explain, ExplainFault>
    requires ranked { IsRanked dump.now chain ranked.now }
    requires settled { Settled dump.now chain }
    requires room { HasRoom dump.now }
    ensures accept { IfOk result (λ e. IsExplained P.meaning dump.now p.now chain verdict.Verdict.Accept e.accept) }
    ensures drop { IfOk result (λ e. IsExplained P.meaning dump.now p.now chain verdict.Verdict.Drop e.drop) }
    ensures visits { (result ≡ Err ExplainFault.Visits) ↔ (MOST_VISITS < ranked.now.visits) }
{
    if ranked.visits > MOST_VISITS {
        return Err(ExplainFault::Visits);
    }
    let accept = explain_verdict(alloc, dump, Verdict::Accept, chain, MOST_CHAINS, p)?;
    let drop = explain_verdict(alloc, dump, Verdict::Drop, chain, MOST_CHAINS, p)?;
    Ok(Explain { accept, drop })
}
