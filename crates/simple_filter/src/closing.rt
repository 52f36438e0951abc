ghost use Rattle.std.specs.Prelude.{◌≡◌, Some, map, IfOk, IfErr, OnOk};
ghost use Rattle.interval_set.specs.Numbers.{IsWidth};
ghost use Rattle.fw_rule.specs.Walk.{HasRoom, policy_of};
ghost use Rattle.fw_rule.specs.declared.rule.Verdict.{Verdict};
ghost use Rattle.chain_graph.specs.Paths.{CallsNameChains};
ghost use Rattle.chain_graph.specs.Refusals.{IsChecked};
ghost use Rattle.closure.specs.Checked.{HasPolicy, IsRankedWithPolicy};
ghost use Rattle.closure.specs.Stream.{cut_out};
ghost use Rattle.box_norm.specs.Normal.{normal_of};
ghost use Rattle.box_norm.specs.Regular.{EachCube, HasStates, IsRegular};
ghost use Rattle.box_norm.specs.Sets.{HasSets};
ghost use Rattle.simple_filter.specs.inner.Collected.{HasTaken, cut_by, whole_cubes};
ghost use Rattle.simple_filter.specs.Closed.{Accepts, IsSmall, NamesAreKnown, RefusesClosed, flat_rules};

use crate::collecting::Collected;
use crate::cubes::Cubes;
use crate::refusal::{Kind, Refusal};
use box_norm::SimpleRule;
use chain_graph::{Ranked, check};
use closure::{count_literals, count_nodes, stream_to};
use fw_rule::{Dump, Side};
use limits::{MOST_LITERALS, MOST_NODES};
use match_expr::List;
use primitives::Prim_;
use std::alloc::{AllocError, Global};

/// What is collected of the whole flat list.
fn collected<const W: u32>(
    alloc: Global,
    dump: &Dump<Prim_<W>>,
    ranked: &Ranked,
    chain: u32,
    side: Side,
) -> Result<Collected<W>, AllocError>
    requires width { IsWidth W }
    requires checked { IsRankedWithPolicy dump.now chain ranked.now }
    ensures { IfOk result (λ k. HasTaken k.rules.items k.is_full k.has_boxes (map (cut_out (cut_by {W = W}) (whole_cubes W)) (flat_rules dump.now chain side))) }
{
    let mut out = Collected {
        rules: Vec::new(alloc),
        is_full: false,
        has_boxes: false,
    };
    let start = Cubes::all_packets(alloc)?;
    stream_to(alloc, dump, ranked, chain, side, start, &mut out)?;
    Ok(out)
}

/// The simple rules of a chain: the cubes of its flat list. With the chain's policy at their end they accept exactly
/// the valid packets that may (Upper) or must (Lower) be accepted.
///
/// Each cube is regular, its lists of ranges are sets, and each pattern in its names, but for a base of every name,
/// stands in a known literal of a rule in reach. The chain has a policy.
///
/// # Errors
///
/// `Unsupported`, `Loop` and `Limit(Depth)` come exactly where a check of the chain's calls refuses it so. Else, in
/// this order, `Limit(Nodes)` comes exactly where the rewritten tree has more than `MOST_NODES` items,
/// `Limit(Literals)` where its flat list has more than `MOST_LITERALS` literals, `Limit(Boxes)` where a list of more
/// than `MOST_CUBES` cubes comes up while the flat list is cut out of the cube of all packets, and `Limit(Rules)` where
/// the simple rules are more than `MOST_RULES`. `Memory` comes where memory runs out. No other kind comes.
pub fn closed<const W: u32>(
    alloc: Global,
    dump: &Dump<Prim_<W>>,
    chain: u32,
    side: Side,
) -> Result<List<SimpleRule<W>>, Refusal>
    requires width { IsWidth W }
    requires policy { HasPolicy dump.now chain }
    requires room { HasRoom dump.now }
    requires named { CallsNameChains dump.now }
    ensures rules { IfOk result (λ rules. rules ≡ normal_of (flat_rules dump.now chain side)) }
    ensures checked { OnOk result (IsChecked dump.now chain) }
    ensures small { OnOk result (IsSmall dump.now chain side) }
    ensures regular { IfOk result (EachCube IsRegular) }
    ensures sets { IfOk result (EachCube HasSets) }
    ensures states { IfOk result (EachCube HasStates) }
    ensures names { IfOk result (EachCube (NamesAreKnown dump.now chain)) }
    ensures meaning { IfOk result (λ rules. (policy : Verdict) → policy_of dump.now chain ≡ Some policy → Accepts side dump.now chain policy rules) }
    ensures refused { IfErr result (RefusesClosed dump.now chain side) }
{
    let ranked = check(alloc, dump, chain)?;
    let nodes = count_nodes(alloc, dump, &ranked, chain, side)?;
    if nodes > MOST_NODES {
        return Err(Refusal::Limit(Kind::Nodes));
    }
    let literals = count_literals(alloc, dump, &ranked, chain, side)?;
    if literals > MOST_LITERALS {
        return Err(Refusal::Limit(Kind::Literals));
    }
    let Collected {
        rules,
        is_full,
        has_boxes,
    } = collected(alloc, dump, &ranked, chain, side)?;
    if has_boxes {
        return Err(Refusal::Limit(Kind::Boxes));
    }
    if is_full {
        return Err(Refusal::Limit(Kind::Rules));
    }
    Ok(List::of(rules))
}
