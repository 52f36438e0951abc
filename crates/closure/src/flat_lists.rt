ghost use Rattle.std.specs.Prelude.{◌≡◌, Some, IfOk, IfErr, OnOk};
ghost use Rattle.closure.specs.Checked.{IsRankedWithPolicy};
ghost use Rattle.fw_rule.specs.declared.rule.Verdict.{Verdict};
ghost use Rattle.fw_rule.specs.Walk.{policy_of};
ghost use Rattle.closure.specs.Rewriting.{chain_tree};
ghost use Rattle.closure.specs.Flat.{flat_list};
ghost use Rattle.closure.specs.Limits.{IsSmall, Passes};
ghost use Rattle.closure.specs.Sides.{ClosesTo};
ghost use Rattle.closure.specs.Sources.{AreKnown};
ghost use Rattle.closure.specs.declared.flat_lists.FlatFault.TheVariants.{Memory};

use crate::counting::count_nodes;
use crate::flattening::flat_rules;
use crate::totals::count_literals;
use chain_graph::Ranked;
use fw_rule::{Dump, Side};
use limits::{MOST_LITERALS, MOST_NODES};
use match_expr::{FlatRule, List, Primitive};
use std::alloc::{AllocError, Global};
use thiserror::Error;

/// Why a flat list isn't made.
#[derive(Clone, Copy, Debug, PartialEq, Eq, Error)]
pub enum FlatFault {
    /// The rewritten tree has more than 262,144 items.
    #[error("too many nodes")]
    Nodes,
    /// The tree keeps to its limit, and the flat list has more than 4,194,304 literals, repeats counted.
    #[error("too many literals")]
    Literals,
    /// Memory ran out.
    #[error("out of memory")]
    Memory,
}

impl From<AllocError> for FlatFault {
    ghost from_gives = { λ _ e. e ≡ Memory };

    fn from(_: AllocError) -> Self {
        FlatFault::Memory
    }
}

/// The flat list of a chain: read by first match, with the chain's policy at its end, it accepts exactly what may (Upper) or must (Lower) be accepted.
/// Each primitive in it stands in a known literal of a rule of a reachable chain.
///
/// `ranked` is what a check of the chain answers, and the chain has a policy. `Nodes` comes exactly where the tree has
/// more than 262,144 items, and `Literals` exactly where it hasn't and the list has more than 4,194,304 literals. Both
/// are counted before the list is built.
pub fn flat<P: Primitive>(
    alloc: Global,
    dump: &Dump<P>,
    ranked: &Ranked,
    chain: u32,
    side: Side,
) -> Result<List<FlatRule<P>>, FlatFault>
    requires { IsRankedWithPolicy dump.now chain ranked.now }
    ensures is { IfOk result (λ rules. rules ≡ flat_list (chain_tree side dump.now chain)) }
    ensures small { OnOk result (IsSmall (chain_tree side dump.now chain)) }
    ensures refused { IfErr result (λ fault. Passes (chain_tree side dump.now chain) fault) }
    ensures sources { IfOk result (λ rules. AreKnown dump.now chain rules) }
    ensures closes { IfOk result (λ rules. (policy : Verdict) → policy_of dump.now chain ≡ Some policy → ClosesTo P.meaning side dump.now chain policy rules) }
{
    if count_nodes(alloc, dump, ranked, chain, side)? > MOST_NODES {
        return Err(FlatFault::Nodes);
    }
    if count_literals(alloc, dump, ranked, chain, side)? > MOST_LITERALS {
        return Err(FlatFault::Literals);
    }
    let rules = flat_rules(alloc, dump, ranked, chain, side)?;
    Ok(rules)
}
