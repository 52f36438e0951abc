ghost use Rattle.std.specs.Prelude.{◌≡◌, ◌+◌, ◌-◌, ◌^◌, ◌<◌, ℕ, min, IfOk};
ghost use Rattle.closure.specs.inner.Counts as spec;
ghost use Rattle.closure.specs.inner.Counts.{capped, rules_items};
ghost use Rattle.closure.specs.inner.Counted.{AreCounted};
ghost use Rattle.closure.specs.Rewriting.{chain_tree, nodes};
ghost use Rattle.rewriting.specs.Table.{level};
ghost use Rattle.closure.specs.Checked.{IsRankedWithPolicy};

use crate::ranks::{has_rank, rank_of};
use chain_graph::Ranked;
use fw_rule::{Dump, Rule, Side, doubtful};
use match_expr::Primitive;
use rewriting::{Mode, Row, kind_of, row_of};
use std::alloc::{AllocError, Global};

/// The numbers of items of a list of rules: in the hard mode and in the softest one. A sum stops at 2^64 - 1.
#[derive(Clone, Copy, Debug, PartialEq, Eq)]
pub struct Counts {
    pub hard: u64,
    pub soft: u64,
}

/// Of no rules.
const NONE: Counts = Counts { hard: 0, soft: 0 };

/// The number that counts in a mode.
fn in_mode(counts: Counts, mode: Mode) -> u64
    ensures { result ≡ spec.in_mode counts mode }
{
    match mode {
        Mode::Hard => counts.hard,
        Mode::Soft(0) => counts.soft,
        Mode::Soft(_) => counts.hard,
    }
}

/// The numbers of a chain in a table; 0 past its end.
fn entry(table: &[Counts], chain: u32) -> Counts
    ensures { result ≡ spec.entry table.now chain }
{
    match table.get(chain as usize) {
        Some(counts) => *counts,
        None => NONE,
    }
}

/// The items of a row and of the rest.
fn row_items(row: Row, mode: Mode, table: &[Counts], rest: Counts) -> u64
    ensures { result ≡ capped (spec.row_items (λ (chain : ℕ). spec.in_mode (spec.entry table.now chain)) (spec.in_mode rest) mode row) }
{
    let behind = in_mode(rest, mode);
    match row {
        Row::Skip => behind,
        Row::Decide(_) => behind.saturating_add(1),
        Row::Leave(_) => behind.saturating_add(1),
        Row::LeaveLater => {
            let inner = in_mode(rest, Mode::Soft(0));
            inner.saturating_add(behind).saturating_add(2)
        }
        Row::Run(callee, inner) => {
            let counts = entry(table, callee);
            let called = in_mode(counts, inner);
            called.saturating_add(behind).saturating_add(1)
        }
        Row::RunThenLeave(target, inner) => {
            let counts = entry(table, target);
            let run = in_mode(counts, inner);
            run.saturating_add(behind).saturating_add(2)
        }
        Row::RunLater(target) => {
            let counts = entry(table, target);
            let run = in_mode(counts, Mode::Soft(1));
            let inner = in_mode(rest, Mode::Soft(0));
            inner
                .saturating_add(run)
                .saturating_add(behind)
                .saturating_add(4)
        }
    }
}

/// The items of a rule in a mode, and of the rest.
fn rule_items<P: Primitive>(
    side: Side,
    rule: &Rule<P>,
    mode: Mode,
    table: &[Counts],
    rest: Counts,
) -> u64
    requires { level mode + 1 < 2 ^ 32 }
    ensures { result ≡ spec.rule_items side table.now rule.now rest mode }
{
    let kind = kind_of(side, &rule.action);
    let doubt = doubtful(rule);
    let row = row_of(side, kind, doubt, mode);
    row_items(row, mode, table, rest)
}

/// The items of a chain's rules, in both modes. The last rule is taken first.
fn rules_counts<P: Primitive>(side: Side, rules: &[Rule<P>], table: &[Counts]) -> Counts
    ensures { result ≡ rules_items side table.now rules.now }
{
    let mut rest = NONE;
    for passed in 0..rules.len() {
        let rule = &rules[rules.len() - 1 - passed];
        let hard = rule_items(side, rule, Mode::Hard, table, rest);
        let soft = rule_items(side, rule, Mode::Soft(0), table, rest);
        rest = Counts { hard, soft };
    }
    rest
}

/// Puts the numbers of the chains of a rank into the table, which has those of the lesser ranks.
fn count_rank<P: Primitive>(
    dump: &Dump<P>,
    ranked: &Ranked,
    side: Side,
    rank: u32,
    table: &mut [Counts],
)
    requires checked { IsRankedWithPolicy dump.now ranked.now.entry ranked.now }
    requires lesser { AreCounted side dump.now ranked.now (rank - 1) table.old }
    ensures { AreCounted side dump.now ranked.now rank table.new }
{
    let chains = dump.chains.as_slice();
    for chain in 0..chains.len() {
        if has_rank(ranked, chain, rank) {
            let counts = rules_counts(side, chains[chain].rules.as_slice(), table);
            table[chain] = counts;
        }
    }
}

/// The number of items of a chain's tree at all depths. It stops at 2^64 - 1. Nothing is built: the rules of each chain
/// that is reached are summed up once, a chain before those that lead to it.
pub fn count_nodes<P: Primitive>(
    alloc: Global,
    dump: &Dump<P>,
    ranked: &Ranked,
    chain: u32,
    side: Side,
) -> Result<u64, AllocError>
    requires { IsRankedWithPolicy dump.now chain ranked.now }
    ensures { IfOk result (λ n. n ≡ min (nodes (chain_tree side dump.now chain)) (2 ^ 64 - 1)) }
{
    let mut table = vec![in alloc; NONE; dump.chains.as_slice().len()]?;
    let top = rank_of(ranked, chain);
    for below in 0..top {
        count_rank(dump, ranked, side, below + 1, &mut table);
    }
    let counts = entry(table.as_slice(), chain);
    Ok(counts.hard)
}
