ghost use Rattle.std.specs.Prelude.{◌≡◌, ◌<◌, ◌+◌, ◌-◌, ◌^◌, [], min, map, IfOk, OnOk};
ghost use Rattle.match_expr.specs.declared.expr.Expr.{Expr};
ghost use Rattle.match_expr.specs.Meaning.{literal_count};
ghost use Rattle.fw_rule.specs.Matching.{known_of};
ghost use Rattle.fw_rule.specs.Walk.{InSettled, RuleOf, Within};
ghost use Rattle.closure.specs.Checked.{IsRankedWithPolicy};
ghost use Rattle.closure.specs.inner.Counts.{capped};
ghost use Rattle.closure.specs.inner.Totals.{lit_count, total_of, with_literals};
ghost use Rattle.closure.specs.inner.Ways.{way_of};
ghost use Rattle.closure.specs.Rewriting.{Tree, Block, chain_tree, to_the_end};
ghost use Rattle.closure.specs.inner.Items.{items_from, items_with};
ghost use Rattle.rewriting.specs.Table.{level};
ghost use Rattle.closure.specs.inner.Moves.{then_leave};
ghost use Rattle.closure.specs.inner.Tallies.{Counts};
ghost use Rattle.closure.specs.inner.Skips.{AreSkips};
ghost use Rattle.closure.specs.Flat.{escapes, flat_list, literals_in};
ghost use Rattle.closure.specs.Stream.{stream};

use crate::modes::RulesFrom;
use crate::ranks::rank_of;
use crate::skips::{Skips, first_item, skips_of};
use crate::streaming::{led_to, softest};
use crate::tally::{Tally, no_tally};
use chain_graph::Ranked;
use fw_rule::{Dump, Lit, Rule, Side, doubtful};
use match_expr::Primitive;
use rewriting::{Mode, Row, kind_of, row_of};
use std::alloc::{AllocError, Global};

/// The number of primitives of a known literal; 0 of an unknown one. It stops at 2^64 - 1.
fn lit_literals<P: Primitive>(lit: &Lit<P>) -> u64
    ensures { result ≡ capped (lit_count lit.now) }
{
    match lit {
        Lit::Known { expr, .. } => expr.literals(),
        Lit::Unknown(_) => 0,
    }
}

/// The number of literals of the known part of a rule. It stops at 2^64 - 1.
fn known_literals<P: Primitive>(rule: &Rule<P>) -> u64
    ensures { result ≡ capped (literal_count (known_of rule.now)) }
{
    let mut count: u64 = 0;
    for lit in rule.lits.as_slice() {
        count = count.saturating_add(lit_literals(lit));
    }
    count
}

/// Counts a block of these rules under an expression of so many literals.
#[cycle(counting)]
fn count_block<P: Primitive>(
    alloc: Global,
    dump: &Dump<P>,
    side: Side,
    table: &[Skips],
    block: RulesFrom,
    literals: u64,
    around: u64,
    tally: &mut Tally,
) -> Result<(), AllocError>
    requires settled { InSettled dump.now block.chain }
    requires within { Within dump.now block.depth block.chain }
    requires room { level block.mode + block.depth < 2 ^ 32 }
    requires table { AreSkips side dump.now table.now }
    ensures { OnOk result ((e : Expr P) → literals ≡ capped (literal_count e) → (behind : Tree P) → Counts around (Block e (items_from side dump.now block) behind) behind tally.old tally.new) }
{
    let whole = around.saturating_add(tally.past).saturating_add(literals);
    let inner = count_from(alloc, dump, side, table, block, whole)?;
    tally.run(literals, &inner)?;
    Ok(())
}

/// Counts such a block and a way out of the block around it.
#[cycle(counting)]
fn count_and_leave<P: Primitive>(
    alloc: Global,
    dump: &Dump<P>,
    side: Side,
    table: &[Skips],
    block: RulesFrom,
    literals: u64,
    around: u64,
    tally: &mut Tally,
) -> Result<(), AllocError>
    requires settled { InSettled dump.now block.chain }
    requires within { Within dump.now block.depth block.chain }
    requires room { level block.mode + block.depth < 2 ^ 32 }
    requires table { AreSkips side dump.now table.now }
    ensures { OnOk result ((e : Expr P) → literals ≡ capped (literal_count e) → (behind : Tree P) → Counts around (then_leave e (items_from side dump.now block) behind) behind tally.old tally.new) }
{
    count_block(alloc, dump, side, table, block, literals, around, tally)?;
    tally.leave(literals, 0)?;
    Ok(())
}

/// What is counted of a chain to its end: of its rules as a block, behind which the block around it is left.
#[cycle(counting)]
fn count_to_the_end<P: Primitive>(
    alloc: Global,
    dump: &Dump<P>,
    side: Side,
    table: &[Skips],
    from: RulesFrom,
    around: u64,
) -> Result<Tally, AllocError>
    requires settled { InSettled dump.now from.chain }
    requires within { Within dump.now from.depth from.chain }
    requires room { level from.mode + from.depth < 2 ^ 32 }
    requires table { AreSkips side dump.now table.now }
    ensures total { IfOk result (λ tally. tally.total ≡ capped (total_of (stream with_literals around (to_the_end (items_from side dump.now from))))) }
    ensures ways { IfOk result (λ tally. tally.ways.items ≡ map way_of (escapes [] (to_the_end (items_from side dump.now from)))) }
{
    let mut tally = no_tally(alloc);
    count_block(alloc, dump, side, table, from, 0, around, &mut tally)?;
    tally.leave(0, 1)?;
    Ok(tally)
}

/// Counts a block under an expression in which a chain is gone through to its end.
#[cycle(counting)]
fn count_end_block<P: Primitive>(
    alloc: Global,
    dump: &Dump<P>,
    side: Side,
    table: &[Skips],
    block: RulesFrom,
    literals: u64,
    around: u64,
    tally: &mut Tally,
) -> Result<(), AllocError>
    requires settled { InSettled dump.now block.chain }
    requires within { Within dump.now block.depth block.chain }
    requires room { level block.mode + block.depth < 2 ^ 32 }
    requires table { AreSkips side dump.now table.now }
    ensures { OnOk result ((e : Expr P) → literals ≡ capped (literal_count e) → (behind : Tree P) → Counts around (Block e (to_the_end (items_from side dump.now block)) behind) behind tally.old tally.new) }
{
    let whole = around.saturating_add(tally.past).saturating_add(literals);
    let inner = count_to_the_end(alloc, dump, side, table, block, whole)?;
    tally.run(literals, &inner)?;
    Ok(())
}

/// Counts a rule, which stands before the others.
#[cycle(counting)]
fn count_rule<P: Primitive>(
    alloc: Global,
    dump: &Dump<P>,
    side: Side,
    table: &[Skips],
    behind: RulesFrom,
    rule: &Rule<P>,
    around: u64,
    tally: &mut Tally,
) -> Result<(), AllocError>
    requires settled { InSettled dump.now behind.chain }
    requires within { Within dump.now behind.depth behind.chain }
    requires room { level behind.mode + behind.depth < 2 ^ 32 }
    requires table { AreSkips side dump.now table.now }
    requires rule { RuleOf dump.now behind.chain rule.now }
    ensures { OnOk result (Counts around (items_with side dump.now rule.now behind) (items_from side dump.now behind) tally.old tally.new) }
{
    let literals = known_literals(rule);
    let kind = kind_of(side, &rule.action);
    match row_of(side, kind, doubtful(rule), behind.mode) {
        Row::Skip => {}
        Row::Decide(_accept) => {
            let whole = around.saturating_add(tally.past).saturating_add(literals);
            tally.total = tally.total.saturating_add(whole);
        }
        Row::Leave(n) => tally.leave(literals, n)?,
        Row::LeaveLater => {
            let rest = softest(behind);
            count_and_leave(alloc, dump, side, table, rest, literals, around, tally)?;
        }
        Row::Run(callee, mode) => {
            let called = led_to(behind, callee, mode);
            count_block(alloc, dump, side, table, called, literals, around, tally)?;
        }
        Row::RunThenLeave(target, mode) => {
            let gone = led_to(behind, target, mode);
            count_and_leave(alloc, dump, side, table, gone, literals, around, tally)?;
        }
        Row::RunLater(target) => {
            let rest = softest(behind);
            count_block(alloc, dump, side, table, rest, literals, around, tally)?;
            let gone = led_to(behind, target, Mode::Soft(1));
            count_end_block(alloc, dump, side, table, gone, literals, around, tally)?;
        }
    }
    Ok(())
}

/// What is counted of these rules, where `around` literals stand around them. A rule that gives no item isn't looked at.
#[cycle(counting)]
fn count_from<P: Primitive>(
    alloc: Global,
    dump: &Dump<P>,
    side: Side,
    table: &[Skips],
    from: RulesFrom,
    around: u64,
) -> Result<Tally, AllocError>
    requires settled { InSettled dump.now from.chain }
    requires within { Within dump.now from.depth from.chain }
    requires room { level from.mode + from.depth < 2 ^ 32 }
    requires table { AreSkips side dump.now table.now }
    ensures total { IfOk result (λ tally. tally.total ≡ capped (total_of (stream with_literals around (items_from side dump.now from)))) }
    ensures ways { IfOk result (λ tally. tally.ways.items ≡ map way_of (escapes [] (items_from side dump.now from))) }
{
    let rules = dump.chains.as_slice()[from.chain as usize].rules.as_slice();
    let mut tally = no_tally(alloc);
    let mut next = first_item(dump, side, table, from.chain, from.first, from.mode);
    while next < rules.len() {
        let rule = &rules[next];
        let behind = RulesFrom {
            first: next + 1,
            ..from
        };
        count_rule(alloc, dump, side, table, behind, rule, around, &mut tally)?;
        next = first_item(dump, side, table, from.chain, next + 1, from.mode);
    }
    Ok(tally)
}

/// The number of literals of a chain's flat list, repeats counted. It stops at 2^64 - 1. Nothing is built but, for each chain's rules, where the next one stands that gives an item: the rules
/// that do are passed as often as their items stand in the tree, and of an escape its number of literals alone is kept.
pub fn count_literals<P: Primitive>(
    alloc: Global,
    dump: &Dump<P>,
    ranked: &Ranked,
    chain: u32,
    side: Side,
) -> Result<u64, AllocError>
    requires { IsRankedWithPolicy dump.now chain ranked.now }
    ensures { IfOk result (λ n. n ≡ min (literals_in (flat_list (chain_tree side dump.now chain))) (2 ^ 64 - 1)) }
{
    let table = skips_of(alloc, dump, side)?;
    let whole = RulesFrom {
        chain,
        first: 0,
        depth: rank_of(ranked, chain),
        mode: Mode::Hard,
    };
    let tally = count_from(alloc, dump, side, table.as_slice(), whole, 0)?;
    Ok(tally.total)
}
