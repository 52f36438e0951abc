ghost use Rattle.std.specs.Prelude.{◌≡◌, ◌≤◌, ◌+◌, ◌-◌, ◌++◌, ◌<◌, ◌^◌, Bool, true, false, List, [], IfOk, MatchOption, OnOk, map};
ghost use Rattle.fw_rule.specs.Walk.{InSettled, RuleOf, Within};
ghost use Rattle.closure.specs.Checked.{IsRankedWithPolicy};
ghost use Rattle.closure.specs.Rewriting.{Block, chain_tree, to_the_end};
ghost use Rattle.rewriting.specs.declared.rows.Mode.TheVariants.{Soft};
ghost use Rattle.closure.specs.inner.Items.{items_from, items_with};
ghost use Rattle.rewriting.specs.Table.{level};
ghost use Rattle.closure.specs.inner.Moves.{Fills, IsBlind, Passes, Steps, then_leave};
ghost use Rattle.closure.specs.inner.Skips.{AreSkips};
ghost use Rattle.closure.specs.inner.Ends.{AreEnds, IsSilent};
ghost use Rattle.closure.specs.Flat.{escapes, flat_list};
ghost use Rattle.closure.specs.Stream.{stream, cut_out, IsCutByParts, IsSettled};

use crate::cutting::{Needs, Passed, Sink, State};
use crate::ends::{Ends, all_ends, end_of};
use crate::modes::{Escape, RulesFrom};
use crate::ranks::rank_of;
use crate::skips::{Skips, first_item, skips_of};
use chain_graph::Ranked;
use fw_rule::{Dump, Rule, Side, doubtful, known};
use match_expr::{Expr, Items, Primitive};
use rewriting::{Mode, Row, kind_of, row_of};
use std::alloc::{AllocError, Global};

/// What is looked up of the chains: where their next rules stand that give an item, and their last ones of which a verdict is made.
#[derive(Debug, Drop)]
struct Tables {
    skips: Vec<Skips>,
    ends: Vec<Ends>,
}

/// How many of so many rules are gone through: all where their escapes are wanted, else those before the end.
fn stop_of(wanted: bool, count: usize, end: usize) -> usize
    ensures inside { result ≤ count }
    ensures all { wanted ≡ true → result ≡ count }
    ensures rest { result < count → end ≤ result }
{
    if wanted { count } else { end.min(count) }
}

/// What is needed behind an item, where the list's escapes are wanted or not: the escapes; what doesn't hold there, if an item follows; the state, if a verdict is made of a rule behind it.
fn needs_of(wanted: bool, next: usize, after: usize, count: usize, end: usize) -> Needs
    ensures escapes { result.escapes ≡ wanted }
    ensures past { result.past ≡ false → count ≤ after }
    ensures state { result.state ≡ false → end ≤ next + 1 }
{
    Needs {
        escapes: wanted,
        past: after < count,
        state: end.saturating_sub(next) > 1,
    }
}

/// The same rules in the softest mode.
pub(crate) fn softest(from: RulesFrom) -> RulesFrom
    ensures { result ≡ record { chain = from.chain; first = from.first; depth = from.depth; mode = Soft 0 } }
{
    RulesFrom {
        mode: Mode::Soft(0),
        ..from
    }
}

/// The rules of a chain to which one of these leads.
pub(crate) fn led_to(from: RulesFrom, chain: u32, mode: Mode) -> RulesFrom
    requires { 1 ≤ from.depth }
    ensures { result ≡ record { chain = chain; first = 0; depth = from.depth - 1; mode = mode } }
{
    RulesFrom {
        chain,
        first: 0,
        depth: from.depth - 1,
        mode,
    }
}

/// Passes a block of these rules under an expression: gives the states that are made of them. False where the sink is settled.
#[cycle(streaming)]
fn pass_block<P: Primitive, S: State<P>, K: Sink<P, S>>(
    alloc: Global,
    dump: &Dump<P>,
    side: Side,
    tables: &Tables,
    block: RulesFrom,
    e: &Expr<P>,
    needs: Needs,
    passed: &mut Passed<P, S>,
    out: &mut K,
) -> Result<bool, AllocError>
    requires settled { InSettled dump.now block.chain }
    requires within { Within dump.now block.depth block.chain }
    requires room { level block.mode + block.depth < 2 ^ 32 }
    requires skips { AreSkips side dump.now tables.now.skips.items }
    requires ends { AreEnds side dump.now tables.now.ends.items }
    ensures { IfOk result (λ on. Passes K.given S.left on needs (Block e.now (items_from side dump.now block)) out.old out.new passed.old passed.new) }
{
    let inside = passed.state.cut(alloc, e)?;
    match stream_from(alloc, dump, side, tables, block, needs.any(), inside, out)? {
        Some(escapes) => {
            passed.run(alloc, e, escapes, needs)?;
            Ok(true)
        }
        None => Ok(false),
    }
}

/// Passes such a block and a way out of the block around it. False where the sink is settled.
#[cycle(streaming)]
fn pass_and_leave<P: Primitive, S: State<P>, K: Sink<P, S>>(
    alloc: Global,
    dump: &Dump<P>,
    side: Side,
    tables: &Tables,
    block: RulesFrom,
    e: &Expr<P>,
    needs: Needs,
    passed: &mut Passed<P, S>,
    out: &mut K,
) -> Result<bool, AllocError>
    requires settled { InSettled dump.now block.chain }
    requires within { Within dump.now block.depth block.chain }
    requires room { level block.mode + block.depth < 2 ^ 32 }
    requires skips { AreSkips side dump.now tables.now.skips.items }
    requires ends { AreEnds side dump.now tables.now.ends.items }
    ensures { IfOk result (λ on. Passes K.given S.left on needs (then_leave e.now (items_from side dump.now block)) out.old out.new passed.old passed.new) }
{
    if !pass_block(alloc, dump, side, tables, block, e, needs, passed, out)? {
        return Ok(false);
    }
    passed.leave(alloc, e, 0, needs)?;
    Ok(true)
}

/// Gives the states of a chain to its end: of its rules as a block, behind which the block around it is left.
#[cycle(streaming)]
fn stream_to_the_end<P: Primitive, S: State<P>, K: Sink<P, S>>(
    alloc: Global,
    dump: &Dump<P>,
    side: Side,
    tables: &Tables,
    from: RulesFrom,
    wanted: bool,
    start: S,
    out: &mut K,
) -> Result<Option<Vec<Escape<P>>>, AllocError>
    requires settled { InSettled dump.now from.chain }
    requires within { Within dump.now from.depth from.chain }
    requires room { level from.mode + from.depth < 2 ^ 32 }
    requires skips { AreSkips side dump.now tables.now.skips.items }
    requires ends { AreEnds side dump.now tables.now.ends.items }
    ensures states { OnOk result (Fills K.given S.left (to_the_end (items_from side dump.now from)) out.old out.new start) }
    ensures escapes { IfOk result (λ left. MatchOption left (IsSettled K.given out.new) (λ found. wanted ≡ true → found.items ≡ escapes [] (to_the_end (items_from side dump.now from)))) }
{
    let always = Expr::All(Items::from_vec(Vec::new(alloc)));
    let needs = Needs {
        escapes: wanted,
        past: true,
        state: false,
    };
    let mut passed = Passed {
        state: start,
        past: Vec::new(alloc),
        found: Vec::new(alloc),
    };
    let block = &mut passed;
    if !pass_block(alloc, dump, side, tables, from, &always, needs, block, out)? {
        return Ok(None);
    }
    passed.leave(alloc, &always, 1, needs)?;
    Ok(Some(passed.found))
}

/// Passes a block under an expression in which a chain is gone through to its end. False where the sink is settled.
#[cycle(streaming)]
fn pass_to_the_end<P: Primitive, S: State<P>, K: Sink<P, S>>(
    alloc: Global,
    dump: &Dump<P>,
    side: Side,
    tables: &Tables,
    block: RulesFrom,
    e: &Expr<P>,
    needs: Needs,
    passed: &mut Passed<P, S>,
    out: &mut K,
) -> Result<bool, AllocError>
    requires settled { InSettled dump.now block.chain }
    requires within { Within dump.now block.depth block.chain }
    requires room { level block.mode + block.depth < 2 ^ 32 }
    requires skips { AreSkips side dump.now tables.now.skips.items }
    requires ends { AreEnds side dump.now tables.now.ends.items }
    ensures { IfOk result (λ on. Passes K.given S.left on needs (Block e.now (to_the_end (items_from side dump.now block))) out.old out.new passed.old passed.new) }
{
    let inside = passed.state.cut(alloc, e)?;
    match stream_to_the_end(alloc, dump, side, tables, block, needs.any(), inside, out)? {
        Some(escapes) => {
            passed.run(alloc, e, escapes, needs)?;
            Ok(true)
        }
        None => Ok(false),
    }
}

/// Passes a rule, which stands before the others: gives the states that are made of it. False where the sink is settled.
#[cycle(streaming)]
fn pass_rule<P: Primitive, S: State<P>, K: Sink<P, S>>(
    alloc: Global,
    dump: &Dump<P>,
    side: Side,
    tables: &Tables,
    behind: RulesFrom,
    rule: &Rule<P>,
    needs: Needs,
    passed: &mut Passed<P, S>,
    out: &mut K,
) -> Result<bool, AllocError>
    requires settled { InSettled dump.now behind.chain }
    requires within { Within dump.now behind.depth behind.chain }
    requires room { level behind.mode + behind.depth < 2 ^ 32 }
    requires skips { AreSkips side dump.now tables.now.skips.items }
    requires ends { AreEnds side dump.now tables.now.ends.items }
    requires rule { RuleOf dump.now behind.chain rule.now }
    requires silent { needs.state ≡ false → IsSilent (items_from side dump.now behind) }
    requires last { needs.past ≡ false → IsBlind (items_from side dump.now behind) }
    ensures { IfOk result (λ on. Steps K.given S.left on needs.escapes (items_with side dump.now rule.now behind) (items_from side dump.now behind) out.old out.new passed.old passed.new) }
{
    let e = &known(alloc, rule)?;
    let kind = kind_of(side, &rule.action);
    match row_of(side, kind, doubtful(rule), behind.mode) {
        Row::Skip => Ok(true),
        Row::Decide(accept) => {
            out.put_cut(alloc, &passed.state, e, accept)?;
            Ok(!out.is_settled())
        }
        Row::Leave(n) => {
            passed.leave(alloc, e, n, needs)?;
            Ok(true)
        }
        Row::LeaveLater => {
            let rest = softest(behind);
            pass_and_leave(alloc, dump, side, tables, rest, e, needs, passed, out)
        }
        Row::Run(callee, mode) => {
            let called = led_to(behind, callee, mode);
            pass_block(alloc, dump, side, tables, called, e, needs, passed, out)
        }
        Row::RunThenLeave(target, mode) => {
            let gone = led_to(behind, target, mode);
            pass_and_leave(alloc, dump, side, tables, gone, e, needs, passed, out)
        }
        Row::RunLater(target) => {
            let rest = softest(behind);
            let both = needs.before_more();
            if !pass_block(alloc, dump, side, tables, rest, e, both, passed, out)? {
                return Ok(false);
            }
            let gone = led_to(behind, target, Mode::Soft(1));
            pass_to_the_end(alloc, dump, side, tables, gone, e, needs, passed, out)
        }
    }
}

/// Gives the states of the flat rules that are made of these rules, with their verdicts; the escapes, if they are wanted. A rule that gives no item isn't looked at, nor where no escapes are
/// wanted one behind the last of which a verdict is made. None where the sink is settled: what would still come
/// is left out.
#[cycle(streaming)]
fn stream_from<P: Primitive, S: State<P>, K: Sink<P, S>>(
    alloc: Global,
    dump: &Dump<P>,
    side: Side,
    tables: &Tables,
    from: RulesFrom,
    wanted: bool,
    start: S,
    out: &mut K,
) -> Result<Option<Vec<Escape<P>>>, AllocError>
    requires settled { InSettled dump.now from.chain }
    requires within { Within dump.now from.depth from.chain }
    requires room { level from.mode + from.depth < 2 ^ 32 }
    requires skips { AreSkips side dump.now tables.now.skips.items }
    requires ends { AreEnds side dump.now tables.now.ends.items }
    ensures states { OnOk result (Fills K.given S.left (items_from side dump.now from) out.old out.new start) }
    ensures escapes { IfOk result (λ left. MatchOption left (IsSettled K.given out.new) (λ found. wanted ≡ true → found.items ≡ escapes [] (items_from side dump.now from))) }
{
    let rules = dump.chains.as_slice()[from.chain as usize].rules.as_slice();
    let end = end_of(dump, side, tables.ends.as_slice(), from.chain, from.mode);
    let stop = stop_of(wanted, rules.len(), end);
    let mut passed = Passed {
        state: start,
        past: Vec::new(alloc),
        found: Vec::new(alloc),
    };
    let skips = tables.skips.as_slice();
    let mut next = first_item(dump, side, skips, from.chain, from.first, from.mode);
    while next < stop {
        let rule = &rules[next];
        let behind = RulesFrom {
            first: next + 1,
            ..from
        };
        let after = first_item(dump, side, skips, from.chain, next + 1, from.mode);
        let needs = needs_of(wanted, next, after, rules.len(), end);
        let now = &mut passed;
        if !pass_rule(alloc, dump, side, tables, behind, rule, needs, now, out)? {
            return Ok(None);
        }
        next = after;
    }
    Ok(Some(passed.found))
}

/// Gives the states of a chain's flat rules to the sink, in order, with their verdicts. The rules aren't built.
///
/// Where an `All` cuts the first state as its parts do in turn, these are the states that the flat rules' expressions cut out of it. `ranked` is what a check of the chain answers, and the
/// chain has a policy. The one refusal is want of memory.
pub fn stream_to<P: Primitive, S: State<P>, K: Sink<P, S>>(
    alloc: Global,
    dump: &Dump<P>,
    ranked: &Ranked,
    chain: u32,
    side: Side,
    start: S,
    out: &mut K,
) -> Result<(), AllocError>
    requires { IsRankedWithPolicy dump.now chain ranked.now }
    ensures tree { OnOk result ((xs : List (S × Bool)) → K.given out.old xs → K.given out.new (xs ++ stream S.left start (chain_tree side dump.now chain))) }
    ensures list { OnOk result (IsCutByParts S.left start → (xs : List (S × Bool)) → K.given out.old xs → K.given out.new (xs ++ map (cut_out S.left start) (flat_list (chain_tree side dump.now chain)))) }
{
    let tables = Tables {
        skips: skips_of(alloc, dump, side)?,
        ends: all_ends(alloc, dump, ranked, chain, side)?,
    };
    let whole = RulesFrom {
        chain,
        first: 0,
        depth: rank_of(ranked, chain),
        mode: Mode::Hard,
    };
    let _escapes = stream_from(alloc, dump, side, &tables, whole, false, start, out)?;
    Ok(())
}

/// The states of a chain's flat rules, in order, with their verdicts. The rules aren't built.
///
/// Where an `All` cuts the first state as its parts do in turn, these are the states that the flat rules' expressions cut out of it.
pub fn states_of<P: Primitive, S: State<P>>(
    alloc: Global,
    dump: &Dump<P>,
    ranked: &Ranked,
    chain: u32,
    side: Side,
    start: S,
) -> Result<Vec<(S, bool)>, AllocError>
    requires { IsRankedWithPolicy dump.now chain ranked.now }
    ensures tree { IfOk result (λ states. states.items ≡ stream S.left start (chain_tree side dump.now chain)) }
    ensures list { IfOk result (λ states. IsCutByParts S.left start → states.items ≡ map (cut_out S.left start) (flat_list (chain_tree side dump.now chain))) }
{
    let mut states = Vec::new(alloc);
    stream_to(alloc, dump, ranked, chain, side, start, &mut states)?;
    Ok(states)
}
