ghost use Rattle.std.specs.Prelude.{◌≡◌, ◌≤◌, ◌+◌, ◌-◌, ◌^◌, ◌<◌, IsTrue, IfOk, length};
ghost use Rattle.fw_rule.specs.Matching.{doubt_in};
ghost use Rattle.closure.specs.Checked.{IsRankedWithPolicy};
ghost use Rattle.rewriting.specs.Table as spec;
ghost use Rattle.rewriting.specs.Table.{level};
ghost use Rattle.closure.specs.inner.Ends as spec_of;
ghost use Rattle.closure.specs.inner.Ends.{MakesNone, IsQuiet, EndsWith, AreEnds, AreOver};

use crate::ranks::{has_rank, rank_of};
use crate::skips::either;
use chain_graph::Ranked;
use fw_rule::{Dump, Rule, Side, doubtful};
use match_expr::Primitive;
use rewriting::{Mode, Row, kind_of, row_of};
use std::alloc::{AllocError, Global};

/// From which rule of a chain on no verdict is made of its rules: in the hard mode, and in each soft one.
#[derive(Clone, Copy, Debug, PartialEq, Eq)]
pub struct Ends {
    pub hard: usize,
    pub soft: usize,
}

/// Of no chain.
const NONE: Ends = Ends { hard: 0, soft: 0 };

/// The ends of a chain in a table; 0 past its end.
fn entry(table: &[Ends], chain: u32) -> Ends
    ensures { result ≡ spec_of.entry table.now chain }
{
    match table.get(chain as usize) {
        Some(ends) => *ends,
        None => NONE,
    }
}

/// The end in a mode.
fn end_in(ends: &Ends, mode: Mode) -> usize
    ensures { result ≡ spec_of.end_in ends.now mode }
{
    match mode {
        Mode::Hard => ends.hard,
        Mode::Soft(_) => ends.soft,
    }
}

/// Whether no verdict is made of a chain in a mode, as far as the table tells.
fn makes_none(table: &[Ends], chain: u32, mode: Mode) -> bool
    ensures { IsTrue result → MakesNone table.now chain mode }
{
    match table.get(chain as usize) {
        Some(ends) => end_in(ends, mode) == 0,
        None => false,
    }
}

/// Whether no verdict is made of what is made of a rule.
fn is_quiet(table: &[Ends], row: Row) -> bool
    ensures { IsTrue result → IsQuiet table.now row }
{
    match row {
        Row::Skip | Row::Leave(_) | Row::LeaveLater => true,
        Row::Decide(_) => false,
        Row::Run(callee, inner) => makes_none(table, callee, inner),
        Row::RunThenLeave(target, inner) => makes_none(table, target, inner),
        Row::RunLater(target) => makes_none(table, target, Mode::Soft(1)),
    }
}

/// Whether no verdict is made of a rule in a mode, nor of those behind it in this mode or in a soft one.
fn is_silent<P: Primitive>(
    side: Side,
    rule: &Rule<P>,
    mode: Mode,
    behind: usize,
    ends: Ends,
    table: &[Ends],
) -> bool
    requires { level mode + 1 < 2 ^ 32 }
    ensures soft { IsTrue result → ends.soft ≡ behind }
    ensures same { IsTrue result → spec_of.end_in ends mode ≡ behind }
    ensures quiet { IsTrue result → IsQuiet table.now (spec.row_of side (doubt_in rule.now.lits) (spec.kind side rule.now.action) mode) }
{
    let row = row_of(side, kind_of(side, &rule.action), doubtful(rule), mode);
    ends.soft == behind && end_in(&ends, mode) == behind && is_quiet(table, row)
}

/// The ends of a list of rules. The last rule is taken first.
fn ends_of<P: Primitive>(side: Side, rules: &[Rule<P>], table: &[Ends]) -> Ends
    ensures { EndsWith side table.now rules.now result }
{
    let mut ends = Ends {
        hard: rules.len(),
        soft: rules.len(),
    };
    for passed in 0..rules.len() {
        let behind = rules.len() - passed;
        let rule = &rules[behind - 1];
        let hard = is_silent(side, rule, Mode::Hard, behind, ends, table);
        let soft = is_silent(side, rule, Mode::Soft(0), behind, ends, table);
        ends = Ends {
            hard: either(hard, behind - 1, ends.hard),
            soft: either(soft, behind - 1, ends.soft),
        };
    }
    ends
}

/// Puts the ends of the chains of a rank into the table.
fn add_rank<P: Primitive>(
    dump: &Dump<P>,
    ranked: &Ranked,
    side: Side,
    rank: u32,
    table: &mut [Ends],
)
    requires checked { IsRankedWithPolicy dump.now ranked.now.entry ranked.now }
    requires before { AreEnds side dump.now table.old }
    ensures { AreEnds side dump.now table.new }
{
    let chains = dump.chains.as_slice();
    for chain in 0..chains.len() {
        if has_rank(ranked, chain, rank) {
            let ends = ends_of(side, chains[chain].rules.as_slice(), table);
            table[chain] = ends;
        }
    }
}

/// The ends of each chain before any is worked out: a chain's last verdict may be made of its last rule.
fn first_table<P: Primitive>(
    alloc: Global,
    dump: &Dump<P>,
    side: Side,
) -> Result<Vec<Ends>, AllocError>
    ensures { IfOk result (λ table. AreEnds side dump.now table.items) }
{
    let chains = dump.chains.as_slice();
    let mut table = Vec::new(alloc);
    for chain in 0..chains.len() {
        let count = chains[chain].rules.as_slice().len();
        table.push(Ends {
            hard: count,
            soft: count,
        })?;
    }
    Ok(table)
}

/// The ends of each chain, one before those that lead to it.
pub(crate) fn all_ends<P: Primitive>(
    alloc: Global,
    dump: &Dump<P>,
    ranked: &Ranked,
    chain: u32,
    side: Side,
) -> Result<Vec<Ends>, AllocError>
    requires { IsRankedWithPolicy dump.now chain ranked.now }
    ensures { IfOk result (λ table. AreEnds side dump.now table.items) }
{
    let mut table = first_table(alloc, dump, side)?;
    let top = rank_of(ranked, chain);
    for below in 0..top {
        add_rank(dump, ranked, side, below + 1, &mut table);
    }
    Ok(table)
}

/// From which rule of a chain on no verdict is made of its rules in a mode.
pub(crate) fn end_of<P: Primitive>(
    dump: &Dump<P>,
    side: Side,
    table: &[Ends],
    chain: u32,
    mode: Mode,
) -> usize
    requires table { AreEnds side dump.now table.now }
    requires inside { chain < length dump.now.chains }
    ensures { AreOver side dump.now chain mode result }
{
    let ends = entry(table, chain);
    end_in(&ends, mode)
}
