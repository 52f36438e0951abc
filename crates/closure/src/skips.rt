ghost use Rattle.std.specs.Prelude.{◌≡◌, ◌≤◌, ◌+◌, ◌-◌, ◌^◌, ◌<◌, if◌then◌else◌, Some, IsTrue, IfOk, length, slice_get};
ghost use Rattle.fw_rule.specs.Matching.{doubt_in};
ghost use Rattle.rewriting.specs.Table as spec;
ghost use Rattle.closure.specs.Rewriting.{rules_of};
ghost use Rattle.rewriting.specs.declared.rows.Row.TheVariants.{Skip};
ghost use Rattle.rewriting.specs.Table.{level};
ghost use Rattle.closure.specs.inner.Skips as read;
ghost use Rattle.closure.specs.inner.Skips.{Leads, AreSkips, HaveSame};

use fw_rule::{Dump, Rule, Side, doubtful};
use match_expr::{List, Primitive};
use rewriting::{Mode, Row, kind_of, row_of};
use std::alloc::{AllocError, Global};

/// Of a chain's rules from each one on: the first of them that gives an item, or their number. They stand from behind: first comes that of no rule.
#[derive(Debug, Drop)]
pub struct Skips {
    /// In the hard mode, and in each soft one but the softest.
    pub firm: List<usize>,
    /// In the softest mode.
    pub soft: List<usize>,
}

/// Whether a rule gives no item.
fn is_skipped<P: Primitive>(side: Side, rule: &Rule<P>, mode: Mode) -> bool
    requires { level mode + 1 < 2 ^ 32 }
    ensures { IsTrue result → spec.row_of side (doubt_in rule.now.lits) (spec.kind side rule.now.action) mode ≡ Skip }
{
    match row_of(side, kind_of(side, &rule.action), doubtful(rule), mode) {
        Row::Skip => true,
        _ => false,
    }
}

/// The first number if it is so, else the second.
pub(crate) fn either(so: bool, first: usize, second: usize) -> usize
    ensures { result ≡ (if so then first else second) }
{
    if so { first } else { second }
}

/// The first rules with an item in a mode, from behind.
fn leads<P: Primitive>(
    alloc: Global,
    side: Side,
    rules: &[Rule<P>],
    mode: Mode,
) -> Result<List<usize>, AllocError>
    requires { level mode + 1 < 2 ^ 32 }
    ensures { IfOk result (Leads side rules.now mode) }
{
    let mut list = Vec::new(alloc);
    let mut next = rules.len();
    list.push(next)?;
    for passed in 0..rules.len() {
        let at = rules.len() - 1 - passed;
        next = either(is_skipped(side, &rules[at], mode), next, at);
        list.push(next)?;
    }
    Ok(List::of(list))
}

/// The first rules with an item, of each chain.
pub(crate) fn skips_of<P: Primitive>(
    alloc: Global,
    dump: &Dump<P>,
    side: Side,
) -> Result<Vec<Skips>, AllocError>
    ensures { IfOk result (λ table. AreSkips side dump.now table.items) }
{
    let chains = dump.chains.as_slice();
    let mut table = Vec::new(alloc);
    for chain in 0..chains.len() {
        let rules = chains[chain].rules.as_slice();
        let firm = leads(alloc, side, rules, Mode::Hard)?;
        let soft = leads(alloc, side, rules, Mode::Soft(0))?;
        table.push(Skips { firm, soft })?;
    }
    Ok(table)
}

/// What stands at this distance from the end of a list; `at` where the list is shorter.
fn from_behind(list: &[usize], at: usize) -> usize
    ensures inside { at < length list.now → slice_get list.now (length list.now - 1 - at) ≡ Some result }
    ensures over { length list.now ≤ at → result ≡ at }
{
    if at < list.len() {
        list[list.len() - 1 - at]
    } else {
        at
    }
}

/// The list for a mode.
fn list_in(skips: &Skips, mode: Mode) -> &[usize]
    ensures { result.now ≡ read.list_in skips.now mode }
{
    match mode {
        Mode::Hard => skips.firm.as_slice(),
        Mode::Soft(0) => skips.soft.as_slice(),
        Mode::Soft(_) => skips.firm.as_slice(),
    }
}

/// The first rule with an item among a chain's rules from `at` on; past the last rule where there is none.
pub(crate) fn first_item<P: Primitive>(
    dump: &Dump<P>,
    side: Side,
    table: &[Skips],
    chain: u32,
    at: usize,
    mode: Mode,
) -> usize
    requires table { AreSkips side dump.now table.now }
    requires inside { chain < length dump.now.chains }
    ensures ahead { at ≤ result }
    ensures same { HaveSame side (rules_of dump.now chain) mode at result }
{
    from_behind(list_in(&table[chain as usize], mode), at)
}
