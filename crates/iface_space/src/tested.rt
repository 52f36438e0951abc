ghost use Rattle.std.specs.Prelude.{◌≡◌, ◌<◌, [], length, slice_get, get_or, if◌then◌else◌, None, IfOk, OnOk};
ghost use Rattle.std.specs.List.{flat_map, fold, list_any};
ghost use Rattle.std.specs.Option.{is_some};
ghost use Rattle.chain_graph.specs.Results.{IsRanked};
ghost use Rattle.iface_space.specs.Tested as spec;
ghost use Rattle.iface_space.specs.Tested.{all_tested, once_each};
ghost use Rattle.iface_space.specs.inner.Adding.{with_new};

use chain_graph::Ranked;
use fw_rule::{Dump, Lit, Rule};
use match_expr::Expr;
use name_set::Pattern;
use primitives::Prim_;
use std::alloc::{AllocError, Global};

/// Which interface of a packet a test looks at.
#[derive(Clone, Copy)]
pub(crate) enum Direction {
    /// The one that it came in by.
    Input,
    /// The one that it goes out by.
    Output,
}

/// Whether two patterns are equal.
fn same_pattern(a: &Pattern, b: &Pattern) -> bool
    ensures { result ≡ spec.same_pattern a.now b.now }
{
    match (a, b) {
        (Pattern::Exact(x), Pattern::Exact(y)) => x.as_slice() == y.as_slice(),
        (Pattern::Prefix(x), Pattern::Prefix(y)) => x.as_slice() == y.as_slice(),
        _ => false,
    }
}

/// Whether a pattern is among some others.
fn is_among(patterns: &[Pattern], by: &Pattern) -> bool
    ensures { result ≡ list_any (spec.same_pattern by.now) patterns.now }
{
    for pattern in patterns {
        if same_pattern(by, pattern) {
            return true;
        }
    }
    false
}

/// Adds a copy of a pattern that isn't there yet.
fn add_new(alloc: Global, found: &mut Vec<Pattern>, by: &Pattern) -> Result<(), AllocError>
    ensures { OnOk result (found.new.items ≡ with_new found.old.items by.now) }
{
    if is_among(found.as_slice(), by) {
        return Ok(());
    }
    found.push(by.copy(alloc)?)?;
    Ok(())
}

/// Adds the pattern of a literal that tests the name of this interface.
fn add_literal<const W: u32>(
    alloc: Global,
    direction: Direction,
    lit: &Lit<Prim_<W>>,
    found: &mut Vec<Pattern>,
) -> Result<(), AllocError>
    ensures { OnOk result (found.new.items ≡ fold with_new found.old.items (spec.tested direction lit.now)) }
{
    let Lit::Known {
        expr: Expr::Prim(test),
        ..
    } = lit
    else {
        return Ok(());
    };
    match (direction, test) {
        (Direction::Input, Prim_::InName(by)) => add_new(alloc, found, by),
        (Direction::Output, Prim_::OutName(by)) => add_new(alloc, found, by),
        _ => Ok(()),
    }
}

/// Adds the patterns of literals.
fn add_literals<const W: u32>(
    alloc: Global,
    direction: Direction,
    lits: &[Lit<Prim_<W>>],
    found: &mut Vec<Pattern>,
) -> Result<(), AllocError>
    ensures { OnOk result (found.new.items ≡ fold with_new found.old.items (flat_map (spec.tested direction) lits.now)) }
{
    for lit in lits {
        add_literal(alloc, direction, lit, found)?;
    }
    Ok(())
}

/// Adds the patterns of rules.
fn add_rules<const W: u32>(
    alloc: Global,
    direction: Direction,
    rules: &[Rule<Prim_<W>>],
    found: &mut Vec<Pattern>,
) -> Result<(), AllocError>
    ensures { OnOk result (found.new.items ≡ fold with_new found.old.items (spec.tested_in direction rules.now)) }
{
    for rule in rules {
        add_literals(alloc, direction, rule.lits.as_slice(), found)?;
    }
    Ok(())
}

/// Adds the patterns of a chain's rules, where the chain is reached.
fn add_reached<const W: u32>(
    alloc: Global,
    direction: Direction,
    rules: &[Rule<Prim_<W>>],
    reached: bool,
    found: &mut Vec<Pattern>,
) -> Result<(), AllocError>
    ensures { OnOk result (found.new.items ≡ fold with_new found.old.items (if reached then spec.tested_in direction rules.now else [])) }
{
    if reached {
        return add_rules(alloc, direction, rules, found);
    }
    Ok(())
}

/// Whether a chain has a rank.
fn is_reached(ranked: &Ranked, chain: usize) -> bool
    requires { chain < length ranked.now.ranks }
    ensures { result ≡ is_some (get_or ranked.now.ranks chain None) }
{
    match ranked.ranks.as_slice()[chain] {
        Some(_) => true,
        None => false,
    }
}

/// The patterns of the literals of the reached rules that test the name of this interface, each once, in the order of
/// chains, rules and literals. The one refusal is want of memory.
pub(crate) fn tested_patterns<const W: u32>(
    alloc: Global,
    direction: Direction,
    dump: &Dump<Prim_<W>>,
    ranked: &Ranked,
) -> Result<Vec<Pattern>, AllocError>
    requires { IsRanked dump.now ranked.now.entry ranked.now }
    ensures { IfOk result (λ v. v.items ≡ once_each (all_tested direction dump.now ranked.now.ranks)) }
{
    let chains = dump.chains.as_slice();
    let mut found = Vec::new(alloc);
    for chain in 0..chains.len() {
        let rules = chains[chain].rules.as_slice();
        let reached = is_reached(ranked, chain);
        add_reached(alloc, direction, rules, reached, &mut found)?;
    }
    Ok(found)
}
