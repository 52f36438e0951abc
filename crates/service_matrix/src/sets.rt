ghost use Rattle.std.specs.Prelude.{◌≡◌, ◌++◌, ◌<◌, ◌^◌, length, IfOk, OnOk};
ghost use Rattle.chain_graph.specs.Paths.{CallsNameChains};
ghost use Rattle.service_matrix.specs.inner.AddressSets.{AreAddressSets, all_sets, expr_sets, literal_sets, prim_sets, rule_sets};

use chain_graph::{reachable, rules_of};
use fw_rule::{Dump, Lit, Rule};
use interval_set::Set;
use match_expr::Expr;
use primitives::Prim_;
use std::alloc::{AllocError, Global};

/// Appends the set of a test of addresses.
fn push_prim<const W: u32>(
    alloc: Global,
    prim: &Prim_<W>,
    out: &mut Vec<Set<W>>,
) -> Result<(), AllocError>
    ensures { OnOk result (out.new.items ≡ out.old.items ++ prim_sets prim.now) }
{
    match prim {
        Prim_::Src(set) | Prim_::Dst(set) => {
            out.push(set.copy(alloc)?)?;
        }
        _ => {}
    }
    Ok(())
}

/// Appends the sets of the tests of addresses in an expression.
fn push_expr<const W: u32>(
    alloc: Global,
    expr: &Expr<Prim_<W>>,
    out: &mut Vec<Set<W>>,
) -> Result<(), AllocError>
    ensures { OnOk result (out.new.items ≡ out.old.items ++ expr_sets expr.now) }
{
    match expr {
        Expr::All(parts) => {
            for part in parts.as_slice() {
                push_expr(alloc, part, out)?;
            }
            Ok(())
        }
        Expr::Not(part) => push_expr(alloc, part.get(), out),
        Expr::Prim(prim) => push_prim(alloc, prim, out),
    }
}

/// Appends the sets of the known literals of a rule.
fn push_rule<const W: u32>(
    alloc: Global,
    rule: &Rule<Prim_<W>>,
    out: &mut Vec<Set<W>>,
) -> Result<(), AllocError>
    ensures { OnOk result (out.new.items ≡ out.old.items ++ rule_sets rule.now) }
{
    for lit in rule.lits.as_slice() {
        match lit {
            Lit::Known { expr, .. } => push_expr(alloc, expr, out)?,
            Lit::Unknown(_) => {}
        }
    }
    Ok(())
}

/// Appends the sets of some rules.
fn push_rules<const W: u32>(
    alloc: Global,
    rules: &[Rule<Prim_<W>>],
    out: &mut Vec<Set<W>>,
) -> Result<(), AllocError>
    ensures { OnOk result (out.new.items ≡ out.old.items ++ all_sets rules.now) }
{
    for rule in rules {
        push_rule(alloc, rule, out)?;
    }
    Ok(())
}

/// The sets of addresses in known literals of the rules in a chain's reach.
pub(crate) fn address_sets<const W: u32>(
    alloc: Global,
    dump: &Dump<Prim_<W>>,
    chain: u32,
) -> Result<Vec<Set<W>>, AllocError>
    requires there { chain < length dump.now.chains }
    requires room { length dump.now.chains < 2 ^ 32 }
    requires named { CallsNameChains dump.now }
    ensures { IfOk result (λ sets. AreAddressSets dump.now chain sets.items) }
{
    let marks = reachable(alloc, dump, chain)?;
    let mut sets = Vec::new(alloc);
    for next in 0..marks.len() {
        if marks[next] {
            push_rules(alloc, rules_of(dump, next as u32), &mut sets)?;
        }
    }
    Ok(sets)
}
