ghost use Rattle.std.specs.Prelude.{◌≡◌, ◌<◌, ℕ, length, IfOk, OnOk};
ghost use Rattle.fw_rule.specs.Calls.{Reaches};
ghost use Rattle.chain_graph.specs.Faults.{ReachesByCall};
ghost use Rattle.chain_graph.specs.Marks.{MarksAre, AreRulesOf};
ghost use Rattle.chain_graph.specs.inner.Spreading.{Spread, IsCalled};
ghost use Rattle.chain_graph.specs.Paths.{CallsNameChains};

use fw_rule::{Dump, Rule};
use match_expr::Primitive;
use std::alloc::{AllocError, Global};

/// The rules of a chain.
pub fn rules_of<P: Primitive>(dump: &Dump<P>, chain: u32) -> &[Rule<P>]
    requires { chain < length dump.now.chains }
    ensures { AreRulesOf dump.now chain result.now }
{
    dump.chains.as_slice()[chain as usize].rules.as_slice()
}

/// Marks a chain, and puts it on the list where it wasn't marked.
fn mark(marks: &mut [bool], todo: &mut Vec<u32>, chain: u32) -> Result<(), AllocError>
    requires { chain < length marks.old }
    ensures { OnOk result (Spread (λ c. chain ≡ c) marks.old todo.old.items marks.new todo.new.items) }
{
    if marks[chain as usize] {
        return Ok(());
    }
    marks[chain as usize] = true;
    todo.push(chain)?;
    Ok(())
}

/// Marks the chains that some rules call, and puts those on the list that weren't marked.
fn mark_callees<P: Primitive>(
    rules: &[Rule<P>],
    marks: &mut [bool],
    todo: &mut Vec<u32>,
) -> Result<(), AllocError>
    requires { (c : ℕ) → IsCalled rules.now c → c < length marks.old }
    ensures { OnOk result (Spread (IsCalled rules.now) marks.old todo.old.items marks.new todo.new.items) }
{
    for rule in rules {
        if let Some(chain) = rule.action.target() {
            mark(marks, todo, chain)?;
        }
    }
    Ok(())
}

/// For each chain whether a chain reaches it over at least one call.
pub fn reached_by_call<P: Primitive>(
    alloc: Global,
    dump: &Dump<P>,
    chain: u32,
) -> Result<Vec<bool>, AllocError>
    requires there { chain < length dump.now.chains }
    requires named { CallsNameChains dump.now }
    ensures long { IfOk result (λ v. length v.items ≡ length dump.now.chains) }
    ensures is { IfOk result (λ v. MarksAre (ReachesByCall dump.now chain) v.items) }
{
    let mut marks = vec![in alloc; false; dump.chains.as_slice().len()]?;
    let mut todo = vec![in alloc; chain]?;
    while let Some(next) = todo.pop() {
        mark_callees(rules_of(dump, next), &mut marks, &mut todo)?;
    }
    Ok(marks)
}

/// For each chain whether a chain reaches it, over calls or being itself.
pub fn reachable<P: Primitive>(
    alloc: Global,
    dump: &Dump<P>,
    chain: u32,
) -> Result<Vec<bool>, AllocError>
    requires there { chain < length dump.now.chains }
    requires named { CallsNameChains dump.now }
    ensures long { IfOk result (λ v. length v.items ≡ length dump.now.chains) }
    ensures is { IfOk result (λ v. MarksAre (Reaches dump.now chain) v.items) }
{
    let mut marks = reached_by_call(alloc, dump, chain)?;
    marks[chain as usize] = true;
    Ok(marks)
}
