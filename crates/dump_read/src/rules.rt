ghost use Rattle.std.specs.Prelude.{◌≡◌, ◌≤◌, ◌<◌, ◌+◌, ◌^◌, ◌∷◌, ◌++◌, [], ℕ, false, List as Seq, IfErr, IfOk, OnOk, length};
ghost use Rattle.limits.specs.declared.TheConstants.{MOST_BYTES};
ghost use Rattle.dump_grammar.specs.ChainLines.{is_among};
ghost use Rattle.dump_grammar.specs.Tables.{Placed, names_of};
ghost use Rattle.dump_grammar.specs.declared.chains.Declared.{Declared as AChain};
ghost use Rattle.dump_read.specs.inner.Parts.{OnMalformed};
ghost use Rattle.dump_read.specs.inner.States.{IsWritable, Keeps, now_undefined, with_rule};

use crate::fault::LineFault;
use crate::state::State;
use dump_grammar::{Declared, RuleLine, Target};
use fw_rule::{Chain, Rule};
use match_expr::List;
use primitives::Prim_;
use std::alloc::{AllocError, Global};
use std::mem::replace;

// Puts a rule last in a chain.
fn push_rule<P: Drop>(alloc: Global, chain: &mut Chain<P>, rule: Rule<P>) -> Result<(), AllocError>
    ensures { OnOk result (chain.new ≡ with_rule chain.old rule) }
{
    let mut rules = replace(&mut chain.rules, List::of(Vec::new(alloc))).into_vec();
    rules.push(rule)?;
    chain.rules = List::of(rules);
    Ok(())
}

/// Adds a chain that a line declares.
pub(crate) fn add_chain<const W: u32>(
    alloc: Global,
    state: &mut State<W>,
    chain: Declared,
) -> Result<(), LineFault>
    requires { length state.old.names < MOST_BYTES }
    ensures added { OnOk result ((chains : Seq AChain) (rules : Seq (Placed W)) → Keeps state.old chains rules →
        (rules ≡ []) × (is_among (names_of chains) chain.name ≡ false) × Keeps state.new (chains ++ chain ∷ []) []) }
    ensures stuck { IfErr result (OnMalformed ((chains : Seq AChain) (rules : Seq (Placed W)) → Keeps state.old chains rules →
        rules ≡ [] → is_among (names_of chains) chain.name ≡ false → ⊥)) }
    ensures part { state.new.part ≡ state.old.part }
    ensures has_filter { state.new.has_filter ≡ state.old.has_filter }
{
    if state.has_rules {
        return Err(LineFault::Malformed);
    }
    if !state.names.declare(alloc, chain.name.as_slice())? {
        return Err(LineFault::Malformed);
    }
    let Declared { name, policy } = chain;
    state.chains.push(Chain {
        name,
        policy,
        rules: List::of(Vec::new(alloc)),
    })?;
    Ok(())
}

// The first undefined line, where that was so before a rule of this line whose chain has the number, if it is declared.
fn first_undefined(
    before: Option<u32>,
    number: Option<u32>,
    target: &Target,
    line: u32,
) -> Option<u32>
    ensures { result ≡ now_undefined before number target.now line }
{
    if before.is_some() || (number.is_some() && target.is_defined()) {
        before
    } else {
        Some(line)
    }
}

/// Adds a rule of this line to its chain.
pub(crate) fn add_rule<const W: u32>(
    alloc: Global,
    state: &mut State<W>,
    rule: RuleLine<W>,
    line: u32,
) -> Result<(), AllocError>
    requires stands { (chains : Seq AChain) × (rules : Seq (Placed W)) × Keeps state.old chains rules }
    requires writable { IsWritable rule }
    ensures added { OnOk result ((chains : Seq AChain) (rules : Seq (Placed W)) → Keeps state.old chains rules →
        Keeps state.new chains (rules ++ record { number = line; rule = rule.entry } ∷ [])) }
    ensures part { state.new.part ≡ state.old.part }
    ensures has_filter { state.new.has_filter ≡ state.old.has_filter }
{
    let RuleLine {
        chain,
        literals,
        target,
    } = rule;
    state.has_rules = true;
    let number = state.names.number(chain.as_slice());
    state.undefined = first_undefined(state.undefined, number, &target, line);
    let Some(number) = number else {
        return Ok(());
    };
    let here = &mut state.chains[number as usize];
    let rule = Rule {
        lits: literals,
        action: target.into_action(),
        line,
    };
    push_rule(alloc, here, rule)
}
