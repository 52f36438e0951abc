//! The probe of a visit.
ghost use Rattle.std.specs.Prelude.{◌≡◌, ◌+◌, ◌<◌, ◌^◌, All, IfOk, length, map, nat_lt, if◌then◌else◌, Some, None};
ghost use Rattle.std.specs.List.{AllByRecursion};
ghost use Rattle.fw_rule.specs.Walk.{ChainHasRoom, HasRoom};
ghost use Rattle.fw_rule.specs.declared.rule.Action.{Action as AnAction};
ghost use Rattle.fw_rule.specs.declared.rule.Step.{Step as AStep};
ghost use Rattle.region_queries.specs.Probe as spec;

use fw_rule::{Action, Chain, Dump, Lit, Place, Rule, Step, Verdict};
use match_expr::{Bytes, List, Primitive};
use std::alloc::{AllocError, Global};

/// The same bytes.
fn same_bytes(alloc: Global, bytes: &Bytes) -> Result<Bytes, AllocError>
    ensures { IfOk result (λ b. b ≡ bytes.now) }
{
    Ok(Bytes::of(Vec::from_slice(alloc, bytes.as_slice())?))
}

/// The action, with Drop in place of Accept.
fn barred(alloc: Global, action: &Action) -> Result<Action, AllocError>
    ensures { IfOk result (λ a. a ≡ spec.barred action.now) }
{
    Ok(match action {
        Action::Accept => Action::Drop,
        Action::Drop => Action::Drop,
        Action::Pass => Action::Pass,
        Action::Back => Action::Back,
        Action::Call(chain) => Action::Call(*chain),
        Action::Goto(chain) => Action::Goto(*chain),
        Action::Other(name) => Action::Other(same_bytes(alloc, name)?),
    })
}

/// The action of a step's own rule.
fn own_action(alloc: Global, action: &Action, next: Option<u32>) -> Result<Action, AllocError>
    ensures { IfOk result (λ a. a ≡ spec.own_action next action.now) }
{
    let Some(copy) = next else {
        return Ok(Action::Accept);
    };
    match action {
        Action::Call(_) => Ok(Action::Call(copy)),
        Action::Goto(_) => Ok(Action::Goto(copy)),
        _ => barred(alloc, action),
    }
}

/// The same literals.
fn same_literals<P: Primitive>(alloc: Global, lits: &[Lit<P>]) -> Result<Vec<Lit<P>>, AllocError>
    ensures { IfOk result (λ v. v.items ≡ lits.now) }
{
    let mut same = Vec::new(alloc);
    for lit in lits {
        same.push(lit.copy(alloc)?)?;
    }
    Ok(same)
}

/// The rule with this action in place of its own.
fn rule_with<P: Primitive>(
    alloc: Global,
    rule: &Rule<P>,
    action: Action,
) -> Result<Rule<P>, AllocError>
    ensures { IfOk result (λ r. r ≡ record { lits = rule.now.lits; action = action; line = rule.now.line }) }
{
    let lits = same_literals(alloc, rule.lits.as_slice())?;
    Ok(Rule {
        lits: List::of(lits),
        action,
        line: rule.line,
    })
}

/// The rule with Drop in place of Accept.
fn barred_rule<P: Primitive>(alloc: Global, rule: &Rule<P>) -> Result<Rule<P>, AllocError>
    ensures { IfOk result (λ r. r ≡ spec.with_action spec.barred rule.now) }
{
    let action = barred(alloc, &rule.action)?;
    rule_with(alloc, rule, action)
}

/// A rule of the copy for a step.
fn copied_rule<P: Primitive>(
    alloc: Global,
    rule: &Rule<P>,
    is_own: bool,
    next: Option<u32>,
) -> Result<Rule<P>, AllocError>
    ensures { IfOk result (λ r. r ≡ spec.with_action (if is_own then spec.own_action next else spec.barred) rule.now) }
{
    if !is_own {
        return barred_rule(alloc, rule);
    }
    let action = own_action(alloc, &rule.action, next)?;
    rule_with(alloc, rule, action)
}

/// The chain with Drop in place of each Accept.
fn barred_chain<P: Primitive>(alloc: Global, chain: &Chain<P>) -> Result<Chain<P>, AllocError>
    ensures { IfOk result (λ c. c ≡ spec.barred_chain chain.now) }
{
    let mut rules = Vec::new(alloc);
    for rule in chain.rules.as_slice() {
        rules.push(barred_rule(alloc, rule)?)?;
    }
    Ok(Chain {
        name: same_bytes(alloc, &chain.name)?,
        policy: chain.policy,
        rules: List::of(rules),
    })
}

/// The rules of the copy for a step.
fn copied_rules<P: Primitive>(
    alloc: Global,
    rules: &[Rule<P>],
    own: u32,
    next: Option<u32>,
) -> Result<Vec<Rule<P>>, AllocError>
    requires { length rules.now < 2 ^ 32 }
    ensures { IfOk result (λ v. v.items ≡ spec.copied_rules own next 0 rules.now) }
{
    let mut copied = Vec::new(alloc);
    let mut number = 0u32;
    for rule in rules {
        copied.push(copied_rule(alloc, rule, number == own, next)?)?;
        number += 1;
    }
    Ok(copied)
}

/// The copy for a step.
fn copy_of<P: Primitive>(
    alloc: Global,
    chains: &[Chain<P>],
    step: Step,
    next: Option<u32>,
) -> Result<Chain<P>, AllocError>
    requires there { step.chain < length chains.now }
    requires room { All ChainHasRoom chains.now }
    ensures { IfOk result (λ c. c ≡ spec.copy_of chains.now step next) }
{
    let here = &chains[step.chain as usize];
    let rules = copied_rules(alloc, here.rules.as_slice(), step.rule, next)?;
    Ok(Chain {
        name: same_bytes(alloc, &here.name)?,
        policy: Some(Verdict::Drop),
        rules: List::of(rules),
    })
}

/// The number, where it is below the end.
fn below(number: u32, end: u32) -> Option<u32>
    ensures { result ≡ (if nat_lt number end then Some number else None) }
{
    if number < end { Some(number) } else { None }
}

/// The probe of a visit.
pub(crate) fn probe_of<P: Primitive>(
    alloc: Global,
    dump: &Dump<P>,
    visit: &[Step],
) -> Result<Dump<P>, AllocError>
    requires there { AllByRecursion (λ (s : AStep). s.chain < length dump.now.chains) visit.now }
    requires room { HasRoom dump.now }
    requires numbers { length dump.now.chains + length visit.now < 2 ^ 32 }
    ensures { IfOk result (λ d. d ≡ spec.probe_of dump.now visit.now) }
{
    let chains = dump.chains.as_slice();
    let mut all = Vec::new(alloc);
    for chain in chains {
        all.push(barred_chain(alloc, chain)?)?;
    }
    let mut next = chains.len() as u32;
    let last = next + visit.len() as u32;
    for step in visit {
        next += 1;
        all.push(copy_of(alloc, chains, *step, below(next, last))?)?;
    }
    Ok(Dump {
        chains: List::of(all),
    })
}

/// The dump's own number of a chain of the probe.
fn own_chain<P: Primitive>(dump: &Dump<P>, visit: &[Step], chain: u32) -> u32
    ensures { result ≡ spec.own_chain dump.now visit.now chain }
{
    let entry = dump.chains.as_slice().len();
    if (chain as usize) < entry {
        return chain;
    }
    match visit.get(chain as usize - entry) {
        Some(step) => step.chain,
        None => chain,
    }
}

/// The place with the dump's own numbers of chains.
fn own_place<P: Primitive>(
    alloc: Global,
    dump: &Dump<P>,
    visit: &[Step],
    place: &Place,
) -> Result<Place, AllocError>
    ensures { IfOk result (λ p. p ≡ spec.own_place dump.now visit.now place.now) }
{
    let mut steps = Vec::new(alloc);
    for step in place.steps.as_slice() {
        steps.push(Step {
            chain: own_chain(dump, visit, step.chain),
            rule: step.rule,
        })?;
    }
    Ok(Place {
        steps: List::of(steps),
        lit: place.lit,
    })
}

/// The places with the dump's own numbers of chains.
pub(crate) fn own_places<P: Primitive>(
    alloc: Global,
    dump: &Dump<P>,
    visit: &[Step],
    places: &[Place],
) -> Result<List<Place>, AllocError>
    ensures { IfOk result (λ l. l ≡ map (spec.own_place dump.now visit.now) places.now) }
{
    let mut own = Vec::new(alloc);
    for place in places {
        own.push(own_place(alloc, dump, visit, place)?)?;
    }
    Ok(List::of(own))
}
