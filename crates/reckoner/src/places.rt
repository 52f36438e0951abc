ghost use Rattle.std.specs.Prelude.{◌≡◌, ◌++◌, ◌∷◌, [], IfOk};
ghost use Rattle.fw_rule.specs.Walk.{RuleHasRoom, HasRoom, InSettled, Within};

use fw_rule::{Dump, Lit, Place, Rule, Step};
use match_expr::{List, Primitive};
use std::alloc::{AllocError, Global};

/// The place of a literal at the path that ends with its rule.
pub(crate) fn place_at(alloc: Global, path: &[Step], lit: u32) -> Result<Place, AllocError>
    ensures { IfOk result (λ place. place ≡ record { steps = path.now; lit = lit }) }
{
    Ok(Place {
        steps: List::of(Vec::from_slice(alloc, path)?),
        lit,
    })
}

/// The path with one more step.
fn longer(alloc: Global, path: &[Step], step: Step) -> Result<Vec<Step>, AllocError>
    ensures { IfOk result (λ v. v.items ≡ path.now ++ step ∷ []) }
{
    let mut all = Vec::from_slice(alloc, path)?;
    all.push(step)?;
    Ok(all)
}

/// Puts the places of a rule's unknown literals last.
fn push_rule<P: Primitive>(
    alloc: Global,
    rule: &Rule<P>,
    path: &[Step],
    places: &mut Vec<Place>,
) -> Result<(), AllocError>
    requires { RuleHasRoom rule.now }
{
    let mut number = 0u32;
    for lit in rule.lits.as_slice() {
        if let Lit::Unknown(_) = lit {
            places.push(place_at(alloc, path, number)?)?;
        }
        number += 1;
    }
    Ok(())
}

/// Puts the places of the unknown literals last that calls and gotos lead to from a chain, whether rules match or not.
pub(crate) fn push_chain<P: Primitive>(
    alloc: Global,
    dump: &Dump<P>,
    chain: u32,
    depth: u32,
    path: &[Step],
    places: &mut Vec<Place>,
) -> Result<(), AllocError>
    requires settled { InSettled dump.now chain }
    requires within { Within dump.now depth chain }
    requires room { HasRoom dump.now }
{
    let rules = dump.chains.as_slice()[chain as usize].rules.as_slice();
    for next in 0..rules.len() {
        let rule = &rules[next];
        let rule_number = next as u32;
        let below = longer(
            alloc,
            path,
            Step {
                chain,
                rule: rule_number,
            },
        )?;
        push_rule(alloc, rule, below.as_slice(), places)?;
        if let Some(target) = rule.action.target() {
            push_chain(alloc, dump, target, depth - 1, below.as_slice(), places)?;
        }
    }
    Ok(())
}
