ghost use Rattle.std.specs.Prelude.{◌≡◌, IfOk};
ghost use Rattle.fw_rule.specs.declared.rule.Lit.{Lit};
ghost use Rattle.fw_rule.specs.Mapping.{mapped_by, mapped_chain, mapped_rule};

use crate::copying::{same_action, same_bytes};
use crate::rule::{Chain, Dump, Lit, Rule};
use match_expr::{List, Primitive};
use std::alloc::{AllocError, Global};

/// What stands in the place of each literal.
pub trait LiteralMap<P: Primitive> {
    /// The image of a literal.
    ghost image: { Self → Lit P → Lit P };

    /// The image of the literal. It is refused only for want of memory.
    fn literal(&self, alloc: Global, lit: &Lit<P>) -> Result<Lit<P>, AllocError>
        ensures { IfOk result (λ l. l ≡ image self.now lit.now) };
}

/// The rule with the image of each of its literals.
fn rule_by<P: Primitive, M: LiteralMap<P>>(
    alloc: Global,
    rule: &Rule<P>,
    map: &M,
) -> Result<Rule<P>, AllocError>
    ensures { IfOk result (λ r. r ≡ mapped_rule (M.image map.now) rule.now) }
{
    let mut lits = Vec::new(alloc);
    for lit in rule.lits.as_slice() {
        lits.push(map.literal(alloc, lit)?)?;
    }
    Ok(Rule {
        lits: List::of(lits),
        action: same_action(alloc, &rule.action)?,
        line: rule.line,
    })
}

/// The chain with the image of each literal of its rules.
fn chain_by<P: Primitive, M: LiteralMap<P>>(
    alloc: Global,
    chain: &Chain<P>,
    map: &M,
) -> Result<Chain<P>, AllocError>
    ensures { IfOk result (λ c. c ≡ mapped_chain (M.image map.now) chain.now) }
{
    let mut rules = Vec::new(alloc);
    for rule in chain.rules.as_slice() {
        rules.push(rule_by(alloc, rule, map)?)?;
    }
    Ok(Chain {
        name: same_bytes(alloc, &chain.name)?,
        policy: chain.policy,
        rules: List::of(rules),
    })
}

impl<P: Primitive> Dump<P> {
    /// The dump with the image of each literal in its place. All else stays: chains, rules and literals keep their
    /// numbers.
    pub fn mapped<M: LiteralMap<P>>(&self, alloc: Global, map: &M) -> Result<Dump<P>, AllocError>
        ensures { IfOk result (λ d. d ≡ mapped_by (M.image map.now) self.now) }
    {
        let mut chains = Vec::new(alloc);
        for chain in self.chains.as_slice() {
            chains.push(chain_by(alloc, chain, map)?)?;
        }
        Ok(Dump {
            chains: List::of(chains),
        })
    }
}
