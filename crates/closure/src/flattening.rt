ghost use Rattle.std.specs.Prelude.{◌≡◌, ◌++◌, ◌∷◌, [], map, IfOk};
ghost use Rattle.closure.specs.Checked.{IsRankedWithPolicy};
ghost use Rattle.closure.specs.Rewriting.{chain_tree};
ghost use Rattle.closure.specs.Flat.{flat_list};
ghost use Rattle.closure.specs.inner.Parts.{rule_of_parts};

use crate::cutting::State;
use crate::modes::Parts;
use crate::parts::{behind, push_copies};
use crate::streaming::states_of;
use chain_graph::Ranked;
use fw_rule::{Dump, Side};
use match_expr::{Boxed, Expr, FlatRule, Items, List, Primitive};
use std::alloc::{AllocError, Global};

impl<P: Primitive> State<P> for Parts<P> {
    ghost use Rattle.std.specs.Prelude.{[], ◌∷◌, ◌++◌};

    ghost left = { λ s e. record { parts = s.parts ++ e ∷ [] } };

    fn cut(&self, alloc: Global, e: &Expr<P>) -> Result<Parts<P>, AllocError> {
        let parts = behind(alloc, self.parts.as_slice(), e)?;
        Ok(Parts {
            parts: List::of(parts),
        })
    }

    fn cut_not(&self, alloc: Global, e: &Expr<P>) -> Result<Parts<P>, AllocError> {
        let mut parts = Vec::new(alloc);
        push_copies(alloc, &mut parts, self.parts.as_slice())?;
        parts.push(Expr::Not(Boxed::new(alloc, e.copy(alloc)?)?))?;
        Ok(Parts {
            parts: List::of(parts),
        })
    }
}

/// The flat rules of these parts and verdicts.
fn rules_of_parts<P: Primitive>(
    alloc: Global,
    states: Vec<(Parts<P>, bool)>,
) -> Result<Vec<FlatRule<P>>, AllocError>
    ensures { IfOk result (λ rules. rules.items ≡ map rule_of_parts states.items) }
{
    let mut rules = Vec::new(alloc);
    for (parts, accept) in states {
        rules.push(FlatRule {
            expr: Expr::All(Items::from_vec(parts.parts.into_vec())),
            accept,
        })?;
    }
    Ok(rules)
}

/// The flat list of a chain.
pub fn flat_rules<P: Primitive>(
    alloc: Global,
    dump: &Dump<P>,
    ranked: &Ranked,
    chain: u32,
    side: Side,
) -> Result<List<FlatRule<P>>, AllocError>
    requires { IsRankedWithPolicy dump.now chain ranked.now }
    ensures { IfOk result (λ rules. rules ≡ flat_list (chain_tree side dump.now chain)) }
{
    let start = Parts {
        parts: List::of(Vec::new(alloc)),
    };
    let states = states_of(alloc, dump, ranked, chain, side, start)?;
    let rules = rules_of_parts(alloc, states)?;
    Ok(List::of(rules))
}
