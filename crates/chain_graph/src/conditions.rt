ghost use Rattle.std.specs.Prelude.{◌≡◌, ◌↔◌, ◌<◌, ℕ, IsTrue};
ghost use Rattle.fw_rule.specs.Calls.{ChainHasRoom, HasRoom};
ghost use Rattle.chain_graph.specs.inner.Spreading.{IsCalled};
ghost use Rattle.chain_graph.specs.Paths.{CallsNameChains};

use fw_rule::{Chain, Dump, Rule};
use match_expr::Primitive;

/// How many chains, rules and literals are too many for their numbers.
const TOO_MANY: usize = 4_294_967_296;

/// Whether the numbers of a chain's rules and literals fit their types.
fn chain_has_room<P: Primitive>(chain: &Chain<P>) -> bool
    ensures { IsTrue result ↔ ChainHasRoom chain.now }
{
    let rules = chain.rules.as_slice();
    rules.len() < TOO_MANY
        && rules
            .iter()
            .all(|rule| rule.lits.as_slice().len() < TOO_MANY)
}

/// Whether the numbers of chains, rules and literals fit their types: a condition of the other calls.
pub fn has_room<P: Primitive>(dump: &Dump<P>) -> bool
    ensures { IsTrue result ↔ HasRoom dump.now }
{
    let chains = dump.chains.as_slice();
    chains.len() < TOO_MANY && chains.iter().all(|chain| chain_has_room(chain))
}

/// Whether each chain that some rules call has a number below the bound.
fn callees_below<P: Primitive>(rules: &[Rule<P>], bound: usize) -> bool
    ensures { IsTrue result ↔ ((k : ℕ) → IsCalled rules.now k → k < bound) }
{
    for rule in rules {
        if let Some(callee) = rule.action.target() {
            if callee as usize >= bound {
                return false;
            }
        }
    }
    true
}

/// Whether each call and goto names a chain: a condition of the other calls.
pub fn calls_name_chains<P: Primitive>(dump: &Dump<P>) -> bool
    ensures { IsTrue result ↔ CallsNameChains dump.now }
{
    let chains = dump.chains.as_slice();
    for chain in chains {
        if !callees_below(chain.rules.as_slice(), chains.len()) {
            return false;
        }
    }
    true
}
