ghost use Rattle.std.specs.Prelude.{◌≡◌, Some};
ghost use Rattle.fw_rule.specs.Calls.{Settled};
ghost use Rattle.fw_rule.specs.Steps as spec;

use crate::rule::{Dump, Verdict};
use match_expr::Primitive;

/// The policy of the chain of this number, where there is such a chain and it has one.
pub fn policy_of<P: Primitive>(dump: &Dump<P>, chain: u32) -> Option<Verdict>
    ensures { result ≡ spec.policy_of dump.now chain }
{
    match dump.chains.as_slice().get(chain as usize) {
        Some(here) => here.policy,
        None => None,
    }
}

/// The policy of a settled chain.
pub fn settled_policy<P: Primitive>(dump: &Dump<P>, chain: u32) -> Verdict
    requires { Settled dump.now chain }
    ensures { spec.policy_of dump.now chain ≡ Some result }
{
    match policy_of(dump, chain) {
        Some(policy) => policy,
        None => unreachable!(),
    }
}
