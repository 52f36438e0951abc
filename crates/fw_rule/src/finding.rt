ghost use Rattle.std.specs.Prelude.{◌≡◌, position};
ghost use Rattle.std.specs.Str.{bytes_eq};
ghost use Rattle.fw_rule.specs.Calls.{HasRoom, chain_named};
ghost use Rattle.fw_rule.specs.declared.rule.Chain.{Chain};

use crate::rule::{Chain, Dump};
use match_expr::Primitive;

/// Where the first chain of this name stands.
fn first_named<P: Primitive>(chains: &[Chain<P>], name: &[u8]) -> Option<usize>
    ensures { result ≡ position (λ (here : Chain P). bytes_eq here.name name.now) chains.now }
{
    chains
        .iter()
        .position(|chain| chain.name.as_slice() == name)
}

impl<P: Primitive> Dump<P> {
    /// The number of the first chain of this name, from 0. None where no chain has it.
    pub fn find(&self, name: &[u8]) -> Option<u32>
        requires { HasRoom self.now }
        ensures { result ≡ chain_named name.now self.now }
    {
        match first_named(self.chains.as_slice(), name) {
            Some(at) => Some(at as u32),
            None => None,
        }
    }
}
