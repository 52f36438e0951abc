ghost use Rattle.std.specs.Prelude.{◌≡◌};
ghost use Rattle.dump_grammar.specs.Reads.{action_of, is_defined};

use fw_rule::{Action, Lit};
use match_expr::{Bytes, List};
use primitives::Prim_;

/// What a rule line says. W is the number of bits of an address, 32 or 128.
#[derive(Drop)]
pub struct RuleLine<const W: u32> {
    /// The name of the chain in which the rule stands.
    pub chain: Bytes,
    /// The conditions of the rule, in the order of the line.
    pub literals: List<Lit<Prim_<W>>>,
    /// What the rule does where they hold.
    pub target: Target,
}

/// What a rule does where its conditions hold, if that can be told.
#[derive(Drop)]
pub enum Target {
    /// This action.
    Does(Action),
    /// `-g` with a name that no declared user chain has.
    Undefined,
}

impl Target {
    /// Whether it can be told what the rule does.
    pub fn is_defined(&self) -> bool
        ensures { result ≡ is_defined self.now }
    {
        match self {
            Target::Does(_) => true,
            Target::Undefined => false,
        }
    }

    /// What the rule does. Where that can't be told, `Pass`: no dump has such a rule.
    pub fn into_action(self) -> Action
        ensures { result ≡ action_of self }
    {
        match self {
            Target::Does(action) => action,
            Target::Undefined => Action::Pass,
        }
    }
}
