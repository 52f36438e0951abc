ghost use Rattle.std.specs.Prelude.{◌==◌};

use fw_rule::{Action, Chain, Dump, Lit, Rule, Verdict};
use match_expr::{Bytes, Expr, List, Primitive};
use std::alloc::{AllocError, Global};

/// Holds of the packets of this number.
#[derive(Drop)]
pub struct Is(pub u8);

impl Primitive for Is {
    type Packet = u8;

    ghost meaning = { λ x p. x.0 == p };

    fn holds(&self, p: &u8) -> bool {
        self.0 == *p
    }

    fn copy(&self, alloc: Global) -> Result<Is, AllocError> {
        let _ = alloc;
        Ok(Is(self.0))
    }
}

pub fn known_literal(neg: bool, number: u8) -> Lit<Is> {
    Lit::Known {
        neg,
        expr: Expr::Prim(Is(number)),
    }
}

pub fn unknown_literal(alloc: Global) -> Lit<Is> {
    Lit::Unknown(Bytes::of(Vec::new(alloc)))
}

pub fn rule(lits: Vec<Lit<Is>>, action: Action) -> Rule<Is> {
    Rule {
        lits: List::of(lits),
        action,
        line: 1,
    }
}

fn chain(alloc: Global, policy: Option<Verdict>, rules: Vec<Rule<Is>>) -> Chain<Is> {
    Chain {
        name: Bytes::of(Vec::new(alloc)),
        policy,
        rules: List::of(rules),
    }
}

/// The first chain goes to the last one with packet 3, else calls the second, and accepts behind it. The second goes to
/// the last one with packet 1, drops packet 2 and goes back with the others. The last one drops where its unknown match
/// holds. The policy drops.
pub fn going(alloc: Global) -> Result<Dump<Is>, AllocError> {
    let first = vec![in alloc;
        rule(vec![in alloc; known_literal(false, 3)]?, Action::Goto(2)),
        rule(Vec::new(alloc), Action::Call(1)),
        rule(Vec::new(alloc), Action::Accept),
    ]?;
    let second = vec![in alloc;
        rule(vec![in alloc; known_literal(false, 1)]?, Action::Goto(2)),
        rule(vec![in alloc; known_literal(true, 2)]?, Action::Back),
        rule(Vec::new(alloc), Action::Drop),
    ]?;
    let last = vec![in alloc; rule(vec![in alloc; unknown_literal(alloc)]?, Action::Drop)]?;
    let chains = vec![in alloc;
        chain(alloc, Some(Verdict::Drop), first),
        chain(alloc, None, second),
        chain(alloc, None, last),
    ]?;
    Ok(Dump {
        chains: List::of(chains),
    })
}
