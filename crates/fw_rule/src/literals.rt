ghost use Rattle.std.specs.Prelude.{◌≡◌, ◌↔◌, IfOk, IsTrue};
ghost use Rattle.match_expr.specs.Meaning.{eval_of};
ghost use Rattle.fw_rule.specs.Matching.{doubt_in, known_of, EachKnownHolds};

use crate::rule::{Lit, Rule};
use match_expr::{Boxed, Expr, Items, Primitive};
use std::alloc::{AllocError, Global};

/// The All of the known literals of a rule in order, a negated one as a Not.
pub fn known<P: Primitive>(alloc: Global, rule: &Rule<P>) -> Result<Expr<P>, AllocError>
    ensures is { IfOk result (λ e. e ≡ known_of rule.now) }

    // It holds of a packet exactly where each known literal of the rule does.
    ensures means { IfOk result (λ e. (p : P.Packet) → IsTrue (eval_of (λ x. P.meaning x p) e) ↔ EachKnownHolds P.meaning p rule.now) }
{
    let mut parts = Vec::new(alloc);
    for lit in rule.lits.as_slice() {
        match lit {
            Lit::Known { neg: true, expr } => {
                parts.push(Expr::Not(Boxed::new(alloc, expr.copy(alloc)?)?))?;
            }
            Lit::Known { neg: false, expr } => {
                parts.push(expr.copy(alloc)?)?;
            }
            Lit::Unknown(_) => {}
        }
    }
    Ok(Expr::All(Items::from_vec(parts)))
}

/// Whether an unknown literal stands in a rule.
pub fn doubtful<P: Primitive>(rule: &Rule<P>) -> bool
    ensures { result ≡ doubt_in rule.now.lits }
{
    rule.lits
        .as_slice()
        .iter()
        .any(|lit| matches!(lit, Lit::Unknown(_)))
}
