ghost use Rattle.std.specs.Prelude.{◌≡◌, IfOk};
ghost use Rattle.simple_filter.specs.Hidden as spec;
ghost use Rattle.simple_filter.specs.Hidden.{hidden};

use fw_rule::{Dump, Lit, LiteralMap};
use match_expr::{Bytes, Expr};
use primitives::Prim_;
use std::alloc::{AllocError, Global};

/// Which literals are hidden: those in whose expression a test of an interface name stands, at any depth and under any
/// `Not`.
#[derive(Clone, Copy, Debug, PartialEq, Eq)]
pub enum Hide {
    /// None.
    Nothing,
    /// Those with a test of the name of the output interface.
    OutNames,
    /// Those with a test of the name of the input or the output interface.
    BothNames,
}

/// Whether literals with this test are hidden.
fn tests<const W: u32>(hide: Hide, prim: &Prim_<W>) -> bool
    ensures { result ≡ spec.tests hide prim.now }
{
    match hide {
        Hide::Nothing => false,
        Hide::OutNames => matches!(prim, Prim_::OutName(_)),
        Hide::BothNames => matches!(prim, Prim_::InName(_) | Prim_::OutName(_)),
    }
}

/// Whether a literal of this expression is hidden.
fn hides<const W: u32>(hide: Hide, expr: &Expr<Prim_<W>>) -> bool
    ensures { result ≡ spec.hides hide expr.now }
{
    match expr {
        Expr::All(parts) => {
            for part in parts.as_slice() {
                if hides(hide, part) {
                    return true;
                }
            }
            false
        }
        Expr::Not(part) => hides(hide, part.get()),
        Expr::Prim(prim) => tests(hide, prim),
    }
}

impl<const W: u32> LiteralMap<Prim_<W>> for Hide {
    ghost use Rattle.fw_rule.specs.Hiding.{hidden_literal};

    ghost image = { λ hide lit. hidden_literal (spec.hides hide) lit };

    fn literal(&self, alloc: Global, lit: &Lit<Prim_<W>>) -> Result<Lit<Prim_<W>>, AllocError> {
        if let Lit::Known { expr, .. } = lit {
            if hides(*self, expr) {
                return Ok(Lit::Unknown(Bytes::of(Vec::new(alloc))));
            }
        }
        lit.copy(alloc)
    }
}

/// The dump with an unknown literal of empty text in place of each known one that `hide` hides, negated or not. All
/// else stays: chains, rules and literals keep their numbers. W is the number of bits of an address. The one refusal is
/// want of memory.
pub fn abstracted<const W: u32>(
    alloc: Global,
    dump: &Dump<Prim_<W>>,
    hide: Hide,
) -> Result<Dump<Prim_<W>>, AllocError>
    ensures { IfOk result (λ d. d ≡ hidden hide dump.now) }
{
    dump.mapped(alloc, &hide)
}
