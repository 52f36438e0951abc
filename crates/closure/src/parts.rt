ghost use Rattle.std.specs.Prelude.{◌≡◌, ◌++◌, ◌∷◌, [], IfOk, OnOk};

use match_expr::{Expr, Primitive};
use std::alloc::{AllocError, Global};

/// Puts copies of the expressions behind the others.
pub fn push_copies<P: Primitive>(
    alloc: Global,
    parts: &mut Vec<Expr<P>>,
    more: &[Expr<P>],
) -> Result<(), AllocError>
    ensures { OnOk result (parts.new.items ≡ parts.old.items ++ more.now) }
{
    for part in more {
        parts.push(part.copy(alloc)?)?;
    }
    Ok(())
}

/// Copies of the parts, and of the expression behind them.
pub fn behind<P: Primitive>(
    alloc: Global,
    past: &[Expr<P>],
    e: &Expr<P>,
) -> Result<Vec<Expr<P>>, AllocError>
    ensures { IfOk result (λ v. v.items ≡ past.now ++ e.now ∷ []) }
{
    let mut parts = Vec::new(alloc);
    push_copies(alloc, &mut parts, past)?;
    parts.push(e.copy(alloc)?)?;
    Ok(parts)
}
