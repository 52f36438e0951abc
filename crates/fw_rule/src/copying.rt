ghost use Rattle.std.specs.Prelude.{◌≡◌, IfOk};

use crate::mapping::LiteralMap;
use crate::rule::{Action, Dump, Lit};
use match_expr::{Bytes, Primitive};
use std::alloc::{AllocError, Global};

/// The same bytes.
pub(crate) fn same_bytes(alloc: Global, bytes: &Bytes) -> Result<Bytes, AllocError>
    ensures { IfOk result (λ b. b ≡ bytes.now) }
{
    Ok(Bytes::of(Vec::from_slice(alloc, bytes.as_slice())?))
}

/// The same action.
pub(crate) fn same_action(alloc: Global, action: &Action) -> Result<Action, AllocError>
    ensures { IfOk result (λ a. a ≡ action.now) }
{
    Ok(match action {
        Action::Accept => Action::Accept,
        Action::Drop => Action::Drop,
        Action::Pass => Action::Pass,
        Action::Back => Action::Back,
        Action::Call(chain) => Action::Call(*chain),
        Action::Goto(chain) => Action::Goto(*chain),
        Action::Other(name) => Action::Other(same_bytes(alloc, name)?),
    })
}

/// The mapping that changes no literal.
struct Same;

impl<P: Primitive> LiteralMap<P> for Same {
    ghost image = { λ _ lit. lit };

    fn literal(&self, alloc: Global, lit: &Lit<P>) -> Result<Lit<P>, AllocError> {
        lit.copy(alloc)
    }
}

impl<P: Primitive> Lit<P> {
    /// An equal literal.
    pub fn copy(&self, alloc: Global) -> Result<Lit<P>, AllocError>
        ensures { IfOk result (λ l. l ≡ self.now) }
    {
        Ok(match self {
            Lit::Known { neg, expr } => Lit::Known {
                neg: *neg,
                expr: expr.copy(alloc)?,
            },
            Lit::Unknown(text) => Lit::Unknown(same_bytes(alloc, text)?),
        })
    }
}

impl<P: Primitive> Dump<P> {
    /// A dump that is equal to this one.
    pub fn copy(&self, alloc: Global) -> Result<Dump<P>, AllocError>
        ensures { IfOk result (λ d. d ≡ self.now) }
    {
        self.mapped(alloc, &Same)
    }
}
