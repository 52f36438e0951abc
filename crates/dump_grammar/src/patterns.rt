ghost use Rattle.std.specs.Prelude.{◌≡◌, ◌++◌, ℕ, List as Seq, IfSome, IfNone, IfOk, codes};
ghost use Rattle.dump_grammar.specs.Literals.{IsPattern};

use crate::pieces::last_byte;
use match_expr::Bytes;
use name_set::Pattern;
use std::alloc::{AllocError, Global};

fn before_plus(text: &[u8]) -> Option<&[u8]>
    ensures some { IfSome result (λ front. text.now ≡ front.now ++ codes "+") }
    ensures none { IfNone result ((front : Seq ℕ) → text.now ≡ front ++ codes "+" → ⊥) }
{
    let Some((last, front)) = last_byte(text) else {
        return None;
    };
    if last != b'+' {
        return None;
    }
    Some(front)
}

/// The pattern of an interface's name: with a `+` at its end, every name that begins with what stands before it; else
/// the name alone.
pub fn pattern(alloc: Global, text: &[u8]) -> Result<Pattern, AllocError>
    ensures { IfOk result (IsPattern text.now) }
{
    match before_plus(text) {
        Some(front) => Ok(Pattern::Prefix(Bytes::of(front.to_vec(alloc)?))),
        None => Ok(Pattern::Exact(Bytes::of(text.to_vec(alloc)?))),
    }
}
