ghost use Rattle.std.specs.Prelude.{◌≡◌, ◌++◌, ◌∷◌, ◌+◌, ◌<◌, ℕ, List, take, IfOk, IfSome, IfNone, length};
ghost use Rattle.dump_token.specs.Words.{Means};

use match_expr::Bytes;
use std::alloc::{AllocError, Global};

/// What stands between the quote before `line` and the next one that closes it, and how many bytes
/// that is, without the quotes. `None` comes where that quote is never closed.
pub fn quoted(alloc: Global, line: &[u8]) -> Result<Option<(Bytes, usize)>, AllocError>
    ensures found { IfOk result (λ o. IfSome o (λ q. (rest : List ℕ) × (line.now ≡ take q.1 line.now ++ 34 ∷ rest) × Means (take q.1 line.now) q.0)) }
    ensures none { IfOk result (λ o. IfNone o ((inner text rest : List ℕ) → line.now ≡ inner ++ 34 ∷ rest → Means inner text → ⊥)) }
    ensures inside { IfOk result (λ o. IfSome o (λ q. q.1 < length line.now)) }
{
    let mut text = Vec::new(alloc);
    let mut n = 0;
    while n < line.len() {
        if line[n] == b'"' {
            return Ok(Some((Bytes::of(text), n)));
        }
        if line[n] == b'\\' {
            if n + 1 == line.len() {
                return Ok(None);
            }
            text.push(line[n + 1])?;
            n += 2;
        } else {
            text.push(line[n])?;
            n += 1;
        }
    }
    Ok(None)
}
