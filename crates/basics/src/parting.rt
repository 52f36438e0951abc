ghost use Rattle.std.specs.Prelude.{◌≡◌, ◌++◌, ◌∷◌, IfNone, IfSome};
ghost use Rattle.basics.specs.Parts.{Lacks};

/// What stands before the first byte of a kind, and after it. None exactly where there is no such byte.
pub fn parted(text: &[u8], at: u8) -> Option<(&[u8], &[u8])>
    ensures some { IfSome result (λ p. (text.now ≡ p.0.now ++ at ∷ p.1.now) × Lacks at p.0.now) }
    ensures none { IfNone result (Lacks at text.now) }
{
    for (i, byte) in text.iter().enumerate() {
        if *byte == at {
            return Some((&text[..i], &text[i + 1..]));
        }
    }
    None
}

/// What stands before the last byte of a kind, and after it. None exactly where there is no such byte.
pub fn last_parted(text: &[u8], at: u8) -> Option<(&[u8], &[u8])>
    ensures some { IfSome result (λ p. (text.now ≡ p.0.now ++ at ∷ p.1.now) × Lacks at p.1.now) }
    ensures none { IfNone result (Lacks at text.now) }
{
    for i in (0..text.len()).rev() {
        if text[i] == at {
            return Some((&text[..i], &text[i + 1..]));
        }
    }
    None
}
