ghost use Rattle.std.specs.Prelude.{◌≡◌, ◌≢◌, ◌↔◌, ◌∷◌, [], ℕ, List as Seq, IfNone, IfSome, IsTrue, codes};
ghost use Rattle.dump_grammar.specs.Lines.{bare, words_of};

use dump_token::Token;

// The one word, where it stands without quotes.
fn keyword(words: &[Token]) -> Option<&[u8]>
    ensures some { IfSome result (λ text. words_of words.now ≡ bare text.now ∷ []) }
    ensures none { IfNone result ((text : Seq ℕ) → words_of words.now ≡ bare text ∷ [] → ⊥) }
{
    match words {
        [word] if !word.quoted => Some(word.text.as_slice()),
        _ => None,
    }
}

/// The name of the table that the words open: `*NAME` without quotes, and no other word.
pub(crate) fn table_name(words: &[Token]) -> Option<&[u8]>
    ensures some { IfSome result (λ name. (words_of words.now ≡ bare (42 ∷ name.now) ∷ []) × (name.now ≢ [])) }
    ensures none { IfNone result ((name : Seq ℕ) → words_of words.now ≡ bare (42 ∷ name) ∷ [] → name ≢ [] → ⊥) }
{
    let (star, name) = keyword(words)?.split_first()?;
    if *star != b'*' || name.is_empty() {
        return None;
    }
    Some(name)
}

/// Whether the words are `COMMIT` alone, without quotes.
pub(crate) fn is_close(words: &[Token]) -> bool
    ensures { IsTrue result ↔ (words_of words.now ≡ bare (codes "COMMIT") ∷ []) }
{
    match keyword(words) {
        Some(text) => text == b"COMMIT".as_slice(),
        None => false,
    }
}
