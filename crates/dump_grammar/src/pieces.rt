ghost use Rattle.std.specs.Prelude.{◌≡◌, ◌↔◌, ◌++◌, ◌∷◌, [], ℕ, List as Seq, IfSome, IfNone, IsTrue};
ghost use Rattle.dump_grammar.specs.Lines.{bare, word_of};
ghost use Rattle.dump_token.specs.declared.token.Token.{Token as AToken};

use dump_token::Token;

/// Whether the texts are the same.
pub(crate) fn is_same(text: &[u8], word: &[u8]) -> bool
    ensures { IsTrue result ↔ (text.now ≡ word.now) }
{
    text == word
}

/// Whether the word is this keyword, without quotes.
pub(crate) fn is_bare(word: &Token, text: &[u8]) -> bool
    ensures { IsTrue result ↔ (word_of word.now ≡ bare text.now) }
{
    !word.quoted && is_same(word.text.as_slice(), text)
}

/// The first byte, and those after it.
pub(crate) fn first_byte(text: &[u8]) -> Option<(u8, &[u8])>
    ensures some { IfSome result (λ p. text.now ≡ p.0 ∷ p.1.now) }
    ensures none { IfNone result (text.now ≡ []) }
{
    let (byte, rest) = text.split_first()?;
    Some((*byte, rest))
}

/// The last byte, and those before it.
pub(crate) fn last_byte(text: &[u8]) -> Option<(u8, &[u8])>
    ensures some { IfSome result (λ p. text.now ≡ p.1.now ++ p.0 ∷ []) }
    ensures none { IfNone result (text.now ≡ []) }
{
    let (byte, rest) = text.split_last()?;
    Some((*byte, rest))
}

/// The first word, and those after it.
pub(crate) fn first_word(words: &[Token]) -> Option<(&Token, &[Token])>
    ensures some { IfSome result (λ p. words.now ≡ p.0.now ∷ p.1.now) }
    ensures none { IfNone result (words.now ≡ []) }
{
    words.split_first()
}
