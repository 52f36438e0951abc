ghost use Rattle.std.specs.Prelude.{◌≡◌, ◌↔◌, IsTrue};
ghost use Rattle.dump_grammar.specs.ChainLines.{IsCounter, IsCounterText, IsDigits, IsMaybeCounter};
ghost use Rattle.dump_grammar.specs.Lines.{word_of, words_of};

use crate::pieces::{first_byte, first_word, last_byte};
use basics::parted;
use dump_token::Token;

fn is_digits(text: &[u8]) -> bool
    ensures { IsTrue result ↔ IsDigits text.now }
{
    for b in text {
        if *b < b'0' || *b > b'9' {
            return false;
        }
    }
    !text.is_empty()
}

fn is_counter_text(text: &[u8]) -> bool
    ensures { IsTrue result ↔ IsCounterText text.now }
{
    let Some((bracket, inner)) = first_byte(text) else {
        return false;
    };
    if bracket != b'[' {
        return false;
    }
    let Some((packets, rest)) = parted(inner, b':') else {
        return false;
    };
    let Some((close, bytes)) = last_byte(rest) else {
        return false;
    };
    if close != b']' {
        return false;
    }
    if !is_digits(packets) {
        return false;
    }
    is_digits(bytes)
}

/// Whether the word is a counter, `[packets:bytes]`.
pub(crate) fn is_counter(word: &Token) -> bool
    ensures { IsTrue result ↔ IsCounter (word_of word.now) }
{
    !word.quoted && is_counter_text(word.text.as_slice())
}

/// Whether the words are a counter, or none at all.
pub(crate) fn is_maybe_counter(words: &[Token]) -> bool
    ensures { IsTrue result ↔ IsMaybeCounter (words_of words.now) }
{
    let Some((word, rest)) = first_word(words) else {
        return true;
    };
    rest.is_empty() && is_counter(word)
}
