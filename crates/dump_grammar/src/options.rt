ghost use Rattle.std.specs.Prelude.{◌≡◌, ◌≢◌, ◌↔◌, ◌<◌, ◌++◌, ◌∷◌, Bool as Truth, List as Seq, IfSome, IfNone, IsTrue, length, option_map, false, codes};
ghost use Rattle.std.specs.List.{AllByRecursion};
ghost use Rattle.dump_grammar.specs.ChainLines.{is_among};
ghost use Rattle.dump_grammar.specs.Groups.{BeginsWithStop, IsOptionName, Takes, arity_of, base_options, begins_with_dashes, mark_words, stops};
ghost use Rattle.dump_grammar.specs.Kinds.{form_named};
ghost use Rattle.dump_grammar.specs.Lines.{Text, Word, bare, word_of, words_of};
ghost use Rattle.opt_table.specs.Rows.{form_of};

use crate::names::any_of;
use crate::pieces::{first_word, is_same};
use dump_token::Token;
use opt_table::{Kind, options};

static BASE_OPTIONS: [&[u8]; 6] = [b"-s", b"-d", b"-i", b"-o", b"-p", b"-f"];

static STOPS: [&[u8]; 10] = [
    b"!", b"-m", b"-j", b"-g", b"-s", b"-d", b"-i", b"-o", b"-p", b"-f",
];

/// Whether the text is an option that needs no module.
pub(crate) fn is_base_option(text: &[u8]) -> bool
    ensures { result ≡ is_among base_options text.now }
{
    any_of(&BASE_OPTIONS, text)
}

fn has_dashes(text: &[u8]) -> bool
    ensures { result ≡ begins_with_dashes text.now }
{
    text.starts_with(b"--")
}

/// Whether the text can be a module's option.
pub(crate) fn is_option_name(text: &[u8]) -> bool
    ensures { IsTrue result ↔ IsOptionName text.now }
{
    has_dashes(text) && text.len() >= 3
}

fn is_stop(word: &Token) -> bool
    ensures { result ≡ stops (word_of word.now) }
{
    let text = word.text.as_slice();
    !word.quoted && (has_dashes(text) || any_of(&STOPS, text))
}

/// How many arguments the option of a module takes, where it has a row.
pub(crate) fn arity(named: &[u8], option: &[u8]) -> Option<usize>
    ensures { result ≡ arity_of named.now option.now }
{
    let table = options();
    match table.find(named, option) {
        Some(at) => Some(table.row(at).arity as usize),
        None => None,
    }
}

/// The kind of the option of a module, where it has a row.
pub(crate) fn known_kind(named: &[u8], option: &[u8]) -> Option<Kind>
    ensures { option_map form_of result ≡ form_named named.now option.now }
{
    let table = options();
    match table.find(named, option) {
        Some(at) => Some(table.row(at).kind),
        None => None,
    }
}

fn first_words(words: &[Token], count: usize) -> Option<(&[Token], &[Token])>
    ensures some { IfSome result (λ p. (words.now ≡ p.0.now ++ p.1.now) × (length p.0.now ≡ count)) }
    ensures none { IfNone result (length words.now < count) }
{
    if words.len() < count {
        return None;
    }
    Some((&words[..count], &words[count..]))
}

fn words_to_stop(words: &[Token]) -> (&[Token], &[Token])
    ensures whole { words.now ≡ result.0.now ++ result.1.now }
    ensures run { AllByRecursion (λ word. stops word ≡ false) (words_of result.0.now) }
    ensures end { BeginsWithStop (words_of result.1.now) }
{
    let mut n = 0;
    while n < words.len() && !is_stop(&words[n]) {
        n += 1;
    }
    (&words[..n], &words[n..])
}

/// The words that an option of this arity takes, and those that follow; None exactly where there are too few.
pub(crate) fn arguments(words: &[Token], arity: Option<usize>) -> Option<(&[Token], &[Token])>
    ensures whole { IfSome result (λ p. words.now ≡ p.0.now ++ p.1.now) }
    ensures some { IfSome result (λ p. Takes arity (words_of p.0.now) (words_of p.1.now)) }
    ensures none { IfNone result ((taken rest : Seq Word) → words_of words.now ≡ taken ++ rest → Takes arity taken rest → ⊥) }
{
    match arity {
        Some(count) => first_words(words, count),
        None => Some(words_to_stop(words)),
    }
}

/// Whether a `!` comes first, the option that follows it or comes first itself, and the words after the option. None
/// where no unquoted word stands there, or a second `!`.
pub(crate) fn front(words: &[Token]) -> Option<(bool, &[u8], &[Token])>
    ensures some { IfSome result (λ p. words_of words.now ≡ mark_words p.0 ++ bare p.1.now ∷ words_of p.2.now) }
    ensures other { IfSome result (λ p. p.1.now ≢ codes "!") }
    ensures none { IfNone result ((negated : Truth) (option : Text) (more : Seq Word) → option ≢ codes "!" → words_of words.now ≡ mark_words negated ++ bare option ∷ more → ⊥) }
{
    let Some((first, rest)) = first_word(words) else {
        return None;
    };
    if first.quoted {
        return None;
    }
    if !is_same(first.text.as_slice(), b"!") {
        return Some((false, first.text.as_slice(), rest));
    }
    let Some((second, after)) = first_word(rest) else {
        return None;
    };
    if second.quoted {
        return None;
    }
    if is_same(second.text.as_slice(), b"!") {
        return None;
    }
    Some((true, second.text.as_slice(), after))
}
