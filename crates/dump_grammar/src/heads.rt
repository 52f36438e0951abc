ghost use Rattle.std.specs.Prelude.{◌≡◌, List as Seq, IfSome, IfNone};
ghost use Rattle.dump_grammar.specs.Lines.{Text, Word, words_of};
ghost use Rattle.dump_grammar.specs.RuleLines.{IsRuleHead};

use crate::counters::is_counter;
use crate::pieces::{first_word, is_bare};
use dump_token::Token;

/// The name of the chain that the words of a rule line begin with, after an optional counter and `-A`, and the words
/// after it. None comes exactly where they don't begin so.
pub fn rule_head(words: &[Token]) -> Option<(&[u8], &[Token])>
    ensures some { IfSome result (λ p. IsRuleHead (words_of words.now) p.0.now (words_of p.1.now)) }
    ensures none { IfNone result ((chain : Text) (rest : Seq Word) → IsRuleHead (words_of words.now) chain rest → ⊥) }
{
    let Some((first, after)) = first_word(words) else {
        return None;
    };
    if is_bare(first, b"-A") {
        let Some((name, rest)) = first_word(after) else {
            return None;
        };
        return Some((name.text.as_slice(), rest));
    }
    if !is_counter(first) {
        return None;
    }
    let Some((second, after)) = first_word(after) else {
        return None;
    };
    if !is_bare(second, b"-A") {
        return None;
    }
    let Some((name, rest)) = first_word(after) else {
        return None;
    };
    Some((name.text.as_slice(), rest))
}
