ghost use Rattle.std.specs.Prelude.{◌≡◌, ◌≢◌, ◌∷◌, [], false, ℕ, Option as Maybe, List as Seq, IfSome, IfNone, IfOk};
ghost use Rattle.fw_rule.specs.declared.rule.Verdict.{Verdict as AVerdict};
ghost use Rattle.dump_grammar.specs.ChainLines.{IsChainLine, is_among, policy_text, target_words};
ghost use Rattle.dump_grammar.specs.Lines.{bare, word_of, words_of};
ghost use Rattle.dump_grammar.specs.declared.chains.Declared.{Declared as AChain};

use crate::counters::is_maybe_counter;
use crate::names::{is_built_in, is_target_word};
use crate::pieces::{first_byte, first_word, is_bare};
use dump_token::Token;
use fw_rule::Verdict;
use match_expr::Bytes;
use std::alloc::{AllocError, Global};

/// A chain as a line declares it.
#[derive(Debug, Drop)]
pub struct Declared {
    /// Its name, which isn't empty and is no target's word.
    pub name: Bytes,
    /// The policy of a built-in chain; no other chain has one.
    pub policy: Option<Verdict>,
}

fn chain_name(word: &Token) -> Option<&[u8]>
    ensures some { IfSome result (λ name. (word_of word.now ≡ bare (58 ∷ name.now)) × (name.now ≢ []) × (is_among target_words name.now ≡ false)) }
    ensures none { IfNone result ((name : Seq ℕ) → word_of word.now ≡ bare (58 ∷ name) → name ≢ [] → is_among target_words name ≡ false → ⊥) }
{
    if word.quoted {
        return None;
    }
    let Some((colon, name)) = first_byte(word.text.as_slice()) else {
        return None;
    };
    if colon != b':' || name.is_empty() || is_target_word(name) {
        return None;
    }
    Some(name)
}

fn policy(word: &Token) -> Option<Option<Verdict>>
    ensures some { IfSome result (λ p. word_of word.now ≡ bare (policy_text p)) }
    ensures none { IfNone result ((p : Maybe AVerdict) → word_of word.now ≡ bare (policy_text p) → ⊥) }
{
    if is_bare(word, b"ACCEPT") {
        Some(Some(Verdict::Accept))
    } else if is_bare(word, b"DROP") {
        Some(Some(Verdict::Drop))
    } else if is_bare(word, b"-") {
        Some(None)
    } else {
        None
    }
}

fn chain_parts(words: &[Token]) -> Option<(&[u8], Option<Verdict>)>
    ensures some { IfSome result (λ p. IsChainLine (words_of words.now) (record { name = p.0.now; policy = p.1 })) }
    ensures none { IfNone result ((chain : AChain) → IsChainLine (words_of words.now) chain → ⊥) }
{
    let Some((first, rest)) = first_word(words) else {
        return None;
    };
    let Some((second, counter)) = first_word(rest) else {
        return None;
    };
    let Some(name) = chain_name(first) else {
        return None;
    };
    let Some(policy) = policy(second) else {
        return None;
    };
    if !is_maybe_counter(counter) {
        return None;
    }
    if is_built_in(name) != policy.is_some() {
        return None;
    }
    Some((name, policy))
}

/// The chain that the words of a line declare: `:NAME POLICY`, and perhaps `[packets:bytes]`, each without quotes.
/// INPUT, FORWARD and OUTPUT have the policy ACCEPT or DROP, and every other chain `-`. None comes exactly where the
/// words declare no chain.
pub fn chain_line(alloc: Global, words: &[Token]) -> Result<Option<Declared>, AllocError>
    ensures some { IfOk result (λ found. IfSome found (λ chain. IsChainLine (words_of words.now) chain)) }
    ensures none { IfOk result (λ found. IfNone found ((chain : AChain) → IsChainLine (words_of words.now) chain → ⊥)) }
{
    match chain_parts(words) {
        Some((name, policy)) => Ok(Some(Declared {
            name: Bytes::of(name.to_vec(alloc)?),
            policy,
        })),
        None => Ok(None),
    }
}
