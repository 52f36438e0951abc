ghost use Rattle.std.specs.Prelude.{◌≡◌, ◌≤◌, ℕ, Some, None, List as Seq, IfSome, IfNone, IfOk, length};
ghost use Rattle.std.specs.List.{AllByRecursion};
ghost use Rattle.fw_rule.specs.declared.rule.Action.{Action as AnAction};
ghost use Rattle.interval_set.specs.Numbers.{IsWidth};
ghost use Rattle.dump_grammar.specs.Lines.{IsLine, Text, Word, words_of};
ghost use Rattle.dump_grammar.specs.Printable.{IsPrintableLiteral};
ghost use Rattle.dump_grammar.specs.RuleLines.{IsRuleLine};
ghost use Rattle.dump_grammar.specs.Targets.{IsTarget, user_chain};
ghost use Rattle.dump_grammar.specs.declared.rule.RuleLine.{RuleLine as ARule};
ghost use Rattle.dump_grammar.specs.declared.rule.Target.{Target as ATarget};

use crate::division::groups;
use crate::heads::rule_head;
use crate::line_literals::{literals, options_differ};
use crate::names::is_built_in;
use crate::pieces::{first_word, is_bare};
use crate::rule::{RuleLine, Target};
use crate::targets::jump;
use addr_text::Family;
use chain_names::ChainNames;
use dump_token::Token;
use fw_rule::Action;
use match_expr::{Bytes, List};
use std::alloc::{AllocError, Global};

fn user_number(names: &ChainNames, name: &[u8]) -> Option<u32>
    ensures { result ≡ user_chain names.now name.now }
{
    if is_built_in(name) {
        return None;
    }
    names.number(name)
}

// What `-g` says of the chain of this number.
fn goto(number: Option<u32>) -> Target
    ensures some { (k : ℕ) → number ≡ Some k → result ≡ ATarget.Does (AnAction.Goto k) }
    ensures none { number ≡ None → result ≡ ATarget.Undefined }
{
    match number {
        Some(chain) => Target::Does(Action::Goto(chain)),
        None => Target::Undefined,
    }
}

// The target of the words after the groups of a rule line.
fn rule_target(
    alloc: Global,
    words: &[Token],
    names: &ChainNames,
) -> Result<Option<Target>, AllocError>
    ghost chains: { Seq Text }
    requires { chains ≡ names.now }
    ensures some { IfOk result (λ o. IfSome o (λ t. IsTarget chains (words_of words.now) t)) }
    ensures none { IfOk result (λ o. IfNone o ((t : ATarget) → IsTarget chains (words_of words.now) t → ⊥)) }
{
    let Some((option, rest)) = first_word(words) else {
        return Ok(Some(Target::Does(Action::Pass)));
    };
    let Some((name, following)) = first_word(rest) else {
        return Ok(None);
    };
    let number = user_number(names, name.text.as_slice());
    if is_bare(option, b"-j") {
        let Some(action) = jump(alloc, name.text.as_slice(), following, number)? else {
            return Ok(None);
        };
        return Ok(Some(Target::Does(action)));
    }
    if is_bare(option, b"-g") && following.is_empty() {
        return Ok(Some(goto(number)));
    }
    Ok(None)
}

/// What the words of a rule line say: `-A CHAIN` after an optional counter, groups, and perhaps a target. `names` are
/// the declared chains; the line's chain need not be one of them. W is 32 or 128, the number of bits of an address. None
/// comes exactly where the words are no rule line, and an error only for want of memory.
pub fn rule_line<F: Family<W>, const W: u32>(
    alloc: Global,
    words: &[Token],
    names: &ChainNames,
) -> Result<Option<RuleLine<W>>, AllocError>
    requires { IsWidth W }
    ensures some { IfOk result (λ o. IfSome o (λ rule. IsRuleLine F.Reads names.now (words_of words.now) rule)) }
    ensures none { IfOk result (λ o. IfNone o ((rule : ARule W) → IsRuleLine F.Reads names.now (words_of words.now) rule → ⊥)) }
    ensures few { IfOk result (λ o. IfSome o (λ rule. length rule.literals ≤ length words.now)) }
    // What is read can be printed, where no word of the line has a line feed.
    ensures printable { IfOk result (λ o. IfSome o (λ rule. AllByRecursion (λ (word : Word). IsLine word.text) (words_of words.now) → AllByRecursion IsPrintableLiteral rule.literals)) }
{
    let Some((chain, rest)) = rule_head(words) else {
        return Ok(None);
    };
    let Some((found, end)) = groups(alloc, rest)? else {
        return Ok(None);
    };
    if !options_differ(found.as_slice()) {
        return Ok(None);
    }
    let Some(literals) = literals::<F, W>(alloc, found.as_slice())? else {
        return Ok(None);
    };
    let Some(target) = rule_target(alloc, end, names)? else {
        return Ok(None);
    };
    Ok(Some(RuleLine {
        chain: Bytes::of(chain.to_vec(alloc)?),
        literals: List::of(literals),
        target,
    }))
}
