ghost use Rattle.std.specs.Prelude.{◌≡◌, ◌↔◌, List as Seq, true, false, IfSome, IfNone, IfOk, IsTrue};
ghost use Rattle.fw_rule.specs.declared.rule.Action.{Action as AnAction};
ghost use Rattle.dump_grammar.specs.ChainLines.{is_among, target_words};
ghost use Rattle.dump_grammar.specs.Lines.{Text, words_of};
ghost use Rattle.dump_grammar.specs.Targets.{IsJump, IsRejectOption, user_chain};

use crate::names::{is_passing, is_target_word};
use crate::pieces::{first_word, is_bare, is_same};
use dump_token::Token;
use fw_rule::Action;
use match_expr::Bytes;
use std::alloc::{AllocError, Global};

fn is_reject_option(following: &[Token]) -> bool
    ensures { IsTrue result ↔ IsRejectOption (words_of following.now) }
{
    let Some((option, rest)) = first_word(following) else {
        return true;
    };
    if !is_bare(option, b"--reject-with") {
        return false;
    }
    let Some((_, after)) = first_word(rest) else {
        return false;
    };
    if !after.is_empty() {
        return false;
    }
    true
}

// The action of a target whose name is of this project's own words, or else nothing.
fn named_action(name: &[u8], following: &[Token]) -> Option<Action>
    ensures some { IfSome result (λ a. (names : Seq Text) → IsJump names name.now (words_of following.now) a) }
    ensures none { IfNone result ((names : Seq Text) (a : AnAction) → is_among target_words name.now ≡ true → IsJump names name.now (words_of following.now) a → ⊥) }
{
    if is_same(name, b"ACCEPT") && following.is_empty() {
        return Some(Action::Accept);
    }
    if is_same(name, b"DROP") && following.is_empty() {
        return Some(Action::Drop);
    }
    if is_same(name, b"REJECT") && is_reject_option(following) {
        return Some(Action::Drop);
    }
    if is_same(name, b"RETURN") && following.is_empty() {
        return Some(Action::Back);
    }
    if is_passing(name) {
        return Some(Action::Pass);
    }
    None
}

// The action of a target whose name is no target's word. The number is that of the chain of this name, where it is a
// declared one and not built in.
fn other_action(
    alloc: Global,
    name: &[u8],
    following: &[Token],
    number: Option<u32>,
) -> Result<Option<Action>, AllocError>
    ghost names: { Seq Text }
    requires other { is_among target_words name.now ≡ false }
    requires number { number ≡ user_chain names name.now }
    ensures some { IfOk result (λ found. IfSome found (λ a. IsJump names name.now (words_of following.now) a)) }
    ensures none { IfOk result (λ found. IfNone found ((a : AnAction) → IsJump names name.now (words_of following.now) a → ⊥)) }
{
    match number {
        Some(number) => {
            if following.is_empty() {
                Ok(Some(Action::Call(number)))
            } else {
                Ok(None)
            }
        }
        None => Ok(Some(Action::Other(Bytes::of(name.to_vec(alloc)?)))),
    }
}

/// The action of `-j NAME` and of the words that follow it. The number is that of the declared chain of this name, where
/// there is one that isn't built in, in the order of declaration from 0. None comes exactly where these words may not
/// follow this name.
pub fn jump(
    alloc: Global,
    name: &[u8],
    following: &[Token],
    number: Option<u32>,
) -> Result<Option<Action>, AllocError>
    ghost names: { Seq Text }
    requires { number ≡ user_chain names name.now }
    ensures some { IfOk result (λ found. IfSome found (λ a. IsJump names name.now (words_of following.now) a)) }
    ensures none { IfOk result (λ found. IfNone found ((a : AnAction) → IsJump names name.now (words_of following.now) a → ⊥)) }
{
    if is_target_word(name) {
        return Ok(named_action(name, following));
    }
    other_action(alloc, name, following, number)
}
