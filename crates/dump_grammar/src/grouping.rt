ghost use Rattle.std.specs.Prelude.{◌≡◌, ◌++◌, ◌∷◌, [], List as Seq, Option as Maybe, Some, true, IfSome, IfNone, length, codes};
ghost use Rattle.dump_grammar.specs.ChainLines.{is_among};
ghost use Rattle.dump_grammar.specs.GroupWords.{group_of, module_of};
ghost use Rattle.dump_grammar.specs.Groups.{Group as AGroup, IsGroup, IsOptionName, Takes, arity_in, arity_of, base_options, mark_words};
ghost use Rattle.dump_grammar.specs.Lines.{Text, Word, bare, words_of};

use crate::options::{arguments, arity, front, is_base_option, is_option_name};
use crate::pieces::{first_word, is_same};
use dump_token::Token;

/// A group of a rule line, in the words of the line.
#[derive(Clone, Copy)]
pub enum GroupWords<'a> {
    /// An option that needs no module.
    Base {
        /// Whether a `!` stands before it.
        negated: bool,
        /// The option, with its dash.
        option: &'a [u8],
        /// The words that it takes.
        arguments: &'a [Token],
    },
    /// A module that is named.
    Module {
        /// What follows `-m`.
        name: &'a [u8],
    },
    /// An option of a module.
    ModuleOption {
        /// The module that was named last, if one was.
        current: Option<&'a [u8]>,
        /// Whether a `!` stands before it.
        negated: bool,
        /// The option, with its dashes.
        option: &'a [u8],
        /// The words that it takes.
        arguments: &'a [Token],
    },
}

fn base_group<'a>(
    negated: bool,
    option: &'a [u8],
    words: &'a [Token],
) -> Option<(GroupWords<'a>, &'a [Token])>
    requires { is_among base_options option.now ≡ true }
    ensures some { IfSome result (λ p. (current : Maybe Text) → IsGroup current (mark_words negated ++ bare option.now ∷ words_of words.now) (group_of p.0) (words_of p.1.now)) }
    ensures none { IfNone result ((taken rest : Seq Word) → words_of words.now ≡ taken ++ rest → arity_of [] option.now ≡ Some (length taken) → ⊥) }
{
    let Some(count) = arity(b"", option) else {
        return None;
    };
    let Some((taken, rest)) = arguments(words, Some(count)) else {
        return None;
    };
    Some((
        GroupWords::Base {
            negated,
            option,
            arguments: taken,
        },
        rest,
    ))
}

fn arity_now(current: Option<&[u8]>, option: &[u8]) -> Option<usize>
    ensures { result ≡ arity_in (module_of current.entry) option.now }
{
    match current {
        Some(name) => arity(name, option),
        None => None,
    }
}

fn named_group<'a>(
    current: Option<&'a [u8]>,
    negated: bool,
    option: &'a [u8],
    words: &'a [Token],
) -> Option<(GroupWords<'a>, &'a [Token])>
    requires { IsOptionName option.now }
    ensures some { IfSome result (λ p. IsGroup (module_of current.entry) (mark_words negated ++ bare option.now ∷ words_of words.now) (group_of p.0) (words_of p.1.now)) }
    ensures none { IfNone result ((taken rest : Seq Word) → words_of words.now ≡ taken ++ rest → Takes (arity_in (module_of current.entry) option.now) taken rest → ⊥) }
{
    let Some((taken, rest)) = arguments(words, arity_now(current, option)) else {
        return None;
    };
    Some((
        GroupWords::ModuleOption {
            current,
            negated,
            option,
            arguments: taken,
        },
        rest,
    ))
}

fn module_group(words: &[Token]) -> Option<(GroupWords<'_>, &[Token])>
    ensures some { IfSome result (λ p. (current : Maybe Text) → IsGroup current (bare (codes "-m") ∷ words_of words.now) (group_of p.0) (words_of p.1.now)) }
    ensures none { IfNone result (words.now ≡ []) }
{
    let Some((value, rest)) = first_word(words) else {
        return None;
    };
    let name = value.text.as_slice();
    Some((GroupWords::Module { name }, rest))
}

/// The group that the words begin with, and the words that follow it, where `current` is the module that was named
/// last. None comes exactly where they begin with no group.
pub fn group<'a>(
    current: Option<&'a [u8]>,
    words: &'a [Token],
) -> Option<(GroupWords<'a>, &'a [Token])>
    ensures some { IfSome result (λ p. IsGroup (module_of current.entry) (words_of words.now) (group_of p.0) (words_of p.1.now)) }
    ensures none { IfNone result ((g : AGroup) (rest : Seq Word) → IsGroup (module_of current.entry) (words_of words.now) g rest → ⊥) }
{
    let Some((negated, option, rest)) = front(words) else {
        return None;
    };
    if is_same(option, b"-m") {
        if negated {
            return None;
        }
        return module_group(rest);
    }
    if is_base_option(option) {
        return base_group(negated, option, rest);
    }
    if is_option_name(option) {
        return named_group(current, negated, option, rest);
    }
    None
}
