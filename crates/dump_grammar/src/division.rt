ghost use Rattle.std.specs.Prelude.{◌≡◌, ◌↔◌, List as Seq, None, IfSome, IfNone, IfOk, IsTrue};
ghost use Rattle.dump_grammar.specs.GroupWords.{group_of, groups_of, module_of};
ghost use Rattle.dump_grammar.specs.Groups.{AreGroups, EndsGroups, Group as AGroup, current_after};
ghost use Rattle.dump_grammar.specs.Lines.{Word, words_of};

use crate::grouping::{GroupWords, group};
use crate::pieces::{first_word, is_bare};
use dump_token::Token;
use std::alloc::{AllocError, Global};

fn is_end(words: &[Token]) -> bool
    ensures { IsTrue result ↔ EndsGroups (words_of words.now) }
{
    let Some((word, _)) = first_word(words) else {
        return true;
    };
    is_bare(word, b"-j") || is_bare(word, b"-g")
}

fn module_after<'a>(current: Option<&'a [u8]>, group: GroupWords<'a>) -> Option<&'a [u8]>
    ensures { module_of result ≡ current_after (module_of current.entry) (group_of group.entry) }
{
    match group {
        GroupWords::Base { .. } => current,
        GroupWords::Module { name } => Some(name),
        GroupWords::ModuleOption { .. } => current,
    }
}

/// The groups that the words begin with, in their order, and the words after them: none at all, or an unquoted `-j` or
/// `-g` first. None comes exactly where the words before the first such word aren't groups.
pub fn groups<'a>(
    alloc: Global,
    words: &'a [Token],
) -> Result<Option<(Vec<GroupWords<'a>>, &'a [Token])>, AllocError>
    ensures some { IfOk result (λ o. IfSome o (λ p. AreGroups None (words_of words.now) (groups_of p.0.items) (words_of p.1.now))) }
    ensures ends { IfOk result (λ o. IfSome o (λ p. EndsGroups (words_of p.1.now))) }
    ensures none { IfOk result (λ o. IfNone o ((groups : Seq AGroup) (target : Seq Word) → AreGroups None (words_of words.now) groups target → EndsGroups target → ⊥)) }
{
    let mut found = Vec::new(alloc);
    let mut rest = words;
    let mut current = None;
    while !is_end(rest) {
        let Some((next, after)) = group(current, rest) else {
            return Ok(None);
        };
        current = module_after(current, next);
        found.push(next)?;
        rest = after;
    }
    Ok(Some((found, rest)))
}
