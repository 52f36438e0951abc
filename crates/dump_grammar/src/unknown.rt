ghost use Rattle.std.specs.Prelude.{◌≡◌, ◌++◌, ◌∷◌, [], ℕ, List as Seq, IfOk, OnOk};
ghost use Rattle.std.specs.List.{flat_map};
ghost use Rattle.dump_grammar.specs.GroupWords.{module_of};
ghost use Rattle.dump_grammar.specs.Groups.{Group as AGroup, mark};
ghost use Rattle.dump_grammar.specs.Lines.{texts, words_of};
ghost use Rattle.dump_grammar.specs.Literals.{module_text, text_of};

use dump_token::Token;
use match_expr::Bytes;
use std::alloc::{AllocError, Global};

fn append_module(text: &mut Vec<u8>, current: Option<&[u8]>) -> Result<(), AllocError>
    ensures { OnOk result (text.new.items ≡ text.old.items ++ flat_map (λ (t : Seq ℕ). t ++ 32 ∷ []) (module_text (module_of current.entry))) }
{
    let Some(name) = current else {
        return Ok(());
    };
    text.extend_from_slice(b"-m ")?;
    text.extend_from_slice(name)?;
    text.push(b' ')?;
    Ok(())
}

fn append_mark(text: &mut Vec<u8>, negated: bool) -> Result<(), AllocError>
    ensures { OnOk result (text.new.items ≡ text.old.items ++ flat_map (λ (t : Seq ℕ). t ++ 32 ∷ []) (mark negated)) }
{
    if !negated {
        return Ok(());
    }
    text.extend_from_slice(b"! ")
}

fn append_words(text: &mut Vec<u8>, words: &[Token]) -> Result<(), AllocError>
    ensures { OnOk result (text.new.items ≡ text.old.items ++ flat_map (λ (t : Seq ℕ). 32 ∷ t) (texts (words_of words.now))) }
{
    for word in words {
        text.push(b' ')?;
        text.extend_from_slice(word.text.as_slice())?;
    }
    Ok(())
}

/// The text of an option that isn't understood: its words with one space between them, after `-m` and the module where
/// there is one.
pub(crate) fn option_text(
    alloc: Global,
    current: Option<&[u8]>,
    negated: bool,
    option: &[u8],
    arguments: &[Token],
) -> Result<Bytes, AllocError>
    ensures { IfOk result (λ t. t ≡ text_of (AGroup.ModuleOption (module_of current.entry) negated option.now (texts (words_of arguments.now)))) }
{
    let mut text = Vec::new(alloc);
    append_module(&mut text, current)?;
    append_mark(&mut text, negated)?;
    text.extend_from_slice(option)?;
    append_words(&mut text, arguments)?;
    Ok(Bytes::of(text))
}

/// The text of a module that isn't understood.
pub(crate) fn module_name_text(alloc: Global, name: &[u8]) -> Result<Bytes, AllocError>
    ensures { IfOk result (λ t. t ≡ text_of (AGroup.Module name.now)) }
{
    let mut text = Vec::new(alloc);
    text.extend_from_slice(b"-m ")?;
    text.extend_from_slice(name)?;
    Ok(Bytes::of(text))
}
