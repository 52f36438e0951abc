//! Appends words to a line.
ghost use Rattle.std.specs.Prelude.{◌≡◌, ◌++◌, [], ◌∷◌, OnOk};
ghost use Rattle.dump_grammar.specs.Lines.{bare};
ghost use Rattle.dump_print.specs.Names.{name_word};
ghost use Rattle.dump_print.specs.Spelling.{spaced};

use crate::names::append_pattern;
use name_set::Pattern;
use std::alloc::AllocError;

/// Appends a space and the word.
pub(crate) fn append_word(word: &[u8], out: &mut Vec<u8>) -> Result<(), AllocError>
    ensures { OnOk result (out.new.items ≡ out.old.items ++ spaced (bare word.now ∷ [])) }
{
    out.push(b' ')?;
    out.extend_from_slice(word)
}

/// Appends two words, each after a space.
pub(crate) fn append_words(first: &[u8], second: &[u8], out: &mut Vec<u8>) -> Result<(), AllocError>
    ensures { OnOk result (out.new.items ≡ out.old.items ++ spaced (bare first.now ∷ bare second.now ∷ [])) }
{
    append_word(first, out)?;
    append_word(second, out)
}

/// Appends a space and a pattern's text.
pub(crate) fn append_name(pattern: &Pattern, out: &mut Vec<u8>) -> Result<(), AllocError>
    ensures { OnOk result (out.new.items ≡ out.old.items ++ spaced (name_word pattern.now ∷ [])) }
{
    out.push(b' ')?;
    append_pattern(pattern, out)
}
