ghost use Rattle.std.specs.Prelude.{◌≡◌, ◌++◌, OnOk};
ghost use Rattle.dump_print.specs.Names.{has_at_most_one, has_none, is_every_name, is_plain_names};
ghost use Rattle.dump_print.specs.Parts.{base_words, except_words, name_words, negated_words, option_words};
ghost use Rattle.dump_print.specs.Names.{name_word};
ghost use Rattle.dump_print.specs.Spelling.{spaced};

use crate::writer::{append_name, append_word};
use name_set::{NameSet, Pattern};
use std::alloc::AllocError;

// Whether the pattern matches every name.
fn is_every(pattern: &Pattern) -> bool
    ensures { result ≡ is_every_name pattern.now }
{
    match pattern {
        Pattern::Exact(_) => false,
        Pattern::Prefix(text) => text.as_slice().is_empty(),
    }
}

fn is_short(patterns: &[Pattern]) -> bool
    ensures { result ≡ has_at_most_one patterns.now }
{
    patterns.len() <= 1
}

fn is_none(patterns: &[Pattern]) -> bool
    ensures { result ≡ has_none patterns.now }
{
    patterns.is_empty()
}

/// Whether one line can say the names.
pub(crate) fn is_plain(names: &NameSet) -> bool
    ensures { result ≡ is_plain_names names.now }
{
    let excluded = names.excluded.as_slice();
    is_none(excluded) || (is_every(&names.base) && is_short(excluded))
}

/// Appends an option with a pattern.
pub(crate) fn append_pattern_option(
    option: &[u8],
    pattern: &Pattern,
    out: &mut Vec<u8>,
) -> Result<(), AllocError>
    ensures { OnOk result (out.new.items ≡ out.old.items ++ spaced (option_words option.now (name_word pattern.now))) }
{
    append_word(option, out)?;
    append_name(pattern, out)
}

fn append_base(option: &[u8], base: &Pattern, out: &mut Vec<u8>) -> Result<(), AllocError>
    ensures { OnOk result (out.new.items ≡ out.old.items ++ spaced (base_words option.now base.now)) }
{
    if is_every(base) {
        Ok(())
    } else {
        append_pattern_option(option, base, out)
    }
}

// Appends the one exclusion that a line can say.
fn append_exception(option: &[u8], names: &NameSet, out: &mut Vec<u8>) -> Result<(), AllocError>
    ensures { OnOk result (out.new.items ≡ out.old.items ++ spaced (except_words option.now names.now)) }
{
    if !is_plain(names) {
        return Ok(());
    }
    for pattern in names.excluded.as_slice() {
        append_word(b"!", out)?;
        append_pattern_option(option, pattern, out)?;
    }
    Ok(())
}

/// Appends what a line says of the names.
pub(crate) fn append_names(
    option: &[u8],
    names: &NameSet,
    out: &mut Vec<u8>,
) -> Result<(), AllocError>
    ensures { OnOk result (out.new.items ≡ out.old.items ++ spaced (name_words option.now names.now)) }
{
    append_base(option, &names.base, out)?;
    append_exception(option, names, out)
}
