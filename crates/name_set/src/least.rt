ghost use Rattle.std.specs.Prelude.{◌≡◌, ◌∷◌, ◌++◌, ◌<◌, ℕ, [], true, false, ◌&&◌, IfSome, IfNone, IfOk};
ghost use Rattle.name_set.specs.Bytes.{AreBytes};
ghost use Rattle.name_set.specs.Least.{IsLeast, is_before, is_below};
ghost use Rattle.name_set.specs.Names.{some_fits};
ghost use Rattle.name_set.specs.Patterns.{covers, fits};
ghost use Rattle.name_set.specs.declared.pattern.Pattern.TheVariants.{Prefix};
ghost use Rattle.name_set.specs.Continuations.{IsNext, is_after, is_ahead, is_left, nearer_of, takes};
ghost use Rattle.std.specs.Option.{option_copied};

use crate::pattern::{Pattern, begins_with};
use match_expr::Bytes;
use std::alloc::{AllocError, Global};

/// Whether the first name stands before the second in the order of their bytes.
fn comes_first(a: &[u8], b: &[u8]) -> bool
    ensures { result ≡ is_below a.now b.now }
{
    a < b
}

/// Whether the first name is shorter, or as long and first by bytes.
fn comes_before(a: &[u8], b: &[u8]) -> bool
    ensures { result ≡ is_before a.now b.now }
{
    a.len() < b.len() || (a.len() == b.len() && comes_first(a, b))
}

/// The byte that the text has after the name, where it is the name and one byte more.
fn byte_after(text: &[u8], name: &[u8]) -> Option<u8>
    ensures some { IfSome result (λ b. text.now ≡ name.now ++ b ∷ []) }
    ensures none { IfNone result ((b : ℕ) → text.now ≡ name.now ++ b ∷ [] → ⊥) }
{
    match text.split_last() {
        Some((byte, front)) if front == name => Some(*byte),
        _ => None,
    }
}

/// The bytes after a name with which a pattern matches it.
enum Taken {
    None,
    One(u8),
    Every,
}

/// Whether the pattern matches every name that begins with this one.
fn matches_longer(pattern: &Pattern, name: &[u8]) -> bool
    ensures { result ≡ covers pattern.now (Prefix name.now) }
{
    match pattern {
        Pattern::Exact(_) => false,
        Pattern::Prefix(text) => begins_with(name, text.as_slice()),
    }
}

fn taken_by(pattern: &Pattern, name: &[u8]) -> Taken
    ensures { (b : ℕ) → fits pattern.now (name.now ++ b ∷ []) ≡ takes result b }
{
    if matches_longer(pattern, name) {
        return Taken::Every;
    }
    match byte_after(pattern.text(), name) {
        Some(byte) => Taken::One(byte),
        None => Taken::None,
    }
}

/// The first byte that gives a name which no pattern matches, when it is put after `name`.
fn free_byte(patterns: &[Pattern], name: &[u8]) -> Option<u8>
    ensures some { IfSome result (λ b. some_fits patterns.now (name.now ++ b ∷ []) ≡ false) }
    ensures first { IfSome result (λ b. (k : ℕ) → k < b → some_fits patterns.now (name.now ++ k ∷ []) ≡ true) }
    ensures none { IfNone result ((b : ℕ) → b < 256 → some_fits patterns.now (name.now ++ b ∷ []) ≡ true) }
{
    let mut is_taken = [false; 256];
    for pattern in patterns {
        match taken_by(pattern, name) {
            Taken::None => {}
            Taken::One(byte) => is_taken[byte as usize] = true,
            Taken::Every => return None,
        }
    }
    for byte in 0..=255u8 {
        if !is_taken[byte as usize] {
            return Some(byte);
        }
    }
    None
}

/// Whether the name begins with the text and stands after `last` and before `next`, as far as these are there.
fn is_nearer(name: &[u8], text: &[u8], last: Option<&[u8]>, next: Option<&[u8]>) -> bool
    ensures { result ≡ (is_left text.now (option_copied last.entry) name.now && is_ahead (option_copied next.entry) name.now) }
{
    begins_with(name, text)
        && last.is_none_or(|last| comes_before(last, name))
        && next.is_none_or(|next| comes_before(name, next))
}

/// The pattern's name where it is nearer than `next`, else `next`.
fn nearer<'a>(
    pattern: &'a Pattern,
    text: &[u8],
    last: Option<&[u8]>,
    next: Option<&'a [u8]>,
) -> Option<&'a [u8]>
    ensures { option_copied result ≡ nearer_of text.now (option_copied last.entry) (option_copied next.entry) pattern.now }
{
    match pattern {
        Pattern::Exact(name) if is_nearer(name.as_slice(), text, last, next) => Some(
            name.as_slice(),
        ),
        _ => next,
    }
}

/// The first name of an `Exact` pattern that begins with the text and stands after `last`.
fn next_name<'a>(patterns: &'a [Pattern], text: &[u8], last: Option<&[u8]>) -> Option<&'a [u8]>
    ensures { IsNext text.now patterns.now (option_copied last.entry) (option_copied result) }
{
    let mut next: Option<&'a [u8]> = None;
    for pattern in patterns {
        next = nearer(pattern, text, last, next);
    }
    next
}

/// A name and one byte more.
fn longer(alloc: Global, name: &[u8], byte: u8) -> Result<Bytes, AllocError>
    ensures value { IfOk result (λ b. b ≡ name.now ++ byte ∷ []) }
    ensures bytes { IfOk result AreBytes }
{
    let mut items = Vec::with_capacity(alloc, name.len() + 1)?;
    items.extend_from_slice(name)?;
    items.push(byte)?;
    Ok(Bytes::of(items))
}

/// The least name that begins with the text and that no pattern matches, where the text is matched.
///
/// Such a name has one byte more than a name that an `Exact` pattern excludes. These are tried in their order.
pub(crate) fn least_longer(
    alloc: Global,
    patterns: &[Pattern],
    text: &[u8],
) -> Result<Option<Bytes>, AllocError>
    requires { some_fits patterns.now text.now ≡ true }
    ensures { IfOk result (IsLeast (record { base = Prefix text.now; excluded = patterns.now })) }
{
    let mut last = None;
    while let Some(name) = next_name(patterns, text, last) {
        if let Some(byte) = free_byte(patterns, name) {
            return Ok(Some(longer(alloc, name, byte)?));
        }
        last = Some(name);
    }
    Ok(None)
}
