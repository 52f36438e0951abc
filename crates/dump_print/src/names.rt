ghost use Rattle.std.specs.Prelude.{◌≡◌, ◌++◌, ◌∷◌, [], ◌&&◌, OnOk, OnErr, length, take, not, if◌then◌else◌};
ghost use Rattle.std.specs.List.{list_all};
ghost use Rattle.primitives.specs.Bytes.{is_plain_byte};
ghost use Rattle.dump_print.specs.Names.{begins_plainly, is_bare, pattern_spelled};
ghost use Rattle.dump_print.specs.Spelling.{escaped};

use name_set::Pattern;
use primitives::is_plain_byte;
use std::alloc::AllocError;

fn are_plain(bytes: &[u8]) -> bool
    ensures { result ≡ list_all is_plain_byte bytes.now }
{
    bytes.iter().all(|byte| is_plain_byte(*byte))
}

// Whether there is a first byte that is no `-`.
fn begins_name(text: &[u8]) -> bool
    ensures { result ≡ begins_plainly text.now }
{
    match text {
        [] => false,
        [first, ..] => *first != b'-',
    }
}

// Whether the name of two pieces has a first byte that is no `-`.
#[tactic(auto, using(crate::proofs::NameLemmas::begins_front, crate::proofs::NameLemmas::begins_end))]
fn begins_joined(front: &[u8], end: &[u8]) -> bool
    ensures { result ≡ begins_plainly (front.now ++ end.now) }
{
    if front.is_empty() {
        begins_name(end)
    } else {
        begins_name(front)
    }
}

// Whether the name of two pieces is written without quotes.
#[tactic(auto, using(crate::proofs::NameLemmas::all_joined))]
fn is_bare_name(front: &[u8], end: &[u8]) -> bool
    ensures { result ≡ is_bare (front.now ++ end.now) }
{
    begins_joined(front, end) && are_plain(front) && are_plain(end)
}

// Appends the bytes with a backslash before each quote and each backslash.
#[tactic(auto, using(addr_text::proofs::Writing::keeps_front, crate::proofs::NameLemmas::escaped_joined))]
fn append_escaped(bytes: &[u8], out: &mut Vec<u8>) -> Result<(), AllocError>
    ensures ok { OnOk result (out.new.items ≡ out.old.items ++ escaped bytes.now) }
    ensures err { OnErr result (take (length out.old.items) out.new.items ≡ out.old.items) }
{
    for byte in bytes {
        append_byte(*byte, out)?;
    }
    Ok(())
}

#[tactic(auto, using(addr_text::proofs::Writing::keeps_front))]
fn append_byte(byte: u8, out: &mut Vec<u8>) -> Result<(), AllocError>
    ensures ok { OnOk result (out.new.items ≡ out.old.items ++ escaped (byte ∷ [])) }
    ensures err { OnErr result (take (length out.old.items) out.new.items ≡ out.old.items) }
{
    if byte == b'"' || byte == b'\\' {
        out.push(b'\\')?;
    }
    out.push(byte)?;
    Ok(())
}

// Appends the name of two pieces, in quotes where it needs them. Where memory is wanting, a part may stand behind what
// `out` had.
#[tactic(auto, using(addr_text::proofs::Writing::keeps_front, crate::proofs::NameLemmas::escaped_joined))]
fn append_name(front: &[u8], end: &[u8], out: &mut Vec<u8>) -> Result<(), AllocError>
    ensures ok { OnOk result (out.new.items ≡ out.old.items
        ++ (if not (is_bare (front.now ++ end.now)) then 34 ∷ (escaped (front.now ++ end.now) ++ 34 ∷ []) else front.now ++ end.now)) }
    ensures err { OnErr result (take (length out.old.items) out.new.items ≡ out.old.items) }
{
    if is_bare_name(front, end) {
        out.extend_from_slice(front)?;
        return out.extend_from_slice(end);
    }
    out.push(b'"')?;
    append_escaped(front, out)?;
    append_escaped(end, out)?;
    out.push(b'"')?;
    Ok(())
}

// Appends a pattern's text. Where memory is wanting, a part may stand behind what `out` had.
pub(crate) fn append_pattern(pattern: &Pattern, out: &mut Vec<u8>) -> Result<(), AllocError>
    ensures ok { OnOk result (out.new.items ≡ out.old.items ++ pattern_spelled pattern.now) }
    ensures err { OnErr result (take (length out.old.items) out.new.items ≡ out.old.items) }
{
    match pattern {
        Pattern::Exact(text) => append_name(text.as_slice(), b"", out),
        Pattern::Prefix(text) => append_name(text.as_slice(), b"+", out),
    }
}

/// Appends a pattern's text as it stands after `-i` or `-o`: the name, or with a `+` at its end what each name begins
/// with. It stands in double quotes, with a backslash before each quote and each backslash, unless it isn't empty, has
/// letters, digits and `._+:@/-` alone, and begins with no `-`. Where memory is wanting, `out` is as before.
pub fn pattern_text(pattern: &Pattern, out: &mut Vec<u8>) -> Result<(), AllocError>
    ensures ok { OnOk result (out.new.items ≡ out.old.items ++ pattern_spelled pattern.now) }
    ensures err { OnErr result (out.new.items ≡ out.old.items) }
{
    let before = out.len();
    let written = append_pattern(pattern, out);
    if written.is_err() {
        out.truncate(before);
    }
    written
}
