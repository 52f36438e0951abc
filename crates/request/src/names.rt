ghost use Rattle.std.specs.Prelude.{◌≡◌, Some, None, IfOk, IsErrOf, option_map};
ghost use Rattle.name_set.specs.Bytes.{AreBytes};
ghost use Rattle.request.specs.Names.{byte_of, bytes_of, hex_value, is_spelled, name_of};

use crate::SpellFault;
use match_expr::Bytes;
use std::alloc::{AllocError, Global};

// The value of a hexadecimal digit, in either case.
fn hex_value(digit: u8) -> Option<u8>
    ensures { result ≡ hex_value digit }
{
    match char::from(digit).to_digit(16) {
        Some(value) => Some(value as u8),
        None => None,
    }
}

// The byte of two digits.
fn byte_of(high: u8, low: u8) -> Option<u8>
    ensures { result ≡ byte_of (hex_value high) (hex_value low) }
{
    let high = hex_value(high)?;
    let low = hex_value(low)?;
    Some(16 * high + low)
}

// The bytes that pairs of digits spell. None where something else stands there.
fn bytes_of(alloc: Global, digits: &[u8]) -> Result<Option<Vec<u8>>, AllocError>
    ensures { IfOk result (λ bytes. option_map (λ v. v.items) bytes ≡ bytes_of digits.now) }
{
    let mut bytes = Vec::new(alloc);
    let mut rest = digits;
    while !rest.is_empty() {
        if rest.len() == 1 {
            return Ok(None);
        }
        let Some(byte) = byte_of(rest[0], rest[1]) else {
            return Ok(None);
        };
        bytes.push(byte)?;
        rest = &rest[2..];
    }
    Ok(Some(bytes))
}

fn is_spelled(text: &[u8]) -> bool
    ensures { result ≡ is_spelled text.now }
{
    text.starts_with(b"hex:")
}

/// The name that a text spells: the text as it is, but after `hex:` the bytes of pairs of hexadecimal digits, in either case.
/// `Usage` exactly where something else follows there.
pub fn name_of(alloc: Global, text: &[u8]) -> Result<Bytes, SpellFault>
    ensures ok { IfOk result (λ name. name_of text.now ≡ Some name) }
    ensures bytes { IfOk result AreBytes }
    ensures usage { IsErrOf result SpellFault.Usage → name_of text.now ≡ None }
{
    if !is_spelled(text) {
        return Ok(owned(text.to_vec(alloc)?));
    }
    match bytes_of(alloc, &text[4..])? {
        Some(bytes) => Ok(owned(bytes)),
        None => Err(SpellFault::Usage),
    }
}

fn owned(name: Vec<u8>) -> Bytes
    ensures is { result ≡ name.items }
    ensures bytes { AreBytes result }
{
    Bytes::of(name)
}
