ghost use Rattle.std.specs.Prelude.{◌≡◌, ◌<◌, ◌++◌, IfOk, OnOk, OnErr};
ghost use Rattle.std.specs.List.{list_all};
ghost use Rattle.primitives.specs.Bytes.{is_plain_byte};
ghost use Rattle.fw_text.specs.Names.{begins_as_spelled, hex_digit, hex_of, is_plain, shown_name};

use primitives::is_plain_byte;
use std::alloc::{AllocError, Global};

fn all_plain(name: &[u8]) -> bool
    ensures { result ≡ list_all is_plain_byte name.now }
{
    name.iter().all(|byte| is_plain_byte(*byte))
}

fn begins_as_spelled(name: &[u8]) -> bool
    ensures { result ≡ begins_as_spelled name.now }
{
    name.starts_with(b"hex:")
}

// Whether the name is shown as it is.
fn is_plain(name: &[u8]) -> bool
    ensures { result ≡ is_plain name.now }
{
    !begins_as_spelled(name) && all_plain(name)
}

fn hex_digit(value: u8) -> u8
    requires { value < 16 }
    ensures { result ≡ hex_digit value }
{
    if value < 10 {
        b'0' + value
    } else {
        b'a' + (value - 10)
    }
}

// Two digits for each byte.
fn hex(alloc: Global, name: &[u8]) -> Result<Vec<u8>, AllocError>
    ensures { IfOk result (λ text. text.items ≡ hex_of name.now) }
{
    let mut text = Vec::new(alloc);
    for byte in name {
        text.push(hex_digit(byte / 16))?;
        text.push(hex_digit(byte % 16))?;
    }
    Ok(text)
}

/// Appends a name as it is shown: its bytes where each is an ASCII letter or digit or one of `._+:@/-` and the name doesn't
/// begin with `hex:`, else `hex:` and two hexadecimal digits for each byte. Without memory `out` is as before.
pub fn shown(alloc: Global, name: &[u8], out: &mut Vec<u8>) -> Result<(), AllocError>
    ensures ok { OnOk result (out.new.items ≡ out.old.items ++ shown_name name.now) }
    ensures err { OnErr result (out.new.items ≡ out.old.items) }
{
    if is_plain(name) {
        return out.extend_from_slice(name);
    }
    let mut text = Vec::new(alloc);
    text.extend_from_slice(b"hex:")?;
    text.extend_from_slice(&hex(alloc, name)?)?;
    out.extend_from_slice(&text)
}
