ghost use Rattle.std.specs.Prelude.{◌≡◌, ◌+◌, ◌/◌, ◌%◌, ◌<◌, ◌≤◌, ◌++◌, ◌∷◌, [], ℕ, List, OnOk, OnErr, codes, flat_map, if◌then◌else◌, take, drop, length};
ghost use Rattle.std.specs.Char.{digit_char};
ghost use Rattle.std.specs.Net.Text.{groups_text, hex, hex_groups_text, leading_zero_digits, longest_zero_run};
ghost use Rattle.addr_text.specs.Digits.{digits_of};
ghost use Rattle.addr_text.specs.Grammar.{IsIpv6};

use crate::family::Family;
use std::alloc::AllocError;
use std::net::Ipv6Addr;

/// IPv6. The texts that are read are those of RFC 4291, section 2.2: eight groups of one to four hexadecimal digits
/// in either case with colons between them, `::` at most once for one or more groups of zeros, and the last two
/// groups maybe as an IPv4 text. The text that is written is that of RFC 5952, section 4: lower case, no leading
/// zeros, and `::` for the first of the longest runs of two or more groups of zeros. No IPv4 text is written.
pub struct V6;

impl Family<128> for V6 {
    ghost use Rattle.addr_text.specs.Ipv6Laws.{ipv6_round, ipv6_one, ipv6_fits, ipv6_plain, ipv6_not_number};

    ghost Reads = { IsIpv6 };

    ghost text_of = { λ value. hex_groups_text (digits_of 65536 8 value) };

    fn read(text: &[u8]) -> Option<u128> {
        match Ipv6Addr::parse_ascii(text) {
            Ok(address) => Some(address.to_bits()),
            Err(_) => None,
        }
    }

    fn write(value: u128, out: &mut Vec<u8>) -> Result<(), AllocError> {
        let before = out.len();
        let written = append_address(&groups_of(value), out);
        if written.is_err() {
            out.truncate(before);
        }
        written
    }

    ghost round = { ipv6_round };

    ghost one = { ipv6_one };

    ghost fits = { ipv6_fits };

    ghost plain = { ipv6_plain };

    ghost not_number = { ipv6_not_number };
}

// The eight groups of a value, the highest first.
fn groups_of(value: u128) -> [u16; 8]
    ensures { result ≡ digits_of 65536 8 value }
{
    Ipv6Addr::from_bits(value).segments()
}

// Appends the address. Where memory is wanting, a part may stand behind what `out` had.
#[tactic(auto, using(crate::proofs::Writing::keeps_front), unfolding(std::specs::Net::Text::hex_groups_text))]
fn append_address(groups: &[u16], out: &mut Vec<u8>) -> Result<(), AllocError>
    ensures ok { OnOk result (out.new.items ≡ out.old.items ++ hex_groups_text groups.now) }
    ensures err { OnErr result (take (length out.old.items) out.new.items ≡ out.old.items) }
{
    let (start, len) = longest_run(groups);
    if len > 1 {
        append_groups(&groups[..start], out)?;
        out.extend_from_slice(b"::")?;
        append_groups(&groups[start + len..], out)
    } else {
        append_groups(groups, out)
    }
}

// Where the longest run of zeros begins, the first of that length, and how many they are.
fn longest_run(groups: &[u16]) -> (usize, usize)
    ensures value { result ≡ longest_zero_run groups.now }
    ensures within { result.0 + result.1 ≤ length groups.now }
{
    let mut start = groups.len();
    let mut len = 0;
    let mut run = 0;
    for i in (0..groups.len()).rev() {
        run = if groups[i] == 0 { run + 1 } else { 0 };
        if run >= len {
            start = i;
            len = run;
        }
    }
    (start, len)
}

// Appends the groups with colons between them.
#[tactic(auto, using(crate::proofs::Writing::keeps_front))]
fn append_groups(groups: &[u16], out: &mut Vec<u8>) -> Result<(), AllocError>
    ensures ok { OnOk result (out.new.items ≡ out.old.items ++ groups_text groups.now) }
    ensures err { OnErr result (take (length out.old.items) out.new.items ≡ out.old.items) }
{
    let [first, rest @ ..] = groups else {
        return Ok(());
    };
    append_hex(*first, out)?;
    for group in rest {
        append_part(*group, out)?;
    }
    Ok(())
}

// Appends a group in lower case without leading zeros.
#[tactic(auto, unfolding(std::specs::Net::Text::hex))]
fn append_hex(group: u16, out: &mut Vec<u8>) -> Result<(), AllocError>
    ensures ok { OnOk result (out.new.items ≡ out.old.items ++ hex group) }
    ensures err { OnErr result (out.new.items ≡ out.old.items) }
{
    let digits = hex_digits(group);
    out.extend_from_slice(&digits[leading_zeros(group)..])
}

// Appends a colon and a group.
fn append_part(group: u16, out: &mut Vec<u8>) -> Result<(), AllocError>
    ensures ok { OnOk result (out.new.items ≡ out.old.items ++ 58 ∷ hex group) }
    ensures err { OnErr result (take (length out.old.items) out.new.items ≡ out.old.items) }
{
    out.push(b':')?;
    append_hex(group, out)
}

// The four digits of a group.
fn hex_digits(group: u16) -> [u8; 4]
    ensures { result ≡ digit_char (group / 4096) ∷ digit_char (group / 256 % 16) ∷ digit_char (group / 16 % 16) ∷ digit_char (group % 16) ∷ [] }
{
    [
        hex_digit(group / 4096),
        hex_digit(group / 256 % 16),
        hex_digit(group / 16 % 16),
        hex_digit(group % 16),
    ]
}

fn hex_digit(digit: u16) -> u8
    requires { digit < 16 }
    ensures { result ≡ digit_char digit }
{
    if digit < 10 {
        b'0' + digit as u8
    } else {
        b'a' + (digit - 10) as u8
    }
}

// How many of the four digits of a group are zeros before its first other digit, or its last digit.
fn leading_zeros(group: u16) -> usize
    ensures value { result ≡ leading_zero_digits group }
    ensures within { result < 4 }
{
    match group {
        0x1000.. => 0,
        0x100.. => 1,
        0x10.. => 2,
        _ => 3,
    }
}
