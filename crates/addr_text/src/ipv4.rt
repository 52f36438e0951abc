ghost use Rattle.std.specs.Prelude.{◌≡◌, ◌<◌, ◌^◌, ◌++◌, ◌∷◌, ℕ, List, OnOk, OnErr, decimal, take, length};
ghost use Rattle.std.specs.Net.Text.{ipv4_text, dotted_text};
ghost use Rattle.addr_text.specs.Digits.{digits_of};
ghost use Rattle.addr_text.specs.Grammar.{IsIpv4};

use crate::family::Family;
use std::alloc::AllocError;
use std::net::Ipv4Addr;

/// IPv4: four decimal numbers from 0 to 255 without leading zeros, with dots between them.
pub struct V4;

impl Family<32> for V4 {
    ghost use Rattle.addr_text.specs.Ipv4Laws.{ipv4_round, ipv4_one, ipv4_fits, ipv4_plain, ipv4_not_number};

    ghost Reads = { IsIpv4 };

    ghost text_of = { λ value. ipv4_text (digits_of 256 4 value) };

    fn read(text: &[u8]) -> Option<u128> {
        match Ipv4Addr::parse_ascii(text) {
            Ok(address) => Some(address.to_bits() as u128),
            Err(_) => None,
        }
    }

    fn write(value: u128, out: &mut Vec<u8>) -> Result<(), AllocError> {
        let before = out.len();
        let written = append_address(value as u32, out);
        if written.is_err() {
            out.truncate(before);
        }
        written
    }

    ghost round = { ipv4_round };

    ghost one = { ipv4_one };

    ghost fits = { ipv4_fits };

    ghost plain = { ipv4_plain };

    ghost not_number = { ipv4_not_number };
}

// Appends the address. Where memory is wanting, a part may stand behind what `out` had.
fn append_address(value: u32, out: &mut Vec<u8>) -> Result<(), AllocError>
    ensures ok { OnOk result (out.new.items ≡ out.old.items ++ ipv4_text (digits_of 256 4 value)) }
    ensures err { OnErr result (take (length out.old.items) out.new.items ≡ out.old.items) }
{
    append_decimal((value >> 24) as u8, out)?;
    append_part((value >> 16 & 255) as u8, out)?;
    append_part((value >> 8 & 255) as u8, out)?;
    append_part((value & 255) as u8, out)
}

#[tactic(auto, using(std::proofs::lemmas::Fmt::decimal_digit, crate::proofs::DecimalLemmas::decimal_two, crate::proofs::DecimalLemmas::decimal_three))]
fn append_decimal(n: u8, out: &mut Vec<u8>) -> Result<(), AllocError>
    ensures ok { OnOk result (out.new.items ≡ out.old.items ++ decimal n) }
    ensures err { OnErr result (out.new.items ≡ out.old.items) }
{
    let ones = b'0' + n % 10;
    let tens = b'0' + n / 10 % 10;
    if n < 10 {
        out.extend_from_slice(&[ones])
    } else if n < 100 {
        out.extend_from_slice(&[tens, ones])
    } else {
        out.extend_from_slice(&[b'0' + n / 100, tens, ones])
    }
}

// Appends a dot and the number.
#[tactic(auto, using(std::proofs::lemmas::Fmt::decimal_digit, crate::proofs::DecimalLemmas::decimal_two, crate::proofs::DecimalLemmas::decimal_three))]
fn append_part(n: u8, out: &mut Vec<u8>) -> Result<(), AllocError>
    ensures ok { OnOk result (out.new.items ≡ out.old.items ++ 46 ∷ decimal n) }
    ensures err { OnErr result (out.new.items ≡ out.old.items) }
{
    let ones = b'0' + n % 10;
    let tens = b'0' + n / 10 % 10;
    if n < 10 {
        out.extend_from_slice(&[b'.', ones])
    } else if n < 100 {
        out.extend_from_slice(&[b'.', tens, ones])
    } else {
        out.extend_from_slice(&[b'.', b'0' + n / 100, tens, ones])
    }
}
