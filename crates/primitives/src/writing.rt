//! Writes words and numbers.
ghost use Rattle.std.specs.Prelude.{◌≡◌, ◌++◌, ◌∷◌, OnOk, decimal, map, if◌then◌else◌};
ghost use Rattle.primitives.specs.Tables.{flag_names, name_list, name_of, proto_names, state_names};
ghost use Rattle.primitives.specs.Words.{flags_text};
ghost use Rattle.primitives.specs.inner.Rows.{named};

use crate::bits::has_bit;
use crate::tables::{FLAGS, PROTOCOLS, STATES, Word};
use std::alloc::AllocError;

/// Appends a number in decimal digits. Without memory `out` may have a part of them.
pub fn append_number(n: u128, out: &mut Vec<u8>) -> Result<(), AllocError>
    ensures { OnOk result (out.new.items ≡ out.old.items ++ decimal n) }
{
    if n >= 10 {
        append_number(n / 10, out)?;
    }
    out.push(b'0' + (n % 10) as u8)?;
    Ok(())
}

/// Appends the first name of the number, or the number.
fn append_named(words: &[Word], number: u8, out: &mut Vec<u8>) -> Result<(), AllocError>
    ensures { OnOk result (out.new.items ≡ out.old.items ++ name_of (map named words.now) number) }
{
    for word in words {
        if word.number == number {
            return out.extend_from_slice(word.name);
        }
    }
    append_number(number as u128, out)
}

/// Appends a protocol: its first name, or its number. Without memory `out` may have a part of it.
#[tactic(auto, unfolding(crate::specs::Tables::proto_names))]
pub fn append_proto(number: u8, out: &mut Vec<u8>) -> Result<(), AllocError>
    ensures { OnOk result (out.new.items ≡ out.old.items ++ name_of proto_names number) }
{
    append_named(&PROTOCOLS, number, out)
}

/// Appends a state's name, or the number where no state has it. Without memory `out` may have a part of it.
#[tactic(auto, unfolding(crate::specs::Tables::state_names))]
pub fn append_state(number: u8, out: &mut Vec<u8>) -> Result<(), AllocError>
    ensures { OnOk result (out.new.items ≡ out.old.items ++ name_of state_names number) }
{
    append_named(&STATES, number, out)
}

/// Appends a part of a list, after a comma unless it is the first.
fn append_part(part: &[u8], is_first: bool, out: &mut Vec<u8>) -> Result<(), AllocError>
    ensures { OnOk result (out.new.items ≡ out.old.items ++ (if is_first then part.now else 44 ∷ part.now)) }
{
    if is_first {
        return out.extend_from_slice(part);
    }
    out.push(b',')?;
    out.extend_from_slice(part)
}

/// Appends the names of the bits that are set, with commas between them.
fn append_list(words: &[Word], bits: u8, out: &mut Vec<u8>) -> Result<(), AllocError>
    ensures { OnOk result (out.new.items ≡ out.old.items ++ name_list (map named words.now) bits) }
{
    let mut is_first = true;
    for word in words {
        if has_bit(bits, word.number) {
            append_part(word.name, is_first, out)?;
            is_first = false;
        }
    }
    Ok(())
}

/// Appends the names of the states whose bits are set, in the order of their numbers with commas between them. Without
/// memory `out` may have a part of them.
#[tactic(auto, unfolding(crate::specs::Tables::state_names))]
pub fn append_states(states: u8, out: &mut Vec<u8>) -> Result<(), AllocError>
    ensures { OnOk result (out.new.items ≡ out.old.items ++ name_list state_names states) }
{
    append_list(&STATES, states, out)
}

/// Appends the names of flags.
#[tactic(auto, unfolding(crate::specs::Tables::flag_names))]
fn append_flag_list(flags: u8, out: &mut Vec<u8>) -> Result<(), AllocError>
    ensures { OnOk result (out.new.items ≡ out.old.items ++ name_list flag_names flags) }
{
    append_list(&FLAGS, flags, out)
}

/// Appends the names of flags of tcp that are set, in the order FIN, SYN, RST, PSH, ACK, URG with commas between them,
/// and NONE for 0. Without memory `out` may have a part of them.
pub fn append_flags(flags: u8, out: &mut Vec<u8>) -> Result<(), AllocError>
    ensures { OnOk result (out.new.items ≡ out.old.items ++ flags_text flags) }
{
    if flags == 0 {
        out.extend_from_slice(b"NONE")
    } else {
        append_flag_list(flags, out)
    }
}
