//! Reads words.
ghost use Rattle.std.specs.Prelude.{◌≡◌, ◌<◌, ◌≤◌, ◌^◌, ℕ, IfSome, IfNone, decimal, map, true};
ghost use Rattle.basics.specs.Parts.{comma_parts};
ghost use Rattle.primitives.specs.Tables.{bit_in, bits_in, flag_names, number_in, proto_names, state_names};
ghost use Rattle.primitives.specs.Words.{SpellsFlags, SpellsProto};
ghost use Rattle.primitives.specs.inner.Rows.{are_places, named};

use crate::tables::{FLAGS, PROTOCOLS, STATES, Word, number_of};
use addr_text::read_number;
use basics::parted;

/// Reads a connection's state, as iptables-extensions(8) names it for conntrack: INVALID is 0, NEW 1, RELATED 2,
/// ESTABLISHED 3 and UNTRACKED 4. None exactly where the text is none of these names.
#[tactic(auto, unfolding(crate::specs::Tables::state_names))]
pub fn read_state(text: &[u8]) -> Option<u8>
    ensures { result ≡ number_in state_names text.now }
{
    number_of(&STATES, text)
}

#[tactic(auto, unfolding(crate::specs::Tables::proto_names))]
fn proto_named(text: &[u8]) -> Option<u8>
    ensures { result ≡ number_in proto_names text.now }
{
    number_of(&PROTOCOLS, text)
}

/// Reads a protocol: a name that iptables(8) or its extensions give it (icmp 1, igmp 2, tcp 6, udp 17, dccp 33, gre 47,
/// esp 50, ah 51, ipv6-icmp and icmpv6 58, sctp 132, udplite 136), or a number to 255, which is `0` or begins with a
/// digit from 1 to 9. None exactly where the text is neither.
pub fn read_proto(text: &[u8]) -> Option<u8>
    ensures some { IfSome result (SpellsProto text.now) }
    ensures none { IfNone result ((n : ℕ) → SpellsProto text.now n → ⊥) }
{
    match proto_named(text) {
        Some(number) => Some(number),
        None => byte_number(text),
    }
}

/// Reads a number to 255.
fn byte_number(text: &[u8]) -> Option<u8>
    ensures some { IfSome result (λ n. text.now ≡ decimal n) }
    ensures none { IfNone result ((n : ℕ) → n ≤ 255 → text.now ≡ decimal n → ⊥) }
{
    match read_number(text, 255) {
        Some(number) => Some(number as u8),
        None => None,
    }
}

/// The number in which the bit of this place alone is set.
fn bit(place: u8) -> u8
    requires { place < 8 }
    ensures { result ≡ 2 ^ place }
{
    1 << place
}

/// The bit of the number of the first word of that name.
fn bit_named(words: &[Word], text: &[u8]) -> Option<u8>
    requires { are_places (map named words.now) ≡ true }
    ensures { result ≡ bit_in (map named words.now) text.now }
{
    match number_of(words, text) {
        Some(place) => Some(bit(place)),
        None => None,
    }
}

/// The bits of the words between commas together. None where some part is none of the words.
fn bits_of_list(words: &[Word], text: &[u8]) -> Option<u8>
    requires { are_places (map named words.now) ≡ true }
    ensures { result ≡ bits_in (map named words.now) (comma_parts text.now) }
{
    let mut rest = text;
    let mut bits = 0;
    while let Some((part, after)) = parted(rest, b',') {
        bits |= bit_named(words, part)?;
        rest = after;
    }
    let last = bit_named(words, rest)?;
    Some(bits | last)
}

/// Reads names of states with commas between them: the bit of each state's number is set. A name may stand there twice.
/// None exactly where some part is no state's name.
#[tactic(auto, unfolding(crate::specs::Tables::state_names))]
pub fn read_states(text: &[u8]) -> Option<u8>
    ensures { result ≡ bits_in state_names (comma_parts text.now) }
{
    bits_of_list(&STATES, text)
}

/// Reads names of flags with commas between them.
#[tactic(auto, unfolding(crate::specs::Tables::flag_names))]
fn read_flag_list(text: &[u8]) -> Option<u8>
    ensures { result ≡ bits_in flag_names (comma_parts text.now) }
{
    bits_of_list(&FLAGS, text)
}

/// Reads flags of tcp, as `--tcp-flags` of iptables-extensions(8) has them: ALL is 63, NONE is 0, and else names of
/// flags with commas between them are the sum of these flags: FIN 1, SYN 2, RST 4, PSH 8, ACK 16, URG 32. A name may
/// stand there twice. None exactly where the text is none of these: ALL and NONE stand alone, and no part is empty.
pub fn read_flags(text: &[u8]) -> Option<u8>
    ensures some { IfSome result (SpellsFlags text.now) }
    ensures none { IfNone result ((flags : ℕ) → SpellsFlags text.now flags → ⊥) }
{
    if text == b"ALL".as_slice() {
        return Some(63);
    }
    if text == b"NONE".as_slice() {
        return Some(0);
    }
    read_flag_list(text)
}
