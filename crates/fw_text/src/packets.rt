ghost use Rattle.std.specs.Prelude.{◌≡◌, ◌++◌, OnErr, OnOk};
ghost use Rattle.primitives.specs.Holds.{IsValid};
ghost use Rattle.fw_text.specs.Packets.{addresses_text, names_text, numbers_text, packet_text, rest_text};

use crate::names::shown;
use addr_text::Family;
use primitives::{Packet, append_flags, append_number, append_state};
use std::alloc::{AllocError, Global};

// Appends the shown names of both interfaces.
fn append_names(alloc: Global, p: &Packet, out: &mut Vec<u8>) -> Result<(), AllocError>
    ensures { OnOk result (out.new.items ≡ out.old.items ++ names_text p.now) }
{
    out.extend_from_slice(b" in=")?;
    shown(alloc, p.in_name.as_slice(), out)?;
    out.extend_from_slice(b" out=")?;
    shown(alloc, p.out_name.as_slice(), out)
}

// Appends both addresses.
fn append_addresses<F: Family<W>, const W: u32>(
    p: &Packet,
    out: &mut Vec<u8>,
) -> Result<(), AllocError>
    requires { IsValid W p.now }
    ensures { OnOk result (out.new.items ≡ out.old.items ++ addresses_text F.text_of p.now) }
{
    out.extend_from_slice(b" src=")?;
    F::write(p.src, out)?;
    out.extend_from_slice(b" dst=")?;
    F::write(p.dst, out)
}

// Appends the numbers of the protocol and of both ports.
fn append_numbers(alloc: Global, p: &Packet, out: &mut Vec<u8>) -> Result<(), AllocError>
    ensures { OnOk result (out.new.items ≡ out.old.items ++ numbers_text p.now) }
{
    let text = format!(in alloc; " proto={} sport={} dport={}", p.proto, p.sport, p.dport)?;
    out.extend_from_slice(text.as_bytes())
}

// Appends the flags, the state and the type of a message.
fn append_rest(p: &Packet, out: &mut Vec<u8>) -> Result<(), AllocError>
    ensures { OnOk result (out.new.items ≡ out.old.items ++ rest_text p.now) }
{
    out.extend_from_slice(b" flags=")?;
    append_flags(p.flags, out)?;
    out.extend_from_slice(b" state=")?;
    append_state(p.state, out)?;
    out.extend_from_slice(b" icmp=")?;
    append_number(p.icmp as u128, out)
}

/// Appends the fields of a valid packet, with a space before each: ` in=I out=O src=A dst=B proto=N sport=P dport=Q flags=F state=S icmp=T`.
/// I and O are the shown names of the interfaces, N, P, Q and T are decimal numbers, F is a list of flags of tcp or NONE, and S is the
/// state's name. W is the number of bits of an address. Without memory `out` is as before.
pub fn packet_text<F: Family<W>, const W: u32>(
    alloc: Global,
    p: &Packet,
    out: &mut Vec<u8>,
) -> Result<(), AllocError>
    requires { IsValid W p.now }
    ensures ok { OnOk result (out.new.items ≡ out.old.items ++ packet_text F.text_of p.now) }
    ensures err { OnErr result (out.new.items ≡ out.old.items) }
{
    let mut text = Vec::new(alloc);
    append_names(alloc, p, &mut text)?;
    append_addresses::<F, W>(p, &mut text)?;
    append_numbers(alloc, p, &mut text)?;
    append_rest(p, &mut text)?;
    out.extend_from_slice(&text)
}
