ghost use Rattle.std.specs.Prelude.{◌≡◌, ◌<◌, ◌^◌, ℕ};
ghost use Rattle.primitives.specs.Holds.{IsValid};
ghost use Rattle.service_packet.specs.Packets.{opening_flags, opening_type, service_packet};

use match_expr::Bytes;
use primitives::Packet;
use std::alloc::Global;

/// A service: a protocol and two ports. A protocol without ports has them too, and no test looks at them.
#[derive(Clone, Copy, Debug, PartialEq, Eq)]
pub struct Service {
    /// The protocol's number, as IANA assigns them.
    pub proto: u8,
    /// The source port.
    pub sport: u16,
    /// The destination port.
    pub dport: u16,
}

// SYN alone where the protocol is tcp, and no flag else.
fn opening_flags(proto: u8) -> u8
    ensures { result ≡ opening_flags proto }
{
    if proto == 6 { 2 } else { 0 }
}

// The type of a message that asks for an echo, where the protocol is icmp or ipv6-icmp, and 0 else.
fn opening_type(proto: u8) -> u8
    ensures { result ≡ opening_type proto }
{
    match proto {
        1 => 8,
        58 => 128,
        _ => 0,
    }
}

// The packet that opens a connection from one address to another, with this protocol and these ports.
fn opening_packet(alloc: Global, proto: u8, sport: u16, dport: u16, s: u128, d: u128) -> Packet
    ensures is { result ≡ service_packet (record { proto = proto; sport = sport; dport = dport }) s d }
    ensures valid { (W : ℕ) → s < 2 ^ W → d < 2 ^ W → IsValid W result }
{
    Packet {
        in_name: Bytes::of(Vec::new(alloc)),
        out_name: Bytes::of(Vec::new(alloc)),
        src: s,
        dst: d,
        proto,
        sport,
        dport,
        flags: opening_flags(proto),
        state: 1,
        icmp: opening_type(proto),
    }
}

impl Service {
    /// The packet that opens the service from one address to another: it has the service's protocol and ports, the flag SYN
    /// alone where the protocol is tcp and no flag else, the state NEW, the type of an echo request where the protocol is icmp
    /// (8) or ipv6-icmp (128) and 0 else, and two empty names.
    pub fn packet(&self, alloc: Global, s: u128, d: u128) -> Packet
        ensures is { result ≡ service_packet self.now s d }
        ensures valid { (W : ℕ) → s < 2 ^ W → d < 2 ^ W → IsValid W result }
    {
        opening_packet(alloc, self.proto, self.sport, self.dport, s, d)
    }
}
