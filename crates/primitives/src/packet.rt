ghost use Rattle.std.specs.Prelude.{◌≡◌, ◌↔◌, ◌<◌, ◌^◌, IsTrue};
ghost use Rattle.primitives.specs.Holds.{IsValid};

use crate::prim::Packet;

/// Whether the value is below 2 ^ W.
fn fits<const W: u32>(value: u128) -> bool
    ensures { IsTrue result ↔ (value < 2 ^ W) }
{
    W >= 128 || value >> W == 0
}

/// Whether the packet is one of addresses of W bits: the source and the destination are below 2 ^ W, the flags below 64
/// and the state below 5.
pub fn valid<const W: u32>(p: &Packet) -> bool
    ensures { IsTrue result ↔ IsValid W p.now }
{
    is_valid::<W>(p, p.in_name.as_slice(), p.out_name.as_slice())
}

/// `valid`, of a packet with these names.
fn is_valid<const W: u32>(p: &Packet, in_name: &[u8], out_name: &[u8]) -> bool
    requires input { in_name.now ≡ p.now.in_name }
    requires output { out_name.now ≡ p.now.out_name }
    ensures { IsTrue result ↔ IsValid W p.now }
{
    let (_proto, _sport, _dport, _icmp) = (p.proto, p.sport, p.dport, p.icmp);
    if !fits::<W>(p.src) {
        return false;
    }
    if !fits::<W>(p.dst) {
        return false;
    }
    if p.flags >= 64 {
        return false;
    }
    p.state < 5
}
