ghost use Rattle.std.specs.Prelude.{◌≡◌, ◌≤◌, ◌<◌, ◌-◌, ◌*◌, ◌/◌, ◌^◌};
ghost use Rattle.interval_set.specs.Numbers.{IsWidth};
ghost use Rattle.interval_set.specs.Prefix.{in_prefix};
ghost use Rattle.iface_space.specs.Routes as spec;

use match_expr::Bytes;

/// A route: the interface that the addresses of a prefix are sent out by.
#[derive(Drop)]
pub struct Hop {
    /// An address of the prefix.
    pub value: u128,
    /// How many first bits the addresses of the prefix have in common.
    pub len: u32,
    /// The interface's name: any bytes.
    pub name: Bytes,
}

/// The value without so many of its last bits.
fn quotient(value: u128, free: u32) -> u128
    requires { free ≤ 128 }
    ensures { result ≡ value / 2 ^ free }
{
    if free == 128 {
        0
    } else {
        value / (1u128 << free)
    }
}

/// The value with so many of its last bits cleared.
fn without_low(value: u128, free: u32) -> u128
    requires { free ≤ 128 }
    ensures { result ≡ value / 2 ^ free * 2 ^ free }
{
    if free == 128 {
        0
    } else {
        quotient(value, free) * (1u128 << free)
    }
}

/// The hop with the bits of its value past its length cleared.
pub(crate) fn cleared<const W: u32>(hop: Hop) -> Hop
    requires { IsWidth W }
    ensures { result ≡ spec.cleared W hop }
{
    let value = without_low(hop.value, W.saturating_sub(hop.len));
    Hop {
        value,
        len: hop.len,
        name: hop.name,
    }
}

/// Whether the prefix of the hop has the address.
pub(crate) fn holds<const W: u32>(hop: &Hop, d: u128) -> bool
    requires width { IsWidth W }
    requires below { d < 2 ^ W }
    ensures { result ≡ spec.holds W d hop.now }
{
    let free = W.saturating_sub(hop.len);
    quotient(d, free) == quotient(hop.value, free)
}
