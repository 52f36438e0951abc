ghost use Rattle.std.specs.Prelude.{◌≡◌, ◌<◌, ◌≤◌, ◌^◌, ◌==◌, ℕ, map, IfOk, IfSome, IfNone, IsErrOf, List as ListOf};
ghost use Rattle.std.specs.List.{AllZip};
ghost use Rattle.interval_set.specs.Numbers.{IsWidth};
ghost use Rattle.iface_space.specs.Routes.{IsHop};
ghost use Rattle.iface_space.specs.declared.hop.Hop.{Hop as AnyHop};
ghost use Rattle.request.specs.Arguments.{IsNet, IsRoute, SpellRoutes, is_route};
ghost use Rattle.request.specs.Fields.{SaysAddress};
ghost use Rattle.request.specs.Requests.{width_of};

use crate::SpellFault;
use crate::claims::read_prefix;
use crate::fields::value_after;
use crate::spaces::are_routes;
use addr_text::{Family, V4, V6};
use basics::parted;
use iface_space::Hop;
use match_expr::{Bytes, List};
use std::alloc::Global;

/// Whether an argument is a route.
pub fn is_route(text: &[u8]) -> bool
    ensures { result ≡ is_route text.now }
{
    text.starts_with(b"via:")
}

// The address and the length of a net: `ADDRESS/LENGTH`, or an address alone, of which all bits count.
fn net_of<F: Family<W>, const W: u32>(text: &[u8]) -> Option<(u128, u32)>
    ensures some { IfSome result (λ p. IsNet F.Reads W text.now p.0 p.1) }
    ensures none { IfNone result ((address len : ℕ) → IsNet F.Reads W text.now address len → ⊥) }
{
    if let Some(prefix) = read_prefix::<F, W>(text) {
        return Some(prefix);
    }
    let address = F::read(text)?;
    Some((address, W))
}

// The hop of a text `via:NET=NAME`.
fn hop_of<F: Family<W>, const W: u32>(alloc: Global, text: &[u8]) -> Result<Hop, SpellFault>
    ensures ok { IfOk result (IsRoute F.Reads W text.now) }
    ensures usage { IsErrOf result SpellFault.Usage → (hop : AnyHop) → IsRoute F.Reads W text.now hop → ⊥ }
{
    let Some(rest) = value_after(b"via:", text) else {
        return Err(SpellFault::Usage);
    };
    let Some((net, name)) = parted(rest, b'=') else {
        return Err(SpellFault::Usage);
    };
    if name.is_empty() {
        return Err(SpellFault::Usage);
    }
    let Some((value, len)) = net_of::<F, W>(net) else {
        return Err(SpellFault::Usage);
    };
    Ok(Hop {
        value,
        len,
        name: Bytes::of(name.to_vec(alloc)?),
    })
}

// The hops of the arguments, in their order.
fn read_hops<F: Family<W>, const W: u32>(
    alloc: Global,
    arguments: &[&str],
) -> Result<List<Hop>, SpellFault>
    ensures ok { IfOk result (AllZip (IsRoute F.Reads W) (map (λ s. s.now) arguments.now)) }
    ensures usage { IsErrOf result SpellFault.Usage → (hops : ListOf AnyHop) → AllZip (IsRoute F.Reads W) (map (λ s. s.now) arguments.now) hops → ⊥ }
{
    let mut hops = Vec::new(alloc);
    for argument in arguments {
        hops.push(hop_of::<F, W>(alloc, argument.as_bytes())?)?;
    }
    Ok(List::of(hops))
}

// The hops of the arguments, where these are a table.
fn read_table<F: Family<W>, const W: u32>(
    alloc: Global,
    arguments: &[&str],
) -> Result<List<Hop>, SpellFault>
    requires { IsWidth W }
    ensures ok { IfOk result (SpellRoutes F.Reads W (map (λ s. s.now) arguments.now)) }
    ensures usage { IsErrOf result SpellFault.Usage → (hops : ListOf AnyHop) → SpellRoutes F.Reads W (map (λ s. s.now) arguments.now) hops → ⊥ }
{
    let hops = read_hops::<F, W>(alloc, arguments)?;
    are_routes::<W>(alloc, hops.as_slice())?;
    Ok(hops)
}

/// The routes of arguments `via:NET=NAME`, in their order. A net is an address of the family, IPv6 where `six` is true, or
/// `ADDRESS/LENGTH`, and goes up to the first `=`; a name is taken as it stands and isn't empty.
///
/// # Errors
///
/// `Usage` exactly where an argument has no such form or two have the same prefix, or `Memory`.
pub fn routes_in(alloc: Global, six: bool, arguments: &[&str]) -> Result<List<Hop>, SpellFault>
    ensures ok { IfOk result (SpellRoutes (SaysAddress six) (width_of six) (map (λ s. s.now) arguments.now)) }
    ensures usage { IsErrOf result SpellFault.Usage → (hops : ListOf AnyHop) → SpellRoutes (SaysAddress six) (width_of six) (map (λ s. s.now) arguments.now) hops → ⊥ }
{
    if six {
        read_table::<V6, 128>(alloc, arguments)
    } else {
        read_table::<V4, 32>(alloc, arguments)
    }
}
