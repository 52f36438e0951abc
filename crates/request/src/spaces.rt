ghost use Rattle.std.specs.Prelude.{◌≡◌, map, IfErr, IfOk, IsErrOf, OnOk};
ghost use Rattle.std.specs.List.{AllByRecursion};
ghost use Rattle.interval_set.specs.Numbers.{IsWidth};
ghost use Rattle.primitives.specs.Ranges.{IsRange};
ghost use Rattle.iface_space.specs.Routes.{AreHops, Refuses as RefusesRoutes};
ghost use Rattle.iface_space.specs.Zones.{Refuses as RefusesZones};
ghost use Rattle.request.specs.Spaces as spec;
ghost use Rattle.request.specs.Spaces.{AreZones, HavePrefixes, HaveRanges};

use crate::{Claim, SpellFault};
use iface_space::{Hop, RouteFault, Routes, Zone, ZoneFault, Zones};
use interval_set::{Range, Set};
use match_expr::{Bytes, List};
use std::alloc::{AllocError, Global};

/// The set of some ranges of addresses of W bits. The one refusal is want of memory.
pub fn set_of<const W: u32>(alloc: Global, ranges: &[Range]) -> Result<Set<W>, AllocError>
    requires width { IsWidth W }
    requires ranges { AllByRecursion (IsRange W) ranges.now }
    ensures { IfOk result (λ set. set ≡ spec.set_of W ranges.now) }
{
    let mut set = Set::empty(alloc);
    for range in ranges {
        set = set.or(alloc, &Set::range(alloc, range.lo, range.hi)?)?;
    }
    Ok(set)
}

// The interface of a claim with the set of the addresses behind it.
fn zone_of<const W: u32>(alloc: Global, claim: &Claim) -> Result<Zone<W>, AllocError>
    requires width { IsWidth W }
    requires ranges { AllByRecursion (IsRange W) claim.now.inside }
    ensures { IfOk result (λ zone. zone ≡ spec.zone_of W claim.now) }
{
    let inside = set_of(alloc, claim.inside.as_slice())?;
    Ok(Zone {
        name: Bytes::of(claim.name.as_slice().to_vec(alloc)?),
        inside,
    })
}

fn zone_list<const W: u32>(alloc: Global, claims: &[Claim]) -> Result<List<Zone<W>>, AllocError>
    requires width { IsWidth W }
    requires ranges { HaveRanges W claims.now }
    ensures { IfOk result (λ zones. zones ≡ spec.zones_of W claims.now) }
{
    let mut zones = Vec::new(alloc);
    for claim in claims {
        zones.push(zone_of(alloc, claim)?)?;
    }
    Ok(List::of(zones))
}

/// The zones of some claims. W is 32 or 128.
///
/// # Errors
///
/// Those of [`Zones::new`].
pub fn zones_of<const W: u32>(alloc: Global, claims: &[Claim]) -> Result<Zones<W>, ZoneFault>
    requires width { IsWidth W }
    requires ranges { HaveRanges W claims.now }
    ensures same { IfOk result (λ zones. zones ≡ spec.zones_of W claims.now) }
    ensures valid { OnOk result (AreZones W claims.now) }
    ensures refused { IfErr result (RefusesZones (spec.zones_of W claims.now)) }
{
    let zones = zone_list(alloc, claims)?;
    if zones.as_slice().len() > u32::MAX as usize {
        return Err(ZoneFault::Memory);
    }
    Zones::new(alloc, zones)
}

fn copied(alloc: Global, hop: &Hop) -> Result<Hop, AllocError>
    ensures { IfOk result (λ copy. copy ≡ hop.now) }
{
    Ok(Hop {
        value: hop.value,
        len: hop.len,
        name: Bytes::of(hop.name.as_slice().to_vec(alloc)?),
    })
}

fn hop_list(alloc: Global, hops: &[Hop]) -> Result<List<Hop>, AllocError>
    ensures { IfOk result (λ list. list ≡ hops.now) }
{
    let mut list = Vec::new(alloc);
    for hop in hops {
        list.push(copied(alloc, hop)?)?;
    }
    Ok(List::of(list))
}

/// The table of some hops. W is 32 or 128.
///
/// # Errors
///
/// Those of [`Routes::new`].
pub fn routes_of<const W: u32>(alloc: Global, hops: &[Hop]) -> Result<Routes<W>, RouteFault>
    requires width { IsWidth W }
    requires hops { AreHops W hops.now }
    ensures same { IfOk result (λ routes. routes ≡ spec.routes_of W hops.now) }
    ensures valid { OnOk result (HavePrefixes W hops.now) }
    ensures refused { IfErr result (RefusesRoutes (spec.routes_of W hops.now)) }
{
    let list = hop_list(alloc, hops)?;
    if list.as_slice().len() > u32::MAX as usize {
        return Err(RouteFault::Memory);
    }
    Routes::new(alloc, list)
}

/// That claims are zones. `Usage` exactly where two have one name or a common address.
pub fn are_zones<const W: u32>(alloc: Global, claims: &[Claim]) -> Result<(), SpellFault>
    requires width { IsWidth W }
    requires ranges { HaveRanges W claims.now }
    ensures ok { OnOk result (AreZones W claims.now) }
    ensures usage { IsErrOf result SpellFault.Usage → AreZones W claims.now → ⊥ }
{
    match zones_of::<W>(alloc, claims) {
        Ok(_) => Ok(()),
        Err(ZoneFault::Memory) => Err(SpellFault::Memory),
        Err(ZoneFault::Repeated { .. }) => Err(SpellFault::Usage),
        Err(ZoneFault::Overlap { .. }) => Err(SpellFault::Usage),
    }
}

/// That hops are a table. `Usage` exactly where two have the same prefix.
pub fn are_routes<const W: u32>(alloc: Global, hops: &[Hop]) -> Result<(), SpellFault>
    requires width { IsWidth W }
    requires hops { AreHops W hops.now }
    ensures ok { OnOk result (HavePrefixes W hops.now) }
    ensures usage { IsErrOf result SpellFault.Usage → HavePrefixes W hops.now → ⊥ }
{
    match routes_of::<W>(alloc, hops) {
        Ok(_) => Ok(()),
        Err(RouteFault::Memory) => Err(SpellFault::Memory),
        Err(RouteFault::Repeated { .. }) => Err(SpellFault::Usage),
    }
}
