ghost use Rattle.std.specs.Prelude.{◌≡◌, ◌++◌, ◌∷◌, [], IfErr, IfOk, OnOk, codes, decimal};
ghost use Rattle.interval_set.specs.Numbers.{IsWidth};
ghost use Rattle.iface_space.specs.Routes.{AreHops};
ghost use Rattle.request.specs.Requests.{AreSpaces};
ghost use Rattle.request.specs.Spaces as words;
ghost use Rattle.request.specs.Spaces.{AreZones, HavePrefixes, HaveRanges};
ghost use Rattle.fffuu_run.specs.Respecting as spec;
ghost use Rattle.fffuu_run.specs.Spaces.{count_line, ranges_or_none, unnamed_text};

use crate::Status;
use addr_text::Family;
use dump_print::pattern_text;
use fw_rule::Dump;
use fw_text::ranges_text;
use iface_space::{RouteFault, Routes, ZoneFault, Zones, assigned, routed};
use interval_set::Set;
use name_set::Pattern;
use primitives::Prim_;
use request::{Claim, Hop, routes_of, zones_of};
use std::alloc::{AllocError, Global};

/// The zones of claims of a request.
pub fn claimed_zones<const W: u32>(alloc: Global, claims: &[Claim]) -> Result<Zones<W>, Status>
    requires width { IsWidth W }
    requires ranges { HaveRanges W claims.now }
    requires zones { AreZones W claims.now }
    ensures same { IfOk result (λ zones. zones ≡ words.zones_of W claims.now) }
    ensures refused { IfErr result (λ s. s ≡ Status.Memory) }
{
    match zones_of(alloc, claims) {
        Ok(zones) => Ok(zones),
        Err(ZoneFault::Memory) => Err(Status::Memory),
        Err(ZoneFault::Repeated { .. }) => unreachable!(),
        Err(ZoneFault::Overlap { .. }) => unreachable!(),
    }
}

/// The table of the hops of a request.
pub fn asked_routes<const W: u32>(alloc: Global, hops: &[Hop]) -> Result<Routes<W>, Status>
    requires width { IsWidth W }
    requires hops { AreHops W hops.now }
    requires prefixes { HavePrefixes W hops.now }
    ensures same { IfOk result (λ routes. routes ≡ words.routes_of W hops.now) }
    ensures refused { IfErr result (λ s. s ≡ Status.Memory) }
{
    match routes_of(alloc, hops) {
        Ok(routes) => Ok(routes),
        Err(RouteFault::Memory) => Err(Status::Memory),
        Err(RouteFault::Repeated { .. }) => unreachable!(),
    }
}

// The dump with tests of sources in place of those of input interfaces, where there are zones.
fn with_zones<const W: u32>(
    alloc: Global,
    dump: Dump<Prim_<W>>,
    claims: &[Claim],
) -> Result<Dump<Prim_<W>>, Status>
    requires width { IsWidth W }
    requires ranges { HaveRanges W claims.now }
    requires zones { AreZones W claims.now }
    ensures same { IfOk result (λ other. other ≡ spec.with_zones claims.now dump.entry) }
    ensures refused { IfErr result (λ s. s ≡ Status.Memory) }
{
    if claims.is_empty() {
        return Ok(dump);
    }
    let zones = claimed_zones(alloc, claims)?;
    Ok(assigned(alloc, &dump, &zones)?)
}

// The dump with tests of destinations in place of those of output interfaces, where there are routes.
fn with_routes<const W: u32>(
    alloc: Global,
    dump: Dump<Prim_<W>>,
    hops: &[Hop],
) -> Result<Dump<Prim_<W>>, Status>
    requires width { IsWidth W }
    requires hops { AreHops W hops.now }
    requires prefixes { HavePrefixes W hops.now }
    ensures same { IfOk result (λ other. other ≡ spec.with_routes hops.now dump.entry) }
    ensures refused { IfErr result (λ s. s ≡ Status.Memory) }
{
    if hops.is_empty() {
        return Ok(dump);
    }
    let routes = asked_routes(alloc, hops)?;
    Ok(routed(alloc, &dump, &routes)?)
}

/// The dump with what zones and routes tell in place of tests of interfaces.
pub fn with_spaces<const W: u32>(
    alloc: Global,
    dump: Dump<Prim_<W>>,
    claims: &[Claim],
    hops: &[Hop],
) -> Result<Dump<Prim_<W>>, Status>
    requires width { IsWidth W }
    requires spaces { AreSpaces W claims.now hops.now }
    ensures same { IfOk result (λ other. other ≡ spec.with_spaces claims.now hops.now dump.entry) }
    ensures refused { IfErr result (λ s. s ≡ Status.Memory) }
{
    let assigned = with_zones(alloc, dump, claims)?;
    with_routes(alloc, assigned, hops)
}

/// Appends a line of a word and a number.
pub fn append_count(
    alloc: Global,
    word: &str,
    count: u128,
    out: &mut Vec<u8>,
) -> Result<(), AllocError>
    ensures { OnOk result (out.new.items ≡ out.old.items ++ count_line word.now count) }
{
    out.extend_from_slice(format!(in alloc; "{word} {count}\n")?.as_bytes())
}

/// Appends the ranges of a set, or `none`.
pub fn append_ranges<F: Family<W>, const W: u32>(
    alloc: Global,
    set: &Set<W>,
    out: &mut Vec<u8>,
) -> Result<(), AllocError>
    ensures { OnOk result (out.new.items ≡ out.old.items ++ ranges_or_none F.text_of set.now) }
{
    if set.ranges().is_empty() {
        return out.extend_from_slice(b"none");
    }
    ranges_text::<F, W>(alloc, set, out)
}

/// Appends how many patterns no interface answers to, and a line for each.
pub fn append_unnamed(
    alloc: Global,
    patterns: &[Pattern],
    out: &mut Vec<u8>,
) -> Result<(), AllocError>
    ensures { OnOk result (out.new.items ≡ out.old.items ++ unnamed_text patterns.now) }
{
    append_count(alloc, "unnamed", patterns.len() as u128, out)?;
    for pattern in patterns {
        pattern_text(pattern, out)?;
        out.push(b'\n')?;
    }
    Ok(())
}
