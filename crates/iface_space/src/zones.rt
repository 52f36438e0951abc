ghost use Rattle.std.specs.Prelude.{◌≡◌, ◌<◌, ◌^◌, ◌↔◌, ⊤, true, false, take, length, IfErr, IfOk, IfSome, IfNone, IsTrue, List as ListOf, ℕ, Bool};
ghost use Rattle.interval_set.specs.Numbers.{IsWidth, has};
ghost use Rattle.interval_set.specs.Spelling.{set_not};
ghost use Rattle.name_set.specs.Patterns.{fits};
ghost use Rattle.iface_space.specs.First.{IsFirst};
ghost use Rattle.iface_space.specs.Zones.{sources_of, has_zone_named, is_behind, HasEarlierName, HasEarlierAddress, NamesDiffer, AreApart, Refuses};

use interval_set::Set;
use match_expr::{Bytes, List};
use name_set::Pattern;
use std::alloc::{AllocError, Global};
use std::marker::Model;
use thiserror::Error;

/// An interface, and the sources that live behind it. W is the number of bits of an address, 32 or 128.
#[derive(Drop)]
pub struct Zone<const W: u32> {
    /// The interface's name: any bytes.
    pub name: Bytes,
    /// The addresses behind it.
    pub inside: Set<W>,
}

/// Zones with names of their own, of which no two have an address in common.
#[derive(Drop)]
pub struct Zones<const W: u32> {
    zones: List<Zone<W>>,
}

impl<const W: u32> Model for Zones<W> {
    ghost use Rattle.std.specs.Prelude.{List};
    ghost use Rattle.iface_space.specs.declared.zones.Zone.{Zone};
    ghost use Rattle.interval_set.specs.Numbers.{IsWidth};
    ghost use Rattle.iface_space.specs.Zones.{NamesDiffer, AreApart};

    ghost Value = { List (Zone W) };

    ghost view = { λ it. it.zones };

    ghost invariant = { λ it. IsWidth W × NamesDiffer it.zones × AreApart it.zones };
}

/// Why zones are refused. Zones count from 0.
#[derive(Debug, Drop, Error)]
pub enum ZoneFault {
    /// This zone is the first whose name an earlier one has.
    #[error("zone {at} has the name of an earlier one")]
    Repeated { at: u32 },
    /// No name repeats, and this zone is the first that has an address of an earlier one.
    #[error("zone {at} has an address of an earlier one")]
    Overlap { at: u32 },
    /// Memory ran out.
    #[error("out of memory")]
    Memory,
}

impl From<AllocError> for ZoneFault {
    ghost use Rattle.std.specs.Prelude.{◌≡◌};
    ghost use Rattle.iface_space.specs.declared.zones.ZoneFault.TheVariants.{Memory};

    ghost from_gives = { λ _ e. e ≡ Memory };

    fn from(_: AllocError) -> Self {
        ZoneFault::Memory
    }
}

/// Whether two zones have the same name.
fn same_name<const W: u32>(a: &Zone<W>, b: &Zone<W>) -> bool
    ensures { IsTrue result ↔ (a.now.name ≡ b.now.name) }
{
    a.name.as_slice() == b.name.as_slice()
}

/// Whether a zone before this one has its name.
fn has_earlier_name<const W: u32>(zones: &[Zone<W>], at: usize) -> bool
    requires { at < length zones.now }
    ensures { IsTrue result ↔ HasEarlierName zones.now at }
{
    for i in 0..at {
        if same_name(&zones[i], &zones[at]) {
            return true;
        }
    }
    false
}

/// The first zone that has the name of an earlier one.
fn first_repeated<const W: u32>(zones: &[Zone<W>]) -> Option<usize>
    ensures some { IfSome result (λ at. (at < length zones.now) × IsFirst (HasEarlierName zones.now) at) }
    ensures none { IfNone result (NamesDiffer zones.now) }
{
    for at in 0..zones.len() {
        if has_earlier_name(zones, at) {
            return Some(at);
        }
    }
    None
}

/// The first zone that has an address of an earlier one.
fn first_overlap<const W: u32>(
    alloc: Global,
    zones: &[Zone<W>],
) -> Result<Option<usize>, AllocError>
    requires { IsWidth W }
    ensures some { IfOk result (λ o. IfSome o (λ at. (at < length zones.now) × IsFirst (HasEarlierAddress zones.now) at)) }
    ensures none { IfOk result (λ o. IfNone o (AreApart zones.now)) }
{
    let mut seen = Set::<W>::empty(alloc);
    for at in 0..zones.len() {
        let inside = &zones[at].inside;
        let common = seen.and(alloc, inside)?;
        if common.least().is_some() {
            return Ok(Some(at));
        }
        seen = seen.or(alloc, inside)?;
    }
    Ok(None)
}

impl<const W: u32> Zones<W> {
    /// Zones of these names and sources. W is 32 or 128. A list that is refused is dropped.
    ///
    /// # Errors
    ///
    /// `Repeated` exactly where a zone has the name of an earlier one, with the first such zone. `Overlap` exactly where
    /// none has and a zone has an address of an earlier one, with the first such zone. `Memory` where memory runs out.
    pub fn new(alloc: Global, list: List<Zone<W>>) -> Result<Zones<W>, ZoneFault>
        requires width { IsWidth W }
        requires count { length list < 2 ^ 32 }
        ensures same { IfOk result (λ z. z ≡ list.entry) }
        ensures valid { IfOk result (λ z. NamesDiffer list.entry × AreApart list.entry) }
        ensures refused { IfErr result (Refuses list.entry) }
    {
        let zones = list.as_slice();
        if let Some(at) = first_repeated(zones) {
            return Err(ZoneFault::Repeated { at: at as u32 });
        }
        if let Some(at) = first_overlap(alloc, zones)? {
            return Err(ZoneFault::Overlap { at: at as u32 });
        }
        Ok(Zones { zones: list })
    }

    /// The zones, in their order.
    pub fn list(&self) -> &[Zone<W>]
        ensures same { result.now ≡ self.now }
        ensures width { IsWidth W }
        ensures names { NamesDiffer self.now }
        ensures addresses { AreApart self.now }
    {
        self.zones.as_slice()
    }

    /// Whether the pattern matches the name of a zone.
    pub(crate) fn has_named(&self, by: &Pattern) -> bool
        ensures { result ≡ has_zone_named self.now by.now }
    {
        for zone in self.list() {
            if by.matches(zone.name.as_slice()) {
                return true;
            }
        }
        false
    }

    /// The addresses of the zones whose name the pattern matches. The one refusal is want of memory.
    pub fn sources(&self, alloc: Global, by: &Pattern) -> Result<Set<W>, AllocError>
        ensures { IfOk result (λ s. s ≡ sources_of self.now (fits by.now)) }
    {
        let zones = self.list();
        let mut found = Set::<W>::empty(alloc);
        for zone in zones {
            let name = zone.name.as_slice();
            if by.matches(name) {
                found = found.or(alloc, &zone.inside)?;
            }
        }
        Ok(found)
    }

    /// The addresses that no zone has. The one refusal is want of memory.
    pub fn uncovered(&self, alloc: Global) -> Result<Set<W>, AllocError>
        ensures { IfOk result (λ s. s ≡ set_not W (sources_of self.now (λ name. true))) }
    {
        let every = Pattern::Prefix(Bytes::of(Vec::new(alloc)));
        let covered = self.sources(alloc, &every)?;
        covered.not(alloc)
    }
}
