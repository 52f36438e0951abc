ghost use Rattle.std.specs.Prelude.{◌≡◌, ◌+◌, ◌<◌, ◌^◌, ◌↔◌, ℕ, List as ListOf, true, false, map, length, slice_get, Some, IfErr, IfOk, IfSome, IfNone, IsTrue, if◌then◌else◌};
ghost use Rattle.interval_set.specs.Numbers.{IsSet, IsWidth, has};
ghost use Rattle.name_set.specs.Patterns.{fits};
ghost use Rattle.iface_space.specs.declared.hop.Hop.{Hop};
ghost use Rattle.iface_space.specs.First.{IsFirst};
ghost use Rattle.iface_space.specs.Routes as spec;
ghost use Rattle.iface_space.specs.Routes.{AreCleared, AreHops, HasEarlierPrefix, IsHop, IsNext, PrefixesDiffer, Refuses, has_hop_named, is_routed, targets_of, unrouted_of};
ghost use Rattle.iface_space.specs.inner.Longest.{IsBestOf, Told};

use crate::hop::{Hop, cleared, holds};
use interval_set::Set;
use match_expr::List;
use name_set::Pattern;
use std::alloc::{AllocError, Global};
use std::marker::Model;
use thiserror::Error;

/// A table of routes, of which no two have the same prefix. The longest prefix that has an address decides. W is the
/// number of bits of an address, 32 or 128.
#[derive(Drop)]
pub struct Routes<const W: u32> {
    hops: List<Hop>,
}

impl<const W: u32> Model for Routes<W> {
    ghost use Rattle.std.specs.Prelude.{List};
    ghost use Rattle.iface_space.specs.declared.hop.Hop.{Hop};
    ghost use Rattle.interval_set.specs.Numbers.{IsWidth};
    ghost use Rattle.iface_space.specs.Routes.{AreCleared, AreHops, PrefixesDiffer};

    ghost Value = { List Hop };

    ghost view = { λ it. it.hops };

    ghost invariant = { λ it. IsWidth W × AreHops W it.hops × AreCleared W it.hops × PrefixesDiffer it.hops };
}

/// Why routes are refused. Hops count from 0.
#[derive(Debug, Drop, Error)]
pub enum RouteFault {
    /// This hop is the first that has the prefix of an earlier one.
    #[error("route {at} has the prefix of an earlier one")]
    Repeated { at: u32 },
    /// Memory ran out.
    #[error("out of memory")]
    Memory,
}

impl From<AllocError> for RouteFault {
    ghost use Rattle.std.specs.Prelude.{◌≡◌};
    ghost use Rattle.iface_space.specs.declared.routes.RouteFault.TheVariants.{Memory};

    ghost from_gives = { λ _ e. e ≡ Memory };

    fn from(_: AllocError) -> Self {
        RouteFault::Memory
    }
}

/// The hops with the bits of their values past their lengths cleared.
fn all_cleared<const W: u32>(alloc: Global, list: List<Hop>) -> Result<List<Hop>, AllocError>
    requires { IsWidth W }
    ensures { IfOk result (λ l. l ≡ map (spec.cleared W) list) }
{
    let mut hops = Vec::new(alloc);
    for hop in list.into_vec() {
        hops.push(cleared::<W>(hop))?;
    }
    Ok(List::of(hops))
}

/// Whether two hops with cleared values have the same prefix.
fn same_prefix(a: &Hop, b: &Hop) -> bool
    ensures { IsTrue result ↔ ((a.now.value ≡ b.now.value) × (a.now.len ≡ b.now.len)) }
{
    a.value == b.value && a.len == b.len
}

/// Whether a hop before this one has its prefix.
fn has_earlier_prefix(hops: &[Hop], at: usize) -> bool
    requires { at < length hops.now }
    ensures { IsTrue result ↔ HasEarlierPrefix hops.now at }
{
    for i in 0..at {
        if same_prefix(&hops[i], &hops[at]) {
            return true;
        }
    }
    false
}

/// The first hop that has the prefix of an earlier one.
fn first_repeated(hops: &[Hop]) -> Option<usize>
    ensures some { IfSome result (λ at. (at < length hops.now) × IsFirst (HasEarlierPrefix hops.now) at) }
    ensures none { IfNone result (PrefixesDiffer hops.now) }
{
    for at in 0..hops.len() {
        if has_earlier_prefix(hops, at) {
            return Some(at);
        }
    }
    None
}

/// The one of two hops with the address that has the longer prefix, or the first of them.
fn better<const W: u32>(hops: &[Hop], d: u128, best: Option<usize>, at: usize) -> Option<usize>
    requires width { IsWidth W }
    requires below { d < 2 ^ W }
    requires there { at < length hops.now }
    requires best { IsBestOf W hops.now d at best }
    ensures { IsBestOf W hops.now d (at + 1) result }
{
    if !holds::<W>(&hops[at], d) {
        return best;
    }
    match best {
        Some(other) => {
            if hops[other].len < hops[at].len {
                Some(at)
            } else {
                Some(other)
            }
        }
        None => Some(at),
    }
}

/// The hop with the longest prefix that has the address.
fn longest<const W: u32>(hops: &[Hop], d: u128) -> Option<usize>
    requires width { IsWidth W }
    requires below { d < 2 ^ W }
    ensures { IsBestOf W hops.now d (length hops.now) result }
{
    let mut best = None;
    for at in 0..hops.len() {
        best = better::<W>(hops, d, best, at);
    }
    best
}

/// The set with the addresses of a hop added to it, or taken off.
fn with_hop<const W: u32>(
    alloc: Global,
    found: &Set<W>,
    hop: &Hop,
    counts: bool,
) -> Result<Set<W>, AllocError>
    requires width { IsWidth W }
    requires hop { IsHop W hop.now }
    ensures numbers { IfOk result (λ s. (n : ℕ) → has s n ≡ (if spec.holds W n hop.now then counts else has found.now n)) }
    ensures set { IfOk result (IsSet W) }
{
    let net = Set::<W>::prefix(alloc, hop.value, hop.len)?;
    if counts {
        found.or(alloc, &net)
    } else {
        found.minus(alloc, &net)
    }
}

/// What the hops of this length, over shorter ones, tell of the addresses that are sent out by interfaces of these names.
fn told_by<const W: u32>(
    alloc: Global,
    hops: &[Hop],
    by: &Pattern,
    len: u32,
    start: Set<W>,
) -> Result<Set<W>, AllocError>
    requires width { IsWidth W }
    requires hops { AreHops W hops.now }
    requires cleared { AreCleared W hops.now }
    requires differ { PrefixesDiffer hops.now }
    requires told { Told W hops.now (fits by.now) len 0 start }
    ensures { IfOk result (Told W hops.now (fits by.now) (len + 1) 0) }
{
    let mut found = start;
    for hop in hops {
        if hop.len != len {
            continue;
        }
        let counts = by.matches(hop.name.as_slice());
        found = with_hop(alloc, &found, hop, counts)?;
    }
    Ok(found)
}

impl<const W: u32> Routes<W> {
    /// Routes of these hops, with the bits of each value past its length cleared. W is 32 or 128, and each hop has a value
    /// of W bits and a length of at most W. A list that is refused is dropped.
    ///
    /// # Errors
    ///
    /// `Repeated` exactly where a hop has the prefix of an earlier one, with the first such hop. `Memory` where memory runs
    /// out.
    pub fn new(alloc: Global, list: List<Hop>) -> Result<Routes<W>, RouteFault>
        requires width { IsWidth W }
        requires hops { AreHops W list }
        requires count { length list < 2 ^ 32 }
        ensures same { IfOk result (λ r. r ≡ map (spec.cleared W) list) }
        ensures valid { IfOk result (λ r. PrefixesDiffer r) }
        ensures refused { IfErr result (Refuses (map (spec.cleared W) list)) }
    {
        let hops = all_cleared::<W>(alloc, list)?;
        if let Some(at) = first_repeated(hops.as_slice()) {
            return Err(RouteFault::Repeated { at: at as u32 });
        }
        Ok(Routes { hops })
    }

    /// The hops, in their order.
    pub fn list(&self) -> &[Hop]
        ensures same { result.now ≡ self.now }
        ensures width { IsWidth W }
        ensures hops { AreHops W self.now }
        ensures cleared { AreCleared W self.now }
        ensures prefixes { PrefixesDiffer self.now }
    {
        self.hops.as_slice()
    }

    /// The name of the interface that an address is sent out by: that of the longest prefix that has the address. `None`
    /// exactly where none has it.
    pub fn next(&self, d: u128) -> Option<&[u8]>
        requires { d < 2 ^ W }
        ensures some { IfSome result (λ name. (hop : Hop) × IsNext W self.now d hop × (name.now ≡ hop.name)) }
        ensures none { IfNone result (is_routed W self.now d ≡ false) }
    {
        let hops = self.list();
        match longest::<W>(hops, d) {
            Some(at) => Some(hops[at].name.as_slice()),
            None => None,
        }
    }

    /// Whether the pattern matches the name of a hop.
    pub(crate) fn has_named(&self, by: &Pattern) -> bool
        ensures { result ≡ has_hop_named self.now by.now }
    {
        for hop in self.list() {
            if by.matches(hop.name.as_slice()) {
                return true;
            }
        }
        false
    }

    /// The addresses that are sent out by an interface whose name the pattern matches. The one refusal is want of memory.
    pub fn targets(&self, alloc: Global, by: &Pattern) -> Result<Set<W>, AllocError>
        ensures { IfOk result (λ s. s ≡ targets_of W self.now (fits by.now)) }
    {
        let hops = self.list();
        let mut found = Set::<W>::empty(alloc);
        for len in 0..W + 1 {
            found = told_by(alloc, hops, by, len, found)?;
        }
        Ok(found)
    }

    /// The addresses that no prefix has. The one refusal is want of memory.
    pub fn unrouted(&self, alloc: Global) -> Result<Set<W>, AllocError>
        ensures { IfOk result (λ s. s ≡ unrouted_of W self.now) }
    {
        let hops = self.list();
        let mut routed = Set::<W>::empty(alloc);
        for hop in hops {
            let net = Set::<W>::prefix(alloc, hop.value, hop.len)?;
            routed = routed.or(alloc, &net)?;
        }
        routed.not(alloc)
    }
}
