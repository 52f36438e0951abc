ghost use Rattle.std.specs.Prelude.{◌≡◌, ◌<◌, ◌≤◌, ◌^◌, ◌==◌, map, IfOk, IfSome, IfNone, IsErrOf, ℕ, List as ListOf};
ghost use Rattle.std.specs.List.{AllZip};
ghost use Rattle.basics.specs.Parts.{comma_parts};
ghost use Rattle.interval_set.specs.Numbers.{IsWidth};
ghost use Rattle.interval_set.specs.declared.set.Range.{Range as Numbers};
ghost use Rattle.request.specs.Arguments.{AreClaims, IsClaim, IsPart, IsPrefixOf, SpellZones};
ghost use Rattle.request.specs.Fields.{SaysAddress};
ghost use Rattle.request.specs.Requests.{width_of};
ghost use Rattle.request.specs.declared.types.Claim.{Claim as AnyClaim};

use crate::spaces::are_zones;
use crate::{Claim, SpellFault};
use addr_text::{Family, V4, V6, read_number, read_range};
use basics::{last_parted, parted};
use interval_set::{Range, Set};
use match_expr::{Bytes, List};
use std::alloc::Global;

/// The address and the length of a text `ADDRESS/LENGTH`.
pub fn read_prefix<F: Family<W>, const W: u32>(text: &[u8]) -> Option<(u128, u32)>
    ensures some { IfSome result (λ p. IsPrefixOf F.Reads W text.now p.0 p.1) }
    ensures fits { IfSome result (λ p. (p.0 < 2 ^ W) × (p.1 ≤ W)) }
    ensures none { IfNone result ((address len : ℕ) → IsPrefixOf F.Reads W text.now address len → ⊥) }
{
    let (front, back) = parted(text, b'/')?;
    let address = F::read(front)?;
    let length = read_number(back, W)?;
    Some((address, length))
}

// The range of a part of a set: an address, a prefix, or two addresses with `-` between them.
fn part_of<F: Family<W>, const W: u32>(alloc: Global, text: &[u8]) -> Result<Range, SpellFault>
    requires { IsWidth W }
    ensures ok { IfOk result (IsPart F.Reads W text.now) }
    ensures usage { IsErrOf result SpellFault.Usage → (r : Numbers) → IsPart F.Reads W text.now r → ⊥ }
{
    if let Some((address, length)) = read_prefix::<F, W>(text) {
        let prefix = Set::<W>::prefix(alloc, address, length)?;
        return Ok(prefix.ranges()[0]);
    }
    if let Some(range) = read_range::<F, W>(text) {
        return Ok(range);
    }
    match F::read(text) {
        Some(address) => Ok(Range {
            lo: address,
            hi: address,
        }),
        None => Err(SpellFault::Usage),
    }
}

// The ranges of the parts between commas, in their order.
fn ranges_of<F: Family<W>, const W: u32>(
    alloc: Global,
    set: &[u8],
) -> Result<Vec<Range>, SpellFault>
    requires { IsWidth W }
    ensures ok { IfOk result (λ v. AllZip (IsPart F.Reads W) (comma_parts set.now) v.items) }
    ensures usage { IsErrOf result SpellFault.Usage → (rs : ListOf Numbers) → AllZip (IsPart F.Reads W) (comma_parts set.now) rs → ⊥ }
{
    let mut ranges = Vec::new(alloc);
    let mut rest = set;
    while let Some((part, after)) = parted(rest, b',') {
        ranges.push(part_of::<F, W>(alloc, part)?)?;
        rest = after;
    }
    ranges.push(part_of::<F, W>(alloc, rest)?)?;
    Ok(ranges)
}

// The claim of a text `NAME=SET`.
fn claim_of<F: Family<W>, const W: u32>(alloc: Global, text: &[u8]) -> Result<Claim, SpellFault>
    requires { IsWidth W }
    ensures ok { IfOk result (IsClaim F.Reads W text.now) }
    ensures usage { IsErrOf result SpellFault.Usage → (c : AnyClaim) → IsClaim F.Reads W text.now c → ⊥ }
{
    let Some((name, set)) = last_parted(text, b'=') else {
        return Err(SpellFault::Usage);
    };
    if name.is_empty() {
        return Err(SpellFault::Usage);
    }
    let ranges = ranges_of::<F, W>(alloc, set)?;
    Ok(Claim {
        name: Bytes::of(name.to_vec(alloc)?),
        inside: List::of(ranges),
    })
}

// The claims of the arguments, in their order.
fn read_claims<F: Family<W>, const W: u32>(
    alloc: Global,
    arguments: &[&str],
) -> Result<List<Claim>, SpellFault>
    requires { IsWidth W }
    ensures ok { IfOk result (AreClaims F.Reads W (map (λ s. s.now) arguments.now)) }
    ensures usage { IsErrOf result SpellFault.Usage → (cs : ListOf AnyClaim) → AreClaims F.Reads W (map (λ s. s.now) arguments.now) cs → ⊥ }
{
    let mut claims = Vec::new(alloc);
    for argument in arguments {
        claims.push(claim_of::<F, W>(alloc, argument.as_bytes())?)?;
    }
    Ok(List::of(claims))
}

/// The claims of arguments `NAME=SET`, in their order. A name goes up to the last `=` and is taken as it stands. A set is
/// addresses, prefixes `ADDRESS/LENGTH` and ranges `FIRST-LAST` of the family, IPv6 where `six` is true, with commas between
/// them; a claim has a range for each.
///
/// # Errors
///
/// `Usage` exactly where an argument has no such form, or `Memory`.
pub fn claims_of(alloc: Global, six: bool, arguments: &[&str]) -> Result<List<Claim>, SpellFault>
    ensures ok { IfOk result (AreClaims (SaysAddress six) (width_of six) (map (λ s. s.now) arguments.now)) }
    ensures usage { IsErrOf result SpellFault.Usage → (cs : ListOf AnyClaim) → AreClaims (SaysAddress six) (width_of six) (map (λ s. s.now) arguments.now) cs → ⊥ }
{
    if six {
        read_claims::<V6, 128>(alloc, arguments)
    } else {
        read_claims::<V4, 32>(alloc, arguments)
    }
}

// The claims of the arguments, where these are zones.
fn read_zones<F: Family<W>, const W: u32>(
    alloc: Global,
    arguments: &[&str],
) -> Result<List<Claim>, SpellFault>
    requires { IsWidth W }
    ensures ok { IfOk result (SpellZones F.Reads W (map (λ s. s.now) arguments.now)) }
    ensures usage { IsErrOf result SpellFault.Usage → (cs : ListOf AnyClaim) → SpellZones F.Reads W (map (λ s. s.now) arguments.now) cs → ⊥ }
{
    let claims = read_claims::<F, W>(alloc, arguments)?;
    are_zones::<W>(alloc, claims.as_slice())?;
    Ok(claims)
}

/// The zones of arguments `NAME=SET`, in their order, with the grammar of claims.
///
/// # Errors
///
/// `Usage` exactly where an argument has no such form or two have one name or a common address, or `Memory`.
pub fn zones_in(alloc: Global, six: bool, arguments: &[&str]) -> Result<List<Claim>, SpellFault>
    ensures ok { IfOk result (SpellZones (SaysAddress six) (width_of six) (map (λ s. s.now) arguments.now)) }
    ensures usage { IsErrOf result SpellFault.Usage → (cs : ListOf AnyClaim) → SpellZones (SaysAddress six) (width_of six) (map (λ s. s.now) arguments.now) cs → ⊥ }
{
    if six {
        read_zones::<V6, 128>(alloc, arguments)
    } else {
        read_zones::<V4, 32>(alloc, arguments)
    }
}
