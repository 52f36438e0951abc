ghost use Rattle.std.specs.Prelude.{◌≡◌, ◌≤◌, ◌∷◌, [], IfErr, IfOk, length};
ghost use Rattle.box_norm.specs.Cubes.{each_piece};
ghost use Rattle.box_norm.specs.Overlaps.{minus_of};
ghost use Rattle.box_norm.specs.Regular.{HasStates};
ghost use Rattle.interval_set.specs.Numbers.{IsWidth};
ghost use Rattle.limits.specs.declared.TheConstants.{MOST_REGIONS};
ghost use Rattle.region_cut.specs.Search.{Finds, LeavesMany, RefusesSearch, Tells, with_policy};

use crate::RegionFault;
use crate::apart::{are_all_apart, are_apart, have_none_common};
use crate::hit::hit_in;
use box_norm::{Cube, SimpleRule, whole};
use fw_rule::Verdict;
use limits::MOST_REGIONS;
use primitives::Packet;
use std::alloc::{AllocError, Global};

/// What a rule that takes its cube off leaves of the regions: of each its pieces, or the region itself where the two have
/// nothing in common.
///
/// # Errors
///
/// `Regions` exactly where more than 65,536 are left. `Memory` where memory runs out.
pub fn left_without<const W: u32>(
    alloc: Global,
    regions: Vec<Cube<W>>,
    cube: &Cube<W>,
) -> Result<Vec<Cube<W>>, RegionFault>
    ensures pieces { IfOk result (λ v. v.items ≡ each_piece (λ c. minus_of c cube.now) regions.entry.items) }
    ensures few { IfOk result (λ v. length v.items ≤ MOST_REGIONS) }
    ensures many { IfErr result (LeavesMany regions.entry.items cube.now) }
{
    let mut left = Vec::new(alloc);
    for region in regions {
        if have_none_common(&region, cube) {
            left.push(region)?;
        } else {
            let mut pieces = region.minus(alloc, cube)?.into_vec();
            left.append(&mut pieces)?;
        }
        if left.len() > MOST_REGIONS {
            return Err(RegionFault::Regions);
        }
    }
    Ok(left)
}

/// The list of one region.
fn alone<const W: u32>(alloc: Global, region: &Cube<W>) -> Result<Vec<Cube<W>>, AllocError>
    ensures { IfOk result (λ v. v.items ≡ region.now ∷ []) }
{
    let mut list = Vec::new(alloc);
    list.push(region.copy(alloc)?)?;
    Ok(list)
}

/// `first_hit`, by the lists of regions. A rule that is apart from the searched region is so from each piece of it, and
/// one that is apart from each piece leaves them as they are: both are passed over.
fn found<const W: u32>(
    alloc: Global,
    region: &Cube<W>,
    rules: &[SimpleRule<W>],
    policy: Verdict,
) -> Result<Option<Packet>, RegionFault>
    requires width { IsWidth W }
    requires states { HasStates region.now }
    ensures finds { IfOk result (Finds region.now (with_policy rules.now policy)) }
    ensures refused { IfErr result (RefusesSearch region.now (with_policy rules.now policy)) }
{
    let start = alone(alloc, region)?;
    let mut regions = start;
    for rule in rules {
        if are_apart(region, &rule.cube) {
            continue;
        }
        if are_all_apart(regions.as_slice(), &rule.cube) {
            continue;
        }
        if rule.accept {
            if let Some(packet) = hit_in(alloc, regions.as_slice(), &rule.cube)? {
                return Ok(Some(packet));
            }
        } else {
            regions = left_without(alloc, regions, &rule.cube)?;
        }
    }
    match policy {
        Verdict::Accept => Ok(hit_in(alloc, regions.as_slice(), &whole(alloc)?)?),
        Verdict::Drop => Ok(None),
    }
}

/// A valid packet of the region that the rules accept, with the policy where no rule has the packet, and `None` exactly
/// where there is none. The rules are read by first match.
///
/// The packet is that of the first rule that accepts some packet of what the rules before it leave of the region: of the
/// first piece that has one, the least in each dimension. The policy counts as one last rule. No bit of the region's
/// `state` is set but those of the five states. W is 32 or 128.
///
/// # Errors
///
/// `Regions` exactly where, up to the rule that gives the answer, more than 65,536 pieces of the region are left. `Memory`
/// where memory runs out.
pub fn first_hit<const W: u32>(
    alloc: Global,
    region: &Cube<W>,
    rules: &[SimpleRule<W>],
    policy: Verdict,
) -> Result<Option<Packet>, RegionFault>
    requires width { IsWidth W }
    requires states { HasStates region.now }
    ensures tells { IfOk result (Tells region.now rules.now policy) }
    ensures finds { IfOk result (Finds region.now (with_policy rules.now policy)) }
    ensures refused { IfErr result (RefusesSearch region.now (with_policy rules.now policy)) }
{
    found(alloc, region, rules, policy)
}
