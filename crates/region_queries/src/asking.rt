//! What two cubes have in common, searched for a packet that some rules accept.
ghost use Rattle.std.specs.Prelude.{IfErr, IfOk};
ghost use Rattle.std.specs.List.{AllByRecursion};
ghost use Rattle.interval_set.specs.Numbers.{IsWidth};
ghost use Rattle.box_norm.specs.Regular.{HasStates};
ghost use Rattle.region_cut.specs.Search.{with_policy};
ghost use Rattle.region_queries.specs.inner.Asking.{AsksAll, AsksOne, AsksRule, RefusesAll, RefusesOne, RefusesRule};

use box_norm::{Cube, SimpleRule};
use fw_rule::Verdict;
use primitives::Packet;
use region_cut::{RegionFault, first_hit, have_none_common};
use std::alloc::Global;

/// The packet that the search of what the region and the cube have in common finds.
fn hit_in_common<const W: u32>(
    alloc: Global,
    region: &Cube<W>,
    cube: &Cube<W>,
    against: &[SimpleRule<W>],
    policy: Verdict,
) -> Result<Option<Packet>, RegionFault>
    requires width { IsWidth W }
    requires states { HasStates region.now }
    ensures answers { IfOk result (AsksOne (with_policy against.now policy) region.now cube.now) }
    ensures refused { IfErr result (RefusesOne (with_policy against.now policy) region.now cube.now) }
{
    if have_none_common(region, cube) {
        return Ok(None);
    }
    match region.and(alloc, cube)? {
        Some(common) => first_hit(alloc, &common, against, policy),
        None => Ok(None),
    }
}

/// The packet that is found in what the first region in which one is found has in common with the cube.
fn hit_in_regions<const W: u32>(
    alloc: Global,
    regions: &[Cube<W>],
    cube: &Cube<W>,
    against: &[SimpleRule<W>],
    policy: Verdict,
) -> Result<Option<Packet>, RegionFault>
    requires width { IsWidth W }
    requires states { AllByRecursion HasStates regions.now }
    ensures answers { IfOk result (AsksAll (with_policy against.now policy) regions.now cube.now) }
    ensures refused { IfErr result (RefusesAll (with_policy against.now policy) regions.now cube.now) }
{
    for region in regions {
        if let Some(packet) = hit_in_common(alloc, region, cube, against, policy)? {
            return Ok(Some(packet));
        }
    }
    Ok(None)
}

/// The packet that the rule finds in the regions. A rule that drops finds none.
pub(crate) fn hit_of_rule<const W: u32>(
    alloc: Global,
    rule: &SimpleRule<W>,
    regions: &[Cube<W>],
    against: &[SimpleRule<W>],
    policy: Verdict,
) -> Result<Option<Packet>, RegionFault>
    requires width { IsWidth W }
    requires states { AllByRecursion HasStates regions.now }
    ensures answers { IfOk result (AsksRule (with_policy against.now policy) rule.now regions.now) }
    ensures refused { IfErr result (RefusesRule (with_policy against.now policy) rule.now regions.now) }
{
    if !rule.accept {
        return Ok(None);
    }
    hit_in_regions(alloc, regions, &rule.cube, against, policy)
}
