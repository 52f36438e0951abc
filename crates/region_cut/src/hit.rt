//! The least packet of a cube, and of the first region that shares one with a cube.
ghost use Rattle.std.specs.Prelude.{◌≡◌, ◌<◌, ◌^◌, ℕ, IfOk, IfNone, IfSome, false};
ghost use Rattle.std.specs.List.{AllByRecursion};
ghost use Rattle.interval_set.specs.Numbers.{IsLeast, has};
ghost use Rattle.primitives.specs.Holds.{has_bit};
ghost use Rattle.box_norm.specs.Regular.{HasStates};
ghost use Rattle.region_cut.specs.Least.{IsLeastBit};
ghost use Rattle.region_cut.specs.inner.Hits.{HitsFirst, HitsOne, IsLeastOf};

use crate::apart::are_apart;
use box_norm::Cube;
use interval_set::Set;
use primitives::Packet;
use std::alloc::{AllocError, Global};

/// The least number of the set.
fn least_number<const W: u32>(set: &Set<W>) -> Option<u128>
    ensures least { IfSome result (IsLeast set.now) }
    ensures below { IfSome result (λ n. n < 2 ^ W) }
    ensures none { IfNone result ((n : ℕ) → has set.now n ≡ false) }
{
    match set.ranges() {
        [first, ..] => Some(first.lo),
        [] => None,
    }
}

/// The least number whose bit is set.
fn least_bit(bits: u64) -> Option<u8>
    ensures least { IfSome result (IsLeastBit bits) }
    ensures below { IfSome result (λ n. n < 64) }
    ensures none { IfNone result ((n : ℕ) → has_bit bits n ≡ false) }
{
    if bits == 0 {
        return None;
    }
    Some(bits.trailing_zeros() as u8)
}

/// The least packet of the cube. None exactly where no valid packet is in it.
fn least_packet<const W: u32>(alloc: Global, cube: &Cube<W>) -> Result<Option<Packet>, AllocError>
    requires { HasStates cube.now }
    ensures { IfOk result (IsLeastOf cube.now) }
{
    let Some(in_name) = cube.in_name.least(alloc)? else {
        return Ok(None);
    };
    let Some(out_name) = cube.out_name.least(alloc)? else {
        return Ok(None);
    };
    let Some(src) = least_number(&cube.src) else {
        return Ok(None);
    };
    let Some(dst) = least_number(&cube.dst) else {
        return Ok(None);
    };
    let Some(proto) = least_number(&cube.proto) else {
        return Ok(None);
    };
    let Some(sport) = least_number(&cube.sport) else {
        return Ok(None);
    };
    let Some(dport) = least_number(&cube.dport) else {
        return Ok(None);
    };
    let Some(flags) = least_bit(cube.flags) else {
        return Ok(None);
    };
    let Some(state) = least_bit(cube.state as u64) else {
        return Ok(None);
    };
    let Some(icmp) = least_number(&cube.icmp) else {
        return Ok(None);
    };
    Ok(Some(Packet {
        in_name,
        out_name,
        src,
        dst,
        proto: proto as u8,
        sport: sport as u16,
        dport: dport as u16,
        flags,
        state,
        icmp: icmp as u8,
    }))
}

/// The least packet of what the region and the cube have in common. None exactly where that is no valid packet.
fn hit_of<const W: u32>(
    alloc: Global,
    region: &Cube<W>,
    cube: &Cube<W>,
) -> Result<Option<Packet>, AllocError>
    requires { HasStates region.now }
    ensures { IfOk result (HitsOne region.now cube.now) }
{
    if are_apart(region, cube) {
        return Ok(None);
    }
    match region.and(alloc, cube)? {
        Some(common) => least_packet(alloc, &common),
        None => Ok(None),
    }
}

/// The least packet of what the first region that shares one with the cube has in common with it.
pub(crate) fn hit_in<const W: u32>(
    alloc: Global,
    regions: &[Cube<W>],
    cube: &Cube<W>,
) -> Result<Option<Packet>, AllocError>
    requires { AllByRecursion HasStates regions.now }
    ensures { IfOk result (HitsFirst regions.now cube.now) }
{
    for region in regions {
        if let Some(packet) = hit_of(alloc, region, cube)? {
            return Ok(Some(packet));
        }
    }
    Ok(None)
}
