//! The search of a region of packets for one that rules accept.
ghost use Rattle.std.specs.Prelude.{IfOk};
ghost use Rattle.box_norm.specs.Regular.{HasStates};

use box_norm::{Cube, SimpleRule, whole};
use fw_rule::Verdict;
use interval_set::Set;
use match_expr::{Bytes, List};
use name_set::{NameSet, Pattern};
use primitives::Packet;
use region_cut::{RegionFault, first_hit};
use std::alloc::{AllocError, Global};
use std::test::Fail;

/// New connections.
fn new_connections(alloc: Global) -> Result<Cube<32>, AllocError>
    ensures { IfOk result HasStates }
{
    let mut region = whole::<32>(alloc)?;
    region.state = 2;
    Ok(region)
}

/// Drops the protocols 0 to 5.
fn drops_first_protocols(alloc: Global) -> Result<Vec<SimpleRule<32>>, AllocError> {
    let mut cube = whole::<32>(alloc)?;
    cube.proto = Set::range(alloc, 0, 5)?;
    let rule = SimpleRule {
        cube,
        accept: false,
    };
    Ok(vec![in alloc; rule]?)
}

/// The names that begin with `eth`, but for this name and those with each byte after it, so that none is left.
fn no_names(alloc: Global) -> Result<NameSet, AllocError> {
    let mut excluded = Vec::new(alloc);
    excluded.push(Pattern::Exact(Bytes::of(Vec::from_slice(alloc, b"eth")?)))?;
    for byte in 0..=255u8 {
        let mut text = Vec::from_slice(alloc, b"eth")?;
        text.push(byte)?;
        excluded.push(Pattern::Prefix(Bytes::of(text)))?;
    }
    Ok(NameSet {
        base: Pattern::Prefix(Bytes::of(Vec::from_slice(alloc, b"eth")?)),
        excluded: List::of(excluded),
    })
}

/// The packet that is found behind the drop.
fn found(alloc: Global, policy: Verdict) -> Result<Option<Packet>, RegionFault> {
    let region = new_connections(alloc)?;
    let rules = drops_first_protocols(alloc)?;
    first_hit(alloc, &region, rules.as_slice(), policy)
}

#[test]
fn behind_a_drop_the_policy_accepts_the_least_packet(rt: HostRuntime) -> Result<(), Fail> {
    assert!(rt; found(rt.alloc(), Verdict::Drop)?.is_none());
    let Some(p) = found(rt.alloc(), Verdict::Accept)? else {
        return Err("no packet".into());
    };
    assert!(rt; p.in_name.as_slice().is_empty() && p.out_name.as_slice().is_empty());
    assert!(rt; p.src == 0 && p.dst == 0 && p.proto == 6 && p.sport == 0 && p.dport == 0);
    assert!(rt; p.flags == 0 && p.state == 1);
    Ok(())
}

/// What is found where there is no name of an input interface.
fn found_without_names(alloc: Global) -> Result<Option<Packet>, RegionFault> {
    let mut region = new_connections(alloc)?;
    region.in_name = no_names(alloc)?;
    first_hit(alloc, &region, &[], Verdict::Accept)
}

#[test]
fn a_name_set_without_names_has_no_packet(rt: HostRuntime) -> Result<(), Fail> {
    assert!(rt; found_without_names(rt.alloc())?.is_none());
    Ok(())
}
