//! Expressions cut cubes of packets.
use crate::dumps::packet;
use box_norm::{Cube, CubeFault, SimpleRule, cut, cut_not, first, normal, whole};
use interval_set::{Range, Set};
use match_expr::{Expr, FlatRule, List};
use primitives::{PortMatch, Prim_, ProtoNum};
use std::alloc::{AllocError, Global};
use std::test::Fail;

const TCP: Range = Range { lo: 6, hi: 6 };

const OTHERS: [Range; 2] = [Range { lo: 0, hi: 5 }, Range { lo: 7, hi: 255 }];

const SSH: Range = Range { lo: 22, hi: 22 };

const ALL_PORTS: Range = Range { lo: 0, hi: 65535 };

const OTHER_PORTS: [Range; 2] = [Range { lo: 0, hi: 21 }, Range { lo: 23, hi: 65535 }];

/// The list of the cube of all packets.
fn all(alloc: Global) -> Result<List<Cube<32>>, AllocError> {
    Ok(List::of(vec![in alloc; whole::<32>(alloc)?]?))
}

/// Tcp to port 22.
fn ssh(alloc: Global) -> Result<Expr<Prim_<32>>, AllocError> {
    let set = Set::range(alloc, 22, 22)?;
    Ok(Expr::Prim(Prim_::DstPorts(PortMatch { proto: 6, set })))
}

/// Accepts tcp to port 22, and drops other tcp.
fn ssh_alone(alloc: Global) -> Result<Vec<FlatRule<Prim_<32>>>, AllocError> {
    let accepted = FlatRule {
        expr: ssh(alloc)?,
        accept: true,
    };
    let dropped = FlatRule {
        expr: Expr::Prim(Prim_::Proto(ProtoNum { number: 6 })),
        accept: false,
    };
    Ok(vec![in alloc; accepted, dropped]?)
}

/// Whether these are the protocols and the destination ports of the cubes.
fn are(cubes: &List<Cube<32>>, wanted: &[(&[Range], &[Range])]) -> bool {
    let cubes = cubes.as_slice();
    if cubes.len() != wanted.len() {
        return false;
    }
    for (cube, (proto, dport)) in cubes.iter().zip(wanted) {
        if cube.proto.ranges() != *proto || cube.dport.ranges() != *dport {
            return false;
        }
    }
    true
}

#[test]
fn a_port_leaves_one_cube(rt: HostRuntime) -> Result<(), Fail> {
    let alloc = rt.alloc();
    let cubes = cut(alloc, all(alloc)?, &ssh(alloc)?)?;
    assert!(rt; are(&cubes, &[(&[TCP], &[SSH])]));
    Ok(())
}

#[test]
fn a_negated_port_leaves_other_protocols_and_then_other_ports(rt: HostRuntime) -> Result<(), Fail> {
    let alloc = rt.alloc();
    let cubes = cut_not(alloc, all(alloc)?, &ssh(alloc)?)?;
    assert!(rt; are(&cubes, &[(&OTHERS, &[ALL_PORTS]), (&[TCP], &OTHER_PORTS)]));
    Ok(())
}

/// The simple rules of the flat rules.
fn simple(alloc: Global) -> Result<List<SimpleRule<32>>, CubeFault> {
    let flat = ssh_alone(alloc)?;
    normal(alloc, flat.as_slice())
}

#[test]
fn the_first_simple_rule_answers(rt: HostRuntime) -> Result<(), Fail> {
    let alloc = rt.alloc();
    let rules = simple(alloc)?;
    for (proto, dport, answer) in [(6, 22, Some(true)), (6, 23, Some(false)), (17, 22, None)] {
        assert!(rt; first(rules.as_slice(), &packet(alloc, proto, dport)) == answer);
    }
    Ok(())
}

/// The cube of tcp.
fn tcp(alloc: Global) -> Result<Cube<32>, AllocError> {
    let mut cube = whole::<32>(alloc)?;
    cube.proto = Set::range(alloc, 6, 6)?;
    Ok(cube)
}

/// All packets without those of tcp.
fn without_tcp(alloc: Global) -> Result<List<Cube<32>>, AllocError> {
    let cube = tcp(alloc)?;
    whole::<32>(alloc)?.minus(alloc, &cube)
}

#[test]
fn all_packets_without_tcp_are_one_cube(rt: HostRuntime) -> Result<(), Fail> {
    let cubes = without_tcp(rt.alloc())?;
    assert!(rt; are(&cubes, &[(&OTHERS, &[ALL_PORTS])]));
    Ok(())
}

/// What a copy of the cube of tcp has in common with it.
fn tcp_twice(alloc: Global) -> Result<Option<Cube<32>>, AllocError> {
    let cube = tcp(alloc)?;
    cube.copy(alloc)?.and(alloc, &cube)
}

#[test]
fn a_cube_and_its_copy_have_all_in_common(rt: HostRuntime) -> Result<(), Fail> {
    let alloc = rt.alloc();
    let Some(cube) = tcp_twice(alloc)? else {
        return Err("nothing in common".into());
    };
    assert!(rt; cube.holds(&packet(alloc, 6, 22)));
    assert!(rt; !cube.holds(&packet(alloc, 17, 22)));
    Ok(())
}
