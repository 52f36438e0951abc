//! The matrix of a service, and the verdict on forged sources.
ghost use Rattle.std.specs.Prelude.{IfOk, length};
ghost use Rattle.service_matrix.specs.Matrices.{AreDisjoint, Covers, IsSquare};

use crate::dumps::{may_be_asked, one_pair};
use box_norm::{SimpleRule, whole};
use fw_rule::{Side, Verdict};
use interval_set::{Range, Set};
use service_matrix::{Matrix, Service, column, matrix, row};
use spoof_check::{Spoof, spoof};
use std::alloc::{AllocError, Global};
use std::test::Fail;

/// The service tcp:10000:22.
pub(crate) fn ssh() -> Service {
    Service {
        proto: 6,
        sport: 10000,
        dport: 22,
    }
}

/// The upper matrix of the chain that accepts one pair.
fn matrix_of_pair(alloc: Global) -> Result<Matrix<32>, Fail>
    ensures covers { IfOk result (λ matrix. Covers 32 matrix.classes) }
    ensures disjoint { IfOk result (λ matrix. AreDisjoint matrix.classes) }
    ensures square { IfOk result (λ matrix. IsSquare (length matrix.classes) matrix.edges) }
{
    let dump = one_pair(alloc)?;
    may_be_asked(&dump)?;
    match matrix(alloc, &dump, 0, Side::Upper, &ssh()) {
        Ok(matrix) => Ok(matrix),
        Err(_) => Err("a refusal".into()),
    }
}

#[test]
fn an_edge_between_addresses_is_that_of_their_classes(rt: HostRuntime) -> Result<(), Fail> {
    let matrix = matrix_of_pair(rt.alloc())?;
    assert!(rt; matrix.edge(0x0A01_0203, 0xC0A8_0001));
    assert!(rt; !matrix.edge(0xC0A8_0001, 0x0A01_0203));
    assert!(rt; !matrix.edge(0x0B00_0000, 0xC0A8_0001));
    Ok(())
}

/// A rule that accepts from 10.0.0.0/8 to 192.168.0.1.
fn simple_pair(alloc: Global) -> Result<Vec<SimpleRule<32>>, AllocError> {
    let mut cube = whole::<32>(alloc)?;
    cube.src = Set::range(alloc, 0x0A00_0000, 0x0AFF_FFFF)?;
    cube.dst = Set::range(alloc, 0xC0A8_0001, 0xC0A8_0001)?;
    Ok(vec![in alloc; SimpleRule { cube, accept: true }]?)
}

/// The destinations of 10.0.0.1.
fn destinations(alloc: Global) -> Result<Set<32>, AllocError> {
    let rules = simple_pair(alloc)?;
    row(alloc, rules.as_slice(), Verdict::Drop, &ssh(), 0x0A00_0001)
}

/// The sources of 192.168.0.1.
fn sources(alloc: Global) -> Result<Set<32>, AllocError> {
    let rules = simple_pair(alloc)?;
    column(alloc, rules.as_slice(), Verdict::Drop, &ssh(), 0xC0A8_0001)
}

#[test]
fn a_row_has_destinations_and_a_column_has_sources(rt: HostRuntime) -> Result<(), Fail> {
    let host = Range {
        lo: 0xC0A8_0001,
        hi: 0xC0A8_0001,
    };
    let net = Range {
        lo: 0x0A00_0000,
        hi: 0x0AFF_FFFF,
    };
    assert!(rt; destinations(rt.alloc())?.ranges() == [host].as_slice());
    assert!(rt; sources(rt.alloc())?.ranges() == [net].as_slice());
    Ok(())
}

/// The verdict on eth0, behind which live the addresses of 10.0.0.0/8 but the last.
fn said(alloc: Global) -> Result<Spoof, Fail> {
    let dump = one_pair(alloc)?;
    may_be_asked(&dump)?;
    let inside = Set::range(alloc, 0x0A00_0000, 0x0AFF_FFFE)?;
    match spoof(alloc, &dump, 0, b"eth0", &inside) {
        Ok(verdict) => Ok(verdict),
        Err(_) => Err("a refusal".into()),
    }
}

#[test]
fn forged_sources_may_pass(rt: HostRuntime) -> Result<(), Fail> {
    let Spoof::Violated(packet) = said(rt.alloc())? else {
        return Err("no packet".into());
    };
    assert!(rt; packet.in_name.as_slice() == b"eth0".as_slice());
    assert!(rt; packet.src == 0x0AFF_FFFF && packet.dst == 0xC0A8_0001);
    Ok(())
}
