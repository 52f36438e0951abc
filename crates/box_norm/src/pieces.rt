ghost use Rattle.std.specs.Prelude.{◌≡◌, ◌++◌, IfOk, OnOk};
ghost use Rattle.box_norm.specs.Cubes.{is_none, has_no_range, kept};
ghost use Rattle.box_norm.specs.Pieces.{flags_where, cut_pieces, omit_pieces, pieces_of};
ghost use Rattle.box_norm.specs.Regular.{IsSound};

use crate::cube::Cube;
use crate::numbers::{and_number, minus_number};
use interval_set::Set;
use name_set::NameSet;
use primitives::Prim_;
use std::alloc::{AllocError, Global};

fn no_range<const W: u32>(set: &Set<W>) -> bool
    ensures { result ≡ has_no_range set.now }
{
    set.ranges().is_empty()
}

/// Whether a dimension is empty.
pub fn is_empty<const W: u32>(cube: &Cube<W>) -> bool
    ensures { result ≡ is_none cube.now }
{
    cube.in_name.is_covered()
        || cube.out_name.is_covered()
        || no_range(&cube.src)
        || no_range(&cube.dst)
        || no_range(&cube.proto)
        || no_range(&cube.sport)
        || no_range(&cube.dport)
        || cube.flags == 0
        || cube.state == 0
        || no_range(&cube.icmp)
}

/// Appends the cube, unless it is empty.
fn keep<const W: u32>(out: &mut Vec<Cube<W>>, cube: Cube<W>) -> Result<(), AllocError>
    ensures { OnOk result (out.new.items ≡ out.old.items ++ kept cube.entry) }
{
    if is_empty(&cube) {
        return Ok(());
    }
    out.push(cube)?;
    Ok(())
}

/// The flag numbers that match, as bits.
fn matching(mask: u8, comp: u8) -> u64
    ensures { result ≡ flags_where mask comp 64 }
{
    let mut bits: u64 = 0;
    for number in 0..64u8 {
        if number & mask == comp {
            bits |= 1u64 << number;
        }
    }
    bits
}

/// Appends the cube with these for the names of the input interface, unless it is empty.
pub fn put_in_name<const W: u32>(
    alloc: Global,
    out: &mut Vec<Cube<W>>,
    cube: &Cube<W>,
    in_name: NameSet,
) -> Result<(), AllocError>
    ensures { OnOk result (out.new.items ≡ out.old.items ++ kept (record cube.now { in_name = in_name })) }
{
    let mut piece = cube.copy(alloc)?;
    piece.in_name = in_name;
    keep(out, piece)
}

/// Appends the cube with these for the names of the output interface, unless it is empty.
pub fn put_out_name<const W: u32>(
    alloc: Global,
    out: &mut Vec<Cube<W>>,
    cube: &Cube<W>,
    out_name: NameSet,
) -> Result<(), AllocError>
    ensures { OnOk result (out.new.items ≡ out.old.items ++ kept (record cube.now { out_name = out_name })) }
{
    let mut piece = cube.copy(alloc)?;
    piece.out_name = out_name;
    keep(out, piece)
}

/// Appends the cube with these for the sources, unless it is empty.
pub fn put_src<const W: u32>(
    alloc: Global,
    out: &mut Vec<Cube<W>>,
    cube: &Cube<W>,
    src: Set<W>,
) -> Result<(), AllocError>
    ensures { OnOk result (out.new.items ≡ out.old.items ++ kept (record cube.now { src = src.entry })) }
{
    if no_range(&src) {
        return Ok(());
    }
    let mut piece = cube.copy(alloc)?;
    piece.src = src;
    keep(out, piece)
}

/// Appends the cube with these for the destinations, unless it is empty.
pub fn put_dst<const W: u32>(
    alloc: Global,
    out: &mut Vec<Cube<W>>,
    cube: &Cube<W>,
    dst: Set<W>,
) -> Result<(), AllocError>
    ensures { OnOk result (out.new.items ≡ out.old.items ++ kept (record cube.now { dst = dst.entry })) }
{
    if no_range(&dst) {
        return Ok(());
    }
    let mut piece = cube.copy(alloc)?;
    piece.dst = dst;
    keep(out, piece)
}

/// Appends the cube with these for the protocols, unless it is empty.
pub fn put_proto<const W: u32>(
    alloc: Global,
    out: &mut Vec<Cube<W>>,
    cube: &Cube<W>,
    proto: Set<8>,
) -> Result<(), AllocError>
    ensures { OnOk result (out.new.items ≡ out.old.items ++ kept (record cube.now { proto = proto })) }
{
    if no_range(&proto) {
        return Ok(());
    }
    let mut piece = cube.copy(alloc)?;
    piece.proto = proto;
    keep(out, piece)
}

/// Appends the cube with these for the protocols and source ports, unless it is empty.
pub fn put_sport<const W: u32>(
    alloc: Global,
    out: &mut Vec<Cube<W>>,
    cube: &Cube<W>,
    proto: Set<8>,
    sport: Set<16>,
) -> Result<(), AllocError>
    ensures { OnOk result (out.new.items ≡ out.old.items ++ kept (record cube.now { proto = proto; sport = sport })) }
{
    if no_range(&proto) || no_range(&sport) {
        return Ok(());
    }
    let mut piece = cube.copy(alloc)?;
    piece.proto = proto;
    piece.sport = sport;
    keep(out, piece)
}

/// Appends the cube with these for the protocols and destination ports, unless it is empty.
pub fn put_dport<const W: u32>(
    alloc: Global,
    out: &mut Vec<Cube<W>>,
    cube: &Cube<W>,
    proto: Set<8>,
    dport: Set<16>,
) -> Result<(), AllocError>
    ensures { OnOk result (out.new.items ≡ out.old.items ++ kept (record cube.now { proto = proto; dport = dport })) }
{
    if no_range(&proto) || no_range(&dport) {
        return Ok(());
    }
    let mut piece = cube.copy(alloc)?;
    piece.proto = proto;
    piece.dport = dport;
    keep(out, piece)
}

/// Appends the cube with these for the protocols and flags, unless it is empty.
pub fn put_flags<const W: u32>(
    alloc: Global,
    out: &mut Vec<Cube<W>>,
    cube: &Cube<W>,
    proto: Set<8>,
    flags: u64,
) -> Result<(), AllocError>
    ensures { OnOk result (out.new.items ≡ out.old.items ++ kept (record cube.now { proto = proto; flags = flags })) }
{
    if no_range(&proto) || flags == 0 {
        return Ok(());
    }
    let mut piece = cube.copy(alloc)?;
    piece.proto = proto;
    piece.flags = flags;
    keep(out, piece)
}

/// Appends the cube with these for the states, unless it is empty.
pub fn put_state<const W: u32>(
    alloc: Global,
    out: &mut Vec<Cube<W>>,
    cube: &Cube<W>,
    state: u8,
) -> Result<(), AllocError>
    ensures { OnOk result (out.new.items ≡ out.old.items ++ kept (record cube.now { state = state })) }
{
    if state == 0 {
        return Ok(());
    }
    let mut piece = cube.copy(alloc)?;
    piece.state = state;
    keep(out, piece)
}

/// Appends the cube with these for the protocols and types of messages, unless it is empty.
pub fn put_types<const W: u32>(
    alloc: Global,
    out: &mut Vec<Cube<W>>,
    cube: &Cube<W>,
    proto: Set<8>,
    icmp: Set<8>,
) -> Result<(), AllocError>
    ensures { OnOk result (out.new.items ≡ out.old.items ++ kept (record cube.now { proto = proto; icmp = icmp })) }
{
    if no_range(&proto) || no_range(&icmp) {
        return Ok(());
    }
    let mut piece = cube.copy(alloc)?;
    piece.proto = proto;
    piece.icmp = icmp;
    keep(out, piece)
}

/// Appends the pieces of the cube where the test holds.
fn push_cut<const W: u32>(
    alloc: Global,
    out: &mut Vec<Cube<W>>,
    cube: &Cube<W>,
    x: &Prim_<W>,
) -> Result<(), AllocError>
    ensures pieces { OnOk result (out.new.items ≡ out.old.items ++ cut_pieces x.now cube.now) }
    ensures sound { OnOk result (IsSound x.now) }
{
    match x {
        Prim_::Src(set) => put_src(alloc, out, cube, cube.src.and(alloc, set)?),
        Prim_::Dst(set) => put_dst(alloc, out, cube, cube.dst.and(alloc, set)?),
        Prim_::InName(pattern) => match cube.in_name.cut(alloc, pattern)? {
            Some(names) => put_in_name(alloc, out, cube, names),
            None => Ok(()),
        },
        Prim_::OutName(pattern) => match cube.out_name.cut(alloc, pattern)? {
            Some(names) => put_out_name(alloc, out, cube, names),
            None => Ok(()),
        },
        Prim_::Proto(proto) => {
            let proto = and_number(alloc, &cube.proto, proto.number)?;
            put_proto(alloc, out, cube, proto)
        }
        Prim_::SrcPorts(ports) => {
            let proto = and_number(alloc, &cube.proto, ports.proto)?;
            put_sport(alloc, out, cube, proto, cube.sport.and(alloc, &ports.set)?)
        }
        Prim_::DstPorts(ports) => {
            let proto = and_number(alloc, &cube.proto, ports.proto)?;
            put_dport(alloc, out, cube, proto, cube.dport.and(alloc, &ports.set)?)
        }
        Prim_::Flags { mask, comp } => {
            let tcp = and_number(alloc, &cube.proto, 6)?;
            put_flags(alloc, out, cube, tcp, cube.flags & matching(*mask, *comp))
        }
        Prim_::State(states) => put_state(alloc, out, cube, cube.state & *states),
        Prim_::IcmpKind(message) => {
            let proto = and_number(alloc, &cube.proto, message.proto)?;
            let types = and_number(alloc, &cube.icmp, message.kind)?;
            put_types(alloc, out, cube, proto, types)
        }
        Prim_::Always => keep(out, cube.copy(alloc)?),
    }
}

/// Appends the pieces of the cube where the test doesn't hold.
fn push_omit<const W: u32>(
    alloc: Global,
    out: &mut Vec<Cube<W>>,
    cube: &Cube<W>,
    x: &Prim_<W>,
) -> Result<(), AllocError>
    ensures pieces { OnOk result (out.new.items ≡ out.old.items ++ omit_pieces x.now cube.now) }
    ensures sound { OnOk result (IsSound x.now) }
{
    match x {
        Prim_::Src(set) => put_src(alloc, out, cube, cube.src.minus(alloc, set)?),
        Prim_::Dst(set) => put_dst(alloc, out, cube, cube.dst.minus(alloc, set)?),
        Prim_::InName(pattern) => match cube.in_name.cut_not(alloc, pattern)? {
            Some(names) => put_in_name(alloc, out, cube, names),
            None => Ok(()),
        },
        Prim_::OutName(pattern) => match cube.out_name.cut_not(alloc, pattern)? {
            Some(names) => put_out_name(alloc, out, cube, names),
            None => Ok(()),
        },
        Prim_::Proto(proto) => {
            let proto = minus_number(alloc, &cube.proto, proto.number)?;
            put_proto(alloc, out, cube, proto)
        }
        Prim_::SrcPorts(ports) => {
            let others = minus_number(alloc, &cube.proto, ports.proto)?;
            put_proto(alloc, out, cube, others)?;
            let proto = and_number(alloc, &cube.proto, ports.proto)?;
            put_sport(
                alloc,
                out,
                cube,
                proto,
                cube.sport.minus(alloc, &ports.set)?,
            )
        }
        Prim_::DstPorts(ports) => {
            let others = minus_number(alloc, &cube.proto, ports.proto)?;
            put_proto(alloc, out, cube, others)?;
            let proto = and_number(alloc, &cube.proto, ports.proto)?;
            put_dport(
                alloc,
                out,
                cube,
                proto,
                cube.dport.minus(alloc, &ports.set)?,
            )
        }
        Prim_::Flags { mask, comp } => {
            let others = minus_number(alloc, &cube.proto, 6)?;
            put_proto(alloc, out, cube, others)?;
            let proto = and_number(alloc, &cube.proto, 6)?;
            let matched = cube.flags & matching(*mask, *comp);
            put_flags(alloc, out, cube, proto, cube.flags ^ matched)
        }
        Prim_::State(states) => put_state(alloc, out, cube, cube.state ^ (cube.state & *states)),
        Prim_::IcmpKind(message) => {
            let others = minus_number(alloc, &cube.proto, message.proto)?;
            put_proto(alloc, out, cube, others)?;
            let proto = and_number(alloc, &cube.proto, message.proto)?;
            let types = minus_number(alloc, &cube.icmp, message.kind)?;
            put_types(alloc, out, cube, proto, types)
        }
        Prim_::Always => Ok(()),
    }
}

/// Appends the pieces of the cube where the test holds, or, if it is not to hold, those where it doesn't.
pub fn push_pieces<const W: u32>(
    alloc: Global,
    out: &mut Vec<Cube<W>>,
    cube: &Cube<W>,
    x: &Prim_<W>,
    holds: bool,
) -> Result<(), AllocError>
    ensures pieces { OnOk result (out.new.items ≡ out.old.items ++ pieces_of holds x.now cube.now) }
    ensures sound { OnOk result (IsSound x.now) }
{
    if holds {
        push_cut(alloc, out, cube, x)
    } else {
        push_omit(alloc, out, cube, x)
    }
}
