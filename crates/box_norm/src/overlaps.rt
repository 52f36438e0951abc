ghost use Rattle.std.specs.Prelude.{◌≡◌, ◌++◌, ◌&&◌, ℕ, IfNone, IfOk, IfSome, None, OnOk, bit_and, bit_xor, not, option_to_list};
ghost use Rattle.interval_set.specs.Spelling.{set_and, set_minus};
ghost use Rattle.std.specs.List.{AllByRecursion};
ghost use Rattle.name_set.specs.Names.{cut_not_of};
ghost use Rattle.primitives.specs.declared.prim.Packet.{Packet};
ghost use Rattle.primitives.specs.Holds.{IsValid};
ghost use Rattle.box_norm.specs.Cubes.{any_holds, holds_cube, kept};
ghost use Rattle.box_norm.specs.Disjoint.{AreAllApart, AreDisjoint};
ghost use Rattle.box_norm.specs.Overlaps.{and_of, both_of, cut_by_each, holds_some, minus_common, minus_of, names_common, names_less, unless_none, with_in_names, with_out_names, without_each};
ghost use Rattle.box_norm.specs.Regular.{HasStates};

use crate::cube::{Cube, Sets, Transport, of_dimensions};
use crate::pieces::{
    is_empty, put_dport, put_dst, put_flags, put_in_name, put_out_name, put_proto, put_sport,
    put_src, put_state, put_types,
};
use interval_set::Set;
use match_expr::List;
use name_set::{NameSet, Pattern};
use std::alloc::{AllocError, Global};

/// The set without the names of each pattern.
fn without_each_of(
    alloc: Global,
    set: NameSet,
    patterns: &[Pattern],
) -> Result<Option<NameSet>, AllocError>
    ensures { IfOk result (λ o. o ≡ without_each (Some set) patterns.now) }
{
    let mut left = set;
    for pattern in patterns {
        match left.cut_not(alloc, pattern)? {
            Some(less) => left = less,
            None => return Ok(None),
        }
    }
    Ok(Some(left))
}

/// The names that both sets have.
fn common_names(alloc: Global, a: &NameSet, b: &NameSet) -> Result<Option<NameSet>, AllocError>
    ensures { IfOk result (λ o. o ≡ names_common a.now b.now) }
{
    match a.cut(alloc, &b.base)? {
        Some(within) => without_each_of(alloc, within, b.excluded.as_slice()),
        None => Ok(None),
    }
}

/// The names of both interfaces that two cubes have in common, where there are some of each.
fn both_names<const W: u32>(
    alloc: Global,
    a: &Cube<W>,
    b: &Cube<W>,
) -> Result<Option<(NameSet, NameSet)>, AllocError>
    ensures none { IfOk result (λ o. IfNone o (and_of a.now b.now ≡ None)) }
    ensures some { IfOk result (λ o. IfSome o (λ names. and_of a.now b.now ≡ unless_none (both_of a.now b.now names.0 names.1))) }
{
    let Some(in_name) = common_names(alloc, &a.in_name, &b.in_name)? else {
        return Ok(None);
    };
    match common_names(alloc, &a.out_name, &b.out_name)? {
        Some(out_name) => Ok(Some((in_name, out_name))),
        None => Ok(None),
    }
}

/// The protocols and ports that two cubes have in common.
fn both_transport<const W: u32>(
    alloc: Global,
    a: &Cube<W>,
    b: &Cube<W>,
) -> Result<Transport, AllocError>
    ensures { IfOk result (λ t. t ≡ record {
      proto = set_and 8 a.now.proto b.now.proto;
      sport = set_and 16 a.now.sport b.now.sport;
      dport = set_and 16 a.now.dport b.now.dport;
    }) }
{
    Ok(Transport {
        proto: a.proto.and(alloc, &b.proto)?,
        sport: a.sport.and(alloc, &b.sport)?,
        dport: a.dport.and(alloc, &b.dport)?,
    })
}

/// The sets of numbers that two cubes have in common.
fn both_sets<const W: u32>(alloc: Global, a: &Cube<W>, b: &Cube<W>) -> Result<Sets<W>, AllocError>
    ensures { IfOk result (λ s. s ≡ record {
      src = set_and W a.now.src b.now.src;
      dst = set_and W a.now.dst b.now.dst;
      transport = record {
        proto = set_and 8 a.now.proto b.now.proto;
        sport = set_and 16 a.now.sport b.now.sport;
        dport = set_and 16 a.now.dport b.now.dport;
      };
      icmp = set_and 8 a.now.icmp b.now.icmp;
    }) }
{
    Ok(Sets {
        src: a.src.and(alloc, &b.src)?,
        dst: a.dst.and(alloc, &b.dst)?,
        transport: both_transport(alloc, a, b)?,
        icmp: a.icmp.and(alloc, &b.icmp)?,
    })
}

/// The set cut by each pattern.
fn cut_by_each_of(
    alloc: Global,
    set: &NameSet,
    patterns: &[Pattern],
) -> Result<Vec<NameSet>, AllocError>
    ensures { IfOk result (λ v. v.items ≡ cut_by_each (Some set.now) patterns.now) }
{
    let mut sets = Vec::new(alloc);
    for pattern in patterns {
        if let Some(within) = set.cut(alloc, pattern)? {
            sets.push(within)?;
        }
    }
    Ok(sets)
}

/// The names that the second base doesn't match, where there are any.
fn outside_base(alloc: Global, a: &NameSet, b: &NameSet) -> Result<Vec<NameSet>, AllocError>
    ensures { IfOk result (λ v. v.items ≡ option_to_list (cut_not_of a.now b.now.base)) }
{
    let mut sets = Vec::new(alloc);
    if let Some(outside) = a.cut_not(alloc, &b.base)? {
        sets.push(outside)?;
    }
    Ok(sets)
}

/// The names of the first set that the second lacks.
fn less_names(alloc: Global, a: &NameSet, b: &NameSet) -> Result<Vec<NameSet>, AllocError>
    ensures { IfOk result (λ v. v.items ≡ names_less a.now b.now) }
{
    let mut sets = outside_base(alloc, a, b)?;
    if let Some(within) = a.cut(alloc, &b.base)? {
        let mut more = cut_by_each_of(alloc, &within, b.excluded.as_slice())?;
        sets.append(&mut more)?;
    }
    Ok(sets)
}

/// Appends the cube with each of these sets for its input names, without empty ones.
fn put_in_names<const W: u32>(
    alloc: Global,
    out: &mut Vec<Cube<W>>,
    cube: &Cube<W>,
    sets: Vec<NameSet>,
) -> Result<(), AllocError>
    ensures { OnOk result (out.new.items ≡ out.old.items ++ with_in_names cube.now sets.items) }
{
    for set in sets {
        put_in_name(alloc, out, cube, set)?;
    }
    Ok(())
}

/// Appends the cube with each of these sets for its output names, without empty ones.
fn put_out_names<const W: u32>(
    alloc: Global,
    out: &mut Vec<Cube<W>>,
    cube: &Cube<W>,
    sets: Vec<NameSet>,
) -> Result<(), AllocError>
    ensures { OnOk result (out.new.items ≡ out.old.items ++ with_out_names cube.now sets.items) }
{
    for set in sets {
        put_out_name(alloc, out, cube, set)?;
    }
    Ok(())
}

/// Appends the pieces of `front` in whose names the other cube has none. Then `front` has the names that both have.
fn put_names_less<const W: u32>(
    alloc: Global,
    out: &mut Vec<Cube<W>>,
    front: &mut Cube<W>,
    other: &Cube<W>,
    in_name: NameSet,
    out_name: NameSet,
) -> Result<(), AllocError>
    ensures pieces { OnOk result (out.new.items ≡ out.old.items
        ++ with_in_names front.old (names_less front.old.in_name other.now.in_name)
        ++ with_out_names (record front.old { in_name = in_name }) (names_less front.old.out_name other.now.out_name)) }
    ensures front { OnOk result (front.new ≡ record front.old { in_name = in_name; out_name = out_name }) }
{
    let sets = less_names(alloc, &front.in_name, &other.in_name)?;
    put_in_names(alloc, out, front, sets)?;
    front.in_name = in_name;
    let sets = less_names(alloc, &front.out_name, &other.out_name)?;
    put_out_names(alloc, out, front, sets)?;
    front.out_name = out_name;
    Ok(())
}

/// The same for the addresses.
fn put_addresses_less<const W: u32>(
    alloc: Global,
    out: &mut Vec<Cube<W>>,
    front: &mut Cube<W>,
    other: &Cube<W>,
    src: Set<W>,
    dst: Set<W>,
) -> Result<(), AllocError>
    ensures pieces { OnOk result (out.new.items ≡ out.old.items
        ++ kept (record front.old { src = set_minus W front.old.src other.now.src })
        ++ kept (record front.old { src = src.entry; dst = set_minus W front.old.dst other.now.dst })) }
    ensures front { OnOk result (front.new ≡ record front.old { src = src.entry; dst = dst.entry }) }
{
    put_src(alloc, out, front, front.src.minus(alloc, &other.src)?)?;
    front.src = src;
    put_dst(alloc, out, front, front.dst.minus(alloc, &other.dst)?)?;
    front.dst = dst;
    Ok(())
}

/// The same for the protocols and ports.
fn put_ports_less<const W: u32>(
    alloc: Global,
    out: &mut Vec<Cube<W>>,
    front: &mut Cube<W>,
    other: &Cube<W>,
    proto: Set<8>,
    sport: Set<16>,
    dport: Set<16>,
) -> Result<(), AllocError>
    ensures pieces { OnOk result (out.new.items ≡ out.old.items
        ++ kept (record front.old { proto = set_minus 8 front.old.proto other.now.proto })
        ++ kept (record front.old { proto = proto; sport = set_minus 16 front.old.sport other.now.sport })
        ++ kept (record front.old { proto = proto; sport = sport; dport = set_minus 16 front.old.dport other.now.dport })) }
    ensures front { OnOk result (front.new ≡ record front.old { proto = proto; sport = sport; dport = dport }) }
{
    put_proto(alloc, out, front, front.proto.minus(alloc, &other.proto)?)?;
    front.proto = proto;
    let sports = front.sport.minus(alloc, &other.sport)?;
    put_sport(alloc, out, front, front.proto.copy(alloc)?, sports)?;
    front.sport = sport;
    let dports = front.dport.minus(alloc, &other.dport)?;
    put_dport(alloc, out, front, front.proto.copy(alloc)?, dports)?;
    front.dport = dport;
    Ok(())
}

/// The same for the flags, the states and the types of messages, the last dimensions.
fn put_last_less<const W: u32>(
    alloc: Global,
    out: &mut Vec<Cube<W>>,
    front: &mut Cube<W>,
    other: &Cube<W>,
    flags: u64,
    state: u8,
) -> Result<(), AllocError>
    ensures { OnOk result (out.new.items ≡ out.old.items
        ++ kept (record front.old { flags = bit_xor front.old.flags (bit_and front.old.flags other.now.flags) })
        ++ kept (record front.old { flags = flags; state = bit_xor front.old.state (bit_and front.old.state other.now.state) })
        ++ kept (record front.old { flags = flags; state = state; icmp = set_minus 8 front.old.icmp other.now.icmp })) }
{
    let others = front.flags ^ (front.flags & other.flags);
    put_flags(alloc, out, front, front.proto.copy(alloc)?, others)?;
    front.flags = flags;
    put_state(alloc, out, front, front.state ^ (front.state & other.state))?;
    front.state = state;
    let types = front.icmp.minus(alloc, &other.icmp)?;
    put_types(alloc, out, front, front.proto.copy(alloc)?, types)
}

/// The pieces of `cube` without `other`, where `common` is what they have in common.
fn rest_of<const W: u32>(
    alloc: Global,
    cube: &Cube<W>,
    other: &Cube<W>,
    common: Cube<W>,
) -> Result<Vec<Cube<W>>, AllocError>
    ensures { IfOk result (λ v. v.items ≡ minus_common cube.now other.now (Some common.entry)) }
{
    let Cube {
        in_name,
        out_name,
        src,
        dst,
        proto,
        sport,
        dport,
        flags,
        state,
        icmp: _,
    } = common;
    let mut front = cube.copy(alloc)?;
    let mut out = Vec::new(alloc);
    put_names_less(alloc, &mut out, &mut front, other, in_name, out_name)?;
    put_addresses_less(alloc, &mut out, &mut front, other, src, dst)?;
    put_ports_less(alloc, &mut out, &mut front, other, proto, sport, dport)?;
    put_last_less(alloc, &mut out, &mut front, other, flags, state)?;
    Ok(out)
}

impl<const W: u32> Cube<W> {
    /// The cube of the packets that both have, each dimension being what both have in it. None exactly where a
    /// dimension is empty.
    ///
    /// The names are those of this cube, cut by the base of the other's and then by the complement of each of its
    /// exclusions. They are empty where one of these cuts is None.
    pub fn and(&self, alloc: Global, other: &Cube<W>) -> Result<Option<Cube<W>>, AllocError>
        ensures spelled { IfOk result (λ o. o ≡ and_of self.now other.now) }
        ensures states { HasStates self.now → IfOk result (λ o. IfSome o HasStates) }
        ensures packets { IfOk result (λ o. (p : Packet) → IsValid W p → holds_some o p ≡ (holds_cube self.now p && holds_cube other.now p)) }
    {
        self.and_spelled(alloc, other)
    }

    fn and_spelled(&self, alloc: Global, other: &Cube<W>) -> Result<Option<Cube<W>>, AllocError>
        ensures { IfOk result (λ o. o ≡ and_of self.now other.now) }
    {
        let Some((in_name, out_name)) = both_names(alloc, self, other)? else {
            return Ok(None);
        };
        let sets = both_sets(alloc, self, other)?;
        let flags = self.flags & other.flags;
        let state = self.state & other.state;
        let common = of_dimensions(in_name, out_name, sets, flags, state);
        if is_empty(&common) {
            return Ok(None);
        }
        Ok(Some(common))
    }

    /// The packets of this cube that aren't in the other, in pieces: this cube alone where the two have nothing in common.
    ///
    /// Each dimension gives pieces, in the order of the dimensions: the earlier dimensions are what both cubes have, its
    /// own is that of this cube without that of the other, and the later ones are those of this cube. A dimension of names
    /// gives first the names that the other's base doesn't match, then those of each exclusion of the other, in order.
    /// Empty pieces go out. No packet is in two pieces where no two exclusions of one name set of `other` share a name.
    pub fn minus(&self, alloc: Global, other: &Cube<W>) -> Result<List<Cube<W>>, AllocError>
        ensures spelled { IfOk result (λ l. l ≡ minus_of self.now other.now) }
        ensures states { HasStates self.now → IfOk result (AllByRecursion HasStates) }
        ensures packets { IfOk result (λ l. (p : Packet) → IsValid W p → any_holds l p ≡ (holds_cube self.now p && not (holds_cube other.now p))) }
        ensures disjoint { AreAllApart other.now.in_name.excluded → AreAllApart other.now.out_name.excluded → IfOk result (λ l. AreDisjoint l) }
    {
        self.minus_spelled(alloc, other)
    }

    fn minus_spelled(&self, alloc: Global, other: &Cube<W>) -> Result<List<Cube<W>>, AllocError>
        ensures { IfOk result (λ l. l ≡ minus_of self.now other.now) }
    {
        match self.and(alloc, other)? {
            Some(common) => Ok(List::of(rest_of(alloc, self, other, common)?)),
            None => {
                let mut alone = Vec::new(alloc);
                alone.push(self.copy(alloc)?)?;
                Ok(List::of(alone))
            }
        }
    }
}
