ghost use Rattle.std.specs.Prelude.{◌≡◌, IfOk, ◌==◌};
ghost use Rattle.primitives.specs.Holds.{has_bit};
ghost use Rattle.box_norm.specs.Cubes.{holds_cube, is_none, has_no_range, has_no_name};

use interval_set::Set;
use match_expr::List;
use name_set::NameSet;
use primitives::Packet;
use std::alloc::{AllocError, Global};
use thiserror::Error;

/// Packets, by a set of values for each of ten dimensions. A packet is in the cube where each of its fields is in the
/// set of its name. W is the number of bits of an address, 32 or 128.
#[derive(Drop)]
pub struct Cube<const W: u32> {
    /// Names of the input interface.
    pub in_name: NameSet,
    /// Names of the output interface.
    pub out_name: NameSet,
    /// Source addresses.
    pub src: Set<W>,
    /// Destination addresses.
    pub dst: Set<W>,
    /// Protocol numbers.
    pub proto: Set<8>,
    /// Source ports.
    pub sport: Set<16>,
    /// Destination ports.
    pub dport: Set<16>,
    /// A bit for each of the 64 numbers that the flags of tcp make.
    pub flags: u64,
    /// A bit for each of the five states of a connection.
    pub state: u8,
    /// Types of icmp and ipv6-icmp messages.
    pub icmp: Set<8>,
}

/// The transport protocols and their ports, three dimensions of a cube.
#[derive(Drop)]
pub struct Transport {
    pub proto: Set<8>,
    pub sport: Set<16>,
    pub dport: Set<16>,
}

/// The dimensions of a cube that are sets of numbers.
#[derive(Drop)]
pub struct Sets<const W: u32> {
    pub src: Set<W>,
    pub dst: Set<W>,
    pub transport: Transport,
    pub icmp: Set<8>,
}

/// Why there is no list.
#[derive(Debug, Drop, Error)]
pub enum CubeFault {
    /// A list of more than `MOST_CUBES` cubes came up.
    #[error("too many boxes")]
    Boxes,
    /// The simple rules are more than `MOST_RULES`.
    #[error("too many rules")]
    Rules,
    /// There was no memory left.
    #[error("out of memory")]
    Memory,
}

impl From<AllocError> for CubeFault {
    ghost use Rattle.std.specs.Prelude.{◌≡◌};
    ghost use Rattle.box_norm.specs.declared.cube.CubeFault.{CubeFault};

    ghost from_gives = { λ _ e. e ≡ CubeFault.Memory };

    fn from(_e: AllocError) -> CubeFault {
        CubeFault::Memory
    }
}

/// Whether the bit of the state's number is set.
fn has_state(states: u8, state: u8) -> bool
    ensures { result ≡ has_bit states state }
{
    state < 8 && (states >> state) & 1 == 1
}

/// Whether the bit of the flags' number is set.
fn has_flags(flags: u64, number: u8) -> bool
    ensures { result ≡ has_bit flags number }
{
    number < 64 && (flags >> number) & 1 == 1
}

impl<const W: u32> Cube<W> {
    /// Whether the packet is in the cube.
    pub fn holds(&self, p: &Packet) -> bool
        ensures { result ≡ holds_cube self.now p.now }
    {
        self.in_name.contains(p.in_name.as_slice())
            && self.out_name.contains(p.out_name.as_slice())
            && self.src.contains(p.src)
            && self.dst.contains(p.dst)
            && self.proto.contains(p.proto as u128)
            && self.sport.contains(p.sport as u128)
            && self.dport.contains(p.dport as u128)
            && has_flags(self.flags, p.flags)
            && has_state(self.state, p.state)
            && self.icmp.contains(p.icmp as u128)
    }

    /// An equal cube, or `AllocError`.
    pub fn copy(&self, alloc: Global) -> Result<Cube<W>, AllocError>
        ensures { IfOk result (λ c. c ≡ self.now) }
    {
        let (in_name, out_name) = copy_names(alloc, self)?;
        let sets = copy_sets(alloc, self)?;
        Ok(of_dimensions(in_name, out_name, sets, self.flags, self.state))
    }
}

/// The cube with these dimensions.
pub fn of_dimensions<const W: u32>(
    in_name: NameSet,
    out_name: NameSet,
    sets: Sets<W>,
    flags: u64,
    state: u8,
) -> Cube<W>
    ensures { result ≡ record {
      in_name = in_name;
      out_name = out_name;
      src = sets.entry.src;
      dst = sets.entry.dst;
      proto = sets.entry.transport.proto;
      sport = sets.entry.transport.sport;
      dport = sets.entry.transport.dport;
      flags = flags;
      state = state;
      icmp = sets.entry.icmp;
    } }
{
    let Sets {
        src,
        dst,
        transport,
        icmp,
    } = sets;
    let Transport {
        proto,
        sport,
        dport,
    } = transport;
    Cube {
        in_name,
        out_name,
        src,
        dst,
        proto,
        sport,
        dport,
        flags,
        state,
        icmp,
    }
}

fn copy_names<const W: u32>(alloc: Global, cube: &Cube<W>) -> Result<(NameSet, NameSet), AllocError>
    ensures { IfOk result (λ names. names ≡ (cube.now.in_name, cube.now.out_name)) }
{
    Ok((cube.in_name.copy(alloc)?, cube.out_name.copy(alloc)?))
}

fn copy_sets<const W: u32>(alloc: Global, cube: &Cube<W>) -> Result<Sets<W>, AllocError>
    ensures { IfOk result (λ s. s ≡ record {
      src = cube.now.src;
      dst = cube.now.dst;
      transport = record { proto = cube.now.proto; sport = cube.now.sport; dport = cube.now.dport };
      icmp = cube.now.icmp;
    }) }
{
    Ok(Sets {
        src: cube.src.copy(alloc)?,
        dst: cube.dst.copy(alloc)?,
        transport: copy_transport(alloc, cube)?,
        icmp: cube.icmp.copy(alloc)?,
    })
}

fn copy_transport<const W: u32>(alloc: Global, cube: &Cube<W>) -> Result<Transport, AllocError>
    ensures { IfOk result (λ t. t ≡ record { proto = cube.now.proto; sport = cube.now.sport; dport = cube.now.dport }) }
{
    Ok(Transport {
        proto: cube.proto.copy(alloc)?,
        sport: cube.sport.copy(alloc)?,
        dport: cube.dport.copy(alloc)?,
    })
}

/// A rule that answers `accept` for the packets of a cube.
#[derive(Drop)]
pub struct SimpleRule<const W: u32> {
    /// The packets that the rule answers for.
    pub cube: Cube<W>,
    /// What it answers: true to accept, false to drop.
    pub accept: bool,
}
