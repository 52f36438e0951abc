ghost use Rattle.service_matrix.specs.Laws.{AreAnsweredAlike, HasOneMatrix};
ghost use Rattle.service_matrix.specs.Services.{Edge};

use fw_rule::{Dump, Side};
use primitives::{Packet, Prim_};
use service_packet::Service;

/// What may and what must be accepted depends on the tests in known literals of rules in reach alone.
pub fn alike_packets<const W: u32>(dump: &Dump<Prim_<W>>, chain: u32, p: &Packet, q: &Packet)
    ensures { AreAnsweredAlike dump.now chain p.now q.now }
{}

/// The edges of a service in a chain have one matrix alone, if they have one: the classes, their order and the edges are told by them.
pub fn one_matrix<const W: u32>(dump: &Dump<Prim_<W>>, chain: u32, side: Side, service: &Service)
    ensures { HasOneMatrix W (Edge side dump.now chain service.now) }
{}
