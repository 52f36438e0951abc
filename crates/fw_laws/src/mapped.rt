ghost use Rattle.fw_laws.specs.Mapped.{SameStays, ShapeStays, SettledStays, RoomStays, CallsStay, PoliciesStay};

use fw_rule::Dump;
use match_expr::Primitive;

/// Whatever the mapping of literals, a dump keeps its policies and actions, and with them its calls and gotos, its
/// numbers and which of its chains are settled. A mapping that changes no literal changes nothing.
pub fn mapping_keeps_the_rest<P: Primitive>(dump: &Dump<P>)
    ensures same { SameStays dump.now }
    ensures shape { ShapeStays dump.now }
    ensures settled { SettledStays dump.now }
    ensures room { RoomStays dump.now }
    ensures calls { CallsStay dump.now }
    ensures policies { PoliciesStay dump.now }
{}
