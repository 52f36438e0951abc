ghost use Rattle.fw_laws.specs.Known.{KnownAlone, HasOneWalk, WalkIsMay, WalkIsMust};

use fw_rule::Dump;
use match_expr::Primitive;

/// Where no rule that is reached has an unknown literal, all meanings have one walk, and what may be accepted, what must be accepted and what the walk accepts are one.
pub fn known_is_decided<P: Primitive>(dump: &Dump<P>, chain: u32, p: &P::Packet)
    requires { KnownAlone dump.now chain }
    ensures walk { HasOneWalk P.meaning dump.now chain p.now }
    ensures may { WalkIsMay P.meaning dump.now chain p.now }
    ensures must { WalkIsMust P.meaning dump.now chain p.now }
{}
