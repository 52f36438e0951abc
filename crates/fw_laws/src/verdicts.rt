ghost use Rattle.fw_rule.specs.Walk.{Meaning, Settled};
ghost use Rattle.fw_laws.specs.Verdicts.{HasOneVerdict, MustIsMay, NeverIsDropped, MustIsNeverDropped};

use fw_rule::Dump;
use match_expr::Primitive;

/// From a settled chain each packet and meaning have exactly one verdict.
pub fn exactly_one_verdict<P: Primitive>(dump: &Dump<P>, chain: u32, p: &P::Packet)
    requires { Settled dump.now chain }
    ensures { (m : Meaning) → HasOneVerdict P.meaning dump.now chain p.now m }
{}

/// What must be accepted may be accepted.
pub fn must_is_may<P: Primitive>(dump: &Dump<P>, chain: u32, p: &P::Packet)
    ensures { MustIsMay P.meaning dump.now chain p.now }
{}

/// From a settled chain exactly what may not be accepted is dropped under every meaning, and exactly what must be accepted is dropped under none.
pub fn dropped_or_accepted<P: Primitive>(dump: &Dump<P>, chain: u32, p: &P::Packet)
    requires { Settled dump.now chain }
    ensures never { NeverIsDropped P.meaning dump.now chain p.now }
    ensures must { MustIsNeverDropped P.meaning dump.now chain p.now }
{}
