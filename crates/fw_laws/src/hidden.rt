ghost use Rattle.fw_rule.specs.Walk.{Settled};
ghost use Rattle.fw_laws.specs.Hidden.{NothingHidden, VerdictsStay, MayWidens, MustNarrows};

use fw_rule::Dump;
use match_expr::Primitive;

/// Where the test of what is hidden is never true the dump stays as it is.
pub fn nothing_hidden<P: Primitive>(dump: &Dump<P>)
    ensures { NothingHidden dump.now }
{}

/// Each verdict of a walk is, whatever is hidden, the verdict of some walk of the hidden dump. So what may be accepted may be accepted there.
pub fn hiding_widens_may<P: Primitive>(dump: &Dump<P>, chain: u32, p: &P::Packet)
    ensures verdicts { VerdictsStay dump.now P.meaning chain p.now }
    ensures may { MayWidens dump.now P.meaning chain p.now }
{}

/// From a settled chain what must be accepted after something is hidden must be accepted before.
pub fn hiding_narrows_must<P: Primitive>(dump: &Dump<P>, chain: u32, p: &P::Packet)
    requires { Settled dump.now chain }
    ensures { MustNarrows dump.now P.meaning chain p.now }
{}
