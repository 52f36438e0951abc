ghost use Rattle.explain.specs.Answers.{OneExplanation};

use fw_rule::{Dump, Verdict};
use match_expr::Primitive;

/// A verdict has one explanation at most, from each state of a walk: what `explain` answers is fixed.
pub fn one_explanation<P: Primitive>(dump: &Dump<P>, wanted: Verdict, p: &P::Packet)
    ensures { OneExplanation P.meaning dump.now p.now wanted }
{}
