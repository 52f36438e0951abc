ghost use Rattle.fw_laws.specs.Shape.{SameShape, SameStates, SameVerdict, SameMay, SameMust, SameSettled};

use fw_rule::Dump;
use match_expr::Primitive;

/// Two dumps whose chains have the same policies and, rule by rule, the same actions: where their rules match alike, their walks have the same states and verdicts. Where they match alike under every meaning, the same may and must be accepted. A chain is settled in both or in neither.
pub fn same_rules_same_walk<P: Primitive>(one: &Dump<P>, other: &Dump<P>, p: &P::Packet)
    requires { SameShape one.now other.now }
    ensures states { SameStates P.meaning one.now other.now p.now }
    ensures verdict { SameVerdict P.meaning one.now other.now p.now }
    ensures may { SameMay P.meaning one.now other.now p.now }
    ensures must { SameMust P.meaning one.now other.now p.now }
    ensures settled { SameSettled one.now other.now }
{}
