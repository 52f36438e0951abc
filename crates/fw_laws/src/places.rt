ghost use Rattle.fw_laws.specs.Places.{NoPlaceTwice, OthersDontMatter};

use fw_rule::Dump;
use match_expr::Primitive;

/// No walk comes to a place twice, whether the dump is settled or not.
pub fn no_place_twice<P: Primitive>(dump: &Dump<P>, p: &P::Packet)
    ensures { NoPlaceTwice P.meaning dump.now p.now }
{}

/// Two meanings that agree on the places that the walk under the first of them asks for have the same walk.
pub fn others_dont_matter<P: Primitive>(dump: &Dump<P>, p: &P::Packet)
    ensures { OthersDontMatter P.meaning dump.now p.now }
{}
