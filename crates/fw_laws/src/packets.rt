ghost use Rattle.fw_laws.specs.Packets.{SameWalk, SameAnswers};

use fw_rule::Dump;
use match_expr::Primitive;

/// Two packets that the known literals of the rules that are reached don't tell apart have the same walk under each meaning, and both or neither may, and must, be accepted.
pub fn packets_alike<P: Primitive>(dump: &Dump<P>, chain: u32, p: &P::Packet, q: &P::Packet)
    ensures walk { SameWalk P.meaning dump.now chain p.now q.now }
    ensures answers { SameAnswers P.meaning dump.now chain p.now q.now }
{}
