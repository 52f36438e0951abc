//! Dumps of one chain, and packets.
ghost use Rattle.std.specs.Prelude.{IsTrue, OnOk};
ghost use Rattle.fw_rule.specs.Calls.{HasRoom};
ghost use Rattle.chain_graph.specs.Paths.{CallsNameChains};
ghost use Rattle.closure.specs.Checked.{HasPolicy};

use chain_graph::{calls_name_chains, has_room};
use fw_rule::{Action, Chain, Dump, Lit, Rule, Verdict, policy_of};
use interval_set::Set;
use match_expr::{Bytes, Expr, List};
use primitives::{Packet, Prim_, ProtoNum};
use std::alloc::{AllocError, Global};
use std::test::Fail;

/// A literal of one test.
pub(crate) fn literal(prim: Prim_<32>) -> Lit<Prim_<32>> {
    Lit::Known {
        neg: false,
        expr: Expr::Prim(prim),
    }
}

/// A chain of one rule, on line 7, that accepts, and the policy to drop.
pub(crate) fn accepting(
    alloc: Global,
    lits: Vec<Lit<Prim_<32>>>,
) -> Result<Dump<Prim_<32>>, AllocError> {
    let rule = Rule {
        lits: List::of(lits),
        action: Action::Accept,
        line: 7,
    };
    let chain = Chain {
        name: Bytes::of(Vec::from_slice(alloc, b"FORWARD")?),
        policy: Some(Verdict::Drop),
        rules: List::of(vec![in alloc; rule]?),
    };
    Ok(Dump {
        chains: List::of(vec![in alloc; chain]?),
    })
}

/// Accepts tcp where an unknown match holds.
pub(crate) fn limited_tcp(alloc: Global) -> Result<Dump<Prim_<32>>, AllocError> {
    let tcp = literal(Prim_::Proto(ProtoNum { number: 6 }));
    let limit = Lit::Unknown(Bytes::of(Vec::from_slice(alloc, b"-m limit")?));
    accepting(alloc, vec![in alloc; tcp, limit]?)
}

/// Accepts from 10.0.0.0/8 to 192.168.0.1.
pub(crate) fn one_pair(alloc: Global) -> Result<Dump<Prim_<32>>, AllocError> {
    let src = literal(Prim_::Src(Set::range(alloc, 0x0A00_0000, 0x0AFF_FFFF)?));
    let dst = literal(Prim_::Dst(Set::range(alloc, 0xC0A8_0001, 0xC0A8_0001)?));
    accepting(alloc, vec![in alloc; src, dst]?)
}

/// A packet of the protocol, to the port.
pub(crate) fn packet(alloc: Global, proto: u8, dport: u16) -> Packet {
    Packet {
        in_name: Bytes::of(Vec::new(alloc)),
        out_name: Bytes::of(Vec::new(alloc)),
        src: 0,
        dst: 0,
        proto,
        sport: 0,
        dport,
        flags: 0,
        state: 1,
        icmp: 0,
    }
}

/// Whether the chain is there and has a policy.
fn has_policy(dump: &Dump<Prim_<32>>, chain: u32) -> bool
    ensures { IsTrue result → HasPolicy dump.now chain }
{
    match policy_of(dump, chain) {
        Some(_) => true,
        None => false,
    }
}

/// That a question may be asked of the first chain.
pub(crate) fn may_be_asked(dump: &Dump<Prim_<32>>) -> Result<(), Fail>
    ensures policy { OnOk result (HasPolicy dump.now 0) }
    ensures room { OnOk result (HasRoom dump.now) }
    ensures named { OnOk result (CallsNameChains dump.now) }
{
    if !has_policy(dump, 0) {
        return Err("no policy".into());
    }
    if !has_room(dump) {
        return Err("no room".into());
    }
    if !calls_name_chains(dump) {
        return Err("a call to no chain".into());
    }
    Ok(())
}
