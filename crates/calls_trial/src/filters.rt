//! What a filter may and must accept, with matches on interfaces hidden, and which unknown matches lead to it.
use crate::dumps::{accepting, limited_tcp, may_be_asked, packet};
use box_norm::first;
use chain_graph::check;
use explain::{Explain, explain};
use fw_rule::{Action, Dump, Lit, Place, Side, Step, Verdict, doubtful, policy_of};
use match_expr::{Boxed, Bytes, Expr, Items, List};
use name_set::Pattern;
use primitives::Prim_;
use simple_filter::{Hide, abstracted, closed};
use std::alloc::{AllocError, Global};
use std::test::Fail;

/// Accepts where a connection isn't new or the input interface, or the output interface, isn't eth0.
fn of_eth0(alloc: Global, is_input: bool) -> Result<Dump<Prim_<32>>, AllocError> {
    let eth0 = Pattern::Exact(Bytes::of(Vec::from_slice(alloc, b"eth0")?));
    let name = if is_input {
        Prim_::InName(eth0)
    } else {
        Prim_::OutName(eth0)
    };
    let parts = vec![in alloc; Expr::Prim(Prim_::State(2)), Expr::Prim(name)]?;
    let expr = Expr::Not(Boxed::new(alloc, Expr::All(Items::from_vec(parts)))?);
    accepting(alloc, vec![in alloc; Lit::Known { neg: false, expr }]?)
}

/// Whether the first rule is unknown after names are hidden, and all else of its chain is as it was.
fn is_hidden(alloc: Global, dump: &Dump<Prim_<32>>, hide: Hide) -> Result<bool, Fail> {
    let after = abstracted(alloc, dump, hide)?;
    let chain = after.chains.as_slice().first().ok_or("no chain")?;
    let rule = chain.rules.as_slice().first().ok_or("no rule")?;
    let stays = chain.name.as_slice() == b"FORWARD".as_slice()
        && chain.policy == Some(Verdict::Drop)
        && matches!(&rule.action, Action::Accept)
        && rule.line == 7;
    if !stays {
        return Err("another chain".into());
    }
    Ok(doubtful(rule))
}

#[test]
fn a_name_inside_a_not_is_hidden(rt: HostRuntime) -> Result<(), Fail> {
    let alloc = rt.alloc();
    for (is_input, hide, hidden) in [
        (false, Hide::Nothing, false),
        (false, Hide::OutNames, true),
        (false, Hide::BothNames, true),
        (true, Hide::Nothing, false),
        (true, Hide::OutNames, false),
        (true, Hide::BothNames, true),
    ] {
        let dump = of_eth0(alloc, is_input)?;
        assert!(rt; is_hidden(alloc, &dump, hide)? == hidden);
    }
    Ok(())
}

/// What the first simple rule of a chain answers for a packet of the protocol.
fn first_answer(
    alloc: Global,
    dump: &Dump<Prim_<32>>,
    side: Side,
    proto: u8,
) -> Result<Option<bool>, Fail> {
    may_be_asked(dump)?;
    match closed(alloc, dump, 0, side) {
        Ok(rules) => Ok(first(rules.as_slice(), &packet(alloc, proto, 53))),
        Err(_) => Err("a refusal".into()),
    }
}

#[test]
fn what_may_be_accepted_and_what_must_be(rt: HostRuntime) -> Result<(), Fail> {
    let alloc = rt.alloc();
    let dump = limited_tcp(alloc)?;
    for (side, proto, answer) in [
        (Side::Upper, 6, Some(true)),
        (Side::Upper, 17, None),
        (Side::Lower, 6, None),
    ] {
        assert!(rt; first_answer(alloc, &dump, side, proto)? == answer);
    }
    Ok(())
}

/// The explanations of a packet of tcp in the first chain.
fn explained(alloc: Global) -> Result<Explain, Fail> {
    let dump = limited_tcp(alloc)?;
    may_be_asked(&dump)?;
    let ranked = check(alloc, &dump, 0)?;
    Ok(explain(alloc, &dump, &ranked, 0, &packet(alloc, 6, 53))?)
}

/// Whether these are the places, each with one step.
fn are(places: &Option<List<Place>>, wanted: &[(Step, u32)]) -> bool {
    let Some(places) = places else {
        return false;
    };
    let places = places.as_slice();
    if places.len() != wanted.len() {
        return false;
    }
    for (place, (step, lit)) in places.iter().zip(wanted) {
        if place.steps.as_slice() != [*step].as_slice() || place.lit != *lit {
            return false;
        }
    }
    true
}

#[test]
fn an_unknown_match_leads_to_accept(rt: HostRuntime) -> Result<(), Fail> {
    let answer = explained(rt.alloc())?;
    assert!(rt; are(&answer.accept, &[(Step { chain: 0, rule: 0 }, 1)]));
    assert!(rt; are(&answer.drop, &[]));
    Ok(())
}
