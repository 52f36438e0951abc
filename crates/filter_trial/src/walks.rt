use crate::dumps::{going, known_literal, rule, unknown_literal};
use chain_graph::{calls_name_chains, check, has_room};
use fw_rule::{Action, Place, Step, Verdict, doubtful, known, policy_of, walk};
use match_expr::List;
use std::alloc::{AllocError, Global};
use std::test::Fail;

#[test]
fn what_is_known_of_a_doubtful_rule(rt: HostRuntime) -> Result<(), Fail> {
    let alloc = rt.alloc();
    let lits = vec![in alloc; known_literal(true, 10), unknown_literal(alloc)]?;
    let rule = rule(lits, Action::Accept);
    assert!(rt; doubtful(&rule));
    let part = known(alloc, &rule)?.copy(alloc)?;
    assert_eq!(rt;
        (part.eval(&10), part.eval(&11), part.literals()),
        (false, true, 1)
    );
    Ok(())
}

#[test]
fn chains_are_ranked_over_calls_and_gotos(rt: HostRuntime) -> Result<(), Fail> {
    let dump = going(rt.alloc())?;
    assert!(rt; has_room(&dump));
    assert_eq!(rt; dump.find(b""), Some(0));
    assert!(rt; calls_name_chains(&dump));
    assert!(rt; dump.chains.as_slice().len() > 0);
    let ranked = check(rt.alloc(), &dump, 0)?;
    assert_eq!(rt;
        ranked.ranks.as_slice(),
        [Some(3), Some(2), Some(1)].as_slice()
    );
    assert_eq!(rt; ranked.visits, 8);
    Ok(())
}

/// The place of the last chain's unknown match, where the second chain goes there.
fn place(alloc: Global) -> Result<Place, AllocError> {
    let steps = [step(0, 1), step(1, 0), step(2, 0)];
    Ok(Place {
        steps: List::of(steps.to_vec(alloc)?),
        lit: 0,
    })
}

const fn step(chain: u32, rule: u32) -> Step {
    Step { chain, rule }
}

#[test]
fn a_goto_does_not_come_back_to_the_calling_chain(rt: HostRuntime) -> Result<(), Fail> {
    let alloc = rt.alloc();
    let dump = going(alloc)?.copy(alloc)?;
    assert!(rt; has_room(&dump));
    assert!(rt; calls_name_chains(&dump));
    assert!(rt; dump.chains.as_slice().len() > 0);
    let Some(_policy) = policy_of(&dump, 0) else {
        return Err(Fail::from("no policy"));
    };
    let _ranked = check(alloc, &dump, 0)?;
    // Packet 3 comes to the policy.
    for (packet, verdict) in [
        (1u8, Verdict::Accept),
        (2, Verdict::Drop),
        (3, Verdict::Drop),
        (4, Verdict::Accept),
    ] {
        assert!(rt;
            walk(alloc, &dump, 0, &packet, &[])? == verdict,
            "packet {packet}"
        );
    }
    assert!(rt; walk(alloc, &dump, 0, &1, &[place(alloc)?])? == Verdict::Drop);
    Ok(())
}
