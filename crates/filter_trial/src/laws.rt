ghost use Rattle.std.specs.Prelude.{◌≡◌, ◌∷◌, [], Some, IfOk};

use crate::dumps::Is;
use fw_laws::{
    dropped_or_accepted, exactly_one_verdict, hiding_narrows_must, hiding_widens_may,
    known_is_decided, mapping_keeps_the_rest, must_is_may, no_place_twice, nothing_hidden,
    others_dont_matter, packets_alike, same_rules_same_walk,
};
use fw_rule::{Chain, Dump, Verdict};
use match_expr::{Bytes, List};
use std::alloc::{AllocError, Global};
use std::test::Fail;

// A chain that accepts by its policy, and has no rules.
fn lone(alloc: Global) -> Result<Dump<Is>, AllocError>
    ensures { IfOk result (λ dump. dump.chains ≡ record { name = []; policy = Some Verdict.Accept; rules = [] } ∷ []) }
{
    let mut chains = Vec::new(alloc);
    chains.push(Chain {
        name: Bytes::of(Vec::new(alloc)),
        policy: Some(Verdict::Accept),
        rules: List::of(Vec::new(alloc)),
    })?;
    Ok(Dump {
        chains: List::of(chains),
    })
}

#[test]
fn the_laws_can_be_called_at_a_settled_dump(rt: HostRuntime) -> Result<(), Fail> {
    let dump = lone(rt.alloc())?;
    same_rules_same_walk(&dump, &dump, &1);
    exactly_one_verdict(&dump, 0, &1);
    must_is_may(&dump, 0, &1);
    dropped_or_accepted(&dump, 0, &1);
    no_place_twice(&dump, &1);
    others_dont_matter(&dump, &1);
    known_is_decided(&dump, 0, &1);
    packets_alike(&dump, 0, &1, &2);
    nothing_hidden(&dump);
    mapping_keeps_the_rest(&dump);
    hiding_widens_may(&dump, 0, &1);
    hiding_narrows_must(&dump, 0, &1);
    Ok(())
}
