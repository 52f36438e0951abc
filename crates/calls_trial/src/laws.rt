//! The laws can be called at a settled dump.
ghost use Rattle.std.specs.Prelude.{◌≡◌, ◌∷◌, [], Some, IfOk};

use crate::dumps::packet;
use crate::questions::ssh;
use explain::one_explanation;
use fw_rule::{Chain, Dump, Side, Verdict};
use match_expr::{Bytes, List};
use primitives::Prim_;
use service_matrix::{alike_packets, one_matrix};
use simple_filter::{
    hiding_keeps_calls, hiding_keeps_settled, hiding_narrows_must, hiding_nothing,
    hiding_widens_may,
};
use std::alloc::{AllocError, Global};
use std::test::Fail;

/// A chain that accepts by its policy, and has no rules.
fn lone(alloc: Global) -> Result<Dump<Prim_<32>>, AllocError>
    ensures { IfOk result (λ dump. dump.chains ≡ record { name = []; policy = Some Verdict.Accept; rules = [] } ∷ []) }
{
    let mut chains = Vec::new(alloc);
    chains.push(Chain {
        name: Bytes::of(Vec::new(alloc)),
        policy: Some(Verdict::Accept),
        rules: List::of(Vec::new(alloc)),
    })?;
    Ok(Dump {
        chains: List::of(chains),
    })
}

#[test]
fn the_laws_can_be_called_at_a_settled_dump(rt: HostRuntime) -> Result<(), Fail> {
    let alloc = rt.alloc();
    let dump = lone(alloc)?;
    let p = packet(alloc, 17, 53);
    hiding_nothing(&dump);
    hiding_keeps_settled(&dump);
    hiding_keeps_calls(&dump);
    hiding_widens_may(&dump, 0, &p);
    hiding_narrows_must(&dump, 0, &p);
    alike_packets(&dump, 0, &p, &p);
    one_matrix(&dump, 0, Side::Upper, &ssh());
    one_explanation(&dump, Verdict::Accept, &p);
    Ok(())
}
