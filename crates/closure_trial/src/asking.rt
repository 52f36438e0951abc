ghost use Rattle.std.specs.Prelude.{IfOk, IfSome};
ghost use Rattle.fw_rule.specs.Walk.{HasRoom, Settled};
ghost use Rattle.closure.specs.Checked.{IsRankedWithPolicy};

use chain_graph::{GraphFault, Ranked, calls_name_chains, check, has_room};
use closure::FlatFault;
use fw_rule::{Dump, policy_of};
use match_expr::Primitive;
use std::alloc::Global;

/// What a check of the first chain answers. None where it is refused, or the dump can't be asked of it.
pub(crate) fn checked<P: Primitive>(
    alloc: Global,
    dump: &Dump<P>,
) -> Result<Option<Ranked>, FlatFault>
    ensures room { IfOk result (λ o. IfSome o (λ ranked. HasRoom dump.now)) }
    ensures settled { IfOk result (λ o. IfSome o (λ ranked. Settled dump.now 0)) }
    ensures checked { IfOk result (λ o. IfSome o (IsRankedWithPolicy dump.now 0)) }
{
    if !has_room(dump) || !calls_name_chains(dump) {
        return Ok(None);
    }
    let Some(_policy) = policy_of(dump, 0) else {
        return Ok(None);
    };
    match check(alloc, dump, 0) {
        Ok(ranked) => Ok(Some(ranked)),
        Err(GraphFault::Memory) => Err(FlatFault::Memory),
        Err(_) => Ok(None),
    }
}
