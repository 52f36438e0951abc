ghost use Rattle.std.specs.Prelude.{◌≤◌, ℕ, IfErr, IfOk, length};
ghost use Rattle.limits.specs.declared.TheConstants.{MOST_BYTES};
ghost use Rattle.fw_rule.specs.Calls.{HasRoom};
ghost use Rattle.interval_set.specs.Numbers.{IsWidth};
ghost use Rattle.dump_grammar.specs.Reads.{IsDump};
ghost use Rattle.dump_read.specs.Answers.{HasAtMost, IsFaultOf, IsPrintableDump};

use crate::fault::ReadFault;
use crate::reading::Reading;
use addr_text::Family;
use fw_rule::Dump;
use primitives::Prim_;
use std::alloc::Global;

/// The dump that a text of at most `limits::MOST_BYTES` bytes is. It has at most so many chains, each chain so many rules, and each
/// rule so many literals.
///
/// # Errors
///
/// `Malformed` exactly where a line can't stand where it stands, or a table is open at the end; else `NoFilter` exactly
/// where there is no table `filter`; else `UndefinedChain` exactly where a rule's chain isn't declared or its `-g` names no
/// declared user chain. `Memory` where memory runs out.
pub fn read_dump<F: Family<W>, const W: u32>(
    alloc: Global,
    text: &[u8],
) -> Result<Dump<Prim_<W>>, ReadFault>
    requires width { IsWidth W }
    requires size { length text.now ≤ MOST_BYTES }
    ensures ok { IfOk result (IsDump W F.Reads text.now) }
    ensures fault { IfErr result (IsFaultOf W F.Reads text.now) }
    ensures few { IfOk result (HasAtMost MOST_BYTES) }
    ensures room { IfOk result HasRoom }
    ensures printable { IfOk result IsPrintableDump }
{
    let mut reading = Reading::<F, W>::new(alloc);
    match reading.feed(alloc, text) {
        Ok(()) => reading.finish(alloc),
        Err(fault) => Err(fault),
    }
}
