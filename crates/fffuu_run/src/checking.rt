ghost use Rattle.std.specs.Prelude.{◌≡◌, ◌<◌, ◌⊎◌, IfOk, IfErr, OnOk, length};
ghost use Rattle.chain_graph.specs.Paths.{CallsNameChains};
ghost use Rattle.chain_graph.specs.Results.{IsRanked};
ghost use Rattle.closure.specs.Checked.{HasPolicy};
ghost use Rattle.fw_rule.specs.Calls.{HasRoom};
ghost use Rattle.interval_set.specs.Numbers.{IsWidth};
ghost use Rattle.fffuu_run.specs.Checks.{Checks, IsCheckOver, RefusesCheck};
ghost use Rattle.fffuu_run.specs.Questions.{Comes, IsWithin};
ghost use Rattle.fffuu_run.specs.inner.Readings.{HoldsOfTexts, WasRead};

use crate::Status;
use crate::counting::counts;
use crate::dumps::DumpResult;
use crate::questions::{AskedChain, question, told};
use addr_text::Family;
use chain_graph::{Ranked, check};
use fw_rule::Dump;
use match_expr::Primitive;
use simple_filter::Refusal;
use std::alloc::Global;

/// Checks and ranks a chain.
pub fn checked<P: Primitive>(alloc: Global, dump: &Dump<P>, chain: u32) -> Result<Ranked, Refusal>
    requires policy { HasPolicy dump.now chain }
    requires room { HasRoom dump.now }
    requires named { CallsNameChains dump.now }
    ensures ok { IfOk result (IsRanked dump.now chain) }
    ensures within { OnOk result (IsWithin dump.now chain (IsCheckOver dump.now chain)) }
    ensures refused { IfErr result (Comes dump.now chain (IsCheckOver dump.now chain)) }
{
    Ok(check(alloc, dump, chain)?)
}

/// Checks the chain of this name of the dump that was read, and gives the line of the counts of the whole table.
pub fn check_text<F: Family<W>, const W: u32>(
    alloc: Global,
    name: &[u8],
    read: DumpResult<W>,
) -> Result<Vec<u8>, Status>
    requires width { IsWidth W }
    requires read { WasRead W F.Reads read }
    ensures ok { IfOk result (λ written. HoldsOfTexts W F.Reads read.entry (λ text. Checks W F.Reads name.now text written.items)) }
    ensures refused { IfErr result (λ s. (s ≡ Status.Memory)
        ⊎ HoldsOfTexts W F.Reads read.entry (λ text. RefusesCheck W F.Reads name.now text s)) }
{
    let AskedChain { dump, chain, .. } = question::<F, W>(name, read)?;
    match checked(alloc, &dump, chain) {
        Ok(_) => Ok(counts(alloc, &dump)?),
        Err(refusal) => Err(told(alloc, &dump, refusal)),
    }
}
