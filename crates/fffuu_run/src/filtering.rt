ghost use Rattle.std.specs.Prelude.{◌≡◌, ◌<◌, ◌⊎◌, IfOk, IfErr, OnOk, Some, length, true};
ghost use Rattle.interval_set.specs.Numbers.{IsWidth};
ghost use Rattle.chain_graph.specs.Paths.{CallsNameChains};
ghost use Rattle.fw_rule.specs.Walk.{HasRoom, policy_of};
ghost use Rattle.box_norm.specs.Regular.{EachCube, HasStates, IsRegular};
ghost use Rattle.dump_grammar.specs.ChainLines.{built_in, is_among};
ghost use Rattle.box_norm.specs.Sets.{HasSets};
ghost use Rattle.dump_read.specs.Answers.{IsPrintableDump};
ghost use Rattle.dump_print.specs.Printed.{printed};
ghost use Rattle.simple_filter.specs.Closed.{Accepts, NamesAreKnown};
ghost use Rattle.fffuu_run.specs.Headline.{IsChain, IsFilterOf};
ghost use Rattle.fffuu_run.specs.Filters.{Filters, IsFilterOver, IsPrintedFilter, RefusesFilter};
ghost use Rattle.fffuu_run.specs.Questions.{Comes, IsWithin};
ghost use Rattle.fffuu_run.specs.inner.Readings.{HoldsOfTexts, WasRead};

use crate::Status;
use crate::dumps::DumpResult;
use crate::questions::{AskedChain, question, told};
use addr_text::Family;
use box_norm::SimpleRule;
use dump_print::{PrintFault, print};
use fw_rule::{Dump, Side, Verdict};
use primitives::Prim_;
use printed_filter::means_its_rules;
use printed_text::is_read_back;
use simple_filter::{Kind, Refusal, closed};
use std::alloc::Global;

// That the text of these rules of a chain, which has this name and policy, means what the side asks. The time grows with the rules' number.
#[tactic(auto, using(crate::proofs::NameLemmas::rules_printable, crate::proofs::HeadlineLemmas::is_filter_of))]
fn means_its_side<F: Family<W>, const W: u32>(
    dump: &Dump<Prim_<W>>,
    chain: u32,
    side: Side,
    name: &[u8],
    policy: Verdict,
    rules: &[SimpleRule<W>],
)
    requires built_in { is_among built_in name.now ≡ true }
    requires printable { IsPrintableDump dump.now }
    requires accepts { Accepts side dump.now chain policy rules.now }
    requires regular { EachCube IsRegular rules.now }
    requires states { EachCube HasStates rules.now }
    requires sets { EachCube HasSets rules.now }
    requires names { EachCube (NamesAreKnown dump.now chain) rules.now }
    ensures { IsFilterOf W F.Reads side dump.now chain name.now policy (printed F.text_of W name.now policy rules.now) }
{
    means_its_rules(name, policy, rules);
    is_read_back::<F, W>(name, policy, rules);
}

// The filter of one side of a chain, which has this name and policy.
fn filter_of<F: Family<W>, const W: u32>(
    alloc: Global,
    dump: &Dump<Prim_<W>>,
    chain: u32,
    side: Side,
    name: &[u8],
    policy: Verdict,
) -> Result<Vec<u8>, Refusal>
    requires width { IsWidth W }
    requires room { HasRoom dump.now }
    requires named { CallsNameChains dump.now }
    requires built_in { is_among built_in name.now ≡ true }
    requires printable { IsPrintableDump dump.now }
    requires chain_is { IsChain dump.now chain name.now policy }
    requires policy { policy_of dump.now chain ≡ Some policy }
    ensures ok { IfOk result (λ written. IsPrintedFilter W F.Reads F.text_of side name.now dump.now chain written.items) }
    ensures within { OnOk result (IsWithin dump.now chain (IsFilterOver F.text_of side name.now dump.now chain)) }
    ensures refused { IfErr result (Comes dump.now chain (IsFilterOver F.text_of side name.now dump.now chain)) }
{
    let rules = closed(alloc, dump, chain, side)?;
    means_its_side::<F, W>(dump, chain, side, name, policy, rules.as_slice());
    match print::<F, W>(alloc, name, policy, rules.as_slice()) {
        Ok(printed) => Ok(printed.text.into_vec()),
        Err(PrintFault::Lines) => Err(Refusal::Limit(Kind::Lines)),
        Err(PrintFault::Memory) => Err(Refusal::Memory),
    }
}

/// The filter of one side of the chain of this name of the dump that was read.
pub fn filter_text<F: Family<W>, const W: u32>(
    alloc: Global,
    side: Side,
    name: &[u8],
    read: DumpResult<W>,
) -> Result<Vec<u8>, Status>
    requires width { IsWidth W }
    requires read { WasRead W F.Reads read }
    ensures ok { IfOk result (λ written. HoldsOfTexts W F.Reads read.entry
        (λ text. Filters W F.Reads F.text_of side name.now text written.items)) }
    ensures refused { IfErr result (λ s. (s ≡ Status.Memory)
        ⊎ HoldsOfTexts W F.Reads read.entry (λ text. RefusesFilter W F.Reads F.text_of side name.now text s)) }
{
    let AskedChain {
        dump,
        chain,
        policy,
    } = question::<F, W>(name, read)?;
    match filter_of::<F, W>(alloc, &dump, chain, side, name, policy) {
        Ok(written) => Ok(written),
        Err(refusal) => Err(told(alloc, &dump, refusal)),
    }
}
