ghost use Rattle.std.specs.Prelude.{◌≡◌, ◌≤◌, ◌<◌, ◌⊎◌, ℕ, IfOk, IfErr, OnOk, MatchResult, Some, length};
ghost use Rattle.chain_graph.specs.Paths.{CallsNameChains};
ghost use Rattle.fw_rule.specs.declared.side.Side.{Side};
ghost use Rattle.dump_print.specs.Printed.{count_lines};
ghost use Rattle.fw_rule.specs.Walk.{HasRoom, policy_of};
ghost use Rattle.interval_set.specs.Numbers.{IsWidth};
ghost use Rattle.fffuu_run.specs.Answers.{ipv4_of};
ghost use Rattle.fffuu_run.specs.Filters.{IsFilterOver, simple_rules};
ghost use Rattle.fffuu_run.specs.Loads.{IsLoadOver, Loads, RefusesLoad, load_summary, side_line, summary_lines};
ghost use Rattle.fffuu_run.specs.Questions.{Comes, IsWithin, order_of};

use crate::Status;
use crate::dumps::read_text;
use crate::questions::{AskedChain, question, told};
use addr_text::{Family, V4};
use dump_print::{PrintFault, print};
use fw_rule::{Dump, Side, Verdict};
use load_dump::load_text;
use primitives::Prim_;
use simple_filter::{Kind, Refusal, closed};
use std::alloc::{AllocError, Global};

// How large the filter of a side is: its simple rules, and the lines on which they are printed.
#[derive(Clone, Copy)]
struct Size {
    rules: usize,
    lines: u64,
}

// How large the filter of a side of a chain is, which has this name and policy. The filter itself is dropped.
fn size_of_side<F: Family<W>, const W: u32>(
    alloc: Global,
    dump: &Dump<Prim_<W>>,
    chain: u32,
    side: Side,
    name: &[u8],
    policy: Verdict,
) -> Result<Size, Refusal>
    requires width { IsWidth W }
    requires room { HasRoom dump.now }
    requires named { CallsNameChains dump.now }
    requires policy { policy_of dump.now chain ≡ Some policy }
    ensures rules { IfOk result (λ size. size.rules ≡ length (simple_rules dump.now chain side)) }
    ensures lines { IfOk result (λ size. size.lines ≡ count_lines F.text_of W name.now (simple_rules dump.now chain side)) }
    ensures within { OnOk result (IsWithin dump.now chain (IsFilterOver F.text_of side name.now dump.now chain)) }
    ensures refused { IfErr result (Comes dump.now chain (IsFilterOver F.text_of side name.now dump.now chain)) }
{
    let rules = closed(alloc, dump, chain, side)?;
    match print::<F, W>(alloc, name, policy, rules.as_slice()) {
        Ok(printed) => Ok(Size {
            rules: rules.as_slice().len(),
            lines: printed.lines,
        }),
        Err(PrintFault::Lines) => Err(Refusal::Limit(Kind::Lines)),
        Err(PrintFault::Memory) => Err(Refusal::Memory),
    }
}

// The same, or the limit that the side passes. Other refusals are those of both sides.
fn size_or_limit<F: Family<W>, const W: u32>(
    alloc: Global,
    dump: &Dump<Prim_<W>>,
    chain: u32,
    side: Side,
    name: &[u8],
    policy: Verdict,
) -> Result<Result<Size, Kind>, Refusal>
    requires width { IsWidth W }
    requires room { HasRoom dump.now }
    requires named { CallsNameChains dump.now }
    requires policy { policy_of dump.now chain ≡ Some policy }
    ensures ok { IfOk result (λ size. MatchResult size
        (λ size. (size.rules ≡ length (simple_rules dump.now chain side))
        × (size.lines ≡ count_lines F.text_of W name.now (simple_rules dump.now chain side))
        × IsWithin dump.now chain (IsFilterOver F.text_of side name.now dump.now chain))
        (λ kind. Comes dump.now chain (IsFilterOver F.text_of side name.now dump.now chain) (Refusal.Limit kind))) }
    ensures refused { IfErr result (Comes dump.now chain (IsLoadOver F.text_of name.now dump.now chain)) }
{
    match size_of_side::<F, W>(alloc, dump, chain, side, name, policy) {
        Ok(size) => Ok(Ok(size)),
        Err(Refusal::Limit(kind)) => Ok(Err(kind)),
        Err(refusal) => Err(refusal),
    }
}

// Where a limit stands in their order.
fn order_of(kind: Kind) -> u8
    ensures { result ≡ order_of kind }
{
    match kind {
        Kind::Depth => 0,
        Kind::Nodes => 1,
        Kind::Literals => 2,
        Kind::Boxes => 3,
        Kind::Rules => 4,
        Kind::Lines => 5,
        Kind::Atoms => 6,
        Kind::Regions => 7,
        Kind::Visits => 8,
    }
}

// Of two limits the earlier one.
fn earlier(a: Kind, b: Kind) -> Kind
    ensures one { (result ≡ a) ⊎ (result ≡ b) }
    ensures first { order_of result ≤ order_of a }
    ensures second { order_of result ≤ order_of b }
{
    if order_of(b) < order_of(a) { b } else { a }
}

// The text of a summary.
fn summary_text(alloc: Global, n: u32, upper: Size, lower: Size) -> Result<Vec<u8>, AllocError>
    ensures { IfOk result (λ text. text.items ≡ summary_lines n (side_line Side.Upper upper.rules upper.lines) (side_line Side.Lower lower.rules lower.lines)) }
{
    let text = format!(in alloc;
        "load {n}\nupper rules {} lines {}\nlower rules {} lines {}\n",
        upper.rules, upper.lines, lower.rules, lower.lines
    )?;
    Ok(text.into_bytes())
}

// The summary of a chain with this name and policy, in a dump of `n` rules. Of the limits that the sides pass the first in order refuses it.
fn summary_of<F: Family<W>, const W: u32>(
    alloc: Global,
    dump: &Dump<Prim_<W>>,
    chain: u32,
    name: &[u8],
    policy: Verdict,
    n: u32,
) -> Result<Vec<u8>, Refusal>
    requires width { IsWidth W }
    requires room { HasRoom dump.now }
    requires named { CallsNameChains dump.now }
    requires policy { policy_of dump.now chain ≡ Some policy }
    ensures ok { IfOk result (λ written. written.items ≡ load_summary F.text_of name.now dump.now chain n) }
    ensures within { OnOk result (IsWithin dump.now chain (IsLoadOver F.text_of name.now dump.now chain)) }
    ensures refused { IfErr result (Comes dump.now chain (IsLoadOver F.text_of name.now dump.now chain)) }
{
    let upper = size_or_limit::<F, W>(alloc, dump, chain, Side::Upper, name, policy)?;
    let lower = size_or_limit::<F, W>(alloc, dump, chain, Side::Lower, name, policy)?;
    match (upper, lower) {
        (Ok(upper), Ok(lower)) => Ok(summary_text(alloc, n, upper, lower)?),
        (Ok(_), Err(kind)) => Err(Refusal::Limit(kind)),
        (Err(kind), Ok(_)) => Err(Refusal::Limit(kind)),
        (Err(first), Err(second)) => Err(Refusal::Limit(earlier(first, second))),
    }
}

/// How large both filters of the chain of this name of a generated dump are. The dump has from 1 to 1000 rules.
///
/// # Errors
///
/// `NoChain`, `Unsupported`, `CallLoop` and `Limit` as for a filter of that dump: of the limits that the two filters pass the
/// first in order. `Memory` where memory runs out.
pub fn load_summary(alloc: Global, name: &[u8], n: u32) -> Result<Vec<u8>, Status>
    requires few { 1 ≤ n }
    requires most { n ≤ 1000 }
    ensures ok { IfOk result (λ written. Loads ipv4_of name.now n written.items) }
    ensures refused { IfErr result (λ s. (s ≡ Status.Memory) ⊎ RefusesLoad ipv4_of name.now n s) }
{
    let text = load_text(alloc, n)?;
    let AskedChain {
        dump,
        chain,
        policy,
    } = question::<V4, 32>(name, read_text::<V4, 32>(alloc, &text))?;
    match summary_of::<V4, 32>(alloc, &dump, chain, name, policy, n) {
        Ok(written) => Ok(written),
        Err(refusal) => Err(told(alloc, &dump, refusal)),
    }
}
