ghost use Rattle.std.specs.Prelude.{◌≡◌, ◌⊎◌, ◌++◌, ◌∷◌, [], IfOk, IfErr, OnOk, Some, length};
ghost use Rattle.std.specs.List.{AllByRecursion};
ghost use Rattle.chain_graph.specs.Paths.{CallsNameChains};
ghost use Rattle.fw_rule.specs.Walk.{HasRoom, policy_of};
ghost use Rattle.interval_set.specs.Numbers.{IsWidth};
ghost use Rattle.primitives.specs.Ranges.{IsRange};
ghost use Rattle.fffuu_run.specs.Questions.{Comes, IsWithin};
ghost use Rattle.fffuu_run.specs.Spoofing.{AreVerdicts, HasValidPacket, IsSpoofOver, RefusesSpoofs, Spoofs, verdict_line};
ghost use Rattle.fffuu_run.specs.inner.Readings.{HoldsOfTexts, WasRead};

use crate::Status;
use crate::dumps::DumpResult;
use crate::questions::{AskedChain, question, told};
use addr_text::Family;
use fw_rule::{Dump, Verdict};
use fw_text::{packet_text, shown};
use primitives::Prim_;
use request::{Claim, set_of};
use simple_filter::Refusal;
use spoof_check::{Spoof, searched_rules, verdict};
use std::alloc::{AllocError, Global};

// The line of a verdict on the interface of this name.
fn verdict_line<F: Family<W>, const W: u32>(
    alloc: Global,
    name: &[u8],
    verdict: &Spoof,
) -> Result<Vec<u8>, AllocError>
    requires { HasValidPacket W verdict.now }
    ensures { IfOk result (λ text. text.items ≡ verdict_line F.text_of name.now verdict.now) }
{
    let mut text = Vec::new(alloc);
    shown(alloc, name, &mut text)?;
    match verdict {
        Spoof::Holds => text.extend_from_slice(b" holds")?,
        Spoof::Violated(packet) => {
            text.extend_from_slice(b" violated")?;
            packet_text::<F, W>(alloc, packet, &mut text)?;
        }
    }
    text.push(b'\n')?;
    Ok(text)
}

// The lines of the verdicts on the claims, in a chain with this policy.
fn verdicts_of<F: Family<W>, const W: u32>(
    alloc: Global,
    dump: &Dump<Prim_<W>>,
    chain: u32,
    policy: Verdict,
    claims: &[Claim],
) -> Result<Vec<u8>, Refusal>
    requires width { IsWidth W }
    requires policy { policy_of dump.now chain ≡ Some policy }
    requires room { HasRoom dump.now }
    requires named { CallsNameChains dump.now }
    requires ranges { AllByRecursion (λ claim. AllByRecursion (IsRange W) claim.inside) claims.now }
    ensures ok { IfOk result (λ written. AreVerdicts dump.now chain F.text_of claims.now written.items) }
    ensures within { OnOk result (IsWithin dump.now chain (IsSpoofOver dump.now chain claims.now)) }
    ensures refused { IfErr result (Comes dump.now chain (IsSpoofOver dump.now chain claims.now)) }
{
    let rules = searched_rules(alloc, dump, chain)?;
    let mut text = Vec::new(alloc);
    for claim in claims {
        let name = claim.name.as_slice();
        let inside = set_of(alloc, claim.inside.as_slice())?;
        let found = verdict(alloc, dump, chain, policy, rules.as_slice(), name, &inside)?;
        text.extend_from_slice(&verdict_line::<F, W>(alloc, name, &found)?)?;
    }
    Ok(text)
}

/// The verdicts on forged sources in the chain of this name of the dump that was read, a line for each claim.
pub fn spoof_text<F: Family<W>, const W: u32>(
    alloc: Global,
    claims: &[Claim],
    name: &[u8],
    read: DumpResult<W>,
) -> Result<Vec<u8>, Status>
    requires width { IsWidth W }
    requires read { WasRead W F.Reads read }
    requires ranges { AllByRecursion (λ claim. AllByRecursion (IsRange W) claim.inside) claims.now }
    ensures ok { IfOk result (λ written. HoldsOfTexts W F.Reads read.entry
        (λ text. Spoofs W F.Reads F.text_of claims.now name.now text written.items)) }
    ensures refused { IfErr result (λ s. (s ≡ Status.Memory)
        ⊎ HoldsOfTexts W F.Reads read.entry (λ text. RefusesSpoofs W F.Reads F.text_of claims.now name.now text s)) }
{
    let AskedChain {
        dump,
        chain,
        policy,
    } = question::<F, W>(name, read)?;
    match verdicts_of::<F, W>(alloc, &dump, chain, policy, claims) {
        Ok(written) => Ok(written),
        Err(refusal) => Err(told(alloc, &dump, refusal)),
    }
}
