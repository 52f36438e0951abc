ghost use Rattle.std.specs.Prelude.{◌≡◌, ◌<◌, ◌⊎◌, ℕ, IfOk, IfErr, Some, length};
ghost use Rattle.chain_graph.specs.Paths.{CallsNameChains};
ghost use Rattle.dump_read.specs.Answers.{IsPrintableDump};
ghost use Rattle.fw_rule.specs.Walk.{HasRoom, policy_of};
ghost use Rattle.fffuu_run.specs.Headline.{IsChain};
ghost use Rattle.fffuu_run.specs.Questions.{AsksChain, HasNoChain, IsToldAs, asked_chain};
ghost use Rattle.fffuu_run.specs.inner.Plain.{HasPlainLiterals};
ghost use Rattle.fffuu_run.specs.inner.Readings.{HoldsOfTexts, WasRead};

use crate::Status;
use crate::dumps::{DumpResult, asked, dump_or_status, name_of};
use addr_text::Family;
use fw_rule::{Dump, Verdict, policy_of};
use match_expr::Primitive;
use primitives::Prim_;
use simple_filter::Refusal;
use std::alloc::Global;

/// A chain that is asked about, in its dump.
#[derive(Drop)]
pub struct AskedChain<const W: u32> {
    pub dump: Dump<Prim_<W>>,
    pub chain: u32,
    pub policy: Verdict,
}

// The policy of the chain of this name.
fn asked_policy<P: Primitive>(dump: &Dump<P>, name: &[u8], chain: u32) -> Verdict
    requires { asked_chain name.now dump.now ≡ Some chain }
    ensures chain { IsChain dump.now chain name.now result }
    ensures policy { policy_of dump.now chain ≡ Some result }
{
    match policy_of(dump, chain) {
        Some(policy) => policy,
        None => unreachable!(),
    }
}

/// The dump that was read, and its chain of this name.
pub fn question<F: Family<W>, const W: u32>(
    name: &[u8],
    read: DumpResult<W>,
) -> Result<AskedChain<W>, Status>
    requires { WasRead W F.Reads read }
    ensures asked { IfOk result (λ q. HoldsOfTexts W F.Reads read.entry (λ text. AsksChain W F.Reads name.now text q.dump q.chain)) }
    ensures chain { IfOk result (λ q. IsChain q.dump q.chain name.now q.policy) }
    ensures policy { IfOk result (λ q. policy_of q.dump q.chain ≡ Some q.policy) }
    ensures room { IfOk result (λ q. HasRoom q.dump) }
    ensures named { IfOk result (λ q. CallsNameChains q.dump) }
    ensures printable { IfOk result (λ q. IsPrintableDump q.dump) }
    ensures plain { IfOk result (λ q. HasPlainLiterals q.dump) }
    ensures refused { IfErr result (λ s. (s ≡ Status.Memory)
        ⊎ HoldsOfTexts W F.Reads read.entry (λ text. HasNoChain W F.Reads name.now text s)) }
{
    let dump = dump_or_status(read)?;
    let Some(chain) = asked(&dump, name) else {
        return Err(Status::NoChain);
    };
    let chain = chain as u32;
    let policy = asked_policy(&dump, name, chain);
    Ok(AskedChain {
        dump,
        chain,
        policy,
    })
}

/// The status of a refusal. A chain that leads to itself is told by its name.
pub fn told<const W: u32>(alloc: Global, dump: &Dump<Prim_<W>>, refusal: Refusal) -> Status
    requires { (c : ℕ) → refusal ≡ Refusal.Loop c → c < length dump.now.chains }
    ensures { (result ≡ Status.Memory) ⊎ IsToldAs dump.now refusal result }
{
    match refusal {
        Refusal::Unsupported { line, name } => Status::Unsupported { line, name },
        Refusal::Loop { chain } => match name_of(alloc, dump, chain) {
            Ok(name) => Status::CallLoop { name },
            Err(_) => Status::Memory,
        },
        Refusal::Limit(kind) => Status::Limit { kind },
        Refusal::Memory => Status::Memory,
    }
}
