ghost use Rattle.std.specs.Prelude.{◌≡◌, ◌<◌, ◌⊎◌, IfErr, OnOk, length, ◌++◌, ◌∷◌, [], IfOk, codes, decimal};
ghost use Rattle.fw_rule.specs.Walk.{HasRoom};
ghost use Rattle.chain_graph.specs.Paths.{CallsNameChains};
ghost use Rattle.closure.specs.Checked.{HasPolicy};
ghost use Rattle.interval_set.specs.Numbers.{IsWidth};
ghost use Rattle.fffuu_run.specs.Explanations.{Explained, Explanations, IsExplanationOver, RefusesExplanation, both_texts, explanation_text, place_lines};
ghost use Rattle.fffuu_run.specs.Questions.{Comes, IsWithin};
ghost use Rattle.fffuu_run.specs.inner.Readings.{HoldsOfTexts, WasRead};

use crate::Status;
use crate::checking::checked;
use crate::dumps::DumpResult;
use crate::questions::{AskedChain, question, told};
use addr_text::Family;
use explain::{Explain, ExplainFault, explain};
use fw_rule::{Dump, Place};
use fw_text::place_text;
use match_expr::{List, Primitive};
use primitives::Packet;
use simple_filter::{Kind, Refusal};
use std::alloc::{AllocError, Global};

// The lines of places.
fn place_lines<P: Primitive>(
    alloc: Global,
    dump: &Dump<P>,
    places: &[Place],
) -> Result<Vec<u8>, AllocError>
    ensures { IfOk result (λ text. text.items ≡ place_lines dump.now places.now) }
{
    let mut text = Vec::new(alloc);
    for place in places {
        place_text(alloc, dump, place, &mut text)?;
        text.push(b'\n')?;
    }
    Ok(text)
}

// The line of a word and a number of places.
fn counted(alloc: Global, word: &str, count: usize) -> Result<Vec<u8>, AllocError>
    ensures { IfOk result (λ text. text.items ≡ word.now ++ (codes " under " ++ (decimal count ++ 10 ∷ []))) }
{
    let line = format!(in alloc; "{word} under {count}\n")?;
    Ok(line.into_bytes())
}

// The explanation of the verdict of this word.
fn explanation<P: Primitive>(
    alloc: Global,
    dump: &Dump<P>,
    word: &str,
    places: &Option<List<Place>>,
) -> Result<Vec<u8>, AllocError>
    ensures { IfOk result (λ text. text.items ≡ explanation_text dump.now word.now places.now) }
{
    let Some(places) = places else {
        let text = format!(in alloc; "{word} never\n")?;
        return Ok(text.into_bytes());
    };
    let places = places.as_slice();
    let mut text = counted(alloc, word, places.len())?;
    text.extend_from_slice(&place_lines(alloc, dump, places)?)?;
    Ok(text)
}

// The explanation of both verdicts.
fn both<P: Primitive>(
    alloc: Global,
    dump: &Dump<P>,
    explained: &Explain,
) -> Result<Vec<u8>, AllocError>
    ensures { IfOk result (λ text. text.items ≡ both_texts dump.now explained.now.accept explained.now.drop) }
{
    let mut text = explanation(alloc, dump, "accept", &explained.accept)?;
    text.extend_from_slice(&explanation(alloc, dump, "drop", &explained.drop)?)?;
    Ok(text)
}

// The text of the two explanations of a packet: `accept never`, or `accept under` the number of places and a line for each of
// them, and the same with `drop`. The places are those of the unknown literals that hold in a meaning whose walk has the
// verdict, in the order in which the walk comes to them. `never` stands exactly where no meaning's walk has it.
fn explanations<P: Primitive>(
    alloc: Global,
    dump: &Dump<P>,
    chain: u32,
    p: &P::Packet,
) -> Result<Vec<u8>, Refusal>
    requires policy { HasPolicy dump.now chain }
    requires room { HasRoom dump.now }
    requires named { CallsNameChains dump.now }
    ensures ok { IfOk result (λ text. Explained P.meaning dump.now chain p.now text.items) }
    ensures within { OnOk result (IsWithin dump.now chain (IsExplanationOver dump.now chain)) }
    ensures refused { IfErr result (Comes dump.now chain (IsExplanationOver dump.now chain)) }
{
    let ranked = checked(alloc, dump, chain)?;
    match explain(alloc, dump, &ranked, chain, p) {
        Ok(explained) => Ok(both(alloc, dump, &explained)?),
        Err(ExplainFault::Visits) => Err(Refusal::Limit(Kind::Visits)),
        Err(ExplainFault::Memory) => Err(Refusal::Memory),
    }
}

/// Explains a packet in the chain of this name of the dump that was read: how it is accepted and how it is dropped.
pub fn explain_text<F: Family<W>, const W: u32>(
    alloc: Global,
    name: &[u8],
    read: DumpResult<W>,
    packet: &Packet,
) -> Result<Vec<u8>, Status>
    requires width { IsWidth W }
    requires read { WasRead W F.Reads read }
    ensures ok { IfOk result (λ written. HoldsOfTexts W F.Reads read.entry
        (λ text. Explanations W F.Reads name.now text packet.now written.items)) }
    ensures refused { IfErr result (λ s. (s ≡ Status.Memory)
        ⊎ HoldsOfTexts W F.Reads read.entry (λ text. RefusesExplanation W F.Reads name.now text s)) }
{
    let AskedChain { dump, chain, .. } = question::<F, W>(name, read)?;
    match explanations(alloc, &dump, chain, packet) {
        Ok(written) => Ok(written),
        Err(refusal) => Err(told(alloc, &dump, refusal)),
    }
}
