ghost use Rattle.std.specs.Prelude.{◌≡◌, ◌≤◌, ◌⊎◌, ◌+◌, ◌<◌, ◌^◌, ◌∷◌, [], ℕ, IfErr, IfOk, List, length};
ghost use Rattle.fw_rule.specs.declared.side.Side.{Side as ASide};
ghost use Rattle.fw_rule.specs.Walk.{HasRoom};
ghost use Rattle.chain_graph.specs.Paths.{CallsNameChains};
ghost use Rattle.closure.specs.Checked.{HasPolicy};
ghost use Rattle.dump_grammar.specs.Lines.{Text};
ghost use Rattle.interval_set.specs.Numbers.{IsWidth};
ghost use Rattle.limits.specs.declared.TheConstants.{MOST_BYTES};
ghost use Rattle.fffuu_run.specs.Covers as spec;
ghost use Rattle.fffuu_run.specs.Covers.{Covers, CoversParts, IsDivided, RefusesCovers, RefusesParts};
ghost use Rattle.fffuu_run.specs.Questions.{AsksChain};
ghost use Rattle.fffuu_run.specs.inner.Pairs.{HasLineAfter, HasLinesAfter, HasNoLine, HasValidPacket, IsIn, IsLine, IsOut};

use crate::Status;
use crate::dividing::{Parts, divided};
use crate::dumps::read_text;
use crate::questions::{AskedChain, question, told};
use addr_text::Family;
use fw_rule::Side;
use fw_text::packet_text;
use region_queries::{Cover, CoverFault, cover};
use simple_filter::{Kind, closed};
use std::alloc::{AllocError, Global};

// The line of an answer.
fn cover_line<F: Family<W>, const W: u32>(
    alloc: Global,
    answer: &Cover,
) -> Result<Vec<u8>, AllocError>
    requires { HasValidPacket W answer.now }
    ensures { IfOk result (λ text. text.items ≡ spec.cover_text F.text_of answer.now) }
{
    let mut text = Vec::new(alloc);
    match answer {
        Cover::Holds => text.extend_from_slice(b"covered")?,
        Cover::Fails(packet) => {
            text.extend_from_slice(b"not covered")?;
            packet_text::<F, W>(alloc, packet, &mut text)?;
        }
    }
    text.push(b'\n')?;
    Ok(text)
}

// The status, with the line that it names counted from so many lines before.
fn moved(status: Status, before: u32) -> Status
    requires { HasLineAfter before status }
    ensures { result ≡ spec.moved before status }
{
    match status {
        Status::Malformed { line } => Status::Malformed {
            line: before + line,
        },
        Status::UndefinedChain { line } => Status::UndefinedChain {
            line: before + line,
        },
        Status::Unsupported { line, name } => Status::Unsupported {
            line: before + line,
            name,
        },
        other => other,
    }
}

// Why the first dump has no answer, or else this status.
fn refused_first<const W: u32>(alloc: Global, first: &AskedChain<W>, other: Status) -> Status
    requires width { IsWidth W }
    requires policy { HasPolicy first.now.dump first.now.chain }
    requires room { HasRoom first.now.dump }
    requires named { CallsNameChains first.now.dump }
    ensures { (result ≡ Status.Memory) ⊎ (IsOut ASide.Upper first.now.dump first.now.chain result
        ⊎ (IsIn ASide.Upper first.now.dump first.now.chain × (result ≡ other))) }
{
    match closed(alloc, &first.dump, first.chain, Side::Upper) {
        Ok(_) => other,
        Err(refusal) => told(alloc, &first.dump, refusal),
    }
}

// The line for two dumps that were read.
fn compared<F: Family<W>, const W: u32>(
    alloc: Global,
    first: &AskedChain<W>,
    second: &AskedChain<W>,
    before: u32,
) -> Result<Vec<u8>, Status>
    requires width { IsWidth W }
    requires first_policy { HasPolicy first.now.dump first.now.chain }
    requires first_room { HasRoom first.now.dump }
    requires first_named { CallsNameChains first.now.dump }
    requires second_policy { HasPolicy second.now.dump second.now.chain }
    requires second_room { HasRoom second.now.dump }
    requires second_named { CallsNameChains second.now.dump }
    requires lines { HasLinesAfter before second.now.dump }
    ensures ok { IfOk result (λ written. IsLine F.text_of first.now.dump first.now.chain second.now.dump second.now.chain written.items) }
    ensures refused { IfErr result (HasNoLine first.now.dump first.now.chain second.now.dump second.now.chain before) }
{
    match cover(alloc, &first.dump, first.chain, &second.dump, second.chain) {
        Ok(answer) => Ok(cover_line::<F, W>(alloc, &answer)?),
        Err(CoverFault::First(refusal)) => Err(told(alloc, &first.dump, refusal)),
        Err(CoverFault::Second(refusal)) => {
            Err(moved(told(alloc, &second.dump, refusal), before))
        }
        Err(CoverFault::Regions) => Err(Status::Limit {
            kind: Kind::Regions,
        }),
        Err(CoverFault::Memory) => Err(Status::Memory),
    }
}

// The line for the two dumps that the parts are.
fn of_parts<F: Family<W>, const W: u32>(
    alloc: Global,
    name: &[u8],
    parts: &Parts<'_>,
) -> Result<Vec<u8>, Status>
    requires width { IsWidth W }
    requires first { length parts.now.first.now ≤ MOST_BYTES }
    requires second { length parts.now.second.now ≤ MOST_BYTES }
    requires before { parts.now.before ≤ MOST_BYTES + 1 }
    ensures ok { IfOk result (λ written. CoversParts W F.Reads F.text_of name.now parts.now.first.now parts.now.second.now written.items) }
    ensures refused { IfErr result (λ s. (s ≡ Status.Memory)
        ⊎ RefusesParts W F.Reads F.text_of name.now parts.now.before parts.now.first.now parts.now.second.now s) }
{
    let first = question::<F, W>(name, read_text::<F, W>(alloc, parts.first))?;
    match question::<F, W>(name, read_text::<F, W>(alloc, parts.second)) {
        Ok(second) => compared::<F, W>(alloc, &first, &second, parts.before),
        Err(status) => Err(refused_first(alloc, &first, moved(status, parts.before))),
    }
}

/// Whether the second dump of a text covers the first, a line that is `%%` between them, each by its chain of this name.
pub fn cover_text<F: Family<W>, const W: u32>(
    alloc: Global,
    name: &[u8],
    text: &[u8],
) -> Result<Vec<u8>, Status>
    requires width { IsWidth W }
    requires size { length text.now ≤ MOST_BYTES }
    ensures ok { IfOk result (λ written. Covers W F.Reads F.text_of name.now text.now written.items) }
    ensures refused { IfErr result (λ s. (s ≡ Status.Memory) ⊎ RefusesCovers W F.Reads F.text_of name.now text.now s) }
{
    match divided(text) {
        Some(parts) => of_parts::<F, W>(alloc, name, &parts),
        None => Err(Status::NoDivider),
    }
}
