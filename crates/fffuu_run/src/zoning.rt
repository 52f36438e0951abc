ghost use Rattle.std.specs.Prelude.{◌≡◌, ◌++◌, ◌⊎◌, IfErr, IfOk, OnOk};
ghost use Rattle.interval_set.specs.Numbers.{IsWidth};
ghost use Rattle.request.specs.Spaces.{AreZones, HaveRanges};
ghost use Rattle.fffuu_run.specs.Checks.{RefusesCheck};
ghost use Rattle.fffuu_run.specs.Spaces as spec;
ghost use Rattle.fffuu_run.specs.Spaces.{TellsZones, covered_line};
ghost use Rattle.fffuu_run.specs.inner.Readings.{HoldsOfTexts, WasRead};

use crate::Status;
use crate::checking::checked;
use crate::dumps::DumpResult;
use crate::questions::{AskedChain, question, told};
use crate::spaces::{append_unnamed, claimed_zones};
use addr_text::Family;
use fw_text::ranges_text;
use iface_space::{Zones, unnamed_in};
use interval_set::Set;
use name_set::Pattern;
use request::Claim;
use std::alloc::{AllocError, Global};

// Appends that no address is left out, or those that are.
fn append_covered<F: Family<W>, const W: u32>(
    alloc: Global,
    uncovered: &Set<W>,
    out: &mut Vec<u8>,
) -> Result<(), AllocError>
    ensures { OnOk result (out.new.items ≡ out.old.items ++ covered_line F.text_of uncovered.now) }
{
    if uncovered.ranges().is_empty() {
        return out.extend_from_slice(b"covered all\n");
    }
    out.extend_from_slice(b"uncovered ")?;
    ranges_text::<F, W>(alloc, uncovered, out)?;
    out.push(b'\n')?;
    Ok(())
}

// The text for zones and the patterns that match no zone's name.
fn text_of<F: Family<W>, const W: u32>(
    alloc: Global,
    zones: &Zones<W>,
    unnamed: &[Pattern],
) -> Result<Vec<u8>, AllocError>
    ensures { IfOk result (λ text. text.items ≡ spec.zones_text F.text_of zones.now unnamed.now) }
{
    let mut text = Vec::new(alloc);
    append_covered::<F, W>(alloc, &zones.uncovered(alloc)?, &mut text)?;
    append_unnamed(alloc, unnamed, &mut text)?;
    Ok(text)
}

/// What the zones of these claims leave out in the chain of this name of the dump that was read.
pub fn zones_text<F: Family<W>, const W: u32>(
    alloc: Global,
    claims: &[Claim],
    name: &[u8],
    read: DumpResult<W>,
) -> Result<Vec<u8>, Status>
    requires width { IsWidth W }
    requires read { WasRead W F.Reads read }
    requires ranges { HaveRanges W claims.now }
    requires zones { AreZones W claims.now }
    ensures ok { IfOk result (λ written. HoldsOfTexts W F.Reads read.entry
        (λ text. TellsZones W F.Reads F.text_of name.now text claims.now written.items)) }
    ensures refused { IfErr result (λ s. (s ≡ Status.Memory)
        ⊎ HoldsOfTexts W F.Reads read.entry (λ text. RefusesCheck W F.Reads name.now text s)) }
{
    let AskedChain { dump, chain, .. } = question::<F, W>(name, read)?;
    let ranked = match checked(alloc, &dump, chain) {
        Ok(ranked) => ranked,
        Err(refusal) => return Err(told(alloc, &dump, refusal)),
    };
    let zones = claimed_zones(alloc, claims)?;
    let unnamed = unnamed_in(alloc, &dump, &ranked, &zones)?;
    Ok(text_of::<F, W>(alloc, &zones, unnamed.as_slice())?)
}
