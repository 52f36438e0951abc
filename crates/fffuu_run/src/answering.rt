ghost use Rattle.std.specs.Prelude.{◌≡◌, ◌≤◌, ◌⊎◌, ℕ, IfOk, IfErr, length};
ghost use Rattle.interval_set.specs.Numbers.{IsWidth};
ghost use Rattle.limits.specs.declared.TheConstants.{MOST_BYTES};
ghost use Rattle.request.specs.Requests.{HasBounds, width_of};
ghost use Rattle.fffuu_run.specs.Answers.{IsAnswer, IsOutput, IsRefusedAs, RefusesMode};
ghost use Rattle.fffuu_run.specs.inner.Readings.{AsksOneDump, HoldsOfTexts, WasRead};

use crate::Status;
use crate::checking::check_text;
use crate::covering::cover_text;
use crate::dumps::{DumpResult, read_text};
use crate::explaining::explain_text;
use crate::filtering::filter_text;
use crate::loading::load_summary;
use crate::matrices::matrix_text;
use crate::routing::routes_text;
use crate::spoofing::spoof_text;
use crate::zoning::zones_text;
use addr_text::{Family, V4, V6};
use fw_rule::Side;
use request::{Mode, Request};
use std::alloc::Global;

/// The output of a mode over the addresses of a family, for the one dump that was read. A load doesn't look at it.
pub fn output<F: Family<W>, const W: u32>(
    alloc: Global,
    request: &Request,
    read: DumpResult<W>,
) -> Result<Vec<u8>, Status>
    requires width { IsWidth W }
    requires family { width_of request.now.six ≡ W }
    requires bounds { HasBounds request.now.six request.now.mode }
    requires one { AsksOneDump request.now.mode }
    requires read { WasRead W F.Reads read }
    ensures ok { IfOk result (λ written. HoldsOfTexts W F.Reads read.entry
        (λ text. IsOutput W F.Reads F.text_of request.now.mode request.now.chain text written.items)) }
    ensures refused { IfErr result (λ s. (s ≡ Status.Memory) ⊎ HoldsOfTexts W F.Reads read.entry
        (λ text. RefusesMode W F.Reads F.text_of request.now.mode request.now.chain text s)) }
{
    let name = request.chain.as_slice();
    match &request.mode {
        Mode::Check => check_text::<F, W>(alloc, name, read),
        Mode::Upper => filter_text::<F, W>(alloc, Side::Upper, name, read),
        Mode::Lower => filter_text::<F, W>(alloc, Side::Lower, name, read),
        Mode::Matrix {
            service,
            side,
            zones,
            hops,
        } => {
            let (zones, hops) = (zones.as_slice(), hops.as_slice());
            matrix_text::<F, W>(alloc, *side, service, zones, hops, name, read)
        }
        Mode::Spoof(claims) => spoof_text::<F, W>(alloc, claims.as_slice(), name, read),
        Mode::Load(n) => load_summary(alloc, name, *n),
        Mode::Explain(packet) => explain_text::<F, W>(alloc, name, read, packet),
        Mode::Zones(claims) => zones_text::<F, W>(alloc, claims.as_slice(), name, read),
        Mode::Routes(hops) => routes_text::<F, W>(alloc, hops.as_slice(), name, read),
        Mode::Cover => unreachable!(),
    }
}

/// The output of a mode over the addresses of a family, for a text. A load doesn't look at it.
pub fn text_output<F: Family<W>, const W: u32>(
    alloc: Global,
    request: &Request,
    text: &[u8],
) -> Result<Vec<u8>, Status>
    requires width { IsWidth W }
    requires family { width_of request.now.six ≡ W }
    requires bounds { HasBounds request.now.six request.now.mode }
    requires size { length text.now ≤ MOST_BYTES }
    ensures ok { IfOk result (λ written. IsOutput W F.Reads F.text_of request.now.mode request.now.chain text.now written.items) }
    ensures refused { IfErr result (λ s. (s ≡ Status.Memory)
        ⊎ RefusesMode W F.Reads F.text_of request.now.mode request.now.chain text.now s) }
{
    match &request.mode {
        Mode::Cover => cover_text::<F, W>(alloc, request.chain.as_slice(), text),
        _ => output::<F, W>(alloc, request, read_text::<F, W>(alloc, text)),
    }
}

/// The stated output of a request that some words spell, for a text. A load doesn't look at the text.
///
/// # Errors
///
/// The status of a text that has none, from `NoDivider` to `Limit`, or `Memory`.
pub fn answer(alloc: Global, request: &Request, text: &[u8]) -> Result<Vec<u8>, Status>
    requires size { length text.now ≤ MOST_BYTES }
    requires bounds { HasBounds request.now.six request.now.mode }
    ensures ok { IfOk result (λ written. IsAnswer request.now text.now written.items) }
    ensures refused { IfErr result (λ s. (s ≡ Status.Memory) ⊎ IsRefusedAs request.now text.now s) }
{
    if request.six {
        text_output::<V6, 128>(alloc, request, text)
    } else {
        text_output::<V4, 32>(alloc, request, text)
    }
}
