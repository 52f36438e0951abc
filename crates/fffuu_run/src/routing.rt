ghost use Rattle.std.specs.Prelude.{◌≡◌, ◌++◌, ◌∷◌, ◌⊎◌, [], IfErr, IfOk, OnOk, codes, map};
ghost use Rattle.std.specs.List.{flat_map, list_any};
ghost use Rattle.std.specs.Str.{bytes_eq};
ghost use Rattle.interval_set.specs.Numbers.{IsWidth};
ghost use Rattle.iface_space.specs.Routes.{AreHops, targets_of};
ghost use Rattle.request.specs.Spaces.{HavePrefixes};
ghost use Rattle.fffuu_run.specs.Checks.{RefusesCheck};
ghost use Rattle.fffuu_run.specs.Spaces as spec;
ghost use Rattle.fffuu_run.specs.Spaces.{TellsRoutes, ranges_or_none, way_line};
ghost use Rattle.fffuu_run.specs.inner.Readings.{HoldsOfTexts, WasRead};

use crate::Status;
use crate::checking::checked;
use crate::dumps::DumpResult;
use crate::questions::{AskedChain, question, told};
use crate::spaces::{append_count, append_ranges, append_unnamed, asked_routes};
use addr_text::Family;
use fw_text::shown;
use iface_space::{Routes, unnamed_out};
use interval_set::Set;
use match_expr::Bytes;
use name_set::Pattern;
use request::Hop;
use std::alloc::{AllocError, Global};

fn are_same(a: &[u8], b: &[u8]) -> bool
    ensures { result ≡ bytes_eq a.now b.now }
{
    a == b
}

// Whether a name is among some others.
fn is_among(names: &[&[u8]], name: &[u8]) -> bool
    ensures { result ≡ list_any (bytes_eq name.now) (map (λ n. n.now) names.now) }
{
    for other in names {
        if are_same(name, other) {
            return true;
        }
    }
    false
}

// The names of hops, each once, in the order in which they come first.
fn names_of<'a>(alloc: Global, hops: &'a [Hop]) -> Result<Vec<&'a [u8]>, AllocError>
    ensures { IfOk result (λ names. map (λ n. n.now) names.items ≡ spec.names_of hops.now) }
{
    let mut names = Vec::new(alloc);
    for hop in hops {
        let name = hop.name.as_slice();
        if !is_among(&names, name) {
            names.push(name)?;
        }
    }
    Ok(names)
}

// The destinations that are sent out by the interface of this name.
fn targets<const W: u32>(
    alloc: Global,
    routes: &Routes<W>,
    name: &[u8],
) -> Result<Set<W>, AllocError>
    ensures { IfOk result (λ set. set ≡ targets_of W routes.now (bytes_eq name.now)) }
{
    let by = Pattern::Exact(Bytes::of(name.to_vec(alloc)?));
    routes.targets(alloc, &by)
}

// Appends a name and the destinations that are sent out by its interface.
fn append_way<F: Family<W>, const W: u32>(
    alloc: Global,
    routes: &Routes<W>,
    name: &[u8],
    out: &mut Vec<u8>,
) -> Result<(), AllocError>
    ensures { OnOk result (out.new.items ≡ out.old.items ++ way_line F.text_of W routes.now name.now) }
{
    let targets = targets(alloc, routes, name)?;
    shown(alloc, name, out)?;
    out.push(b' ')?;
    append_ranges::<F, W>(alloc, &targets, out)?;
    out.push(b'\n')?;
    Ok(())
}

// Appends how many names the hops have, and a line for each.
fn append_ways<F: Family<W>, const W: u32>(
    alloc: Global,
    routes: &Routes<W>,
    out: &mut Vec<u8>,
) -> Result<(), AllocError>
    ensures { OnOk result (out.new.items ≡ out.old.items ++ spec.ways_text F.text_of W routes.now) }
{
    let names = names_of(alloc, routes.list())?;
    append_count(alloc, "names", names.len() as u128, out)?;
    for name in names.as_slice() {
        append_way::<F, W>(alloc, routes, name, out)?;
    }
    Ok(())
}

// Appends which destinations have no route.
fn append_unrouted<F: Family<W>, const W: u32>(
    alloc: Global,
    unrouted: &Set<W>,
    out: &mut Vec<u8>,
) -> Result<(), AllocError>
    ensures { OnOk result (out.new.items ≡ out.old.items ++ (codes "unrouted " ++ (ranges_or_none F.text_of unrouted.now ++ 10 ∷ []))) }
{
    out.extend_from_slice(b"unrouted ")?;
    append_ranges::<F, W>(alloc, unrouted, out)?;
    out.push(b'\n')?;
    Ok(())
}

// The text for routes and the patterns that match no hop's name.
fn text_of<F: Family<W>, const W: u32>(
    alloc: Global,
    routes: &Routes<W>,
    unnamed: &[Pattern],
) -> Result<Vec<u8>, AllocError>
    ensures { IfOk result (λ text. text.items ≡ spec.routes_text F.text_of W routes.now unnamed.now) }
{
    let mut text = Vec::new(alloc);
    append_ways::<F, W>(alloc, routes, &mut text)?;
    append_unrouted::<F, W>(alloc, &routes.unrouted(alloc)?, &mut text)?;
    append_unnamed(alloc, unnamed, &mut text)?;
    Ok(text)
}

/// Where these hops send packets, and what they leave out in the chain of this name of the dump that was read.
pub fn routes_text<F: Family<W>, const W: u32>(
    alloc: Global,
    hops: &[Hop],
    name: &[u8],
    read: DumpResult<W>,
) -> Result<Vec<u8>, Status>
    requires width { IsWidth W }
    requires read { WasRead W F.Reads read }
    requires hops { AreHops W hops.now }
    requires prefixes { HavePrefixes W hops.now }
    ensures ok { IfOk result (λ written. HoldsOfTexts W F.Reads read.entry
        (λ text. TellsRoutes W F.Reads F.text_of name.now text hops.now written.items)) }
    ensures refused { IfErr result (λ s. (s ≡ Status.Memory)
        ⊎ HoldsOfTexts W F.Reads read.entry (λ text. RefusesCheck W F.Reads name.now text s)) }
{
    let AskedChain { dump, chain, .. } = question::<F, W>(name, read)?;
    let ranked = match checked(alloc, &dump, chain) {
        Ok(ranked) => ranked,
        Err(refusal) => return Err(told(alloc, &dump, refusal)),
    };
    let routes = asked_routes(alloc, hops)?;
    let unnamed = unnamed_out(alloc, &dump, &ranked, &routes)?;
    Ok(text_of::<F, W>(alloc, &routes, unnamed.as_slice())?)
}
