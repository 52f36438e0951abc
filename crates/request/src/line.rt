ghost use Rattle.std.specs.Prelude.{◌≡◌, ℕ, List, [], ◌∷◌, IfOk, IfSome, IfNone, IsErrOf, OnErr, map, not, option_map, unwrap_or};
ghost use Rattle.std.specs.List.{filter};
ghost use Rattle.clap.specs.Words.{Text, found_of, rows_of};
ghost use Rattle.fw_rule.specs.declared.side.Side.{Side as AnySide};
ghost use Rattle.primitives.specs.declared.prim.Packet.{Packet as Asked};
ghost use Rattle.service_packet.specs.declared.service.Service.{Service as AnyService};
ghost use Rattle.iface_space.specs.declared.hop.Hop.{Hop as AnyHop};
ghost use Rattle.request.specs.declared.types.Claim.{Claim as AnyClaim};
ghost use Rattle.request.specs.Arguments.{is_route};
ghost use Rattle.request.specs.declared.types.Mode.{Mode as AnyMode};
ghost use Rattle.request.specs.declared.types.Mode.TheVariants as mode;
ghost use Rattle.request.specs.Requests.{HasBounds, AsksLoad, AsksMatrix, StandsAlone, Suits, parts_of, six_of, word_of};
ghost use Rattle.request.specs.Lines.{line_parts};

use crate::claims::{claims_of, zones_in};
use crate::packets::packet_of;
use crate::routes::{is_route, routes_in};
use crate::services::service_of;
use crate::sides::side_of;
use crate::{Mode, SpellFault};
use addr_text::read_number;
use clap::ArgMatches;
use std::alloc::{AllocError, Global};

/// The parts of a command line, by their names.
#[derive(Drop)]
pub struct Line<'a> {
    pub mode: Option<&'a str>,
    pub args: Vec<&'a str>,
    pub chain: Option<&'a str>,
    pub family: Option<&'a str>,
    pub side: Option<&'a str>,
}

// The values in order, none where there are no values.
fn copied<'a>(alloc: Global, values: Option<&[&'a str]>) -> Result<Vec<&'a str>, AllocError>
    ensures { IfOk result (λ v. map (λ s. s.now) v.items ≡ unwrap_or (option_map (λ s. map (λ v. v.now) s.now) values.entry) []) }
{
    let mut all = Vec::new(alloc);
    match values {
        None => Ok(all),
        Some(values) => {
            all.extend_from_slice(values)?;
            Ok(all)
        }
    }
}

/// The parts that clap found.
pub fn line_of<'a>(alloc: Global, matches: &ArgMatches<'a>) -> Result<Line<'a>, AllocError>
    ensures { IfOk result (λ l. line_parts l ≡ parts_of (rows_of (found_of matches.now))) }
{
    Ok(Line {
        mode: matches.get_str("mode"),
        args: copied(alloc, matches.get_strs("args"))?,
        chain: matches.get_str("chain"),
        family: matches.get_str("family"),
        side: matches.get_str("side"),
    })
}

// The mode alone, where neither arguments nor a side are given.
fn alone(mode: Mode, line: &Line<'_>) -> Result<Mode, SpellFault>
    ensures ok { IfOk result (λ m. (m ≡ mode) × StandsAlone (line_parts line.now)) }
    ensures usage { OnErr result (StandsAlone (line_parts line.now) → ⊥) }
{
    if line.side.is_some() || !line.args.is_empty() {
        Err(SpellFault::Usage)
    } else {
        Ok(mode)
    }
}

// The packet of the arguments, where no side is given.
fn explain(alloc: Global, six: bool, line: &Line<'_>) -> Result<Mode, SpellFault>
    ensures ok { IfOk result (λ m. (p : Asked) × (m ≡ mode.Explain p) × Suits six (line_parts line.now) m × HasBounds six m) }
    ensures usage { IsErrOf result SpellFault.Usage → (p : Asked) → Suits six (line_parts line.now) (mode.Explain p) → ⊥ }
{
    if line.side.is_some() {
        return Err(SpellFault::Usage);
    }
    Ok(Mode::Explain(packet_of(alloc, six, &line.args)?))
}

// The argument that stands alone. `None` where there are none or more.
fn lone<'a>(arguments: &[&'a str]) -> Option<&'a str>
    ensures some { IfSome result (λ s. map (λ a. a.now) arguments.now ≡ s.now ∷ []) }
    ensures none { IfNone result ((text : Text) → map (λ a. a.now) arguments.now ≡ text ∷ [] → ⊥) }
{
    match arguments {
        [argument] => Some(argument),
        _ => None,
    }
}

// The first argument and those after it. `None` where there are none.
fn first_and_rest<'a, 'b>(arguments: &'b [&'a str]) -> Option<(&'a str, &'b [&'a str])>
    ensures some { IfSome result (λ p. map (λ a. a.now) arguments.now ≡ p.0.now ∷ map (λ a. a.now) p.1.now) }
    ensures none { IfNone result (map (λ a. a.now) arguments.now ≡ []) }
{
    match arguments {
        [first, rest @ ..] => Some((first, rest)),
        [] => None,
    }
}

// The arguments that are no routes, and those that are.
fn parted<'a>(
    alloc: Global,
    arguments: &[&'a str],
) -> Result<(Vec<&'a str>, Vec<&'a str>), AllocError>
    ensures { IfOk result (λ p. (map (λ s. s.now) p.0.items ≡ filter (λ text. not (is_route text)) (map (λ s. s.now) arguments.now))
        × (map (λ s. s.now) p.1.items ≡ filter is_route (map (λ s. s.now) arguments.now))) }
{
    let mut others = Vec::new(alloc);
    let mut routes = Vec::new(alloc);
    for argument in arguments {
        if is_route(argument.as_bytes()) {
            routes.push(*argument)?;
        } else {
            others.push(*argument)?;
        }
    }
    Ok((others, routes))
}

// The matrix of the arguments, on the side of the line.
fn matrix(alloc: Global, six: bool, line: &Line<'_>) -> Result<Mode, SpellFault>
    ensures ok { IfOk result (λ m. (service : AnyService) × (side : AnySide) × (zones : List AnyClaim) × (hops : List AnyHop)
        × (m ≡ mode.Matrix service side zones hops) × AsksMatrix six (line_parts line.now) service side zones hops) }
    ensures usage { IsErrOf result SpellFault.Usage → (service : AnyService) (side : AnySide) (zones : List AnyClaim) (hops : List AnyHop)
        → AsksMatrix six (line_parts line.now) service side zones hops → ⊥ }
{
    let Some((first, rest)) = first_and_rest(&line.args) else {
        return Err(SpellFault::Usage);
    };
    let Some(service) = service_of(first.as_bytes()) else {
        return Err(SpellFault::Usage);
    };
    let Some(side) = side_of(line.side) else {
        return Err(SpellFault::Usage);
    };
    let (others, routes) = parted(alloc, rest)?;
    let zones = zones_in(alloc, six, &others)?;
    let hops = routes_in(alloc, six, &routes)?;
    Ok(Mode::Matrix {
        service,
        side,
        zones,
        hops,
    })
}

// The claims of the arguments, where there are some and no side is given.
fn spoof(alloc: Global, six: bool, line: &Line<'_>) -> Result<Mode, SpellFault>
    ensures ok { IfOk result (λ m. (claims : List AnyClaim) × (m ≡ mode.Spoof claims) × Suits six (line_parts line.now) m) }
    ensures usage { IsErrOf result SpellFault.Usage → (claims : List AnyClaim) → Suits six (line_parts line.now) (mode.Spoof claims) → ⊥ }
{
    if line.side.is_some() || line.args.is_empty() {
        return Err(SpellFault::Usage);
    }
    Ok(Mode::Spoof(claims_of(alloc, six, &line.args)?))
}

// The zones of the arguments, where there are some and no side is given.
fn zones(alloc: Global, six: bool, line: &Line<'_>) -> Result<Mode, SpellFault>
    ensures ok { IfOk result (λ m. (claims : List AnyClaim) × (m ≡ mode.Zones claims) × Suits six (line_parts line.now) m) }
    ensures usage { IsErrOf result SpellFault.Usage → (claims : List AnyClaim) → Suits six (line_parts line.now) (mode.Zones claims) → ⊥ }
{
    if line.side.is_some() || line.args.is_empty() {
        return Err(SpellFault::Usage);
    }
    Ok(Mode::Zones(zones_in(alloc, six, &line.args)?))
}

// The routes of the arguments, where there are some and no side is given.
fn routes(alloc: Global, six: bool, line: &Line<'_>) -> Result<Mode, SpellFault>
    ensures ok { IfOk result (λ m. (hops : List AnyHop) × (m ≡ mode.Routes hops) × Suits six (line_parts line.now) m) }
    ensures usage { IsErrOf result SpellFault.Usage → (hops : List AnyHop) → Suits six (line_parts line.now) (mode.Routes hops) → ⊥ }
{
    if line.side.is_some() || line.args.is_empty() {
        return Err(SpellFault::Usage);
    }
    Ok(Mode::Routes(routes_in(alloc, six, &line.args)?))
}

// The number of rules, where no option is given.
fn load(line: &Line<'_>) -> Option<Mode>
    ensures some { IfSome result (λ m. (count : ℕ) × (m ≡ mode.Load count) × AsksLoad (line_parts line.now) count) }
    ensures none { IfNone result ((count : ℕ) → AsksLoad (line_parts line.now) count → ⊥) }
{
    if line.side.is_some() || line.chain.is_some() || line.family.is_some() {
        return None;
    }
    let argument = lone(&line.args)?;
    let count = read_number(argument.as_bytes(), 1000)?;
    if count == 0 {
        return None;
    }
    Some(Mode::Load(count))
}

/// The mode of this name, with the arguments of the line, over IPv6 addresses where `six` is true.
///
/// # Errors
///
/// `Usage` exactly where there is no such mode or the arguments aren't its own, or `Memory`.
pub fn mode(alloc: Global, name: &str, six: bool, line: &Line<'_>) -> Result<Mode, SpellFault>
    ensures word { IfOk result (λ m. name.now ≡ word_of m) }
    ensures suits { IfOk result (Suits six (line_parts line.now)) }
    ensures valid { IfOk result (HasBounds six) }
    ensures usage { IsErrOf result SpellFault.Usage → (m : AnyMode) → name.now ≡ word_of m → Suits six (line_parts line.now) m → ⊥ }
{
    if name == "check" {
        alone(Mode::Check, line)
    } else if name == "upper" {
        alone(Mode::Upper, line)
    } else if name == "lower" {
        alone(Mode::Lower, line)
    } else if name == "matrix" {
        matrix(alloc, six, line)
    } else if name == "spoof" {
        spoof(alloc, six, line)
    } else if name == "explain" {
        explain(alloc, six, line)
    } else if name == "load" {
        load(line).ok_or(SpellFault::Usage)
    } else if name == "cover" {
        alone(Mode::Cover, line)
    } else if name == "zones" {
        zones(alloc, six, line)
    } else if name == "routes" {
        routes(alloc, six, line)
    } else {
        Err(SpellFault::Usage)
    }
}

/// Whether addresses are IPv6 ones. `None` where the family is neither `4` nor `6`.
pub fn is_six(family: Option<&str>) -> Option<bool>
    ensures { result ≡ six_of (option_map (λ s. s.now) family.entry) }
{
    match family {
        None => Some(false),
        Some(text) => {
            if text == "4" {
                Some(false)
            } else if text == "6" {
                Some(true)
            } else {
                None
            }
        }
    }
}
