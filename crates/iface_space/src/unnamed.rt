ghost use Rattle.std.specs.Prelude.{◌≡◌, IfOk, not};
ghost use Rattle.std.specs.List.{filter};
ghost use Rattle.chain_graph.specs.Results.{IsRanked};
ghost use Rattle.iface_space.specs.Unnamed.{unnamed_inputs, unnamed_outputs};
ghost use Rattle.iface_space.specs.Routes.{has_hop_named};
ghost use Rattle.iface_space.specs.Zones.{has_zone_named};

use crate::routes::Routes;
use crate::tested::{Direction, tested_patterns};
use crate::zones::Zones;
use chain_graph::Ranked;
use fw_rule::Dump;
use match_expr::List;
use name_set::Pattern;
use primitives::Prim_;
use std::alloc::{AllocError, Global};

/// Those of the patterns that match no zone's name.
fn without_zone<const W: u32>(
    alloc: Global,
    patterns: Vec<Pattern>,
    zones: &Zones<W>,
) -> Result<Vec<Pattern>, AllocError>
    ensures { IfOk result (λ v. v.items ≡ filter (λ by. not (has_zone_named zones.now by)) patterns.items) }
{
    let mut unnamed = Vec::new(alloc);
    for pattern in patterns {
        if !zones.has_named(&pattern) {
            unnamed.push(pattern)?;
        }
    }
    Ok(unnamed)
}

/// The patterns of tests of the input interface's name that match no zone's name: those of the known literals of the rules
/// that are reached, each pattern once, in the order of chains, rules and literals. The one refusal is want of memory.
pub fn unnamed_in<const W: u32>(
    alloc: Global,
    dump: &Dump<Prim_<W>>,
    ranked: &Ranked,
    zones: &Zones<W>,
) -> Result<List<Pattern>, AllocError>
    requires { IsRanked dump.now ranked.now.entry ranked.now }
    ensures { IfOk result (λ l. l ≡ unnamed_inputs dump.now ranked.now.ranks zones.now) }
{
    let tested = tested_patterns(alloc, Direction::Input, dump, ranked)?;
    Ok(List::of(without_zone(alloc, tested, zones)?))
}

/// Those of the patterns that match no hop's name.
fn without_hop<const W: u32>(
    alloc: Global,
    patterns: Vec<Pattern>,
    routes: &Routes<W>,
) -> Result<Vec<Pattern>, AllocError>
    ensures { IfOk result (λ v. v.items ≡ filter (λ by. not (has_hop_named routes.now by)) patterns.items) }
{
    let mut unnamed = Vec::new(alloc);
    for pattern in patterns {
        if !routes.has_named(&pattern) {
            unnamed.push(pattern)?;
        }
    }
    Ok(unnamed)
}

/// The patterns of tests of the output interface's name that match no hop's name: those of the known literals of the rules
/// that are reached, each pattern once, in the order of chains, rules and literals. The one refusal is want of memory.
pub fn unnamed_out<const W: u32>(
    alloc: Global,
    dump: &Dump<Prim_<W>>,
    ranked: &Ranked,
    routes: &Routes<W>,
) -> Result<List<Pattern>, AllocError>
    requires { IsRanked dump.now ranked.now.entry ranked.now }
    ensures { IfOk result (λ l. l ≡ unnamed_outputs dump.now ranked.now.ranks routes.now) }
{
    let tested = tested_patterns(alloc, Direction::Output, dump, ranked)?;
    Ok(List::of(without_hop(alloc, tested, routes)?))
}
