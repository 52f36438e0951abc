ghost use Rattle.std.specs.Prelude.{ℕ, ◌≡◌, ◌<◌, ◌^◌, ◌⊎◌, Contains, IfErr, IfOk, OnOk};
ghost use Rattle.interval_set.specs.Numbers.{IsWidth};
ghost use Rattle.fw_rule.specs.Calls.{HasRoom};
ghost use Rattle.chain_graph.specs.Paths.{CallsNameChains};
ghost use Rattle.closure.specs.Checked.{HasPolicy};
ghost use Rattle.primitives.specs.Holds.{IsValid};
ghost use Rattle.service_packet.specs.Packets.{service_packet};
ghost use Rattle.ip_partition.specs.Boundaries.{HasFewBoundaries, HasManyBoundaries};
ghost use Rattle.ip_partition.specs.Groups.{AreGroups};
ghost use Rattle.service_matrix.specs.Matrices.{IsCoarsest, IsMatrix};
ghost use Rattle.service_matrix.specs.Refusals.{HasFewAtoms, HasFewSets, RefusesMatrix, RefusesSets};
ghost use Rattle.service_matrix.specs.Services.{Edge, GoesTo, HoldsOfAllNames};

use crate::classes::{addresses, edges};
use crate::joining::joined;
use crate::sets::address_sets;
use crate::table::Matrix;
use fw_rule::{Dump, Side, settled_policy};
use interval_set::Set;
use ip_partition::{GroupFault, groups};
use match_expr::List;
use primitives::Prim_;
use service_packet::Service;
use simple_filter::{Hide, Kind, Refusal, abstracted, closed, hiding_keeps_calls};
use std::alloc::Global;

/// Each packet that opens the service between addresses is valid.
fn packets_are_valid(alloc: Global, service: &Service)
    ensures { (W s d : ℕ) → s < 2 ^ W → d < 2 ^ W → IsValid W (service_packet service.now s d) }
{
    let _first = service.packet(alloc, 0, 0);
}

/// The groups of addresses that lie in the same sets.
fn grouped<const W: u32>(alloc: Global, sets: &[Set<W>]) -> Result<List<Set<W>>, Refusal>
    requires { IsWidth W }
    ensures groups { IfOk result (λ groups. AreGroups W sets.now groups) }
    ensures few { OnOk result (HasFewBoundaries W (Contains sets.now)) }
    ensures refused { IfErr result (λ r. (r ≡ Refusal.Memory) ⊎ ((r ≡ Refusal.Limit Kind.Atoms) × HasManyBoundaries W (Contains sets.now))) }
{
    match groups(alloc, sets) {
        Ok(groups) => Ok(groups),
        Err(GroupFault::Atoms) => Err(Refusal::Limit(Kind::Atoms)),
        Err(GroupFault::Memory) => Err(Refusal::Memory),
    }
}

/// The matrix of a dump, with no name hidden.
fn plain_matrix<const W: u32>(
    alloc: Global,
    dump: &Dump<Prim_<W>>,
    chain: u32,
    side: Side,
    service: &Service,
) -> Result<Matrix<W>, Refusal>
    requires width { IsWidth W }
    requires policy { HasPolicy dump.now chain }
    requires room { HasRoom dump.now }
    requires named { CallsNameChains dump.now }
    ensures matrix { IfOk result (IsMatrix (GoesTo side dump.now chain service.now)) }
    ensures few { OnOk result (HasFewSets dump.now chain side) }
    ensures refused { IfErr result (RefusesSets dump.now chain side) }
{
    let rules = closed(alloc, dump, chain, side)?;
    let sets = address_sets(alloc, dump, chain)?;
    let groups = grouped(alloc, sets.as_slice())?;
    let policy = settled_policy(dump, chain);
    packets_are_valid(alloc, service);
    let classes = joined(alloc, groups.as_slice(), rules.as_slice(), policy, service)?;
    Ok(Matrix {
        classes: addresses(alloc, classes.as_slice())?,
        edges: edges(alloc, classes.as_slice())?,
    })
}

/// The matrix of a service in a chain: an edge goes from one class to another exactly where, with the tests of interface
/// names hidden, the service's packet from each address of the one to each of the other may (Upper) or must (Lower) be
/// accepted. Every other partition with this property is finer. The chain has a policy. W is 32 or 128.
///
/// # Errors
///
/// Those of `closed` for the dump with the tests of interface names hidden. Else `Limit(Atoms)` exactly where the sets of
/// addresses in known literals of rules in reach have more than 4,096 distinct boundaries. `Memory` where memory runs out.
pub fn matrix<const W: u32>(
    alloc: Global,
    dump: &Dump<Prim_<W>>,
    chain: u32,
    side: Side,
    service: &Service,
) -> Result<Matrix<W>, Refusal>
    requires width { IsWidth W }
    requires policy { HasPolicy dump.now chain }
    requires room { HasRoom dump.now }
    requires named { CallsNameChains dump.now }
    ensures matrix { IfOk result (IsMatrix (Edge side dump.now chain service.now)) }
    ensures coarsest { IfOk result (λ matrix. IsCoarsest W (Edge side dump.now chain service.now) matrix.classes) }
    ensures names { IfOk result (HoldsOfAllNames side dump.now chain service.now) }
    ensures few { OnOk result (HasFewAtoms side dump.now chain) }
    ensures refused { IfErr result (RefusesMatrix side dump.now chain) }
{
    hiding_keeps_calls(dump);
    let hidden = abstracted(alloc, dump, Hide::BothNames)?;
    plain_matrix(alloc, &hidden, chain, side, service)
}
