ghost use Rattle.std.specs.Prelude.{ℕ, ◌≡◌, ◌<◌, ◌^◌, ◌&&◌, ◌||◌, nat_lt, false, IfOk, IsTrue, MatchOption};
ghost use Rattle.interval_set.specs.Numbers.{IsWidth, has};
ghost use Rattle.box_norm.specs.Cubes.{holds_cube};
ghost use Rattle.fw_rule.specs.Answers.{is_accept};
ghost use Rattle.service_matrix.specs.inner.Passes as spec;
ghost use Rattle.service_matrix.specs.inner.Passes.{AnswerAlike, StandAlike, Tells, accepts_at};
ghost use Rattle.service_packet.specs.Packets.{service_packet};
ghost use Rattle.service_matrix.specs.Services.{IsColumn, IsRow};

use box_norm::{Cube, SimpleRule};
use fw_rule::Verdict;
use interval_set::Set;
use primitives::Packet;
use service_packet::Service;
use std::alloc::{AllocError, Global};

/// Which address of a service's packet stays while the other goes through all addresses.
#[derive(Clone, Copy)]
pub(crate) enum Fixed {
    Source,
    Destination,
}

/// The service's packet between the fixed address and another.
fn packet_at(alloc: Global, service: &Service, fixed: Fixed, here: u128, there: u128) -> Packet
    ensures { result ≡ spec.packet_at fixed service.now here there }
{
    match fixed {
        Fixed::Source => service.packet(alloc, here, there),
        Fixed::Destination => service.packet(alloc, there, here),
    }
}

/// The cube's set of the addresses that stay.
fn near<const W: u32>(cube: &Cube<W>, fixed: Fixed) -> &Set<W>
    ensures { result.now ≡ spec.near cube.now fixed }
{
    match fixed {
        Fixed::Source => &cube.src,
        Fixed::Destination => &cube.dst,
    }
}

/// The cube's set of the other addresses.
fn far<const W: u32>(cube: &Cube<W>, fixed: Fixed) -> &Set<W>
    ensures { result.now ≡ spec.far cube.now fixed }
{
    match fixed {
        Fixed::Source => &cube.dst,
        Fixed::Destination => &cube.src,
    }
}

/// Whether each rule has both addresses among those that stay, or neither.
pub(crate) fn alike<const W: u32>(
    rules: &[SimpleRule<W>],
    fixed: Fixed,
    one: u128,
    other: u128,
) -> bool
    ensures { IsTrue result → StandAlike fixed rules.now one other }
{
    for rule in rules {
        let stays = near(&rule.cube, fixed);
        if stays.contains(one) != stays.contains(other) {
            return false;
        }
    }
    true
}

/// The other addresses between which and the fixed one the service's packet is in the cube. None where there is none.
fn partners<'a, const W: u32>(
    alloc: Global,
    cube: &'a Cube<W>,
    service: &Service,
    fixed: Fixed,
    here: u128,
) -> Option<&'a Set<W>>
    ensures { MatchOption result ((there : ℕ) → holds_cube cube.now (spec.packet_at fixed service.now here there) ≡ false) (λ set. (there : ℕ) → holds_cube cube.now (spec.packet_at fixed service.now here there) ≡ has set.now there) }
{
    if !near(cube, fixed).contains(here) {
        return None;
    }
    let others = far(cube, fixed);
    match others.least() {
        Some(there) => {
            if cube.holds(&packet_at(alloc, service, fixed, here, there)) {
                Some(others)
            } else {
                None
            }
        }
        None => None,
    }
}

/// Whether the service's packet between some addresses is in the cube.
fn meets<const W: u32>(alloc: Global, cube: &Cube<W>, service: &Service) -> bool
    ensures { result ≡ false → (s d : ℕ) → holds_cube cube.now (service_packet service.now s d) ≡ false }
{
    match cube.src.least() {
        Some(least) => partners(alloc, cube, service, Fixed::Source, least).is_some(),
        None => false,
    }
}

/// The rules that a packet of the service can meet, in their order.
pub(crate) fn on_service<const W: u32>(
    alloc: Global,
    rules: &[SimpleRule<W>],
    service: &Service,
) -> Result<Vec<SimpleRule<W>>, AllocError>
    ensures { IfOk result (λ kept. AnswerAlike service.now kept.items rules.now) }
{
    let mut kept = Vec::new(alloc);
    for rule in rules {
        if meets(alloc, &rule.cube, service) {
            kept.push(SimpleRule {
                cube: rule.cube.copy(alloc)?,
                accept: rule.accept,
            })?;
        }
    }
    Ok(kept)
}

/// The accepted addresses, and where the verdict accepts those of the undecided ones that the rule is on.
fn decided<const W: u32>(
    alloc: Global,
    accepted: Set<W>,
    undecided: &Set<W>,
    others: &Set<W>,
    accept: bool,
) -> Result<Set<W>, AllocError>
    ensures { IfOk result (λ set. (n : ℕ) → has set n ≡ (has accepted.entry n || (accept && (has undecided.now n && has others.now n)))) }
{
    if accept {
        accepted.or(alloc, &undecided.and(alloc, others)?)
    } else {
        Ok(accepted)
    }
}

/// The accepted addresses, and where the policy accepts the undecided ones too.
fn with_policy<const W: u32>(
    alloc: Global,
    accepted: Set<W>,
    undecided: &Set<W>,
    policy: Verdict,
) -> Result<Set<W>, AllocError>
    ensures { IfOk result (λ set. (n : ℕ) → has set n ≡ (has accepted.entry n || (has undecided.now n && is_accept policy))) }
{
    match policy {
        Verdict::Accept => accepted.or(alloc, undecided),
        Verdict::Drop => Ok(accepted),
    }
}

/// What a part of the list tells of the other addresses: those that it accepts, and those that it leaves to what follows where it doesn't
/// accept them.
#[derive(Drop)]
struct Part<const W: u32> {
    accepted: Set<W>,
    undecided: Set<W>,
}

/// What some rules tell, gone through one after another.
fn by_rules<const W: u32>(
    alloc: Global,
    rules: &[SimpleRule<W>],
    service: &Service,
    fixed: Fixed,
    here: u128,
) -> Result<Part<W>, AllocError>
    requires { IsWidth W }
    ensures { IfOk result (Tells fixed rules.now service.now here) }
{
    let mut undecided = Set::<W>::full(alloc)?;
    let mut accepted = Set::<W>::empty(alloc);
    for rule in rules {
        let Some(others) = partners(alloc, &rule.cube, service, fixed, here) else {
            continue;
        };
        accepted = decided(alloc, accepted, &undecided, others, rule.accept)?;
        undecided = undecided.minus(alloc, others)?;
    }
    Ok(Part {
        accepted,
        undecided,
    })
}

/// What two parts of the list tell together: the second one has a say where the first leaves an address undecided.
fn then<const W: u32>(
    alloc: Global,
    first: &Part<W>,
    second: &Part<W>,
) -> Result<Part<W>, AllocError>
    ensures accepted { IfOk result (λ part. (n : ℕ) → has part.accepted n ≡ (has first.now.accepted n || (has first.now.undecided n && has second.now.accepted n))) }
    ensures undecided { IfOk result (λ part. (n : ℕ) → has part.undecided n ≡ (has first.now.undecided n && has second.now.undecided n)) }
{
    let later = first.undecided.and(alloc, &second.accepted)?;
    Ok(Part {
        accepted: first.accepted.or(alloc, &later)?,
        undecided: first.undecided.and(alloc, &second.undecided)?,
    })
}

/// The most rules that are gone through one after another.
const FEW_RULES: usize = 16;

/// What some rules tell. Both halves of a long list are asked, the second only where the first leaves some address undecided; so each
/// range of an address set is taken up once for each doubling of the list, and not once for each rule.
fn by_halves<const W: u32>(
    alloc: Global,
    rules: &[SimpleRule<W>],
    service: &Service,
    fixed: Fixed,
    here: u128,
) -> Result<Part<W>, AllocError>
    requires { IsWidth W }
    ensures { IfOk result (Tells fixed rules.now service.now here) }
{
    if rules.len() <= FEW_RULES {
        return by_rules(alloc, rules, service, fixed, here);
    }
    let (front, back) = rules.split_at(rules.len() / 2);
    let first = by_halves(alloc, front, service, fixed, here)?;
    if first.undecided.is_empty() {
        return Ok(first);
    }
    let second = by_halves(alloc, back, service, fixed, here)?;
    then(alloc, &first, &second)
}

/// The other addresses between which and the fixed one some rules, read by first match, or else the policy accept the service's packet.
pub(crate) fn accepted<const W: u32>(
    alloc: Global,
    rules: &[SimpleRule<W>],
    policy: Verdict,
    service: &Service,
    fixed: Fixed,
    here: u128,
) -> Result<Set<W>, AllocError>
    requires { IsWidth W }
    ensures { IfOk result (λ set. (there : ℕ) → has set there ≡ (nat_lt there (2 ^ W) && accepts_at fixed rules.now policy service.now here there)) }
{
    let Part {
        accepted,
        undecided,
    } = by_halves(alloc, rules, service, fixed, here)?;
    with_policy(alloc, accepted, &undecided, policy)
}

/// The addresses to which some rules, read by first match, or else the policy accept the service's packet from `s`. Each rule is
/// looked at once at most. W is 32 or 128. The one refusal is want of memory.
pub fn row<const W: u32>(
    alloc: Global,
    rules: &[SimpleRule<W>],
    policy: Verdict,
    service: &Service,
    s: u128,
) -> Result<Set<W>, AllocError>
    requires width { IsWidth W }
    requires source { s < 2 ^ W }
    ensures { IfOk result (IsRow rules.now policy service.now s) }
{
    accepted(alloc, rules, policy, service, Fixed::Source, s)
}

/// The addresses from which some rules, read by first match, or else the policy accept the service's packet to `d`. Each rule is
/// looked at once at most. W is 32 or 128. The one refusal is want of memory.
pub fn column<const W: u32>(
    alloc: Global,
    rules: &[SimpleRule<W>],
    policy: Verdict,
    service: &Service,
    d: u128,
) -> Result<Set<W>, AllocError>
    requires width { IsWidth W }
    requires destination { d < 2 ^ W }
    ensures { IfOk result (IsColumn rules.now policy service.now d) }
{
    accepted(alloc, rules, policy, service, Fixed::Destination, d)
}
