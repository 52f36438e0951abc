ghost use Rattle.std.specs.Prelude.{ℕ, ◌≡◌, ◌^◌, ◌&&◌, nat_lt, [], IfOk};
ghost use Rattle.std.specs.List.{AllByRecursion};
ghost use Rattle.interval_set.specs.Numbers.{IsWidth, has};
ghost use Rattle.service_matrix.specs.inner.Classes.{AreClasses, IsClass, IsGroup, Ordered, line};
ghost use Rattle.service_matrix.specs.inner.Passes.{accepts_at};
ghost use Rattle.service_matrix.specs.Services.{accepts_service};

use crate::classes::{Class, put};
use crate::rows::{Fixed, accepted, alike, on_service};
use box_norm::SimpleRule;
use fw_rule::Verdict;
use interval_set::Set;
use service_packet::Service;
use std::alloc::{AllocError, Global};

/// The row of a class, or its column.
fn line<const W: u32>(alloc: Global, class: &Class<W>, fixed: Fixed) -> Result<Set<W>, AllocError>
    ensures { IfOk result (λ set. set ≡ line class.now fixed) }
{
    match fixed {
        Fixed::Source => class.row.copy(alloc),
        Fixed::Destination => class.column.copy(alloc),
    }
}

/// The row of an address, or its column. It's that of the last class where each rule has both addresses or neither.
fn line_at<const W: u32>(
    alloc: Global,
    known: &[Class<W>],
    rules: &[SimpleRule<W>],
    policy: Verdict,
    service: &Service,
    fixed: Fixed,
    here: u128,
) -> Result<Set<W>, AllocError>
    requires width { IsWidth W }
    requires known { AllByRecursion (IsClass (accepts_service rules.now policy service.now)) known.now }
    ensures { IfOk result (λ set. (there : ℕ) → has set there ≡ (nat_lt there (2 ^ W) && accepts_at fixed rules.now policy service.now here there)) }
{
    if let Some(class) = known.last() {
        if alike(rules, fixed, class.least, here) {
            return line(alloc, class, fixed);
        }
    }
    accepted(alloc, rules, policy, service, fixed, here)
}

/// The class of one group: the row and the column of its least address are those of all its addresses.
fn class_of<const W: u32>(
    alloc: Global,
    group: &Set<W>,
    known: &[Class<W>],
    rules: &[SimpleRule<W>],
    policy: Verdict,
    service: &Service,
) -> Result<Class<W>, AllocError>
    requires width { IsWidth W }
    requires known { AllByRecursion (IsClass (accepts_service rules.now policy service.now)) known.now }
    requires group { IsGroup W (accepts_service rules.now policy service.now) group.now }
    ensures { IfOk result (λ class. (class.addresses ≡ group.now) × IsClass (accepts_service rules.now policy service.now) class) }
{
    let least = group.least().unwrap_or(0);
    Ok(Class {
        addresses: group.copy(alloc)?,
        least,
        row: line_at(alloc, known, rules, policy, service, Fixed::Source, least)?,
        column: line_at(
            alloc,
            known,
            rules,
            policy,
            service,
            Fixed::Destination,
            least,
        )?,
    })
}

/// The groups, joined where they have the same row and the same column by these rules.
fn joined_by<const W: u32>(
    alloc: Global,
    groups: &[Set<W>],
    rules: &[SimpleRule<W>],
    policy: Verdict,
    service: &Service,
) -> Result<Vec<Class<W>>, AllocError>
    requires width { IsWidth W }
    requires order { Ordered W groups.now }
    requires alike { AllByRecursion (IsGroup W (accepts_service rules.now policy service.now)) groups.now }
    ensures { IfOk result (λ classes. AreClasses (accepts_service rules.now policy service.now) groups.now [] classes.items) }
{
    let mut classes = Vec::new(alloc);
    for group in groups {
        let class = class_of(alloc, group, classes.as_slice(), rules, policy, service)?;
        put(alloc, &mut classes, class)?;
    }
    Ok(classes)
}

/// The groups, joined where they have the same row and the same column. Rules that no packet of the service meets are left out first.
pub(crate) fn joined<const W: u32>(
    alloc: Global,
    groups: &[Set<W>],
    rules: &[SimpleRule<W>],
    policy: Verdict,
    service: &Service,
) -> Result<Vec<Class<W>>, AllocError>
    requires width { IsWidth W }
    requires order { Ordered W groups.now }
    requires alike { AllByRecursion (IsGroup W (accepts_service rules.now policy service.now)) groups.now }
    ensures { IfOk result (λ classes. AreClasses (accepts_service rules.now policy service.now) groups.now [] classes.items) }
{
    let kept = on_service(alloc, rules, service)?;
    joined_by(alloc, groups, kept.as_slice(), policy, service)
}
