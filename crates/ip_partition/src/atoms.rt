//! The numbering of the atoms by the sets that they lie in.
ghost use Rattle.std.specs.Prelude.{◌≡◌, ◌≢◌, ◌+◌, ◌-◌, ◌^◌, ◌<◌, ◌≤◌, ◌||◌, ◌↔◌, ℕ, IfOk, IsTrue, false, length, nat_le, nat_lt, slice_index_or};
ghost use Rattle.interval_set.specs.Numbers.{has, is_within};
ghost use Rattle.ip_partition.specs.Boundaries.{Ascend};
ghost use Rattle.ip_partition.specs.inner.Atoms.{is_in, IsNewLeader, IsNoted, AreLasts, AreLeaders, SplitBy};
ghost use Rattle.ip_partition.specs.Groups.{LieAlike};

use interval_set::{Range, Set};
use std::alloc::{AllocError, Global};

/// The atoms in classes. A class is known by its first atom, which leads it.
#[derive(Drop)]
pub(crate) struct Numbering {
    /// The atom that leads the class of each atom.
    pub(crate) leaders: Vec<usize>,
    /// Of each atom that leads a class, the last of that class.
    pub(crate) lasts: Vec<usize>,
}

/// The atoms that lie in a range: those from the first number on, and below the second one.
fn run_of(starts: &[u128], range: Range) -> (usize, usize)
    requires { Ascend 0 starts.now }
    ensures atoms { (k : ℕ) → k < length starts.now → is_in result.0 result.1 k ≡ is_within range (slice_index_or starts.now k 0) }
    ensures bound { result.1 ≤ length starts.now }
{
    let first = starts.partition_point(|start| *start < range.lo);
    let end = starts.partition_point(|start| *start <= range.hi);
    (first, end)
}

/// Whether no class has atoms both in the run and out of it.
fn is_closed(leaders: &[usize], lasts: &[usize], first: usize, end: usize) -> bool
    requires leaders { AreLeaders leaders.now }
    requires lasts { AreLasts leaders.now lasts.now }
    requires bound { end ≤ length leaders.now }
    ensures { IsTrue result → (k : ℕ) → k < length leaders.now → is_in first end k ≡ is_in first end (slice_index_or leaders.now k 0) }
{
    for atom in first..end {
        let leader = leaders[atom];
        if leader < first || end <= lasts[leader] {
            return false;
        }
    }
    true
}

/// Whether no class has atoms both in one of the ranges and out of it.
fn are_closed(starts: &[u128], numbering: &Numbering, ranges: &[Range]) -> bool
    requires ascend { Ascend 0 starts.now }
    requires leaders { AreLeaders numbering.now.leaders.items }
    requires lasts { AreLasts numbering.now.leaders.items numbering.now.lasts.items }
    requires count { length numbering.now.leaders.items ≡ length starts.now }
    ensures { IsTrue result → (k : ℕ) → k < length starts.now → has ranges.now (slice_index_or starts.now k 0) ≡ has ranges.now (slice_index_or starts.now (slice_index_or numbering.now.leaders.items k 0) 0) }
{
    for range in ranges {
        let (first, end) = run_of(starts, *range);
        if !is_closed(
            numbering.leaders.as_slice(),
            numbering.lasts.as_slice(),
            first,
            end,
        ) {
            return false;
        }
    }
    true
}

/// Marks the atoms of a run.
fn mark(inside: &mut Vec<bool>, first: usize, end: usize)
    requires { end ≤ length inside.old.items }
    ensures count { length inside.new.items ≡ length inside.old.items }
    ensures marked { (k : ℕ) → k < length inside.old.items → slice_index_or inside.new.items k false ≡ (slice_index_or inside.old.items k false || is_in first end k) }
{
    for atom in first..end {
        inside[atom] = true;
    }
}

/// Which atoms lie in the set of these ranges.
fn atoms_inside(alloc: Global, starts: &[u128], ranges: &[Range]) -> Result<Vec<bool>, AllocError>
    requires { Ascend 0 starts.now }
    ensures count { IfOk result (λ v. length v.items ≡ length starts.now) }
    ensures inside { IfOk result (λ v. (k : ℕ) → k < length starts.now → slice_index_or v.items k false ≡ has ranges.now (slice_index_or starts.now k 0)) }
{
    let mut inside = vec![in alloc; false; starts.len()]?;
    for range in ranges {
        let (first, end) = run_of(starts, *range);
        mark(&mut inside, first, end);
    }
    Ok(inside)
}

/// The atom that leads the other side of a class: this one where none is noted yet, which is noted then.
fn other_leader(others: &mut Vec<usize>, leader: usize, atom: usize) -> usize
    requires { leader < length others.old.items }
    ensures count { length others.new.items ≡ length others.old.items }
    ensures elsewhere { (c : ℕ) → c ≢ leader → slice_index_or others.new.items c 0 ≡ slice_index_or others.old.items c 0 }
    ensures here { IsNoted (slice_index_or others.old.items leader 0) (slice_index_or others.new.items leader 0) atom }
    ensures value { result ≡ slice_index_or others.new.items leader 0 }
{
    let other = others[leader];
    if other != 0 {
        return other;
    }
    others[leader] = atom;
    atom
}

/// The leader of an atom where its class is divided. `others` has the first atom of each class that isn't on the side of its leader, and 0
/// for none.
fn new_leader(leaders: &[usize], inside: &[bool], others: &mut Vec<usize>, atom: usize) -> usize
    requires leaders { AreLeaders leaders.now }
    requires inside { length inside.now ≡ length leaders.now }
    requires others { length others.old.items ≡ length leaders.now }
    requires atom { atom < length leaders.now }
    ensures { IsNewLeader leaders.now inside.now others.old.items others.new.items atom result }
{
    let leader = leaders[atom];
    if inside[atom] == inside[leader] {
        return leader;
    }
    other_leader(others, leader, atom)
}

/// The leaders of the classes that are left where each class is divided into the atoms that are inside and the others.
fn divided(alloc: Global, leaders: &[usize], inside: &[bool]) -> Result<Vec<usize>, AllocError>
    requires leaders { AreLeaders leaders.now }
    requires count { length inside.now ≡ length leaders.now }
    ensures leaders { IfOk result (λ v. AreLeaders v.items) }
    ensures split { IfOk result (λ v. SplitBy (λ k. slice_index_or inside.now k false) leaders.now v.items) }
{
    let mut others = vec![in alloc; 0; leaders.len()]?;
    let mut next = Vec::with_capacity(alloc, leaders.len())?;
    for atom in 0..leaders.len() {
        let leader = new_leader(leaders, inside, &mut others, atom);
        next.push(leader)?;
    }
    Ok(next)
}

/// The last atom of each class, at the atom that leads it.
fn lasts_of(alloc: Global, leaders: &[usize]) -> Result<Vec<usize>, AllocError>
    requires { AreLeaders leaders.now }
    ensures { IfOk result (λ v. AreLasts leaders.now v.items) }
{
    let mut lasts = vec![in alloc; 0; leaders.len()]?;
    for atom in 0..leaders.len() {
        lasts[leaders[atom]] = atom;
    }
    Ok(lasts)
}

/// The numbering with each class divided by the set of these ranges.
fn split(
    alloc: Global,
    starts: &[u128],
    numbering: Numbering,
    ranges: &[Range],
) -> Result<Numbering, AllocError>
    requires ascend { Ascend 0 starts.now }
    requires leaders { AreLeaders numbering.leaders.items }
    requires lasts { AreLasts numbering.leaders.items numbering.lasts.items }
    requires count { length numbering.leaders.items ≡ length starts.now }
    ensures leaders { IfOk result (λ next. AreLeaders next.leaders.items) }
    ensures lasts { IfOk result (λ next. AreLasts next.leaders.items next.lasts.items) }
    ensures split { IfOk result (λ next. SplitBy (λ k. has ranges.now (slice_index_or starts.now k 0)) numbering.leaders.items next.leaders.items) }
{
    if are_closed(starts, &numbering, ranges) {
        return Ok(numbering);
    }
    let inside = atoms_inside(alloc, starts, ranges)?;
    let leaders = divided(alloc, numbering.leaders.as_slice(), inside.as_slice())?;
    let lasts = lasts_of(alloc, leaders.as_slice())?;
    Ok(Numbering { leaders, lasts })
}

/// The numbering in which two atoms are in one class where each set has both or neither.
pub(crate) fn numbering_of<const W: u32>(
    alloc: Global,
    starts: &[u128],
    sets: &[Set<W>],
) -> Result<Numbering, AllocError>
    requires ascend { Ascend 0 starts.now }
    ensures leaders { IfOk result (λ found. AreLeaders found.leaders.items) }
    ensures lasts { IfOk result (λ found. AreLasts found.leaders.items found.lasts.items) }
    ensures count { IfOk result (λ found. length found.leaders.items ≡ length starts.now) }
    ensures alike { IfOk result (λ found. (i j : ℕ) → i < length starts.now → j < length starts.now → (slice_index_or found.leaders.items i 0 ≡ slice_index_or found.leaders.items j 0) ↔ LieAlike sets.now (slice_index_or starts.now i 0) (slice_index_or starts.now j 0)) }
{
    let leaders = vec![in alloc; 0; starts.len()]?;
    let lasts = lasts_of(alloc, leaders.as_slice())?;
    let mut numbering = Numbering { leaders, lasts };
    for set in sets {
        numbering = split(alloc, starts, numbering, set.ranges())?;
    }
    Ok(numbering)
}
