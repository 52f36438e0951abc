//! The sets of the classes of atoms.
ghost use Rattle.std.specs.Prelude.{◌≡◌, ◌+◌, ◌<◌, ◌≤◌, ℕ, IfOk, OnOk, length, slice_index_or, take, drop};
ghost use Rattle.std.specs.List.{AllByRecursion};
ghost use Rattle.interval_set.specs.Numbers.{has, IsWidth};
ghost use Rattle.ip_partition.specs.inner.Atoms.{AreLasts, AreLeaders, IsClass};
ghost use Rattle.ip_partition.specs.Boundaries.{Ascend};
ghost use Rattle.ip_partition.specs.inner.Classes.{AreClasses, AreStarts, IsAtomOf, IsUsual, PutAtom};

use crate::atoms::Numbering;
use interval_set::{Range, Set};
use std::alloc::{AllocError, Global};

/// The numbers of an atom.
fn atom_range(starts: &[u128], atom: usize, top: u128) -> Range
    requires ascend { Ascend 0 starts.now }
    requires atom { atom < length starts.now }
    ensures { IsAtomOf top starts.now atom result }
{
    if atom + 1 < starts.len() {
        return Range {
            lo: starts[atom],
            hi: starts[atom + 1] - 1,
        };
    }
    Range {
        lo: starts[atom],
        hi: top,
    }
}

/// Adds the range of an atom where this is its leader.
fn put_atom(
    ranges: &mut Vec<Range>,
    starts: &[u128],
    leaders: &[usize],
    leader: usize,
    atom: usize,
    top: u128,
) -> Result<(), AllocError>
    requires ascend { Ascend 0 starts.now }
    requires atom { atom < length starts.now }
    requires count { length leaders.now ≡ length starts.now }
    ensures { OnOk result (PutAtom top starts.now leaders.now leader atom ranges.old.items ranges.new.items) }
{
    if leaders[atom] != leader {
        return Ok(());
    }
    ranges.push(atom_range(starts, atom, top))?;
    Ok(())
}

/// The ranges of the atoms of the class that this atom leads.
fn class_ranges<const W: u32>(
    alloc: Global,
    starts: &[u128],
    numbering: &Numbering,
    leader: usize,
) -> Result<Vec<Range>, AllocError>
    requires width { IsWidth W }
    requires starts { AreStarts W starts.now }
    requires leaders { AreLeaders numbering.now.leaders.items }
    requires lasts { AreLasts numbering.now.leaders.items numbering.now.lasts.items }
    requires count { length numbering.now.leaders.items ≡ length starts.now }
    requires leader { leader < length starts.now }
    requires own { slice_index_or numbering.now.leaders.items leader 0 ≡ leader }
    ensures ranges { IfOk result (λ v. AllByRecursion (IsUsual W) v.items) }
    ensures numbers { IfOk result (λ v. IsClass W starts.now numbering.now.leaders.items leader v.items) }
{
    let top = Set::<W>::top();
    let leaders = numbering.leaders.as_slice();
    let lasts = numbering.lasts.as_slice();
    let end = lasts[leader] + 1;
    let mut ranges = Vec::new(alloc);
    for atom in leader..end {
        put_atom(&mut ranges, starts, leaders, leader, atom, top)?;
    }
    Ok(ranges)
}

/// The set of the numbers of so many ranges from one on. Both halves of them are joined.
fn union_of<const W: u32>(
    alloc: Global,
    ranges: &[Range],
    from: usize,
    count: usize,
) -> Result<Set<W>, AllocError>
    requires width { IsWidth W }
    requires ranges { AllByRecursion (IsUsual W) ranges.now }
    requires bound { from + count ≤ length ranges.now }
    ensures { IfOk result (λ s. (n : ℕ) → has s n ≡ has (take count (drop from ranges.now)) n) }
{
    if count == 0 {
        return Ok(Set::empty(alloc));
    }
    if count == 1 {
        return Set::range(alloc, ranges[from].lo, ranges[from].hi);
    }
    let half = count / 2;
    let low = union_of::<W>(alloc, ranges, from, half)?;
    let high = union_of::<W>(alloc, ranges, from + half, count - half)?;
    low.or(alloc, &high)
}

/// Adds the set of the class that this atom leads, if it leads one.
fn put_class<const W: u32>(
    alloc: Global,
    classes: &mut Vec<Set<W>>,
    starts: &[u128],
    numbering: &Numbering,
    atom: usize,
) -> Result<(), AllocError>
    requires width { IsWidth W }
    requires starts { AreStarts W starts.now }
    requires leaders { AreLeaders numbering.now.leaders.items }
    requires lasts { AreLasts numbering.now.leaders.items numbering.now.lasts.items }
    requires count { length numbering.now.leaders.items ≡ length starts.now }
    requires atom { atom < length starts.now }
    requires classes { AreClasses W starts.now numbering.now.leaders.items atom classes.old.items }
    ensures { OnOk result (AreClasses W starts.now numbering.now.leaders.items (atom + 1) classes.new.items) }
{
    let leaders = numbering.leaders.as_slice();
    if leaders[atom] != atom {
        return Ok(());
    }
    let ranges = class_ranges::<W>(alloc, starts, numbering, atom)?;
    let found = ranges.as_slice();
    let class = union_of::<W>(alloc, found, 0, found.len())?;
    classes.push(class)?;
    Ok(())
}

/// The sets of the classes, in the order of the atoms that lead them.
pub(crate) fn class_sets<const W: u32>(
    alloc: Global,
    starts: &[u128],
    numbering: &Numbering,
) -> Result<Vec<Set<W>>, AllocError>
    requires width { IsWidth W }
    requires starts { AreStarts W starts.now }
    requires leaders { AreLeaders numbering.now.leaders.items }
    requires lasts { AreLasts numbering.now.leaders.items numbering.now.lasts.items }
    requires count { length numbering.now.leaders.items ≡ length starts.now }
    ensures { IfOk result (λ v. AreClasses W starts.now numbering.now.leaders.items (length starts.now) v.items) }
{
    let mut classes = Vec::new(alloc);
    for atom in 0..starts.len() {
        put_class::<W>(alloc, &mut classes, starts, numbering, atom)?;
    }
    Ok(classes)
}
