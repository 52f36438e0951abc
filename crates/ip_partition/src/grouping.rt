ghost use Rattle.std.specs.Prelude.{Contains, IfErr, IfOk, OnOk};
ghost use Rattle.std.specs.List.{AllByRecursion};
ghost use Rattle.interval_set.specs.Numbers.{IsSet, IsWidth};
ghost use Rattle.ip_partition.specs.Boundaries.{HasFewBoundaries};
ghost use Rattle.ip_partition.specs.Groups.{AreGroups, RefusesGroups};

use crate::GroupFault;
use crate::atoms::numbering_of;
use crate::boundaries::atom_starts;
use crate::classes::class_sets;
use interval_set::Set;
use match_expr::List;
use std::alloc::Global;

// That the ranges of each set ascend with gaps between them. It reads no range.
fn are_sets<const W: u32>(sets: &[Set<W>])
    ensures { AllByRecursion (IsSet W) sets.now }
{
    for set in sets {
        let _ = set.ranges();
    }
}

/// The groups of the numbers below `2 ^ W` that lie in the same sets, in the order of their least numbers. The groups share
/// no number, none of them is empty, and together they have all numbers. W is 8, 16, 32 or 128.
///
/// A boundary of a set is a number above 0 and below `2 ^ W` that is in the set where the one before it isn't, or the other
/// way round.
///
/// # Errors
///
/// `Atoms` exactly where the sets have more than 4,096 distinct boundaries. `Memory` where memory runs out.
pub fn groups<const W: u32>(alloc: Global, sets: &[Set<W>]) -> Result<List<Set<W>>, GroupFault>
    requires { IsWidth W }
    ensures groups { IfOk result (λ groups. AreGroups W sets.now groups) }
    ensures few { OnOk result (HasFewBoundaries W (Contains sets.now)) }
    ensures refused { IfErr result (RefusesGroups W sets.now) }
{
    are_sets(sets);
    let found = atom_starts::<W>(alloc, sets)?;
    let starts = found.as_slice();
    let numbering = numbering_of::<W>(alloc, starts, sets)?;
    let classes = class_sets::<W>(alloc, starts, &numbering)?;
    are_sets(classes.as_slice());
    Ok(List::of(classes))
}
