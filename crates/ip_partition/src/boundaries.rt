//! Where the sets begin and end.
ghost use Rattle.std.specs.Prelude.{◌≡◌, ◌+◌, ◌-◌, ◌^◌, ◌≤◌, ◌∷◌, [], IfErr, IfOk, OnOk, length};
ghost use Rattle.interval_set.specs.Numbers.{IsWidth};
ghost use Rattle.limits.specs.declared.TheConstants.{MOST_BOUNDARIES};
ghost use Rattle.ip_partition.specs.Boundaries.{Ascend};
ghost use Rattle.ip_partition.specs.inner.Starts.{after, ends, starts_of, with_number, with_numbers, PassesLimit};

use crate::GroupFault;
use interval_set::{Range, Set};
use limits::MOST_BOUNDARIES;
use std::alloc::Global;

/// Puts the number in its place among numbers that ascend, unless it is there already.
fn put(starts: &mut Vec<u128>, start: u128) -> Result<(), GroupFault>
    requires ascend { Ascend 0 starts.old.items }
    requires few { length starts.old.items ≤ MOST_BOUNDARIES + 1 }
    ensures put { OnOk result (starts.new.items ≡ with_number start starts.old.items) }
    ensures few { OnOk result (length starts.new.items ≤ MOST_BOUNDARIES + 1) }
    ensures refused { IfErr result (PassesLimit (with_number start starts.old.items)) }
{
    match starts.binary_search(&start) {
        Ok(_) => Ok(()),
        Err(at) => {
            // One of the starts is 0, which is no boundary.
            if starts.len() > MOST_BOUNDARIES {
                return Err(GroupFault::Atoms);
            }
            starts.insert(at, start)?;
            Ok(())
        }
    }
}

/// Puts the number after the last one of a range, unless that is the top.
fn put_after(starts: &mut Vec<u128>, last: u128, top: u128) -> Result<(), GroupFault>
    requires ascend { Ascend 0 starts.old.items }
    requires few { length starts.old.items ≤ MOST_BOUNDARIES + 1 }
    ensures put { OnOk result (starts.new.items ≡ with_numbers (after top last) starts.old.items) }
    ensures few { OnOk result (length starts.new.items ≤ MOST_BOUNDARIES + 1) }
    ensures refused { IfErr result (PassesLimit (with_numbers (after top last) starts.old.items)) }
{
    if last >= top {
        return Ok(());
    }
    put(starts, last + 1)
}

/// Puts where each range begins and where the numbers after it begin.
fn put_ends(starts: &mut Vec<u128>, ranges: &[Range], top: u128) -> Result<(), GroupFault>
    requires ascend { Ascend 0 starts.old.items }
    requires few { length starts.old.items ≤ MOST_BOUNDARIES + 1 }
    ensures put { OnOk result (starts.new.items ≡ with_numbers (ends top ranges.now) starts.old.items) }
    ensures few { OnOk result (length starts.new.items ≤ MOST_BOUNDARIES + 1) }
    ensures refused { IfErr result (PassesLimit (with_numbers (ends top ranges.now) starts.old.items)) }
{
    for range in ranges {
        put(starts, range.lo)?;
        put_after(starts, range.hi, top)?;
    }
    Ok(())
}

/// Where the atoms begin: 0 and the boundaries of the sets, in ascending order.
pub(crate) fn atom_starts<const W: u32>(
    alloc: Global,
    sets: &[Set<W>],
) -> Result<Vec<u128>, GroupFault>
    requires { IsWidth W }
    ensures starts { IfOk result (λ v. v.items ≡ starts_of W sets.now) }
    ensures few { IfOk result (λ v. length v.items ≤ MOST_BOUNDARIES + 1) }
    ensures refused { IfErr result (PassesLimit (starts_of W sets.now)) }
{
    let top = Set::<W>::top();
    let mut starts = Vec::new(alloc);
    starts.push(0)?;
    for set in sets {
        put_ends(&mut starts, set.ranges(), top)?;
    }
    Ok(starts)
}
