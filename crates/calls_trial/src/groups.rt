//! The groups of addresses that some sets can't tell apart.
use interval_set::{Range, Set};
use ip_partition::groups;
use std::test::Fail;

#[test]
fn no_sets_give_one_group_of_all_numbers(rt: HostRuntime) -> Result<(), Fail> {
    let all = groups::<8>(rt.alloc(), &[])?;
    let [group] = all.as_slice() else {
        return Err("not one group".into());
    };
    assert!(rt; group.is_full());
    Ok(())
}

#[test]
fn two_ranges_that_overlap_give_four_groups(rt: HostRuntime) -> Result<(), Fail> {
    let alloc = rt.alloc();
    let sets = [Set::<8>::range(alloc, 10, 19)?, Set::range(alloc, 15, 24)?];
    let parted = groups(alloc, &sets)?;
    let [outside, low, both, high] = parted.as_slice() else {
        return Err("not four groups".into());
    };
    let around = [Range { lo: 0, hi: 9 }, Range { lo: 25, hi: 255 }];
    assert!(rt; outside.ranges() == around.as_slice());
    assert!(rt; low.ranges() == [Range { lo: 10, hi: 14 }].as_slice());
    assert!(rt; both.ranges() == [Range { lo: 15, hi: 19 }].as_slice());
    assert!(rt; high.ranges() == [Range { lo: 20, hi: 24 }].as_slice());
    Ok(())
}
