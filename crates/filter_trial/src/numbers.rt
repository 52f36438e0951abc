use interval_set::{Range, Set, prefix_len};
use std::alloc::{AllocError, Global};
use std::test::Fail;

// 0 to 3, 5 to 9, and 12.
fn three_ranges(alloc: Global) -> Result<Set<8>, AllocError> {
    let low = Set::range(alloc, 0, 3)?.or(alloc, &Set::range(alloc, 5, 9)?)?;
    low.or(alloc, &Set::range(alloc, 12, 12)?)?.copy(alloc)
}

#[test]
fn a_gap_of_one_number_stays(rt: HostRuntime) -> Result<(), Fail> {
    let alloc = rt.alloc();
    let set = three_ranges(alloc)?;
    assert_eq!(rt; set.ranges().len(), 3);
    let found = [
        set.contains(3),
        set.contains(4),
        set.contains(12),
        set.contains(300),
    ];
    assert_eq!(rt; found, [true, false, true, false]);
    let rest = Set::range(alloc, 2, 20)?.minus(alloc, &set)?;
    let ranges = [
        Range { lo: 4, hi: 4 },
        Range { lo: 10, hi: 11 },
        Range { lo: 13, hi: 20 },
    ];
    assert!(rt; rest.ranges() == ranges.as_slice());
    assert_eq!(rt;
        [rest.least(), Set::<8>::empty(alloc).least()],
        [Some(4), None]
    );
    Ok(())
}

#[test]
fn two_parts_of_128_bits_meet_at_the_top(rt: HostRuntime) -> Result<(), Fail> {
    let end = Set::<128>::top();
    let below = Set::<128>::range(rt.alloc(), 0, end - 1)?;
    let top = Set::<128>::prefix(rt.alloc(), end, 128)?;
    let found = [
        below.and(rt.alloc(), &top)?.is_empty(),
        top.or(rt.alloc(), &below)?.is_full(),
        below.not(rt.alloc())?.same(&top),
    ];
    assert_eq!(rt; found, [true; 3]);
    Ok(())
}

#[test]
fn some_ranges_are_prefixes(rt: HostRuntime) {
    let lengths = [
        prefix_len::<8>(0xA0, 0xAF),
        prefix_len::<8>(0xA8, 0xB7),
        prefix_len::<8>(0, 254),
    ];
    assert_eq!(rt; lengths, [Some(4), None, None]);
    assert_eq!(rt;
        [prefix_len::<32>(7, 7), prefix_len::<128>(0, u128::MAX)],
        [Some(32), Some(0)]
    );
}
