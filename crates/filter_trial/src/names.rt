use match_expr::{Bytes, List};
use name_set::{NameSet, Pattern};
use std::alloc::{AllocError, Global};
use std::test::Fail;

fn exact(alloc: Global, text: &[u8]) -> Result<Pattern, AllocError> {
    Ok(Pattern::Exact(Bytes::of(Vec::from_slice(alloc, text)?)))
}

fn prefix(alloc: Global, text: &[u8]) -> Result<Pattern, AllocError> {
    Ok(Pattern::Prefix(Bytes::of(Vec::from_slice(alloc, text)?)))
}

#[test]
fn a_prefix_matches_itself(rt: HostRuntime) -> Result<(), Fail> {
    let eth = prefix(rt.alloc(), b"eth")?.copy(rt.alloc())?;
    let eth0 = exact(rt.alloc(), b"eth0")?;
    let matched = [
        eth.matches(b"eth"),
        eth.matches(b"et"),
        eth0.matches(b"eth0"),
    ];
    assert_eq!(rt; matched, [true, false, true]);
    assert_eq!(rt;
        [eth.covers(&eth0), eth0.covers(&eth), eth0.has_common(&eth)],
        [true, false, true]
    );
    assert_eq!(rt; eth.text(), b"eth".as_slice());
    Ok(())
}

/// The least name of a set, or a dash where it has none.
fn least(alloc: Global, set: &NameSet) -> Result<Vec<u8>, AllocError> {
    match set.least(alloc)? {
        Some(name) => Ok(name.into_vec()),
        None => b"-".to_vec(alloc),
    }
}

/// Each name but the empty one.
fn named(alloc: Global) -> Result<NameSet, Fail> {
    let full = NameSet::full(alloc)?;
    Ok(full.cut_not(alloc, &exact(alloc, b"")?)?.ok_or("no set")?)
}

#[test]
fn a_name_out_of_all(rt: HostRuntime) -> Result<(), Fail> {
    let set = named(rt.alloc())?;
    let found = [set.contains(b""), set.contains(b"eth"), set.is_covered()];
    assert_eq!(rt; found, [false, true, false]);
    assert_eq!(rt; least(rt.alloc(), &set)?.as_slice(), b"\0".as_slice());
    Ok(())
}

#[test]
fn an_exclusion_that_misses_the_base_is_left_out(rt: HostRuntime) -> Result<(), Fail> {
    let eth = named(rt.alloc())?.cut(rt.alloc(), &prefix(rt.alloc(), b"eth")?)?;
    let excluded = eth.map(|set| set.excluded.as_slice().len());
    assert_eq!(rt; excluded, Some(0));
    Ok(())
}

/// `a` and the names of this pattern are out, and so is each name that begins with `a` and another byte than this one.
fn with_byte(alloc: Global, by: Pattern, byte: u8) -> Result<NameSet, AllocError> {
    let mut excluded = vec![in alloc; by, exact(alloc, b"a")?]?;
    for other in 0..=255u8 {
        if other != byte {
            excluded.push(prefix(alloc, &[b'a', other])?)?;
        }
    }
    Ok(NameSet {
        base: prefix(alloc, b"a")?,
        excluded: List::of(excluded),
    })
}

/// The least name of that set, where the pattern is `ab` alone, or all that begins with it.
fn least_with(alloc: Global, is_prefix: bool, byte: u8) -> Result<Vec<u8>, AllocError> {
    let by = if is_prefix {
        prefix(alloc, b"ab")?
    } else {
        exact(alloc, b"ab")?
    };
    least(alloc, &with_byte(alloc, by, byte)?)
}

#[test]
fn exclusions_leave_a_longer_name_or_none(rt: HostRuntime) -> Result<(), Fail> {
    for (is_prefix, byte, name) in [
        (false, b'b', b"ab\0".as_slice()),
        (false, b'c', b"ac"),
        (true, b'b', b"-"),
    ] {
        assert_eq!(rt; least_with(rt.alloc(), is_prefix, byte)?.as_slice(), name);
    }
    Ok(())
}
