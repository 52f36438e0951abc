//! Tests, without building a set, that find the cubes that have nothing in common.
ghost use Rattle.std.specs.Prelude.{◌≡◌, ◌&&◌, ℕ, None, IsTrue, false};
ghost use Rattle.std.specs.List.{AllByRecursion};
ghost use Rattle.interval_set.specs.Numbers.{IsSet, has};
ghost use Rattle.name_set.specs.Names.{some_covers};
ghost use Rattle.box_norm.specs.Overlaps.{and_of};
ghost use Rattle.region_cut.specs.inner.Misses.{Misses, NoneOfBoth, names_miss};

use box_norm::Cube;
use interval_set::{Range, Set};
use name_set::{NameSet, Pattern};

/// Whether the ranges have no number in common.
fn ranges_are_apart<const W: u32>(a: &[Range], b: &[Range]) -> bool
    requires a_set { IsSet W a.now }
    requires b_set { IsSet W b.now }
    ensures { IsTrue result → (n : ℕ) → (has a.now n && has b.now n) ≡ false }
{
    let mut i = 0;
    let mut j = 0;
    while i < a.len() && j < b.len() {
        if a[i].hi < b[j].lo {
            i += 1;
        } else if b[j].hi < a[i].lo {
            j += 1;
        } else {
            return false;
        }
    }
    true
}

/// Whether the sets have no number in common.
fn sets_are_apart<const W: u32>(a: &Set<W>, b: &Set<W>) -> bool
    ensures { IsTrue result → NoneOfBoth (has a.now) (has b.now) }
{
    ranges_are_apart::<W>(a.ranges(), b.ranges())
}

/// Whether one of the patterns covers `other`.
fn one_covers(patterns: &[Pattern], other: &Pattern) -> bool
    ensures { result ≡ some_covers patterns.now other.now }
{
    for pattern in patterns {
        if pattern.covers(other) {
            return true;
        }
    }
    false
}

/// Whether the bases of the names have no name in common, or an exclusion covers what they have.
fn names_are_apart(a: &NameSet, b: &NameSet) -> bool
    ensures { result ≡ names_miss a.now b.now }
{
    let narrower = if a.base.covers(&b.base) {
        &b.base
    } else if b.base.covers(&a.base) {
        &a.base
    } else {
        return true;
    };
    one_covers(a.excluded.as_slice(), narrower) || one_covers(b.excluded.as_slice(), narrower)
}

/// Whether the cubes have no name in common, of the input interface or of the output interface.
fn are_apart_by_names<const W: u32>(a: &Cube<W>, b: &Cube<W>) -> bool
    ensures { IsTrue result → Misses a.now b.now }
{
    names_are_apart(&a.in_name, &b.in_name) || names_are_apart(&a.out_name, &b.out_name)
}

/// Whether the cubes have nothing in common in one of the other dimensions.
fn are_apart_by_numbers<const W: u32>(a: &Cube<W>, b: &Cube<W>) -> bool
    ensures { IsTrue result → Misses a.now b.now }
{
    a.state & b.state == 0
        || a.flags & b.flags == 0
        || sets_are_apart(&a.proto, &b.proto)
        || sets_are_apart(&a.icmp, &b.icmp)
        || sets_are_apart(&a.sport, &b.sport)
        || sets_are_apart(&a.dport, &b.dport)
        || sets_are_apart(&a.src, &b.src)
        || sets_are_apart(&a.dst, &b.dst)
}

/// Whether the cubes have nothing in common in some dimension.
pub(crate) fn are_apart<const W: u32>(a: &Cube<W>, b: &Cube<W>) -> bool
    ensures { IsTrue result → Misses a.now b.now }
{
    are_apart_by_numbers(a, b) || are_apart_by_names(a, b)
}

/// Whether two cubes are found to have nothing in common without building a set. Where they aren't, `Cube::and` tells.
pub fn have_none_common<const W: u32>(a: &Cube<W>, b: &Cube<W>) -> bool
    ensures { IsTrue result → and_of a.now b.now ≡ None }
{
    are_apart(a, b)
}

/// Whether each of the regions is apart from the cube.
pub(crate) fn are_all_apart<const W: u32>(regions: &[Cube<W>], cube: &Cube<W>) -> bool
    ensures { IsTrue result → AllByRecursion (λ c. Misses c cube.now) regions.now }
{
    for region in regions {
        if !are_apart(region, cube) {
            return false;
        }
    }
    true
}
