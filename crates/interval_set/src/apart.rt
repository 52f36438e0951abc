//! What is found of two sets by looking up ranges of one in the other.
ghost use Rattle.std.specs.Prelude.{◌≡◌, ◌≤◌, ℕ, ◌&&◌, IsTrue, false, drop, length};
ghost use Rattle.interval_set.specs.Numbers.{has, is_within, IsSet};

use crate::set::Range;

/// Whether no number of `y` is in the ranges.
fn lacks<const W: u32>(ranges: &[Range], y: Range) -> bool
    requires { IsSet W ranges.now }
    ensures { IsTrue result → (n : ℕ) → (has ranges.now n && is_within y n) ≡ false }
{
    let at = ranges.partition_point(|range| range.hi < y.lo);
    at == ranges.len() || y.hi < ranges[at].lo
}

/// Whether no number is in both. Each range of `few` is looked up in `many`.
fn lacks_each<const W: u32>(many: &[Range], few: &[Range]) -> bool
    requires { IsSet W many.now }
    ensures { IsTrue result → (n : ℕ) → (has many.now n && has few.now n) ≡ false }
{
    for y in few {
        if !lacks::<W>(many, *y) {
            return false;
        }
    }
    true
}

/// True only where no number is in both. It is asked only where one of the two has few ranges beside the other, so that
/// the answer takes less than a pass over both.
pub(crate) fn are_apart<const W: u32>(a: &[Range], b: &[Range]) -> bool
    requires a_set { IsSet W a.now }
    requires b_set { IsSet W b.now }
    ensures { IsTrue result → (n : ℕ) → (has a.now n && has b.now n) ≡ false }
{
    if b.len() <= 1 + a.len() / 16 {
        return lacks_each::<W>(a, b);
    }
    a.len() <= 1 + b.len() / 16 && lacks_each::<W>(b, a)
}

/// How many ranges of `a` end below all of `b`, so that they have nothing in common with it.
pub(crate) fn passed<const W: u32>(a: &[Range], b: &[Range]) -> usize
    requires a_set { IsSet W a.now }
    requires b_set { IsSet W b.now }
    ensures bound { result ≤ length a.now }
    ensures numbers { (n : ℕ) → (has (drop result a.now) n && has b.now n) ≡ (has a.now n && has b.now n) }
{
    if b.is_empty() {
        return a.len();
    }
    let low = b[0].lo;
    a.partition_point(|range| range.hi < low)
}
