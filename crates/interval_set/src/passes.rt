//! Passes over the ranges of one or two sets.
ghost use Rattle.std.specs.Prelude.{◌≡◌, ◌+◌, ◌-◌, ◌^◌, ◌<◌, ◌≤◌, ℕ, ◌&&◌, ◌||◌, IfOk, OnOk, not, nat_lt, drop};
ghost use Rattle.interval_set.specs.Numbers.{has, is_within, IsSet};
ghost use Rattle.interval_set.specs.Ends.{next_after, last_low, BeginsFrom};

use crate::apart::passed;
use crate::set::{Range, Set};
use std::alloc::{AllocError, Global};

/// The ranges of the numbers that both have.
pub(crate) fn both<const W: u32>(
    alloc: Global,
    a: &[Range],
    b: &[Range],
) -> Result<Vec<Range>, AllocError>
    requires a_set { IsSet W a.now }
    requires b_set { IsSet W b.now }
    ensures numbers { IfOk result (λ v. (n : ℕ) → has v.items n ≡ (has a.now n && has b.now n)) }
    ensures set { IfOk result (λ v. IsSet W v.items) }
{
    let mut out = Vec::new(alloc);
    let mut i = passed::<W>(a, b);
    let mut j = passed::<W>(b, a);
    while i < a.len() && j < b.len() {
        let x = a[i];
        let y = b[j];
        let lo = x.lo.max(y.lo);
        let hi = x.hi.min(y.hi);
        if lo <= hi {
            out.push(Range { lo, hi })?;
        }
        if x.hi < y.hi {
            i += 1;
        } else {
            j += 1;
        }
    }
    Ok(out)
}

/// Adds the numbers of a range that begins where the last range of `out` begins, or above.
fn join<const W: u32>(out: &mut Vec<Range>, next: Range) -> Result<(), AllocError>
    requires set { IsSet W out.old.items }
    requires later { last_low 0 out.old.items ≤ next.lo }
    requires ordered { next.lo ≤ next.hi }
    requires in_range { next.hi ≤ 2 ^ W - 1 }
    ensures numbers { OnOk result ((n : ℕ) → has out.new.items n ≡ (has out.old.items n || is_within next n)) }
    ensures set { OnOk result (IsSet W out.new.items) }
    ensures last { OnOk result (last_low 0 out.new.items ≤ next.lo) }
{
    if let Some(last) = out.pop() {
        if next.lo <= last.hi.saturating_add(1) {
            out.push(Range {
                lo: last.lo,
                hi: last.hi.max(next.hi),
            })?;
            return Ok(());
        }
        out.push(last)?;
    }
    out.push(next)?;
    Ok(())
}

/// Adds the numbers of ranges the first of which begins where the last of `out` does, or above.
fn join_all<const W: u32>(out: &mut Vec<Range>, rest: &[Range]) -> Result<(), AllocError>
    requires set { IsSet W out.old.items }
    requires rest { IsSet W rest.now }
    requires later { BeginsFrom (last_low 0 out.old.items) rest.now }
    ensures numbers { OnOk result ((n : ℕ) → has out.new.items n ≡ (has out.old.items n || has rest.now n)) }
    ensures set { OnOk result (IsSet W out.new.items) }
{
    for x in rest {
        join::<W>(out, *x)?;
    }
    Ok(())
}

/// The ranges of the numbers that at least one of the two has.
pub(crate) fn either<const W: u32>(
    alloc: Global,
    a: &[Range],
    b: &[Range],
) -> Result<Vec<Range>, AllocError>
    requires a_set { IsSet W a.now }
    requires b_set { IsSet W b.now }
    ensures numbers { IfOk result (λ v. (n : ℕ) → has v.items n ≡ (has a.now n || has b.now n)) }
    ensures set { IfOk result (λ v. IsSet W v.items) }
{
    let mut out = Vec::new(alloc);
    let mut i = 0;
    let mut j = 0;
    while i < a.len() && j < b.len() {
        if a[i].lo <= b[j].lo {
            join::<W>(&mut out, a[i])?;
            i += 1;
        } else {
            join::<W>(&mut out, b[j])?;
            j += 1;
        }
    }
    let rest = if i < a.len() { &a[i..] } else { &b[j..] };
    join_all::<W>(&mut out, rest)?;
    Ok(out)
}

/// Adds the numbers of the range `x` that aren't in the ranges of `b` from the one at `from` on.
/// Answers from where the ranges of `b` matter for numbers above `x`.
fn cut_out<const W: u32>(
    out: &mut Vec<Range>,
    x: Range,
    b: &[Range],
    from: usize,
) -> Result<usize, AllocError>
    requires set { IsSet W out.old.items }
    requires later { next_after 0 out.old.items ≤ x.lo }
    requires ordered { x.lo ≤ x.hi }
    requires in_range { x.hi ≤ 2 ^ W - 1 }
    requires b_set { IsSet W b.now }
    ensures numbers { OnOk result ((n : ℕ) → has out.new.items n ≡ (has out.old.items n || (is_within x n && not (has (drop from b.now) n)))) }
    ensures set { OnOk result (IsSet W out.new.items) }
    ensures last { OnOk result (next_after 0 out.new.items ≤ x.hi + 2) }
    ensures above { IfOk result (λ to. (n : ℕ) → x.hi < n → has (drop to b.now) n ≡ has (drop from b.now) n) }
{
    let mut lo = x.lo;
    let mut j = from;
    while j < b.len() && b[j].lo <= x.hi {
        let y = b[j];
        if lo < y.lo {
            out.push(Range { lo, hi: y.lo - 1 })?;
        }
        if x.hi <= y.hi {
            return Ok(j);
        }
        lo = lo.max(y.hi + 1);
        j += 1;
    }
    out.push(Range { lo, hi: x.hi })?;
    Ok(j)
}

/// The ranges of the numbers that the first has and the second hasn't.
pub(crate) fn without<const W: u32>(
    alloc: Global,
    a: &[Range],
    b: &[Range],
) -> Result<Vec<Range>, AllocError>
    requires a_set { IsSet W a.now }
    requires b_set { IsSet W b.now }
    ensures numbers { IfOk result (λ v. (n : ℕ) → has v.items n ≡ (has a.now n && not (has b.now n))) }
    ensures set { IfOk result (λ v. IsSet W v.items) }
{
    let mut out = Vec::new(alloc);
    let mut j = 0;
    for x in a {
        j = cut_out::<W>(&mut out, *x, b, j)?;
    }
    Ok(out)
}

/// The ranges of the numbers up to the top that aren't in the set.
pub(crate) fn gaps<const W: u32>(alloc: Global, rs: &[Range]) -> Result<Vec<Range>, AllocError>
    requires { IsSet W rs.now }
    ensures numbers { IfOk result (λ v. (n : ℕ) → has v.items n ≡ (nat_lt n (2 ^ W) && not (has rs.now n))) }
    ensures set { IfOk result (λ v. IsSet W v.items) }
{
    let top = Set::<W>::top();
    let mut out = Vec::new(alloc);
    let mut from = 0;
    for r in rs {
        if from < r.lo {
            out.push(Range {
                lo: from,
                hi: r.lo - 1,
            })?;
        }
        if r.hi == top {
            return Ok(out);
        }
        from = r.hi + 1;
    }
    out.push(Range { lo: from, hi: top })?;
    Ok(out)
}
