ghost use Rattle.std.specs.Prelude.{◌≡◌, ◌++◌, OnErr, OnOk};
ghost use Rattle.interval_set.specs.Numbers.{IsSet};
ghost use Rattle.primitives.specs.Ranges.{IsRange};
ghost use Rattle.fw_text.specs.Ranges.{range_text, ranges_text};

use addr_text::Family;
use interval_set::{Range, Set};
use std::alloc::{AllocError, Global};

// Appends the first and the last address of a range, or one address where it has no other.
fn append_range<F: Family<W>, const W: u32>(
    range: Range,
    out: &mut Vec<u8>,
) -> Result<(), AllocError>
    requires { IsRange W range }
    ensures { OnOk result (out.new.items ≡ out.old.items ++ range_text F.text_of range) }
{
    F::write(range.lo, out)?;
    if range.lo == range.hi {
        return Ok(());
    }
    out.push(b'-')?;
    F::write(range.hi, out)
}

// Appends ranges with commas between them.
fn append_ranges<F: Family<W>, const W: u32>(
    ranges: &[Range],
    out: &mut Vec<u8>,
) -> Result<(), AllocError>
    requires { IsSet W ranges.now }
    ensures { OnOk result (out.new.items ≡ out.old.items ++ ranges_text F.text_of ranges.now) }
{
    let [first, rest @ ..] = ranges else {
        return Ok(());
    };
    append_range::<F, W>(*first, out)?;
    for range in rest {
        out.push(b',')?;
        append_range::<F, W>(*range, out)?;
    }
    Ok(())
}

/// Appends the ranges of a set in ascending order with commas between them: the first and the last address with `-` between them,
/// and one address alone where both are the same. Nothing is appended for the empty set. Without memory `out` is as before.
pub fn ranges_text<F: Family<W>, const W: u32>(
    alloc: Global,
    set: &Set<W>,
    out: &mut Vec<u8>,
) -> Result<(), AllocError>
    ensures ok { OnOk result (out.new.items ≡ out.old.items ++ ranges_text F.text_of set.now) }
    ensures err { OnErr result (out.new.items ≡ out.old.items) }
{
    let mut text = Vec::new(alloc);
    append_ranges::<F, W>(set.ranges(), &mut text)?;
    out.extend_from_slice(&text)
}
