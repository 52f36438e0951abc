ghost use Rattle.std.specs.Prelude.{◌≡◌, ◌-◌, ◌^◌, ◌≤◌, ℕ, IfSome, Some};
ghost use Rattle.interval_set.specs.Numbers.{IsWidth};
ghost use Rattle.interval_set.specs.Prefix.{prefix_range, IsPrefix};

use crate::set::Range;

/// The number whose `count` low bits are set, and no others.
fn low_bits(count: u32) -> u128
    requires { count ≤ 128 }
    ensures { result ≡ 2 ^ count - 1 }
{
    if count == 128 {
        u128::MAX
    } else {
        (1u128 << count) - 1
    }
}

/// The numbers of `W` bits that agree with the value in their first `len` bits.
pub(crate) fn prefix_of<const W: u32>(value: u128, len: u32) -> Range
    requires width { IsWidth W }
    requires in_range { value ≤ 2 ^ W - 1 }
    requires length { len ≤ W }
    ensures { result ≡ prefix_range W value len }
{
    let free = low_bits(W - len);
    let lo = value - (value & free);
    Range { lo, hi: lo + free }
}

/// The length of the prefix that is exactly the range from `lo` to `hi`, and `None` exactly where
/// no prefix is that range.
pub fn prefix_len<const W: u32>(lo: u128, hi: u128) -> Option<u32>
    requires width { IsWidth W }
    requires ordered { lo ≤ hi }
    requires in_range { hi ≤ 2 ^ W - 1 }
    ensures length { IfSome result (λ len. IsPrefix W (record { lo = lo; hi = hi }) len) }
    ensures exact { (len : ℕ) → IsPrefix W (record { lo = lo; hi = hi }) len → result ≡ Some len }
    ensures begins { IfSome result (λ len. prefix_range W lo len ≡ record { lo = lo; hi = hi }) }
{
    let len = W - (128 - (hi - lo).leading_zeros());
    if prefix_of::<W>(lo, len) == (Range { lo, hi }) {
        Some(len)
    } else {
        None
    }
}
