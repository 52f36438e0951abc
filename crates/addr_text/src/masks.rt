ghost use Rattle.std.specs.Prelude.{◌≡◌, ◌-◌, ◌<◌, ◌≤◌, ◌^◌, ℕ, IfSome, IfNone};
ghost use Rattle.addr_text.specs.Masks.{mask_of, shortened, HasHole};

// The number whose lowest bits are set, `count` of them.
fn low_bits(count: u32) -> u128
    requires { count ≤ 128 }
    ensures { result ≡ 2 ^ count - 1 }
{
    if count == 128 {
        u128::MAX
    } else {
        (1u128 << count) - 1
    }
}

fn mask<const W: u32>(len: u32) -> u128
    requires width { W ≤ 128 }
    requires len { len ≤ W }
    ensures { result ≡ mask_of W len }
{
    low_bits(W) - low_bits(W - len)
}

// The length whose mask this is.
pub(crate) fn mask_length<const W: u32>(bits: u128) -> Option<u32>
    requires { W ≤ 128 }
    ensures some { IfSome result (λ len. bits ≡ mask_of W len) }
    ensures most { IfSome result (λ len. len ≤ W) }
    ensures none { IfNone result (HasHole W bits) }
{
    for len in 0..W + 1 {
        if mask::<W>(len) == bits {
            return Some(len);
        }
    }
    None
}

// The value with the bits past the length cleared.
pub(crate) fn shorten<const W: u32>(value: u128, len: u32) -> u128
    requires width { W ≤ 128 }
    requires len { len ≤ W }
    ensures { result ≡ shortened W len value }
{
    value - (value & low_bits(W - len))
}
