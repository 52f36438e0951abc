ghost use Rattle.std.specs.Prelude.{◌≡◌, ◌≤◌, ℕ, IfSome, IfNone};
ghost use Rattle.interval_set.specs.declared.set.Range.{Range as Numbers};
ghost use Rattle.addr_text.specs.declared.net.Net.{Net as ANet};
ghost use Rattle.addr_text.specs.Nets.{IsLength, IsHole, IsNetText, IsRangeText, HasOneNet, HasOneRange};

use crate::family::Family;
use crate::masks::{mask_length, shorten};
use crate::net::Net;
use crate::numbers::read_number;
use basics::parted;
use interval_set::Range;

/// Reads an address, an address `/` a length up to `W`, or an address `/` a mask in the address form of the family.
/// An address alone has the length `W`. A mask whose set bits are its highest ones gives the prefix of that length,
/// any other mask gives `Masked`. The bits of the address past the length are cleared.
/// `None` comes exactly where the text is none of these.
pub fn read_net<F: Family<W>, const W: u32>(text: &[u8]) -> Option<Net>
    requires { W ≤ 128 }
    ensures some { IfSome result (λ net. IsNetText F.Reads W text.now net) }
    ensures none { IfNone result ((net : ANet) → IsNetText F.Reads W text.now net → ⊥) }
{
    let Some((front, back)) = parted(text, b'/') else {
        let value = F::read(text)?;
        return Some(Net::Prefix { value, len: W });
    };
    let address = F::read(front)?;
    match read_length::<F, W>(back)? {
        Some(len) => Some(Net::Prefix {
            value: shorten::<W>(address, len),
            len,
        }),
        None => Some(Net::Masked),
    }
}

// What stands after the '/': a length, or no length where it is a mask with a hole.
fn read_length<F: Family<W>, const W: u32>(text: &[u8]) -> Option<Option<u32>>
    requires { W ≤ 128 }
    ensures length { IfSome result (λ found. IfSome found (λ len. IsLength F.Reads W text.now len)) }
    ensures hole { IfSome result (λ found. IfNone found (IsHole F.Reads W text.now)) }
    ensures no_length { IfNone result ((len : ℕ) → IsLength F.Reads W text.now len → ⊥) }
    ensures no_hole { IfNone result (IsHole F.Reads W text.now → ⊥) }
{
    if let Some(len) = read_number(text, W) {
        return Some(Some(len));
    }
    let mask = F::read(text)?;
    Some(mask_length::<W>(mask))
}

/// Reads two addresses with `-` between them, the first not above the second.
/// `None` comes exactly where the text is not that.
pub fn read_range<F: Family<W>, const W: u32>(text: &[u8]) -> Option<Range>
    ensures some { IfSome result (λ range. IsRangeText F.Reads text.now range) }
    ensures none { IfNone result ((range : Numbers) → IsRangeText F.Reads text.now range → ⊥) }
{
    let (front, back) = parted(text, b'-')?;
    let lo = F::read(front)?;
    let hi = F::read(back)?;
    if lo <= hi {
        Some(Range { lo, hi })
    } else {
        None
    }
}

/// A text has at most one net.
pub fn one_net<F: Family<W>, const W: u32>()
    requires { W ≤ 128 }
    ensures { HasOneNet F.Reads W }
{}

/// A text has at most one range.
pub fn one_range<F: Family<W>, const W: u32>()
    ensures { HasOneRange F.Reads }
{}
