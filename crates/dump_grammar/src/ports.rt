ghost use Rattle.std.specs.Prelude.{◌≡◌, ◌≤◌, ◌<◌, ◌^◌, ◌==◌, ◌∷◌, [], ℕ, List as Seq, All, IfSome, IfNone, IfOk, decimal, if◌then◌else◌};
ghost use Rattle.std.specs.List.{list_any};
ghost use Rattle.interval_set.specs.declared.set.Range.{Range as ARange};
ghost use Rattle.interval_set.specs.Numbers.{has};
ghost use Rattle.interval_set.specs.Spelling.{ranges_where};
ghost use Rattle.dump_grammar.specs.Arguments.{IsPortList, IsPortRange};

use addr_text::read_number;
use basics::parted;
use interval_set::{Range, Set};
use std::alloc::{AllocError, Global};

/// Reads a port, or FIRST:LAST; None exactly where the text is neither.
pub fn port_range(text: &[u8]) -> Option<Range>
    ensures some { IfSome result (λ r. IsPortRange text.now r) }
    ensures none { IfNone result ((r : ARange) → IsPortRange text.now r → ⊥) }
{
    let Some((first, last)) = parted(text, b':') else {
        return one_port(text);
    };
    let Some(lo) = read_number(first, 65535) else {
        return None;
    };
    let Some(hi) = read_number(last, 65535) else {
        return None;
    };
    if lo > hi {
        return None;
    }
    Some(Range {
        lo: lo as u128,
        hi: hi as u128,
    })
}

fn one_port(text: &[u8]) -> Option<Range>
    ensures some { IfSome result (λ r. (text.now ≡ decimal r.lo) × (r.lo ≡ r.hi) × (r.hi ≤ 65535)) }
    ensures none { IfNone result ((n : ℕ) → n ≤ 65535 → text.now ≡ decimal n → ⊥) }
{
    let Some(port) = read_number(text, 65535) else {
        return None;
    };
    Some(Range {
        lo: port as u128,
        hi: port as u128,
    })
}

fn has_colon(text: &[u8]) -> bool
    ensures { result ≡ list_any (λ b. b == 58) text.now }
{
    text.iter().any(|b| *b == b':')
}

// How much a part of a list counts.
fn part_weight(text: &[u8]) -> u32
    ensures value { result ≡ (if list_any (λ b. b == 58) text.now then 2 else 1) }
    ensures small { result ≤ 2 }
{
    if has_colon(text) { 2 } else { 1 }
}

/// How much the parts of a list of ports count together at most.
const MOST_PORTS: u32 = 15;

/// Reads ports and ranges of ports with commas between them, where a range counts two and all count 15 at most; None
/// exactly where the text is no such list.
pub(crate) fn port_list(alloc: Global, text: &[u8]) -> Result<Option<Vec<Range>>, AllocError>
    ensures some { IfOk result (λ o. IfSome o (λ rs. IsPortList text.now rs.items)) }
    ensures none { IfOk result (λ o. IfNone o ((rs : Seq ARange) → IsPortList text.now rs → ⊥)) }
{
    let mut found = Vec::new(alloc);
    let mut rest = text;
    let mut count = 0;
    while let Some((part, after)) = parted(rest, b',') {
        let Some(range) = port_range(part) else {
            return Ok(None);
        };
        count += part_weight(part);
        if count > MOST_PORTS {
            return Ok(None);
        }
        found.push(range)?;
        rest = after;
    }
    let Some(last) = port_range(rest) else {
        return Ok(None);
    };
    if count + part_weight(rest) > MOST_PORTS {
        return Ok(None);
    }
    found.push(last)?;
    Ok(Some(found))
}

/// The set of the ports in this range.
pub(crate) fn range_set(alloc: Global, range: Range) -> Result<Set<16>, AllocError>
    requires ordered { range.lo ≤ range.hi }
    requires ports { range.hi < 2 ^ 16 }
    ensures { IfOk result (λ s. s ≡ ranges_where (has (range ∷ [])) (2 ^ 16)) }
{
    Set::range(alloc, range.lo, range.hi)
}

/// The set of the ports in these ranges.
pub(crate) fn port_set(alloc: Global, ranges: &[Range]) -> Result<Set<16>, AllocError>
    requires { All (λ (r : ARange). (r.lo ≤ r.hi) × (r.hi < 2 ^ 16)) ranges.now }
    ensures { IfOk result (λ s. s ≡ ranges_where (has ranges.now) (2 ^ 16)) }
{
    let mut ports = Set::<16>::empty(alloc);
    for range in ranges {
        let one = Set::<16>::range(alloc, range.lo, range.hi)?;
        ports = ports.or(alloc, &one)?;
    }
    Ok(ports)
}
