ghost use Rattle.std.specs.Prelude.{◌≡◌, ◌<◌, ◌≤◌, ◌^◌, ◌↔◌, ℕ, IfSome, IfNone, IsTrue, Result, decimal};
ghost use Rattle.std.specs.Result.{result_ok};
ghost use Rattle.std.specs.Str.Parse.{ParsesUnsigned};
ghost use Rattle.std.specs.declared.num.ParseIntError.{ParseIntError};
ghost use Rattle.addr_text.specs.Numbers.{BeginsWell};

use std::str;

// The text may be a number that begins with no 0, or is 0.
fn begins_well(text: &[u8]) -> bool
    ensures { IsTrue result ↔ BeginsWell text.now }
{
    !text.is_empty() && text[0] >= b'0' && (text[0] != b'0' || text.len() == 1)
}

fn parsed(text: &str) -> Option<u32>
    ensures { (r : Result ℕ ParseIntError) × ParsesUnsigned 32 10 text.now r × (result ≡ result_ok r) }
{
    text.parse::<u32>().ok()
}

fn number(text: &[u8]) -> Option<u32>
    ensures some { IfSome result (λ n. text.now ≡ decimal n) }
    ensures none { IfNone result ((n : ℕ) → n < 2 ^ 32 → text.now ≡ decimal n → ⊥) }
{
    if !begins_well(text) {
        return None;
    }
    match str::from_utf8(text) {
        Ok(text) => parsed(text),
        Err(_) => None,
    }
}

/// Reads a number from 0 to `most`: `0`, or a digit from 1 to 9 followed by digits.
/// `None` comes where the text is not that of such a number.
pub fn read_number(text: &[u8], most: u32) -> Option<u32>
    ensures some { IfSome result (λ n. text.now ≡ decimal n) }
    ensures most { IfSome result (λ n. n ≤ most) }
    ensures none { IfNone result ((n : ℕ) → n ≤ most → text.now ≡ decimal n → ⊥) }
{
    let n = number(text)?;
    if n <= most { Some(n) } else { None }
}
