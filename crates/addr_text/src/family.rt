ghost use Rattle.std.specs.Prelude.{◌≡◌, ◌<◌, ◌^◌, ◌++◌, ℕ, List, IfSome, IfNone, OnOk, OnErr};
ghost use Rattle.std.specs.Str.Parse.{AllDigits};
ghost use Rattle.addr_text.specs.Grammar.{IsPlain};

use std::alloc::AllocError;

/// A family of addresses, whose values are the numbers below `2 ^ W`.
pub trait Family<const W: u32> {
    /// The text is an address with this value.
    ghost Reads: { List ℕ → ℕ → Type 0 };

    /// The one text that is written for a value.
    ghost text_of: { ℕ → List ℕ };

    /// The value of an address's text, and `None` where the text is no address.
    fn read(text: &[u8]) -> Option<u128>
        ensures some { IfSome result (λ value. Reads text.now value) }
        ensures none { IfNone result ((value : ℕ) → Reads text.now value → ⊥) };

    /// Appends the text of a value. Where memory is wanting, `out` is as before.
    fn write(value: u128, out: &mut Vec<u8>) -> Result<(), AllocError>
        requires { value < 2 ^ W }
        ensures ok { OnOk result (out.new.items ≡ out.old.items ++ text_of value) }
        ensures err { OnErr result (out.new.items ≡ out.old.items) };

    /// What is written is read back.
    ghost round: { (value : ℕ) → value < 2 ^ W → Reads (text_of value) value };

    /// A text has one value.
    ghost one: { (text : List ℕ) (x y : ℕ) → Reads text x → Reads text y → x ≡ y };

    /// The value of a text is below the top.
    ghost fits: { (text : List ℕ) (value : ℕ) → Reads text value → value < 2 ^ W };

    /// A text isn't empty, and has digits, letters from a to f, dots and colons alone.
    ghost plain: { (text : List ℕ) (value : ℕ) → Reads text value → IsPlain text };

    /// A text of decimal digits alone is no address.
    ghost not_number: { (text : List ℕ) (value : ℕ) → AllDigits 10 text → Reads text value → ⊥ };
}
