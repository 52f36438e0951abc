ghost use Rattle.std.specs.Prelude.{◌≡◌, ◌≤◌, ◌+◌, ℕ, List, IfNone, IfSome, length};
ghost use Rattle.dump_grammar.specs.Lines.{Text};
ghost use Rattle.limits.specs.declared.TheConstants.{MOST_BYTES};
ghost use Rattle.fffuu_run.specs.Covers.{IsDivided};

use basics::parted;

// The line between two dumps.
const DIVIDER: &[u8] = b"%%";

/// The two parts of a text, before and behind its dividing line.
#[derive(Drop)]
pub struct Parts<'a> {
    pub first: &'a [u8],
    pub second: &'a [u8],
    /// How many lines stand before the second part.
    pub before: u32,
}

/// The parts of the text at its first line that is `%%`. None exactly where no line is.
pub fn divided(text: &[u8]) -> Option<Parts<'_>>
    requires { length text.now ≤ MOST_BYTES }
    ensures some { IfSome result (λ parts. (lines : List Text) × (IsDivided text.now lines parts.first.now parts.second.now
        × (parts.before ≡ length lines + 1))) }
    ensures short { IfSome result (λ parts. (length parts.first.now ≤ MOST_BYTES) × (length parts.second.now ≤ MOST_BYTES)
        × (parts.before ≤ MOST_BYTES + 1)) }
    ensures none { IfNone result ((lines : List Text) (first second : Text) → IsDivided text.now lines first second → ⊥) }
{
    let mut before = 1;
    let mut rest = text;
    while let Some((line, after)) = parted(rest, b'\n') {
        if line == DIVIDER {
            return Some(Parts {
                first: &text[..text.len() - rest.len()],
                second: after,
                before,
            });
        }
        before += 1;
        rest = after;
    }
    if rest == DIVIDER {
        return Some(Parts {
            first: &text[..text.len() - rest.len()],
            second: b"",
            before,
        });
    }
    None
}
