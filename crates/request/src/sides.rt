ghost use Rattle.std.specs.Prelude.{IfSome, IfNone, option_map};
ghost use Rattle.fw_rule.specs.declared.side.Side.{Side as Asked};
ghost use Rattle.request.specs.Arguments.{IsSide};

use fw_rule::Side;

/// The side of a text, upper where there is no text. `None` exactly where the text is neither `upper` nor `lower`.
pub fn side_of(text: Option<&str>) -> Option<Side>
    ensures some { IfSome result (IsSide (option_map (λ s. s.now) text.entry)) }
    ensures none { IfNone result ((side : Asked) → IsSide (option_map (λ s. s.now) text.entry) side → ⊥) }
{
    let Some(text) = text else {
        return Some(Side::Upper);
    };
    if text == "upper" {
        Some(Side::Upper)
    } else if text == "lower" {
        Some(Side::Lower)
    } else {
        None
    }
}
