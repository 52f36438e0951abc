ghost use Rattle.std.specs.Prelude.{◌≡◌, ◌≤◌, ◌↔◌, ℕ, IfSome, IfNone, IfOk, IsTrue, length};
ghost use Rattle.fw_rule.specs.declared.rule.Lit.{Lit as ALit};
ghost use Rattle.primitives.specs.declared.prim.Prim_.{Prim_ as APrim};
ghost use Rattle.primitives.specs.Words.{SpellsProto};
ghost use Rattle.dump_grammar.specs.Groups.{Group as AGroup};
ghost use Rattle.dump_grammar.specs.Kinds.{names_at};
ghost use Rattle.dump_grammar.specs.Lines.{texts, words_of};
ghost use Rattle.dump_grammar.specs.Literals.{IsEveryProtocol, IsNameLiteral, IsPattern, IsProtocolLiteral, text_of};

use crate::patterns::pattern;
use crate::pieces::is_same;
use crate::unknown::option_text;
use dump_token::Token;
use fw_rule::Lit;
use match_expr::Expr;
use name_set::Pattern;
use opt_table::Side;
use primitives::{Prim_, ProtoNum, read_proto};
use std::alloc::{AllocError, Global};

fn short_pattern(alloc: Global, text: &[u8]) -> Result<Option<Pattern>, AllocError>
    ensures some { IfOk result (λ o. IfSome o (λ p. IsPattern text.now p × (1 ≤ length text.now) × (length text.now ≤ 255))) }
    ensures none { IfOk result (λ o. IfNone o (1 ≤ length text.now → length text.now ≤ 255 → ⊥)) }
{
    if text.is_empty() || text.len() > 255 {
        return Ok(None);
    }
    Ok(Some(pattern(alloc, text)?))
}

fn name_test<const W: u32>(side: Side, pattern: Pattern) -> Prim_<W>
    ensures { result ≡ names_at side pattern }
{
    match side {
        Side::Source => Prim_::InName(pattern),
        Side::Destination => Prim_::OutName(pattern),
    }
}

/// The literal of `-i` or `-o` with this argument, which has 1 to 255 bytes; None exactly where it hasn't.
pub(crate) fn name_literal<const W: u32>(
    alloc: Global,
    side: Side,
    negated: bool,
    text: &[u8],
) -> Result<Option<Lit<Prim_<W>>>, AllocError>
    ensures some { IfOk result (λ o. IfSome o (λ l. IsNameLiteral (names_at side) text.now negated l)) }
    ensures none { IfOk result (λ o. IfNone o ((l : ALit (APrim W)) → IsNameLiteral (names_at side) text.now negated l → ⊥)) }
{
    match short_pattern(alloc, text)? {
        Some(pattern) => Ok(Some(Lit::Known {
            neg: negated,
            expr: Expr::Prim(name_test(side, pattern)),
        })),
        None => Ok(None),
    }
}

fn is_every_protocol(text: &[u8]) -> bool
    ensures { IsTrue result ↔ IsEveryProtocol text.now }
{
    is_same(text, b"all") || is_same(text, b"0")
}

fn protocol_number(text: &[u8]) -> Option<ProtoNum>
    requires { IsEveryProtocol text.now → ⊥ }
    ensures some { IfSome result (λ n. SpellsProto text.now n × (1 ≤ n)) }
    ensures none { IfNone result ((n : ℕ) → SpellsProto text.now n → ⊥) }
{
    match read_proto(text) {
        Some(number) => Some(ProtoNum { number }),
        None => None,
    }
}

/// The literal of `-p`, the option that is passed, with this argument. None comes exactly where every protocol is negated.
pub(crate) fn protocol_literal<const W: u32>(
    alloc: Global,
    negated: bool,
    option: &[u8],
    arguments: &[Token],
    text: &[u8],
) -> Result<Option<Lit<Prim_<W>>>, AllocError>
    ensures some { IfOk result (λ o. IfSome o (λ l. IsProtocolLiteral text.now negated (text_of (AGroup.Base negated option.now (texts (words_of arguments.now)))) l)) }
    ensures none { IfOk result (λ o. IfNone o ((l : ALit (APrim W)) → IsProtocolLiteral text.now negated (text_of (AGroup.Base negated option.now (texts (words_of arguments.now)))) l → ⊥)) }
{
    if is_every_protocol(text) {
        if negated {
            return Ok(None);
        }
        return Ok(Some(Lit::Known {
            neg: false,
            expr: Expr::Prim(Prim_::Always),
        }));
    }
    match protocol_number(text) {
        Some(number) => Ok(Some(Lit::Known {
            neg: negated,
            expr: Expr::Prim(Prim_::Proto(number)),
        })),
        None => Ok(Some(Lit::Unknown(option_text(alloc, None, negated, option, arguments)?))),
    }
}
