ghost use Rattle.std.specs.Prelude.{◌≡◌, ◌∷◌, [], ℕ, List as Seq, IfSome, IfNone, IfOk};
ghost use Rattle.fw_rule.specs.declared.rule.Lit.{Lit as ALit};
ghost use Rattle.interval_set.specs.Numbers.{IsWidth};
ghost use Rattle.primitives.specs.declared.prim.Prim_.{Prim_ as APrim};
ghost use Rattle.dump_grammar.specs.Lines.{Text, texts, words_of};
ghost use Rattle.dump_grammar.specs.Literals.{IsBaseLiteral};

use crate::addresses::net_literal;
use crate::literals::{name_literal, protocol_literal};
use crate::pieces::{first_word, is_same};
use crate::unknown::option_text;
use addr_text::Family;
use dump_token::Token;
use fw_rule::Lit;
use opt_table::Side;
use primitives::Prim_;
use std::alloc::{AllocError, Global};

/// The text of the only word.
pub(crate) fn only(words: &[Token]) -> Option<&[u8]>
    ensures some { IfSome result (λ text. texts (words_of words.now) ≡ text.now ∷ []) }
    ensures none { IfNone result ((text : Text) → texts (words_of words.now) ≡ text ∷ [] → ⊥) }
{
    let Some((word, rest)) = first_word(words) else {
        return None;
    };
    if !rest.is_empty() {
        return None;
    }
    Some(word.text.as_slice())
}

/// The literal of an option that needs no module, with these arguments. None comes exactly where it has none.
pub(crate) fn base_literal<F: Family<W>, const W: u32>(
    alloc: Global,
    negated: bool,
    option: &[u8],
    arguments: &[Token],
) -> Result<Option<Lit<Prim_<W>>>, AllocError>
    requires { IsWidth W }
    ensures some { IfOk result (λ o. IfSome o (λ l. IsBaseLiteral F.Reads negated option.now (texts (words_of arguments.now)) l)) }
    ensures none { IfOk result (λ o. IfNone o ((l : ALit (APrim W)) → IsBaseLiteral F.Reads negated option.now (texts (words_of arguments.now)) l → ⊥)) }
{
    if is_same(option, b"-f") {
        let text = option_text(alloc, None, negated, option, arguments)?;
        return Ok(Some(Lit::Unknown(text)));
    }
    let Some(text) = only(arguments) else {
        return Ok(None);
    };
    if is_same(option, b"-s") {
        return net_literal::<F, W>(alloc, Side::Source, negated, option, arguments, text);
    }
    if is_same(option, b"-d") {
        return net_literal::<F, W>(alloc, Side::Destination, negated, option, arguments, text);
    }
    if is_same(option, b"-i") {
        return name_literal(alloc, Side::Source, negated, text);
    }
    if is_same(option, b"-o") {
        return name_literal(alloc, Side::Destination, negated, text);
    }
    if is_same(option, b"-p") {
        return protocol_literal(alloc, negated, option, arguments, text);
    }
    Ok(None)
}
