ghost use Rattle.std.specs.Prelude.{◌≡◌, ◌∷◌, [], IfSome, IfNone, IfOk};
ghost use Rattle.fw_rule.specs.declared.rule.Lit.{Lit as ALit};
ghost use Rattle.interval_set.specs.Numbers.{IsWidth};
ghost use Rattle.primitives.specs.declared.prim.Prim_.{Prim_ as APrim};
ghost use Rattle.dump_grammar.specs.Groups.{Group as AGroup};
ghost use Rattle.opt_table.specs.Rows.{addresses_at};
ghost use Rattle.dump_grammar.specs.Lines.{texts, words_of};
ghost use Rattle.dump_grammar.specs.Literals.{IsNetLiteral, text_of};

use crate::unknown::option_text;
use addr_text::{Family, Net, read_net};
use dump_token::Token;
use fw_rule::Lit;
use interval_set::Set;
use match_expr::Expr;
use opt_table::Side;
use primitives::Prim_;
use std::alloc::{AllocError, Global};

/// The test of the source or of the destination.
pub(crate) fn address_test<const W: u32>(side: Side, set: Set<W>) -> Prim_<W>
    ensures { result ≡ addresses_at side set.entry }
{
    match side {
        Side::Source => Prim_::Src(set),
        Side::Destination => Prim_::Dst(set),
    }
}

/// The literal of `-s` or `-d`, the option that is passed, with this argument. None comes exactly where the argument is
/// no text of a net.
pub(crate) fn net_literal<F: Family<W>, const W: u32>(
    alloc: Global,
    side: Side,
    negated: bool,
    option: &[u8],
    arguments: &[Token],
    text: &[u8],
) -> Result<Option<Lit<Prim_<W>>>, AllocError>
    requires { IsWidth W }
    ensures some { IfOk result (λ o. IfSome o (λ l. IsNetLiteral F.Reads (addresses_at side) text.now negated (text_of (AGroup.Base negated option.now (texts (words_of arguments.now)))) l)) }
    ensures none { IfOk result (λ o. IfNone o ((l : ALit (APrim W)) → IsNetLiteral F.Reads (addresses_at side) text.now negated (text_of (AGroup.Base negated option.now (texts (words_of arguments.now)))) l → ⊥)) }
{
    let Some(net) = read_net::<F, W>(text) else {
        return Ok(None);
    };
    match net {
        Net::Prefix { value, len } => {
            let set = Set::prefix(alloc, value, len)?;
            Ok(Some(Lit::Known {
                neg: negated,
                expr: Expr::Prim(address_test(side, set)),
            }))
        }
        Net::Masked => Ok(Some(Lit::Unknown(option_text(
            alloc, None, negated, option, arguments,
        )?))),
    }
}
