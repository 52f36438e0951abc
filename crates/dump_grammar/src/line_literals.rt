ghost use Rattle.std.specs.Prelude.{◌≡◌, ◌++◌, ◌∷◌, ◌&&◌, ◌||◌, not, List as Seq, Some, IfSome, IfNone, IfOk, OnOk, option_to_list};
ghost use Rattle.fw_rule.specs.declared.rule.Lit.{Lit as ALit};
ghost use Rattle.interval_set.specs.Numbers.{IsWidth};
ghost use Rattle.match_expr.specs.declared.expr.Expr.{Expr as AnExpr};
ghost use Rattle.primitives.specs.declared.prim.Prim_.{Prim_ as APrim};
ghost use Rattle.dump_grammar.specs.Arguments.{Says};
ghost use Rattle.dump_grammar.specs.ChainLines.{is_among};
ghost use Rattle.dump_grammar.specs.GroupWords.{group_of, groups_of, module_of};
ghost use Rattle.dump_grammar.specs.Groups.{Group as AGroup, all_differ, base_of, is_known_module as is_known};
ghost use Rattle.dump_grammar.specs.Kinds.{HasProtocol};
ghost use Rattle.dump_grammar.specs.Lines.{Text, texts, words_of};
ghost use Rattle.dump_grammar.specs.Literals.{AreLiterals, IsOptionLiteral, modules_literals, option_follows as follows};

use crate::base::base_literal;
use crate::grouping::GroupWords;
use crate::options::known_kind;
use crate::protocols::line_protocol;
use crate::saying::said;
use crate::unknown::{module_name_text, option_text};
use addr_text::Family;
use dump_token::Token;
use fw_rule::Lit;
use match_expr::Expr;
use opt_table::options;
use primitives::Prim_;
use std::alloc::{AllocError, Global};

fn known_test<F: Family<W>, const W: u32>(
    alloc: Global,
    current: Option<&[u8]>,
    negated: bool,
    option: &[u8],
    arguments: &[Token],
    protocol: Option<u8>,
) -> Result<Option<Expr<Prim_<W>>>, AllocError>
    ghost groups: { Seq AGroup }
    requires width { IsWidth W }
    requires protocol { HasProtocol groups protocol }
    ensures some { IfOk result (λ o. IfSome o (λ e. (name : Text) × ((module_of current.entry ≡ Some name) × Says F.Reads groups name option.now (texts (words_of arguments.now)) negated e))) }
    ensures none { IfOk result (λ o. IfNone o ((name : Text) (e : AnExpr (APrim W)) → module_of current.entry ≡ Some name → Says F.Reads groups name option.now (texts (words_of arguments.now)) negated e → ⊥)) }
{
    let Some(name) = current else {
        return Ok(None);
    };
    let Some(kind) = known_kind(name, option) else {
        return Ok(None);
    };
    said::<F, W>(alloc, kind, arguments, negated, protocol)
}

fn option_literal<F: Family<W>, const W: u32>(
    alloc: Global,
    current: Option<&[u8]>,
    negated: bool,
    option: &[u8],
    arguments: &[Token],
    protocol: Option<u8>,
) -> Result<Lit<Prim_<W>>, AllocError>
    ghost groups: { Seq AGroup }
    requires width { IsWidth W }
    requires protocol { HasProtocol groups protocol }
    ensures { IfOk result (λ l. IsOptionLiteral F.Reads groups (module_of current.entry) negated option.now (texts (words_of arguments.now)) l) }
{
    match known_test::<F, W>(alloc, current, negated, option, arguments, protocol)? {
        Some(expr) => Ok(Lit::Known { neg: negated, expr }),
        None => Ok(Lit::Unknown(option_text(alloc, current, negated, option, arguments)?)),
    }
}

fn is_known_module(name: &[u8]) -> bool
    ensures { result ≡ is_known name.now }
{
    options().has_module(name)
}

fn option_follows(groups: &[GroupWords<'_>]) -> bool
    ensures { result ≡ follows (groups_of groups.now) }
{
    for group in groups {
        match group {
            GroupWords::Base { .. } => {}
            GroupWords::Module { .. } => return false,
            GroupWords::ModuleOption { .. } => return true,
        }
    }
    false
}

fn module_literal<const W: u32>(
    alloc: Global,
    name: &[u8],
    after: &[GroupWords<'_>],
) -> Result<Option<Lit<Prim_<W>>>, AllocError>
    ensures { IfOk result (λ l. option_to_list l ≡ modules_literals name.now (groups_of after.now)) }
{
    if is_known_module(name) || option_follows(after) {
        return Ok(None);
    }
    Ok(Some(Lit::Unknown(module_name_text(alloc, name)?)))
}

// The literal of a group, where it gives one, and what the groups after it are. The outer None comes exactly where the
// group can't stand in a line.
fn group_literal<F: Family<W>, const W: u32>(
    alloc: Global,
    group: GroupWords<'_>,
    after: &[GroupWords<'_>],
    protocol: Option<u8>,
) -> Result<Option<Option<Lit<Prim_<W>>>>, AllocError>
    ghost groups: { Seq AGroup }
    requires width { IsWidth W }
    requires protocol { HasProtocol groups protocol }
    ensures some { IfOk result (λ o. IfSome o (λ l. (rest : Seq (ALit (APrim W))) → AreLiterals F.Reads groups (groups_of after.now) rest → AreLiterals F.Reads groups (group_of group.entry ∷ groups_of after.now) (option_to_list l ++ rest))) }
    ensures none { IfOk result (λ o. IfNone o ((literals : Seq (ALit (APrim W))) → AreLiterals F.Reads groups (group_of group.entry ∷ groups_of after.now) literals → ⊥)) }
{
    match group {
        GroupWords::Base {
            negated,
            option,
            arguments,
        } => match base_literal::<F, W>(alloc, negated, option, arguments)? {
            Some(literal) => Ok(Some(Some(literal))),
            None => Ok(None),
        },
        GroupWords::Module { name } => Ok(Some(module_literal(alloc, name, after)?)),
        GroupWords::ModuleOption {
            current,
            negated,
            option,
            arguments,
        } => Ok(Some(Some(option_literal::<F, W>(
            alloc, current, negated, option, arguments, protocol,
        )?))),
    }
}

fn append<T: Drop>(found: &mut Vec<T>, item: Option<T>) -> Result<(), AllocError>
    ensures { OnOk result (found.new.items ≡ found.old.items ++ option_to_list item) }
{
    if let Some(item) = item {
        found.push(item)?;
    }
    Ok(())
}

/// The literals of the groups of a line, in order. None comes exactly where some group can't stand in a line.
pub(crate) fn literals<F: Family<W>, const W: u32>(
    alloc: Global,
    groups: &[GroupWords<'_>],
) -> Result<Option<Vec<Lit<Prim_<W>>>>, AllocError>
    ghost all: { Seq AGroup }
    requires width { IsWidth W }
    requires whole { all ≡ groups_of groups.now }
    ensures some { IfOk result (λ o. IfSome o (λ ls. AreLiterals F.Reads all all ls.items)) }
    ensures none { IfOk result (λ o. IfNone o ((ls : Seq (ALit (APrim W))) → AreLiterals F.Reads all all ls → ⊥)) }
{
    let protocol = line_protocol(groups);
    let mut found = Vec::new(alloc);
    for (i, group) in groups.iter().enumerate() {
        let after = &groups[i + 1..];
        let Some(literal) = group_literal::<F, W>(alloc, *group, after, protocol)? else {
            return Ok(None);
        };
        append(&mut found, literal)?;
    }
    Ok(Some(found))
}

fn is_base(group: GroupWords<'_>, option: &[u8]) -> bool
    ensures { (rest : Seq AGroup) → is_among (base_of (group_of group.entry ∷ rest)) option.now ≡ (result || is_among (base_of rest) option.now) }
{
    match group {
        GroupWords::Base { option: other, .. } => other == option,
        GroupWords::Module { .. } => false,
        GroupWords::ModuleOption { .. } => false,
    }
}

fn has_base(groups: &[GroupWords<'_>], option: &[u8]) -> bool
    ensures { result ≡ is_among (base_of (groups_of groups.now)) option.now }
{
    for group in groups {
        if is_base(*group, option) {
            return true;
        }
    }
    false
}

fn comes_again(group: GroupWords<'_>, after: &[GroupWords<'_>]) -> bool
    ensures { all_differ (base_of (group_of group.entry ∷ groups_of after.now)) ≡ (not result && all_differ (base_of (groups_of after.now))) }
{
    match group {
        GroupWords::Base { option, .. } => has_base(after, option),
        GroupWords::Module { .. } => false,
        GroupWords::ModuleOption { .. } => false,
    }
}

/// Whether no option that needs no module stands twice.
pub(crate) fn options_differ(groups: &[GroupWords<'_>]) -> bool
    ensures { result ≡ all_differ (base_of (groups_of groups.now)) }
{
    for (i, group) in groups.iter().enumerate() {
        if comes_again(*group, &groups[i + 1..]) {
            return false;
        }
    }
    true
}
