ghost use Rattle.std.specs.Prelude.{◌≡◌, ◌≤◌, ◌∷◌, [], ◌^◌, ℕ, decimal, false, List as Seq, Some, IfSome, IfNone, IfOk};
ghost use Rattle.interval_set.specs.declared.set.Range.{Range as ARange};
ghost use Rattle.interval_set.specs.Numbers.{IsWidth, has};
ghost use Rattle.interval_set.specs.Spelling.{ranges_where};
ghost use Rattle.addr_text.specs.Nets.{IsRangeText};
ghost use Rattle.match_expr.specs.declared.expr.Expr.{Expr as AnExpr};
ghost use Rattle.match_expr.specs.declared.expr.Expr.TheVariants.{Prim as OneTest};
ghost use Rattle.primitives.specs.declared.prim.Prim_.{Prim_ as APrim};
ghost use Rattle.primitives.specs.Ports.{HasPorts};
ghost use Rattle.primitives.specs.Tables.{IsNameList, state_names};
ghost use Rattle.primitives.specs.Words.{SpellsFlags};
ghost use Rattle.dump_grammar.specs.Arguments.{FormSays, IsPortList, IsPortRange};
ghost use Rattle.dump_grammar.specs.Groups.{Group as AGroup};
ghost use Rattle.dump_grammar.specs.Kinds.{HasProtocol};
ghost use Rattle.dump_grammar.specs.Lines.{Text, texts, words_of};
ghost use Rattle.opt_table.specs.Options.{either_port};
ghost use Rattle.opt_table.specs.Rows.{addresses_at, form_of, messages_number, ports_at, transport_number};

use crate::addresses::address_test;
use crate::base::only;
use crate::pieces::first_word;
use crate::ports::{port_list, port_range, port_set, range_set};
use addr_text::{Family, read_number, read_range};
use dump_token::Token;
use interval_set::Set;
use match_expr::{Boxed, Expr, Items};
use opt_table::{Kind, Messages, Side, Transport};
use primitives::{IcmpMatch, PortMatch, Prim_, read_flags, read_states};
use std::alloc::{AllocError, Global};

fn port_test<const W: u32>(side: Side, proto: u8, set: Set<16>) -> Expr<Prim_<W>>
    requires { HasPorts proto }
    ensures { (rs : Seq ARange) → set ≡ ranges_where (has rs) (2 ^ 16) → result ≡ ports_at side proto rs }
{
    let ports = PortMatch { proto, set };
    match side {
        Side::Source => Expr::Prim(Prim_::SrcPorts(ports)),
        Side::Destination => Expr::Prim(Prim_::DstPorts(ports)),
    }
}

fn either_test<const W: u32>(
    alloc: Global,
    proto: u8,
    set: Set<16>,
) -> Result<Expr<Prim_<W>>, AllocError>
    requires { HasPorts proto }
    ensures { IfOk result (λ e. (rs : Seq ARange) → set ≡ ranges_where (has rs) (2 ^ 16) → e ≡ either_port proto rs) }
{
    let source = port_test(Side::Source, proto, set.copy(alloc)?);
    let destination = port_test(Side::Destination, proto, set);
    let mut parts = Vec::new(alloc);
    parts.push(Expr::Not(Boxed::new(alloc, source)?))?;
    parts.push(Expr::Not(Boxed::new(alloc, destination)?))?;
    let neither = Expr::All(Items::from_vec(parts));
    Ok(Expr::Not(Boxed::new(alloc, neither)?))
}

fn port<const W: u32>(
    alloc: Global,
    transport: Transport,
    side: Side,
    arguments: &[Token],
) -> Result<Option<Expr<Prim_<W>>>, AllocError>
    ensures some { IfOk result (λ o. IfSome o (λ e. (text : Text) × (r : ARange) × ((texts (words_of arguments.now) ≡ text ∷ []) × IsPortRange text r × (e ≡ ports_at side (transport_number transport) (r ∷ []))))) }
    ensures none { IfOk result (λ o. IfNone o ((text : Text) (r : ARange) → texts (words_of arguments.now) ≡ text ∷ [] → IsPortRange text r → ⊥)) }
{
    let Some(text) = only(arguments) else {
        return Ok(None);
    };
    let Some(range) = port_range(text) else {
        return Ok(None);
    };
    let set = range_set(alloc, range)?;
    Ok(Some(port_test(side, transport.number(), set)))
}

// The protocol of a line and the set of ports that the only argument lists.
fn listed_ports(
    alloc: Global,
    arguments: &[Token],
    protocol: Option<u8>,
) -> Result<Option<(u8, Set<16>)>, AllocError>
    ensures some { IfOk result (λ o. IfSome o (λ p. (text : Text) × (rs : Seq ARange) × ((texts (words_of arguments.now) ≡ text ∷ []) × (protocol ≡ Some p.0) × IsPortList text rs × (p.1 ≡ ranges_where (has rs) (2 ^ 16))))) }
    ensures none { IfOk result (λ o. IfNone o ((text : Text) (n : ℕ) (rs : Seq ARange) → texts (words_of arguments.now) ≡ text ∷ [] → protocol ≡ Some n → IsPortList text rs → ⊥)) }
{
    let Some(proto) = protocol else {
        return Ok(None);
    };
    let Some(text) = only(arguments) else {
        return Ok(None);
    };
    let Some(ranges) = port_list(alloc, text)? else {
        return Ok(None);
    };
    let set = port_set(alloc, ranges.as_slice())?;
    Ok(Some((proto, set)))
}

fn ports<const W: u32>(
    alloc: Global,
    side: Side,
    arguments: &[Token],
    protocol: Option<u8>,
) -> Result<Option<Expr<Prim_<W>>>, AllocError>
    requires { IfSome protocol HasPorts }
    ensures some { IfOk result (λ o. IfSome o (λ e. (text : Text) × (n : ℕ) × (rs : Seq ARange) × ((texts (words_of arguments.now) ≡ text ∷ []) × (protocol ≡ Some n) × IsPortList text rs × (e ≡ ports_at side n rs)))) }
    ensures none { IfOk result (λ o. IfNone o ((text : Text) (n : ℕ) (rs : Seq ARange) → texts (words_of arguments.now) ≡ text ∷ [] → protocol ≡ Some n → IsPortList text rs → ⊥)) }
{
    let Some((proto, set)) = listed_ports(alloc, arguments, protocol)? else {
        return Ok(None);
    };
    Ok(Some(port_test(side, proto, set)))
}

fn either_ports<const W: u32>(
    alloc: Global,
    arguments: &[Token],
    protocol: Option<u8>,
) -> Result<Option<Expr<Prim_<W>>>, AllocError>
    requires { IfSome protocol HasPorts }
    ensures some { IfOk result (λ o. IfSome o (λ e. (text : Text) × (n : ℕ) × (rs : Seq ARange) × ((texts (words_of arguments.now) ≡ text ∷ []) × (protocol ≡ Some n) × IsPortList text rs × (e ≡ either_port n rs)))) }
    ensures none { IfOk result (λ o. IfNone o ((text : Text) (n : ℕ) (rs : Seq ARange) → texts (words_of arguments.now) ≡ text ∷ [] → protocol ≡ Some n → IsPortList text rs → ⊥)) }
{
    let Some((proto, set)) = listed_ports(alloc, arguments, protocol)? else {
        return Ok(None);
    };
    Ok(Some(either_test(alloc, proto, set)?))
}

fn flags<const W: u32>(arguments: &[Token]) -> Option<Expr<Prim_<W>>>
    ensures some { IfSome result (λ e. (mask comp : Text) × (m c : ℕ) × ((texts (words_of arguments.now) ≡ mask ∷ comp ∷ []) × SpellsFlags mask m × SpellsFlags comp c × (e ≡ OneTest (APrim.Flags m c)))) }
    ensures none { IfNone result ((mask comp : Text) (m c : ℕ) → texts (words_of arguments.now) ≡ mask ∷ comp ∷ [] → SpellsFlags mask m → SpellsFlags comp c → ⊥) }
{
    let Some((first, rest)) = first_word(arguments) else {
        return None;
    };
    let Some(second) = only(rest) else {
        return None;
    };
    let Some(mask) = read_flags(first.text.as_slice()) else {
        return None;
    };
    let Some(comp) = read_flags(second) else {
        return None;
    };
    Some(Expr::Prim(Prim_::Flags { mask, comp }))
}

fn syn<const W: u32>(arguments: &[Token]) -> Option<Expr<Prim_<W>>>
    ensures some { IfSome result (λ e. (texts (words_of arguments.now) ≡ []) × (e ≡ OneTest (APrim.Flags 23 2))) }
    ensures none { IfNone result (texts (words_of arguments.now) ≡ [] → ⊥) }
{
    if !arguments.is_empty() {
        return None;
    }
    Some(Expr::Prim(Prim_::Flags { mask: 23, comp: 2 }))
}

fn address_range<F: Family<W>, const W: u32>(
    alloc: Global,
    side: Side,
    arguments: &[Token],
) -> Result<Option<Expr<Prim_<W>>>, AllocError>
    requires { IsWidth W }
    ensures some { IfOk result (λ o. IfSome o (λ e. (text : Text) × (r : ARange) × ((texts (words_of arguments.now) ≡ text ∷ []) × IsRangeText F.Reads text r × (e ≡ OneTest (addresses_at side (r ∷ [])))))) }
    ensures none { IfOk result (λ o. IfNone o ((text : Text) (r : ARange) → texts (words_of arguments.now) ≡ text ∷ [] → IsRangeText F.Reads text r → ⊥)) }
{
    let Some(text) = only(arguments) else {
        return Ok(None);
    };
    let Some(range) = read_range::<F, W>(text) else {
        return Ok(None);
    };
    let set = Set::range(alloc, range.lo, range.hi)?;
    Ok(Some(Expr::Prim(address_test(side, set))))
}

fn states<const W: u32>(arguments: &[Token]) -> Option<Expr<Prim_<W>>>
    ensures some { IfSome result (λ e. (text : Text) × (m : ℕ) × ((texts (words_of arguments.now) ≡ text ∷ [])
        × IsNameList state_names text m × (e ≡ OneTest (APrim.State m)))) }
    ensures none { IfNone result ((text : Text) (m : ℕ) → texts (words_of arguments.now) ≡ text ∷ []
        → IsNameList state_names text m → ⊥) }
{
    let Some(text) = only(arguments) else {
        return None;
    };
    let Some(states) = read_states(text) else {
        return None;
    };
    Some(Expr::Prim(Prim_::State(states)))
}

fn comment<const W: u32>(arguments: &[Token], negated: bool) -> Option<Expr<Prim_<W>>>
    ensures some { IfSome result (λ e. (text : Text) × ((texts (words_of arguments.now) ≡ text ∷ []) × (negated ≡ false) × (e ≡ OneTest APrim.Always))) }
    ensures none { IfNone result ((text : Text) → texts (words_of arguments.now) ≡ text ∷ [] → negated ≡ false → ⊥) }
{
    let Some(_) = only(arguments) else {
        return None;
    };
    if negated {
        return None;
    }
    Some(Expr::Prim(Prim_::Always))
}

fn icmp_type<const W: u32>(messages: Messages, arguments: &[Token]) -> Option<Expr<Prim_<W>>>
    ensures some { IfSome result (λ e. (text : Text) × (k : ℕ) × ((texts (words_of arguments.now) ≡ text ∷ []) × (k ≤ 254) × (text ≡ decimal k)
        × (e ≡ OneTest (APrim.IcmpKind (record { proto = messages_number messages; kind = k }))))) }
    ensures none { IfNone result ((text : Text) (k : ℕ) → texts (words_of arguments.now) ≡ text ∷ [] → k ≤ 254 → text ≡ decimal k → ⊥) }
{
    let Some(text) = only(arguments) else {
        return None;
    };
    let Some(kind) = read_number(text, 254) else {
        return None;
    };
    Some(Expr::Prim(Prim_::IcmpKind(IcmpMatch {
        proto: messages.number(),
        kind: kind as u8,
    })))
}

/// What an option of this kind says with these arguments, where it says something. `protocol` is the one with ports
/// that the line names, if it names one.
pub(crate) fn said<F: Family<W>, const W: u32>(
    alloc: Global,
    kind: Kind,
    arguments: &[Token],
    negated: bool,
    protocol: Option<u8>,
) -> Result<Option<Expr<Prim_<W>>>, AllocError>
    ghost groups: { Seq AGroup }
    requires width { IsWidth W }
    requires protocol { HasProtocol groups protocol }
    ensures some { IfOk result (λ o. IfSome o (λ e.
        FormSays F.Reads groups (form_of kind) (texts (words_of arguments.now)) negated e)) }
    ensures none { IfOk result (λ o. IfNone o ((e : AnExpr (APrim W)) →
        FormSays F.Reads groups (form_of kind) (texts (words_of arguments.now)) negated e → ⊥)) }
{
    match kind {
        Kind::Base => Ok(None),
        Kind::Port(transport, side) => port(alloc, transport, side, arguments),
        Kind::Flags => Ok(flags(arguments)),
        Kind::Syn => Ok(syn(arguments)),
        Kind::Ports(side) => ports(alloc, side, arguments, protocol),
        Kind::EitherPorts => either_ports(alloc, arguments, protocol),
        Kind::Addresses(side) => address_range::<F, W>(alloc, side, arguments),
        Kind::States => Ok(states(arguments)),
        Kind::Comment => Ok(comment(arguments, negated)),
        Kind::IcmpType(messages) => Ok(icmp_type(messages, arguments)),
    }
}
