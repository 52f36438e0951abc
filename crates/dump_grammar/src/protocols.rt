ghost use Rattle.std.specs.Prelude.{◌≡◌, ◌↔◌, ◌∷◌, [], ℕ, false, IfSome, IfNone, IsTrue, codes};
ghost use Rattle.primitives.specs.Ports.{HasPorts};
ghost use Rattle.primitives.specs.Words.{SpellsProto};
ghost use Rattle.dump_grammar.specs.GroupWords.{group_of, groups_of};
ghost use Rattle.dump_grammar.specs.Groups.{Group as AGroup};
ghost use Rattle.dump_grammar.specs.Kinds.{HasProtocol};
ghost use Rattle.dump_grammar.specs.Lines.{Text};

use crate::base::only;
use crate::grouping::GroupWords;
use crate::pieces::is_same;
use primitives::read_proto;

fn has_ports(number: u8) -> bool
    ensures { IsTrue result ↔ HasPorts number }
{
    number == 6 || number == 17 || number == 33 || number == 132 || number == 136
}

fn protocol_with_ports(name: &[u8]) -> Option<u8>
    ensures some { IfSome result (λ n. SpellsProto name.now n × HasPorts n) }
    ensures none { IfNone result ((n : ℕ) → SpellsProto name.now n → HasPorts n → ⊥) }
{
    let Some(number) = read_proto(name) else {
        return None;
    };
    if !has_ports(number) {
        return None;
    }
    Some(number)
}

fn protocol_of(group: GroupWords<'_>) -> Option<u8>
    ensures some { IfSome result (λ n. (name : Text) × ((group_of group.entry ≡ AGroup.Base false (codes "-p") (name ∷ [])) × SpellsProto name n × HasPorts n)) }
    ensures none { IfNone result ((name : Text) (n : ℕ) → group_of group.entry ≡ AGroup.Base false (codes "-p") (name ∷ []) → SpellsProto name n → HasPorts n → ⊥) }
{
    let GroupWords::Base {
        negated,
        option,
        arguments,
    } = group
    else {
        return None;
    };
    if negated {
        return None;
    }
    if !is_same(option, b"-p") {
        return None;
    }
    let Some(name) = only(arguments) else {
        return None;
    };
    protocol_with_ports(name)
}

/// The number of the protocol with ports that a `-p` without `!` among these groups names.
pub(crate) fn line_protocol(groups: &[GroupWords<'_>]) -> Option<u8>
    ensures { HasProtocol (groups_of groups.now) result }
{
    for group in groups {
        if let Some(number) = protocol_of(*group) {
            return Some(number);
        }
    }
    None
}
