ghost use Rattle.std.specs.Prelude.{◌≡◌, ◌==◌};
ghost use Rattle.closure.specs.Checked.{IsRankedWithPolicy};
ghost use Rattle.match_expr.specs.FirstMatch.{first_match};

use crate::asking::checked;
use crate::dumps::{Is, PACKETS};
use chain_graph::Ranked;
use closure::{FlatFault, count_nodes, flat};
use fw_rule::{Dump, Side, Verdict, policy_of};
use match_expr::{FlatRule, List};
use reckoner::{Reckoned, reckon};
use std::alloc::Global;

/// What the first rule answers whose expression holds of the packet.
fn first_verdict(rules: &[FlatRule<Is>], p: u8) -> Option<bool>
    ensures { result ≡ first_match (λ x. x.0 == p) rules.now }
{
    for rule in rules {
        if rule.expr.eval(&p) {
            return Some(rule.accept);
        }
    }
    None
}

/// Whether the list, with the policy at its end, accepts the packet.
fn accepts(rules: &[FlatRule<Is>], policy: Option<Verdict>, p: u8) -> bool {
    match first_verdict(rules, p) {
        Some(accept) => accept,
        None => policy == Some(Verdict::Accept),
    }
}

/// The closed list of a side; None where it is refused for its size.
fn closed(
    alloc: Global,
    dump: &Dump<Is>,
    ranked: &Ranked,
    side: Side,
) -> Result<Option<List<FlatRule<Is>>>, FlatFault>
    requires { IsRankedWithPolicy dump.now 0 ranked.now }
{
    match flat(alloc, dump, ranked, 0, side) {
        Ok(rules) => Ok(Some(rules)),
        Err(FlatFault::Memory) => Err(FlatFault::Memory),
        Err(_) => Ok(None),
    }
}

/// The word for what the lists say of a packet, or `wrong` where the walks say something else.
fn word(listed: Reckoned, walked: Reckoned) -> &'static str {
    match (listed == walked, listed.may, listed.must) {
        (true, true, true) => "must",
        (true, true, false) => "may",
        (true, false, false) => "never",
        _ => "wrong",
    }
}

/// What is written for a dump.
pub(crate) fn answer(alloc: Global, dump: &Dump<Is>) -> Result<String, FlatFault> {
    let Some(ranked) = checked(alloc, dump)? else {
        return Ok(String::from_str(alloc, "not asked")?);
    };
    let most = count_nodes(alloc, dump, &ranked, 0, Side::Upper)?;
    let least = count_nodes(alloc, dump, &ranked, 0, Side::Lower)?;
    let mut line = String::new(alloc);
    let upper = closed(alloc, dump, &ranked, Side::Upper)?;
    let lower = closed(alloc, dump, &ranked, Side::Lower)?;
    if let (Some(upper), Some(lower)) = (upper, lower) {
        let policy = policy_of(dump, 0);
        for p in 0..PACKETS {
            let listed = Reckoned {
                may: accepts(upper.as_slice(), policy, p),
                must: accepts(lower.as_slice(), policy, p),
            };
            line.push_str(word(listed, reckon(alloc, dump, 0, &p)?))?;
            line.push(' ')?;
        }
    }
    line.push_str(&format!(in alloc; "{most} {least}")?)?;
    Ok(line)
}
