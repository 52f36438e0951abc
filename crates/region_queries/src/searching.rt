ghost use Rattle.std.specs.Prelude.{◌≡◌, ◌∷◌, [], IfErr, IfOk};
ghost use Rattle.interval_set.specs.Numbers.{IsWidth};
ghost use Rattle.box_norm.specs.Normal.{whole_of};
ghost use Rattle.fw_rule.specs.Answers.{is_accept};
ghost use Rattle.region_cut.specs.Search.{with_policy};
ghost use Rattle.region_queries.specs.Search.{Answers};
ghost use Rattle.region_queries.specs.inner.Asking.{RefusesSearch};

use crate::answers::Cover;
use crate::asking::hit_of_rule;
use box_norm::{Cube, SimpleRule, whole};
use fw_rule::Verdict;
use region_cut::{RegionFault, left_without};
use std::alloc::{AllocError, Global};

/// The list of the region of all packets.
fn all_packets<const W: u32>(alloc: Global) -> Result<Vec<Cube<W>>, AllocError>
    requires { IsWidth W }
    ensures { IfOk result (λ v. v.items ≡ whole_of W ∷ []) }
{
    let mut list = Vec::new(alloc);
    list.push(whole(alloc)?)?;
    Ok(list)
}

/// The policy as a rule of every packet.
fn policy_rule<const W: u32>(alloc: Global, policy: Verdict) -> Result<SimpleRule<W>, AllocError>
    requires { IsWidth W }
    ensures { IfOk result (λ rule. rule ≡ record { cube = whole_of W; accept = is_accept policy }) }
{
    Ok(SimpleRule {
        cube: whole(alloc)?,
        accept: match policy {
            Verdict::Accept => true,
            Verdict::Drop => false,
        },
    })
}

/// What the search of all packets that the rules accept answers: a packet that the rules `against` accept too, each list with
/// its policy where no rule has the packet, or that there is none. The policy counts as one last rule, behind which nothing is
/// searched.
///
/// # Errors
///
/// `Regions` exactly where the search comes to more than 65,536 regions. `Memory` where memory runs out.
pub(crate) fn compared<const W: u32>(
    alloc: Global,
    rules: &[SimpleRule<W>],
    policy: Verdict,
    against: &[SimpleRule<W>],
    other: Verdict,
) -> Result<Cover, RegionFault>
    requires { IsWidth W }
    ensures answers { IfOk result (Answers (with_policy against.now other) (with_policy rules.now policy)) }
    ensures refused { IfErr result (RefusesSearch (with_policy against.now other) (with_policy rules.now policy)) }
{
    let start = all_packets(alloc)?;
    let mut regions = start;
    for rule in rules {
        if let Some(packet) = hit_of_rule(alloc, rule, regions.as_slice(), against, other)? {
            return Ok(Cover::Fails(packet));
        }
        regions = left_without(alloc, regions, &rule.cube)?;
    }
    let last = policy_rule(alloc, policy)?;
    match hit_of_rule(alloc, &last, regions.as_slice(), against, other)? {
        Some(packet) => Ok(Cover::Fails(packet)),
        None => Ok(Cover::Holds),
    }
}
