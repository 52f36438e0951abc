ghost use Rattle.std.specs.Prelude.{IfErr, IfOk};
ghost use Rattle.interval_set.specs.Numbers.{IsWidth};
ghost use Rattle.fw_rule.specs.Walk.{HasRoom};
ghost use Rattle.chain_graph.specs.Paths.{CallsNameChains};
ghost use Rattle.closure.specs.Checked.{HasPolicy};
ghost use Rattle.region_queries.specs.Covers.{IsRight};
ghost use Rattle.region_queries.specs.Refusals.{IsShown, RefusesCover};

use crate::answers::Cover;
use crate::closing::{flipped_rules, turned_policy, upper_rules};
use crate::fault::CoverFault;
use crate::searching::compared;
use fw_rule::{Dump, settled_policy};
use primitives::Prim_;
use region_cut::RegionFault;
use std::alloc::Global;

/// Whether the second dump must accept every valid packet that the first may accept, each from its own chain; and a packet
/// that the first may accept where it isn't so that the second must. Both chains have policies. W is 32 or 128.
///
/// The packet that is shown: the simple rules of side Upper of the first dump are gone through in order, the policy as one
/// last rule, over a list of regions that is the region of all packets at first. An accepting rule has what it has in common
/// with each region in turn searched by `first_hit` of `region_cut`, over the simple rules of side Lower of the second dump
/// with every verdict turned over, and the first packet that comes is shown. A rule that finds none, or drops, leaves the
/// pieces of the regions without its cube.
///
/// # Errors
///
/// `First` exactly where `closed`, of side Upper, refuses the first dump for another cause than memory. `Second` exactly where
/// it doesn't, and `closed`, of side Lower, refuses the second dump so. `Regions` exactly where neither does, and, up to the
/// answer, the list of regions or a list in one of the searches has more than 65,536. `Memory` where memory runs out.
pub fn cover<const W: u32>(
    alloc: Global,
    first: &Dump<Prim_<W>>,
    first_chain: u32,
    second: &Dump<Prim_<W>>,
    second_chain: u32,
) -> Result<Cover, CoverFault>
    requires width { IsWidth W }
    requires first_policy { HasPolicy first.now first_chain }
    requires first_room { HasRoom first.now }
    requires first_named { CallsNameChains first.now }
    requires second_policy { HasPolicy second.now second_chain }
    requires second_room { HasRoom second.now }
    requires second_named { CallsNameChains second.now }
    ensures right { IfOk result (IsRight first.now first_chain second.now second_chain) }
    ensures shown { IfOk result (IsShown first.now first_chain second.now second_chain) }
    ensures refused { IfErr result (RefusesCover first.now first_chain second.now second_chain) }
{
    let rules = upper_rules(alloc, first, first_chain)?;
    let against = flipped_rules(alloc, second, second_chain)?;
    let policy = settled_policy(first, first_chain);
    let other = turned_policy(settled_policy(second, second_chain));
    match compared(alloc, rules.as_slice(), policy, against.as_slice(), other) {
        Ok(answer) => Ok(answer),
        Err(RegionFault::Regions) => Err(CoverFault::Regions),
        Err(RegionFault::Memory) => Err(CoverFault::Memory),
    }
}
