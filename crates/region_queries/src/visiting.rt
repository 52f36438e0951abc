//! The visits of a chain, in their order.
ghost use Rattle.std.specs.Prelude.{◌≡◌, ◌++◌, ◌∷◌, [], List as ListOf, IfOk, OnOk};
ghost use Rattle.fw_rule.specs.Walk.{HasRoom, InSettled, Path, Within};
ghost use Rattle.region_queries.specs.Visits.{VisitsFrom};

use chain_graph::rules_of;
use fw_rule::{Dump, Step};
use match_expr::{List, Primitive};
use std::alloc::{AllocError, Global};

/// The most visits that `dead` answers of.
pub const MOST_LISTED_VISITS: u64 = 4_096;

/// The path with one more step.
fn longer(alloc: Global, path: &[Step], step: Step) -> Result<Vec<Step>, AllocError>
    ensures { IfOk result (λ v. v.items ≡ path.now ++ step ∷ []) }
{
    let mut all = Vec::from_slice(alloc, path)?;
    all.push(step)?;
    Ok(all)
}

/// Puts the visits from the first rule of a chain on, which is reached over the path, behind the others.
pub(crate) fn list_chain<P: Primitive>(
    alloc: Global,
    dump: &Dump<P>,
    chain: u32,
    depth: u32,
    path: &[Step],
    visits: &mut Vec<List<Step>>,
) -> Result<(), AllocError>
    requires settled { InSettled dump.now chain }
    requires within { Within dump.now depth chain }
    requires room { HasRoom dump.now }
    ensures { OnOk result ((added : ListOf Path) × (visits.new.items ≡ visits.old.items ++ added) × VisitsFrom dump.now chain 0 path.now added) }
{
    let rules = rules_of(dump, chain);
    for next in 0..rules.len() {
        let rule = &rules[next];
        let own = longer(
            alloc,
            path,
            Step {
                chain,
                rule: next as u32,
            },
        )?;
        visits.push(List::of(Vec::from_slice(alloc, own.as_slice())?))?;
        if let Some(callee) = rule.action.target() {
            list_chain(alloc, dump, callee, depth - 1, own.as_slice(), visits)?;
        }
    }
    Ok(())
}
