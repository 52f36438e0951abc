ghost use Rattle.std.specs.Prelude.{◌≡◌, ◌<◌, ◌^◌, length, IfOk, IfSome, IfNone};
ghost use Rattle.chain_graph.specs.Faults.{NoneUnsupported, IsLeastUnsupported};
ghost use Rattle.chain_graph.specs.Paths.{CallsNameChains};
ghost use Rattle.chain_graph.specs.inner.Targets.{IsLeastOf, IsLesser, IsTarget, TargetIn};

use crate::loops::is_marked;
use crate::reach::{reachable, rules_of};
use fw_rule::{Action, Dump, Rule};
use match_expr::{Bytes, Primitive};
use std::alloc::{AllocError, Global};

/// A target that isn't supported, and the line of its rule.
#[derive(Debug, Drop)]
pub struct Target {
    pub line: u32,
    pub name: Bytes,
}

/// The unsupported target of a rule, if it has one.
fn unsupported_target<P: Primitive>(
    alloc: Global,
    rule: &Rule<P>,
) -> Result<Option<Target>, AllocError>
    ensures { IfOk result (IsLeastOf (IsTarget rule.now)) }
{
    match &rule.action {
        Action::Other(name) => {
            let copy = Bytes::of(Vec::from_slice(alloc, name.as_slice())?);
            Ok(Some(Target {
                line: rule.line,
                name: copy,
            }))
        }
        _ => Ok(None),
    }
}

/// The one with the lesser line.
fn lesser(a: Option<Target>, b: Option<Target>) -> Option<Target>
    ensures { IsLesser a b result }
{
    let Some(s) = a else {
        return b;
    };
    let Some(t) = b else {
        return Some(s);
    };
    if s.line <= t.line { Some(s) } else { Some(t) }
}

/// The unsupported target on the least line of some rules.
fn least_in<P: Primitive>(alloc: Global, rules: &[Rule<P>]) -> Result<Option<Target>, AllocError>
    ensures { IfOk result (IsLeastOf (TargetIn rules.now)) }
{
    let mut best = None;
    for rule in rules {
        let target = unsupported_target(alloc, rule)?;
        best = lesser(best, target);
    }
    Ok(best)
}

/// The unsupported target on the least line of the rules in a chain's reach. None where all targets in reach are supported.
pub fn least_unsupported<P: Primitive>(
    alloc: Global,
    dump: &Dump<P>,
    chain: u32,
) -> Result<Option<Target>, AllocError>
    requires there { chain < length dump.now.chains }
    requires room { length dump.now.chains < 2 ^ 32 }
    requires named { CallsNameChains dump.now }
    ensures some { IfOk result (λ o. IfSome o (λ t. IsLeastUnsupported dump.now chain t.line t.name)) }
    ensures none { IfOk result (λ o. IfNone o (NoneUnsupported dump.now chain)) }
{
    let marks = reachable(alloc, dump, chain)?;
    let slice = marks.as_slice();
    let mut best = None;
    for next in 0..slice.len() {
        if !is_marked(slice, next) {
            continue;
        }
        let target = least_in(alloc, rules_of(dump, next as u32))?;
        best = lesser(best, target);
    }
    Ok(best)
}
