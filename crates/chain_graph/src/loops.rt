ghost use Rattle.std.specs.Prelude.{◌≡◌, ◌<◌, ◌^◌, ℕ, true, false, length, get_or, IfOk, IfSome, IfNone};
ghost use Rattle.chain_graph.specs.Faults.{ReachesByCall, IsFirstLoop, NoLoop};
ghost use Rattle.chain_graph.specs.inner.Spreading.{IsCalled, NeverRises};
ghost use Rattle.chain_graph.specs.Paths.{CallsNameChains};

use crate::groups::{groups_of, number_of};
use crate::reach::{reachable, reached_by_call, rules_of};
use fw_rule::{Dump, Rule};
use match_expr::Primitive;
use std::alloc::{AllocError, Global};

/// Whether a chain is marked.
pub(crate) fn is_marked(marks: &[bool], chain: usize) -> bool
    requires { chain < length marks.now }
    ensures { result ≡ get_or marks.now chain false }
{
    marks[chain]
}

/// Whether a chain reaches itself over at least one call.
fn calls_itself<P: Primitive>(alloc: Global, dump: &Dump<P>, chain: u32) -> Result<bool, AllocError>
    requires there { chain < length dump.now.chains }
    requires named { CallsNameChains dump.now }
    ensures yes { IfOk result (λ b. b ≡ true → ReachesByCall dump.now chain chain) }
    ensures no { IfOk result (λ b. ReachesByCall dump.now chain chain → b ≡ true) }
{
    let marks = reached_by_call(alloc, dump, chain)?;
    Ok(is_marked(marks.as_slice(), chain as usize))
}

/// Whether each chain that some rules call has a number below the limit.
fn calls_below<P: Primitive>(rules: &[Rule<P>], numbers: &[u32], limit: u64) -> bool
    ensures { result ≡ true → (k : ℕ) → IsCalled rules.now k → get_or numbers.now k 0 < limit }
{
    for rule in rules {
        if let Some(callee) = rule.action.target() {
            if u64::from(number_of(numbers, callee)) >= limit {
                return false;
            }
        }
    }
    true
}

/// Whether no call from a marked chain leads to a greater number.
fn never_rises<P: Primitive>(dump: &Dump<P>, marks: &[bool], numbers: &[u32]) -> bool
    requires long { length marks.now ≡ length dump.now.chains }
    requires room { length dump.now.chains < 2 ^ 32 }
    ensures { result ≡ true → NeverRises dump.now marks.now numbers.now }
{
    for next in 0..marks.len() {
        if !is_marked(marks, next) {
            continue;
        }
        let chain = next as u32;
        let limit = u64::from(number_of(numbers, chain)) + 1;
        if !calls_below(rules_of(dump, chain), numbers, limit) {
            return false;
        }
    }
    true
}

/// The first declared chain in a chain's reach that leads to itself over some path. None where no chain in reach does.
///
/// The work is in proportion to the rules and calls: where numbers show that a chain doesn't lead to itself, it costs no search of its own.
pub fn first_loop<P: Primitive>(
    alloc: Global,
    dump: &Dump<P>,
    chain: u32,
) -> Result<Option<u32>, AllocError>
    requires there { chain < length dump.now.chains }
    requires room { length dump.now.chains < 2 ^ 32 }
    requires named { CallsNameChains dump.now }
    ensures some { IfOk result (λ o. IfSome o (IsFirstLoop dump.now chain)) }
    ensures none { IfOk result (λ o. IfNone o (NoLoop dump.now chain)) }
{
    let marks = reachable(alloc, dump, chain)?;
    let groups = groups_of(alloc, dump, chain)?;
    let slice = marks.as_slice();
    let numbers = groups.as_slice();
    let ordered = never_rises(dump, slice, numbers);
    for next in 0..slice.len() {
        if !is_marked(slice, next) {
            continue;
        }
        let number = u64::from(number_of(numbers, next as u32));
        if ordered && calls_below(rules_of(dump, next as u32), numbers, number) {
            continue;
        }
        if calls_itself(alloc, dump, next as u32)? {
            return Ok(Some(next as u32));
        }
    }
    Ok(None)
}
