//! Numbers helper chains, and writes what no line can say.
ghost use Rattle.std.specs.Prelude.{◌≡◌, ◌++◌, ◌+◌, ◌-◌, ◌^◌, ◌<◌, ◌≤◌, OnOk, IfOk, Some, None, is_some, codes, map, if◌then◌else◌};
ghost use Rattle.dump_print.specs.Helpers.{helped_from, helper_lines, helper_name, needs_helper, return_line, return_lines, returned_numbers, returned_patterns, type_return, verdict_text};
ghost use Rattle.dump_print.specs.Names.{name_word};
ghost use Rattle.dump_grammar.specs.Lines.{bare};
ghost use Rattle.dump_print.specs.Numbers.{lacking, numbers_from, protocol_text};
ghost use Rattle.dump_print.specs.Spelling.{lines_text};
ghost use Rattle.dump_print.specs.Views.{helped_of};

use crate::lines::{append_end, append_start};
use crate::numbers::{
    Numbers, append_protocol, append_protocols, append_types, line_protocols, line_types,
};
use crate::sets::{append_pattern_option, is_plain};
use box_norm::{Cube, SimpleRule};
use interval_set::{Range, Set};
use name_set::{NameSet, Pattern};
use primitives::append_number;
use std::alloc::{AllocError, Global};

/// A rule, with the number of its helper chain where it needs one.
#[derive(Clone, Copy)]
pub(crate) struct Helped<'a, const W: u32> {
    pub rule: &'a SimpleRule<W>,
    pub helper: Option<u64>,
}

// Whether one line can't say the names of an interface, the protocols or the types of messages.
fn needs_helper<const W: u32>(alloc: Global, cube: &Cube<W>) -> Result<bool, AllocError>
    ensures { IfOk result (λ needs. needs ≡ needs_helper cube.now) }
{
    let protocols = line_protocols(alloc, &cube.proto)?;
    let types = line_types(alloc, &cube.icmp)?;
    let are_plain = protocols.are_plain() && types.are_plain();
    Ok(!(is_plain(&cube.in_name) && is_plain(&cube.out_name) && are_plain))
}

// The number of the cube's helper chain, where it needs one.
fn helper_of<const W: u32>(
    alloc: Global,
    cube: &Cube<W>,
    next: u64,
) -> Result<Option<u64>, AllocError>
    ensures { IfOk result (λ helper. helper ≡ (if needs_helper cube.now then Some next else None)) }
{
    if needs_helper(alloc, cube)? {
        Ok(Some(next))
    } else {
        Ok(None)
    }
}

// The number of the next helper chain, after a rule with this one.
fn next_after(next: u64, helper: Option<u64>) -> u64
    requires { next < 2 ^ 64 - 1 }
    ensures { result ≡ (if is_some helper then next + 1 else next) }
{
    match helper {
        Some(_) => next + 1,
        None => next,
    }
}

/// The rules in order, those that need a helper chain with its number, from 1.
pub(crate) fn number_helpers<'a, const W: u32>(
    alloc: Global,
    rules: &'a [SimpleRule<W>],
) -> Result<Vec<Helped<'a, W>>, AllocError>
    ensures { IfOk result (λ v. map helped_of v.items ≡ helped_from 1 rules.now) }
{
    let mut all = Vec::new(alloc);
    let mut next = 1u64;
    for rule in rules {
        let helper = helper_of(alloc, &rule.cube, next)?;
        all.push(Helped { rule, helper })?;
        next = next_after(next, helper);
    }
    Ok(all)
}

/// The name of a helper chain.
pub(crate) fn helper_name(alloc: Global, number: u64) -> Result<Vec<u8>, AllocError>
    ensures { IfOk result (λ v. v.items ≡ helper_name number) }
{
    let mut name = Vec::new(alloc);
    name.push(b'C')?;
    append_number(number as u128, &mut name)?;
    Ok(name)
}

/// The target of a verdict.
pub(crate) fn verdict_text(accept: bool) -> &'static [u8]
    ensures { result.now ≡ verdict_text accept }
{
    if accept { b"ACCEPT" } else { b"DROP" }
}

/// The excluded patterns, unless a line says them.
pub(crate) fn returned_patterns(names: &NameSet) -> &[Pattern]
    ensures { result.now ≡ returned_patterns names.now }
{
    let patterns = names.excluded.as_slice();
    if is_plain(names) {
        &patterns[..0]
    } else {
        patterns
    }
}

// Appends the numbers of a range.
fn push_numbers(range: Range, numbers: &mut Vec<u8>) -> Result<(), AllocError>
    requires ordered { range.lo ≤ range.hi }
    requires within { range.hi ≤ 255 }
    ensures { OnOk result (numbers.new.items ≡ numbers.old.items ++ numbers_from range.lo (range.hi + 1 - range.lo)) }
{
    for number in range.lo..range.hi + 1 {
        numbers.push(number as u8)?;
    }
    Ok(())
}

// The numbers that a set lacks.
fn lacking_numbers(alloc: Global, set: &Set<8>) -> Result<Vec<u8>, AllocError>
    ensures { IfOk result (λ v. v.items ≡ lacking set.now) }
{
    let others = set.not(alloc)?;
    let mut numbers = Vec::new(alloc);
    for range in others.ranges() {
        push_numbers(*range, &mut numbers)?;
    }
    Ok(numbers)
}

/// The numbers that a set lacks, unless a line says the set.
pub(crate) fn returned_numbers(
    alloc: Global,
    said: Numbers,
    set: &Set<8>,
) -> Result<Vec<u8>, AllocError>
    ensures { IfOk result (λ v. v.items ≡ returned_numbers said set.now) }
{
    if said.are_plain() {
        Ok(Vec::new(alloc))
    } else {
        lacking_numbers(alloc, set)
    }
}

// Appends a line for each pattern, by which packets with such a name go back to the asked chain.
fn append_name_returns(
    chain: &[u8],
    option: &[u8],
    patterns: &[Pattern],
    out: &mut Vec<u8>,
) -> Result<(), AllocError>
    ensures { OnOk result (out.new.items ≡ out.old.items
        ++ lines_text (map (λ pattern. return_line chain.now option.now (name_word pattern)) patterns.now)) }
{
    for pattern in patterns {
        append_start(chain, out)?;
        append_pattern_option(option, pattern, out)?;
        append_end(b"RETURN", out)?;
    }
    Ok(())
}

// Appends a line for each protocol, by which its packets go back to the asked chain.
fn append_protocol_returns(
    chain: &[u8],
    numbers: &[u8],
    out: &mut Vec<u8>,
) -> Result<(), AllocError>
    ensures { OnOk result (out.new.items ≡ out.old.items
        ++ lines_text (map (λ n. return_line chain.now (codes "-p") (bare (protocol_text n))) numbers.now)) }
{
    for number in numbers {
        append_start(chain, out)?;
        append_protocol(*number, out)?;
        append_end(b"RETURN", out)?;
    }
    Ok(())
}

// Appends a line for each type, by which messages of it go back to the asked chain.
fn append_type_returns(
    chain: &[u8],
    protocols: Numbers,
    numbers: &[u8],
    out: &mut Vec<u8>,
) -> Result<(), AllocError>
    ensures { OnOk result (out.new.items ≡ out.old.items ++ lines_text (map (λ n. type_return chain.now protocols n) numbers.now)) }
{
    for number in numbers {
        append_start(chain, out)?;
        append_protocols(protocols, out)?;
        append_types(protocols, Numbers::Only(*number), out)?;
        append_end(b"RETURN", out)?;
    }
    Ok(())
}

// Appends the lines by which what the cube excludes goes back to the asked chain.
fn append_returns<const W: u32>(
    alloc: Global,
    chain: &[u8],
    cube: &Cube<W>,
    out: &mut Vec<u8>,
) -> Result<(), AllocError>
    ensures { OnOk result (out.new.items ≡ out.old.items ++ lines_text (return_lines chain.now cube.now)) }
{
    let protocols = line_protocols(alloc, &cube.proto)?;
    let returned_protocols = returned_numbers(alloc, protocols, &cube.proto)?;
    let returned_types = returned_numbers(alloc, line_types(alloc, &cube.icmp)?, &cube.icmp)?;
    append_name_returns(chain, b"-i", returned_patterns(&cube.in_name), out)?;
    append_name_returns(chain, b"-o", returned_patterns(&cube.out_name), out)?;
    append_protocol_returns(chain, returned_protocols.as_slice(), out)?;
    append_type_returns(chain, protocols, returned_types.as_slice(), out)
}

/// Appends the lines of a rule's helper chain.
pub(crate) fn append_helper<const W: u32>(
    alloc: Global,
    chain: &[u8],
    rule: &SimpleRule<W>,
    out: &mut Vec<u8>,
) -> Result<(), AllocError>
    ensures { OnOk result (out.new.items ≡ out.old.items ++ lines_text (helper_lines chain.now rule.now)) }
{
    append_returns(alloc, chain, &rule.cube, out)?;
    append_start(chain, out)?;
    append_end(verdict_text(rule.accept), out)
}
