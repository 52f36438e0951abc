//! Counts rule lines before any is written. Each count stops at the greatest u64.
ghost use Rattle.std.specs.Prelude.{◌≡◌, ◌-◌, ◌^◌, ℕ, IfOk, List, length, min};
ghost use Rattle.std.specs.List.{sum_by};
ghost use Rattle.dump_print.specs.CubeLines.{choices_of};
ghost use Rattle.dump_print.specs.Helpers.{helper_lines, return_lines};
ghost use Rattle.dump_print.specs.Printed.{lines_of_helper};
ghost use Rattle.dump_print.specs.Views.{count_of, helped_of};

use crate::flags::flag_cubes;
use crate::helpers::{Helped, returned_numbers, returned_patterns};
use crate::numbers::{line_protocols, line_types};
use crate::ports::line_ports;
use box_norm::{Cube, SimpleRule};
use std::alloc::{AllocError, Global};

// How many lines a cube has.
fn count_cube<const W: u32>(alloc: Global, cube: &Cube<W>) -> Result<u64, AllocError>
    ensures { IfOk result (λ count. count ≡ min (length (choices_of cube.now)) (2 ^ 64 - 1)) }
{
    let protocols = line_protocols(alloc, &cube.proto)?;
    let sports = line_ports(alloc, protocols, &cube.sport)?;
    let dports = line_ports(alloc, protocols, &cube.dport)?;
    let flags = flag_cubes(alloc, cube.flags)?;
    let count = (dports.as_slice().len() as u64).saturating_mul(flags.as_slice().len() as u64);
    let count = (sports.as_slice().len() as u64).saturating_mul(count);
    let count = (cube.dst.ranges().len() as u64).saturating_mul(count);
    Ok((cube.src.ranges().len() as u64).saturating_mul(count))
}

// How many lines lead back from a helper chain.
fn count_returns<const W: u32>(alloc: Global, cube: &Cube<W>) -> Result<u64, AllocError>
    ensures { (chain : List ℕ) → IfOk result (λ count. count ≡ min (length (return_lines chain cube.now)) (2 ^ 64 - 1)) }
{
    let protocols = returned_numbers(alloc, line_protocols(alloc, &cube.proto)?, &cube.proto)?;
    let types = returned_numbers(alloc, line_types(alloc, &cube.icmp)?, &cube.icmp)?;
    let in_names = returned_patterns(&cube.in_name).len() as u64;
    let out_names = returned_patterns(&cube.out_name).len() as u64;
    let numbers = (protocols.as_slice().len() as u64).saturating_add(types.as_slice().len() as u64);
    let others = out_names.saturating_add(numbers);
    Ok(in_names.saturating_add(others))
}

// How many lines a helper chain has.
fn count_chain<const W: u32>(alloc: Global, rule: &SimpleRule<W>) -> Result<u64, AllocError>
    ensures { (chain : List ℕ) → IfOk result (λ count. count ≡ min (length (helper_lines chain rule.now)) (2 ^ 64 - 1)) }
{
    let returns = count_returns(alloc, &rule.cube)?;
    Ok(returns.saturating_add(1))
}

// How many lines the helper chain of a rule has.
fn count_helper<const W: u32>(alloc: Global, helped: Helped<W>) -> Result<u64, AllocError>
    ensures { IfOk result (λ count. count ≡ min (length (lines_of_helper helped.entry.rule.now helped.entry.helper)) (2 ^ 64 - 1)) }
{
    match helped.helper {
        None => Ok(0),
        Some(_) => count_chain(alloc, helped.rule),
    }
}

// How many lines a rule has, with those of its helper chain.
fn count_rule<const W: u32>(alloc: Global, helped: Helped<W>) -> Result<u64, AllocError>
    ensures { IfOk result (λ count. count ≡ min (count_of (helped_of helped.entry)) (2 ^ 64 - 1)) }
{
    let lines = count_cube(alloc, &helped.rule.cube)?;
    let helper_lines = count_helper(alloc, helped)?;
    Ok(lines.saturating_add(helper_lines))
}

/// How many rule lines there are.
pub(crate) fn count_rules<const W: u32>(
    alloc: Global,
    rules: &[Helped<W>],
) -> Result<u64, AllocError>
    ensures { IfOk result (λ count. count ≡ min (sum_by (λ helped. count_of (helped_of helped)) rules.now) (2 ^ 64 - 1)) }
{
    let mut count = 0u64;
    for helped in rules {
        count = count.saturating_add(count_rule(alloc, *helped)?);
    }
    Ok(count)
}
