ghost use Rattle.std.specs.Prelude.{◌≡◌, ◌++◌, ◌∷◌, [], ◌<◌, ◌≤◌, IfOk, OnOk, length, map, take, drop};
ghost use Rattle.dump_print.specs.Parts.{listed_words, single_words};
ghost use Rattle.dump_print.specs.Ports.{Ports, chunks, has_port_module, port_choices, port_list, port_text, ports_of, weight_of};
ghost use Rattle.dump_print.specs.Spelling.{spaced};

use crate::numbers::Numbers;
use crate::writer::{append_word, append_words};
use interval_set::{Range, Set};
use primitives::append_number;
use std::alloc::{AllocError, Global};

/// What a line says of its source ports, or of its destination ports.
#[derive(Clone, Copy)]
pub(crate) enum LinePorts<'a> {
    /// Nothing.
    Every,
    /// A range, as an option of tcp or udp.
    Single(Range),
    /// A list, as an option of multiport.
    Listed(&'a [Range]),
}

// How much a range counts in a list of multiport.
fn weight(range: Range) -> u32
    ensures { result ≡ weight_of (range ∷ []) }
{
    if range.lo == range.hi { 1 } else { 2 }
}

// How many of the first ranges go into one list.
fn list_len(ranges: &[Range]) -> usize
    requires { 0 < length ranges.now }
    ensures some { 0 < result }
    ensures within { result ≤ length ranges.now }
    ensures list { chunks ranges.now ≡ take result ranges.now ∷ chunks (drop result ranges.now) }
{
    let mut total = 0;
    for (i, range) in ranges.iter().enumerate() {
        total += weight(*range);
        if total > 15 {
            return i;
        }
    }
    ranges.len()
}

// The ranges in order as lists of multiport.
fn lists<'a>(alloc: Global, ranges: &'a [Range]) -> Result<Vec<LinePorts<'a>>, AllocError>
    ensures { IfOk result (λ v. map ports_of v.items ≡ map Ports.Listed (chunks ranges.now)) }
{
    let mut all = Vec::new(alloc);
    let mut rest = ranges;
    while !rest.is_empty() {
        let (list, after) = rest.split_at(list_len(rest));
        all.push(LinePorts::Listed(list))?;
        rest = after;
    }
    Ok(all)
}

// Whether the protocol has a module with port options of its own.
fn has_module(protocols: Numbers) -> bool
    ensures { result ≡ has_port_module protocols }
{
    matches!(protocols, Numbers::Only(6 | 17))
}

// What a line says of one range of ports.
fn one_range<'a>(protocols: Numbers, ranges: &'a [Range], range: Range) -> LinePorts<'a>
    requires { ranges.now ≡ range ∷ [] }
    ensures { ports_of result ∷ [] ≡ port_choices protocols ranges.now }
{
    if range.lo == 0 && range.hi == 65_535 {
        LinePorts::Every
    } else if has_module(protocols) {
        LinePorts::Single(range)
    } else {
        LinePorts::Listed(ranges)
    }
}

/// What the lines of a cube say of a set of ports, one after another.
pub(crate) fn line_ports<'a>(
    alloc: Global,
    protocols: Numbers,
    set: &'a Set<16>,
) -> Result<Vec<LinePorts<'a>>, AllocError>
    ensures { IfOk result (λ v. map ports_of v.items ≡ port_choices protocols set.now) }
{
    let ranges = set.ranges();
    match ranges {
        [only] => {
            let mut all = Vec::new(alloc);
            all.push(one_range(protocols, ranges, *only))?;
            Ok(all)
        }
        _ => lists(alloc, ranges),
    }
}

// Appends PORT, or FIRST:LAST.
fn append_port(range: Range, out: &mut Vec<u8>) -> Result<(), AllocError>
    ensures { OnOk result (out.new.items ≡ out.old.items ++ port_text range) }
{
    append_number(range.lo, out)?;
    if range.lo == range.hi {
        return Ok(());
    }
    out.push(b':')?;
    append_number(range.hi, out)
}

// Appends a range, and others after it with a comma before each.
fn append_ports(first: Range, rest: &[Range], out: &mut Vec<u8>) -> Result<(), AllocError>
    ensures { OnOk result (out.new.items ≡ out.old.items ++ port_list (first ∷ rest.now)) }
{
    append_port(first, out)?;
    for range in rest {
        out.push(b',')?;
        append_port(*range, out)?;
    }
    Ok(())
}

// Appends the ranges with commas between them.
fn append_port_list(ranges: &[Range], out: &mut Vec<u8>) -> Result<(), AllocError>
    ensures { OnOk result (out.new.items ≡ out.old.items ++ port_list ranges.now) }
{
    match ranges.split_first() {
        Some((first, rest)) => append_ports(*first, rest, out),
        None => Ok(()),
    }
}

/// Appends a range as an option of tcp or udp.
pub(crate) fn append_single(
    option: &[u8],
    ports: LinePorts,
    out: &mut Vec<u8>,
) -> Result<(), AllocError>
    ensures { OnOk result (out.new.items ≡ out.old.items ++ spaced (single_words option.now (ports_of ports.entry))) }
{
    let LinePorts::Single(range) = ports else {
        return Ok(());
    };
    append_word(option, out)?;
    out.push(b' ')?;
    append_port(range, out)
}

// Appends a list as an option of multiport.
fn append_list(option: &[u8], ranges: &[Range], out: &mut Vec<u8>) -> Result<(), AllocError>
    ensures { OnOk result (out.new.items ≡ out.old.items ++ spaced (listed_words option.now (Ports.Listed ranges.now))) }
{
    append_words(b"-m", b"multiport", out)?;
    append_word(option, out)?;
    out.push(b' ')?;
    append_port_list(ranges, out)
}

/// Appends a list as an option of multiport, if the ports are one.
pub(crate) fn append_listed(
    option: &[u8],
    ports: LinePorts,
    out: &mut Vec<u8>,
) -> Result<(), AllocError>
    ensures { OnOk result (out.new.items ≡ out.old.items ++ spaced (listed_words option.now (ports_of ports.entry))) }
{
    match ports {
        LinePorts::Listed(ranges) => append_list(option, ranges, out),
        _ => Ok(()),
    }
}
