//! Writes the rule lines of a cube.
ghost use Rattle.std.specs.Prelude.{◌≡◌, ◌++◌, ◌∷◌, [], OnOk, codes, map};
ghost use Rattle.interval_set.specs.Numbers.{IsSet, IsWidth};
ghost use Rattle.primitives.specs.Ranges.{IsRange};
ghost use Rattle.primitives.specs.Tables.{name_list, state_names};
ghost use Rattle.primitives.specs.Words.{flags_text};
ghost use Rattle.dump_grammar.specs.Lines.{Text, bare};
ghost use Rattle.dump_print.specs.CubeLines.{base_option_words, choices_of, module_option_words, part_words};
ghost use Rattle.dump_print.specs.Parts.{between, choices_in, flags_words, has_words, module_words, option_words, own_module_words, own_words, rule_words, single_words, state_words, with_sports};
ghost use Rattle.dump_print.specs.Ports.{ports_of};
ghost use Rattle.dump_print.specs.Spelling.{line_text, lines_text, spaced};
ghost use Rattle.dump_print.specs.Views.{IsFrame, axes_in, choice_of, frame_words};

use crate::addresses::{append_net, append_ranges};
use crate::flags::{FlagCube, flag_cubes};
use crate::numbers::{Numbers, append_protocols, append_types, line_protocols, line_types};
use crate::ports::{LinePorts, append_listed, append_single, line_ports};
use crate::sets::append_names;
use crate::writer::{append_word, append_words};
use addr_text::Family;
use box_norm::Cube;
use interval_set::Range;
use primitives::{append_flags, append_states};
use std::alloc::{AllocError, Global};

/// What one line says where the other lines of the cube may say something else.
#[derive(Clone, Copy)]
pub(crate) struct Line<'a> {
    pub source: Range,
    pub destination: Range,
    pub sports: LinePorts<'a>,
    pub dports: LinePorts<'a>,
    pub flags: FlagCube,
}

/// What the lines of a cube say, each dimension by itself.
#[derive(Clone, Copy)]
pub(crate) struct LineAxes<'a> {
    pub sources: &'a [Range],
    pub destinations: &'a [Range],
    pub sports: &'a [LinePorts<'a>],
    pub dports: &'a [LinePorts<'a>],
    pub flags: &'a [FlagCube],
}

/// What all lines of a cube have in common.
#[derive(Clone, Copy)]
pub(crate) struct Frame<'a, const W: u32> {
    pub chain: &'a [u8],
    pub cube: &'a Cube<W>,
    pub protocols: Numbers,
    pub types: Numbers,
    pub target: &'a [u8],
}

/// Appends the beginning of a rule line, with its chain.
pub(crate) fn append_start(chain: &[u8], out: &mut Vec<u8>) -> Result<(), AllocError>
    ensures { OnOk result (out.new.items ≡ out.old.items ++ (codes "-A" ++ spaced (bare chain.now ∷ []))) }
{
    out.extend_from_slice(b"-A")?;
    append_word(chain, out)
}

/// Appends the end of a rule line, with its target.
pub(crate) fn append_end(target: &[u8], out: &mut Vec<u8>) -> Result<(), AllocError>
    ensures { OnOk result (out.new.items ≡ out.old.items ++ (spaced (option_words (codes "-j") (bare target.now)) ++ 10 ∷ [])) }
{
    append_words(b"-j", target, out)?;
    out.push(b'\n')?;
    Ok(())
}

// Appends mask and comp.
fn append_mask(cube: FlagCube, out: &mut Vec<u8>) -> Result<(), AllocError>
    ensures { OnOk result (out.new.items ≡ out.old.items
        ++ spaced (bare (codes "--tcp-flags") ∷ bare (flags_text cube.mask) ∷ bare (flags_text cube.comp) ∷ [])) }
{
    append_word(b"--tcp-flags", out)?;
    out.push(b' ')?;
    append_flags(cube.mask, out)?;
    out.push(b' ')?;
    append_flags(cube.comp, out)
}

// Appends mask and comp, unless every number matches.
fn append_flag_words(cube: FlagCube, out: &mut Vec<u8>) -> Result<(), AllocError>
    ensures { OnOk result (out.new.items ≡ out.old.items ++ spaced (flags_words cube)) }
{
    if cube.mask == 0 {
        Ok(())
    } else {
        append_mask(cube, out)
    }
}

// Whether the flags are said.
fn has_flag_words(cube: FlagCube) -> bool
    ensures { result ≡ has_words (flags_words cube) }
{
    cube.mask != 0
}

// Whether the ports are a range that is an option of tcp or udp.
fn is_single(ports: LinePorts) -> bool
    ensures { (option : Text) → result ≡ has_words (single_words option (ports_of ports.entry)) }
{
    matches!(ports, LinePorts::Single(_))
}

// Whether the line has options of tcp or udp itself.
fn has_own_words(line: Line) -> bool
    ensures { result ≡ has_words (own_words (choice_of line.entry).sports (choice_of line.entry).dports line.entry.flags) }
{
    if is_single(line.sports) {
        return true;
    }
    if is_single(line.dports) {
        return true;
    }
    has_flag_words(line.flags)
}

// Appends the options of tcp or udp itself.
fn append_own_words(line: Line, out: &mut Vec<u8>) -> Result<(), AllocError>
    ensures { OnOk result (out.new.items ≡ out.old.items
        ++ spaced (own_words (choice_of line.entry).sports (choice_of line.entry).dports line.entry.flags)) }
{
    append_single(b"--sport", line.sports, out)?;
    append_single(b"--dport", line.dports, out)?;
    append_flag_words(line.flags, out)
}

// Appends the options of this module, where there are some.
fn append_module(name: &[u8], line: Line, out: &mut Vec<u8>) -> Result<(), AllocError>
    ensures { OnOk result (out.new.items ≡ out.old.items
        ++ spaced (module_words name.now (own_words (choice_of line.entry).sports (choice_of line.entry).dports line.entry.flags))) }
{
    if !has_own_words(line) {
        return Ok(());
    }
    append_words(b"-m", name, out)?;
    append_own_words(line, out)
}

// Appends the options of tcp or udp itself, where the protocols are one of these.
fn append_own_module(protocols: Numbers, line: Line, out: &mut Vec<u8>) -> Result<(), AllocError>
    ensures { OnOk result (out.new.items ≡ out.old.items
        ++ spaced (own_module_words protocols (own_words (choice_of line.entry).sports (choice_of line.entry).dports line.entry.flags))) }
{
    match protocols {
        Numbers::Only(6) => append_module(b"tcp", line, out),
        Numbers::Only(17) => append_module(b"udp", line, out),
        _ => Ok(()),
    }
}

// Appends the states as an option of conntrack.
fn append_state_option(states: u8, out: &mut Vec<u8>) -> Result<(), AllocError>
    ensures { OnOk result (out.new.items ≡ out.old.items
        ++ spaced (module_words (codes "conntrack") (option_words (codes "--ctstate") (bare (name_list state_names states))))) }
{
    append_words(b"-m", b"conntrack", out)?;
    append_word(b"--ctstate", out)?;
    out.push(b' ')?;
    append_states(states, out)
}

// Appends the states, unless all five are meant.
fn append_state_words(states: u8, out: &mut Vec<u8>) -> Result<(), AllocError>
    ensures { OnOk result (out.new.items ≡ out.old.items ++ spaced (state_words states)) }
{
    if states == 31 {
        Ok(())
    } else {
        append_state_option(states, out)
    }
}

// Appends the options that need no module.
fn append_base_options<F: Family<W>, const W: u32>(
    frame: &Frame<W>,
    line: Line,
    out: &mut Vec<u8>,
) -> Result<(), AllocError>
    requires width { IsWidth W }
    requires frame { IsFrame frame.now }
    requires source { IsRange W line.source }
    requires destination { IsRange W line.destination }
    ensures { OnOk result (out.new.items ≡ out.old.items ++ spaced (base_option_words F.text_of W frame.now.cube.now (choice_of line.entry))) }
{
    append_net::<F, W>(b"-s", line.source, out)?;
    append_net::<F, W>(b"-d", line.destination, out)?;
    append_names(b"-i", &frame.cube.in_name, out)?;
    append_names(b"-o", &frame.cube.out_name, out)?;
    append_protocols(frame.protocols, out)
}

// Appends the options of modules.
fn append_module_options<F: Family<W>, const W: u32>(
    frame: &Frame<W>,
    line: Line,
    out: &mut Vec<u8>,
) -> Result<(), AllocError>
    requires width { IsWidth W }
    requires frame { IsFrame frame.now }
    requires source { IsRange W line.source }
    requires destination { IsRange W line.destination }
    ensures { OnOk result (out.new.items ≡ out.old.items ++ spaced (module_option_words F.text_of W frame.now.cube.now (choice_of line.entry))) }
{
    append_ranges::<F, W>(line.source, line.destination, out)?;
    append_own_module(frame.protocols, line, out)?;
    append_types(frame.protocols, frame.types, out)?;
    append_listed(b"--sports", line.sports, out)?;
    append_listed(b"--dports", line.dports, out)?;
    append_state_words(frame.cube.state, out)
}

// Appends one line.
fn append_line<F: Family<W>, const W: u32>(
    frame: &Frame<W>,
    line: Line,
    out: &mut Vec<u8>,
) -> Result<(), AllocError>
    requires width { IsWidth W }
    requires frame { IsFrame frame.now }
    requires source { IsRange W line.source }
    requires destination { IsRange W line.destination }
    ensures { OnOk result (out.new.items ≡ out.old.items ++ line_text (frame_words F.text_of W frame.now (choice_of line.entry))) }
{
    append_start(frame.chain, out)?;
    append_base_options::<F, W>(frame, line, out)?;
    append_module_options::<F, W>(frame, line, out)?;
    append_end(frame.target, out)
}

// Appends the lines of these addresses: one for each part of both sets of ports and each cube of flags.
fn append_between<F: Family<W>, const W: u32>(
    frame: &Frame<W>,
    axes: &LineAxes,
    source: Range,
    destination: Range,
    out: &mut Vec<u8>,
) -> Result<(), AllocError>
    requires width { IsWidth W }
    requires frame { IsFrame frame.now }
    requires source { IsRange W source }
    requires destination { IsRange W destination }
    ensures { OnOk result (out.new.items ≡ out.old.items
        ++ lines_text (map (frame_words F.text_of W frame.now) (with_sports (between source destination) (axes_in axes.now)))) }
{
    for sports in axes.sports {
        for dports in axes.dports {
            for flags in axes.flags {
                let line = Line {
                    source,
                    destination,
                    sports: *sports,
                    dports: *dports,
                    flags: *flags,
                };
                append_line::<F, W>(frame, line, out)?;
            }
        }
    }
    Ok(())
}

// Appends the lines from each source to each destination.
fn append_each<F: Family<W>, const W: u32>(
    frame: &Frame<W>,
    axes: &LineAxes,
    out: &mut Vec<u8>,
) -> Result<(), AllocError>
    requires frame { IsFrame frame.now }
    requires sources { IsSet W axes.now.sources.now }
    requires destinations { IsSet W axes.now.destinations.now }
    ensures { OnOk result (out.new.items ≡ out.old.items
        ++ lines_text (map (frame_words F.text_of W frame.now) (choices_in (axes_in axes.now)))) }
{
    for source in axes.sources {
        for destination in axes.destinations {
            append_between::<F, W>(frame, axes, *source, *destination, out)?;
        }
    }
    Ok(())
}

/// Appends the lines of a cube in this chain, each with this target.
pub(crate) fn append_cube<F: Family<W>, const W: u32>(
    alloc: Global,
    chain: &[u8],
    cube: &Cube<W>,
    target: &[u8],
    out: &mut Vec<u8>,
) -> Result<(), AllocError>
    ensures { OnOk result (out.new.items ≡ out.old.items
        ++ lines_text (map (λ line. rule_words chain.now (part_words F.text_of W cube.now line) target.now) (choices_of cube.now))) }
{
    let protocols = line_protocols(alloc, &cube.proto)?;
    let types = line_types(alloc, &cube.icmp)?;
    let sports = line_ports(alloc, protocols, &cube.sport)?;
    let dports = line_ports(alloc, protocols, &cube.dport)?;
    let flags = flag_cubes(alloc, cube.flags)?;
    let axes = LineAxes {
        sources: cube.src.ranges(),
        destinations: cube.dst.ranges(),
        sports: sports.as_slice(),
        dports: dports.as_slice(),
        flags: flags.as_slice(),
    };
    let frame = Frame {
        chain,
        cube,
        protocols,
        types,
        target,
    };
    append_each::<F, W>(&frame, &axes, out)
}
