ghost use Rattle.std.specs.Prelude.{◌≡◌, ◌≤◌, ◌<◌, ℕ, Option as Maybe, List as Seq, IfErr, OnOk, length};
ghost use Rattle.limits.specs.declared.TheConstants.{MOST_BYTES};
ghost use Rattle.interval_set.specs.Numbers.{IsWidth};
ghost use Rattle.dump_grammar.specs.Lines.{IsLine};
ghost use Rattle.dump_grammar.specs.Tables.{Placed};
ghost use Rattle.dump_grammar.specs.declared.chains.Declared.{Declared as AChain};
ghost use Rattle.dump_read.specs.inner.Parts.{OnMalformed};
ghost use Rattle.dump_read.specs.inner.Positions.{Filter, Moves, Position, Step};
ghost use Rattle.dump_read.specs.inner.States.{Keeps, Shows};

use crate::fault::LineFault;
use crate::keywords::{is_close, table_name};
use crate::lines::{is_commit, is_over, line_words};
use crate::rules::{add_chain, add_rule};
use crate::state::{Part, State};
use addr_text::Family;
use dump_grammar::{chain_line, rule_line};
use std::alloc::Global;

// Opens the table that a line outside of tables names.
fn open_table<F: Family<W>, const W: u32>(
    alloc: Global,
    state: &mut State<W>,
    line: &[u8],
) -> Result<(), LineFault>
    requires { length line.now ≤ MOST_BYTES }
    ensures moved { OnOk result ((found : Maybe (Filter W)) (n : ℕ) → Shows state.old (Position.Outside found) →
        (q : Position W) × (Moves W F.Reads (Position.Outside found) (record { number = n; bytes = line.now }) q × Shows state.new q)) }
    ensures stuck { IfErr result (OnMalformed ((found : Maybe (Filter W)) (n : ℕ) (q : Position W) → Shows state.old (Position.Outside found) →
        Moves W F.Reads (Position.Outside found) (record { number = n; bytes = line.now }) q → ⊥)) }
{
    let words = line_words(alloc, line)?;
    let Some(name) = table_name(words.as_slice()) else {
        return Err(LineFault::Malformed);
    };
    if name != b"filter".as_slice() {
        state.part = Part::Passed;
        return Ok(());
    }
    if state.has_filter {
        return Err(LineFault::Malformed);
    }
    state.has_filter = true;
    state.part = Part::Filter;
    Ok(())
}

// Passes over a line of a table that isn't read.
fn pass_line<F: Family<W>, const W: u32>(state: &mut State<W>, line: &[u8])
    ensures { (found : Maybe (Filter W)) (n : ℕ) → Shows state.old (Position.Passing found) →
        (q : Position W) × (Moves W F.Reads (Position.Passing found) (record { number = n; bytes = line.now }) q × Shows state.new q) }
{
    if is_commit(line) {
        state.part = Part::Outside;
    }
}

// Adds what a line of `filter` says.
fn add_line<F: Family<W>, const W: u32>(
    alloc: Global,
    state: &mut State<W>,
    line: &[u8],
    number: u32,
) -> Result<(), LineFault>
    requires width { IsWidth W }
    requires size { length line.now ≤ MOST_BYTES }
    requires line { IsLine line.now }
    requires few { length state.old.names < MOST_BYTES }
    requires stands { (chains : Seq AChain) × (rules : Seq (Placed W)) × Keeps state.old chains rules }
    ensures moved { OnOk result ((chains : Seq AChain) (rules : Seq (Placed W)) → Shows state.old (Position.Inside chains rules) →
        (q : Position W) × (Moves W F.Reads (Position.Inside chains rules) (record { number = number; bytes = line.now }) q × Shows state.new q)) }
    ensures stuck { IfErr result (OnMalformed ((chains : Seq AChain) (rules : Seq (Placed W)) (q : Position W) → Shows state.old (Position.Inside chains rules) →
        Moves W F.Reads (Position.Inside chains rules) (record { number = number; bytes = line.now }) q → ⊥)) }
{
    let tokens = line_words(alloc, line)?;
    let words = tokens.as_slice();
    if is_close(words) {
        state.part = Part::Outside;
        return Ok(());
    }
    if let Some(chain) = chain_line(alloc, words)? {
        return add_chain(alloc, state, chain);
    }
    match rule_line::<F, W>(alloc, words, &state.names)? {
        Some(rule) => Ok(add_rule(alloc, state, rule, number)?),
        None => Err(LineFault::Malformed),
    }
}

/// Takes the next line, which has this number.
pub(crate) fn take_line<F: Family<W>, const W: u32>(
    alloc: Global,
    state: &mut State<W>,
    line: &[u8],
    number: u32,
) -> Result<(), LineFault>
    requires width { IsWidth W }
    requires size { length line.now ≤ MOST_BYTES }
    requires line { IsLine line.now }
    requires few { length state.old.names < MOST_BYTES }
    requires stands { (p : Position W) × Shows state.old p }
    ensures moved { OnOk result ((p : Position W) → Shows state.old p →
        (q : Position W) × (Step W F.Reads p (record { number = number; bytes = line.now }) q × Shows state.new q)) }
    ensures stuck { IfErr result (OnMalformed ((p q : Position W) → Shows state.old p →
        Step W F.Reads p (record { number = number; bytes = line.now }) q → ⊥)) }
{
    if is_over(line) {
        return Ok(());
    }
    match state.part {
        Part::Outside => open_table::<F, W>(alloc, state, line),
        Part::Passed => {
            pass_line::<F, W>(state, line);
            Ok(())
        }
        Part::Filter => add_line::<F, W>(alloc, state, line, number),
    }
}
