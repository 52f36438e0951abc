ghost use Rattle.std.specs.Prelude.{◌≡◌, ◌++◌, ℕ, List, IfOk, OnErr, codes, decimal};
ghost use Rattle.fw_text.specs.Names.{shown_name};
ghost use Rattle.fffuu_run.specs.Lines.{IsBuilt, line_of, text_of, told, limit_word};
ghost use Rattle.fffuu_run.specs.Runs.{Device, IsReported, WritesLine};

use crate::Status;
use crate::writing::write_all;
use fw_io::Sink;
use fw_text::shown;
use simple_filter::Kind;
use std::alloc::{AllocError, Global};

// The line of a status. One with a number or a name in it is built.
#[derive(Debug, Drop)]
pub enum Line {
    Fixed(&'static [u8]),
    Built(Vec<u8>),
}

impl Line {
    fn as_bytes(&self) -> &[u8]
        ensures { result.now ≡ text_of self.now }
    {
        match self {
            Line::Fixed(text) => text,
            Line::Built(text) => text.as_slice(),
        }
    }
}

const OUT_OF_MEMORY: &[u8] = b"fffuu: out of memory\n";

fn limit_line(kind: Kind) -> &'static [u8]
    ensures { result.now ≡ told (codes "limit " ++ limit_word kind) }
{
    match kind {
        Kind::Depth => b"fffuu: limit depth\n",
        Kind::Nodes => b"fffuu: limit nodes\n",
        Kind::Literals => b"fffuu: limit literals\n",
        Kind::Boxes => b"fffuu: limit boxes\n",
        Kind::Rules => b"fffuu: limit rules\n",
        Kind::Lines => b"fffuu: limit lines\n",
        Kind::Atoms => b"fffuu: limit atoms\n",
        Kind::Regions => b"fffuu: limit regions\n",
        Kind::Visits => b"fffuu: limit visits\n",
    }
}

// A line with this text.
fn built(alloc: Global, text: &[u8]) -> Result<Line, AllocError>
    ensures { IfOk result (λ l. text_of l ≡ told text.now) }
{
    let mut line = Vec::from_slice(alloc, b"fffuu: ")?;
    line.extend_from_slice(text)?;
    line.push(b'\n')?;
    Ok(Line::Built(line))
}

// A line whose text ends with a shown name.
fn named(alloc: Global, front: &[u8], name: &[u8]) -> Result<Line, AllocError>
    ensures { IfOk result (λ l. text_of l ≡ told (front.now ++ shown_name name.now)) }
{
    let mut text = Vec::from_slice(alloc, front)?;
    shown(alloc, name, &mut text)?;
    built(alloc, &text)
}

// A line of the input and what is said of it.
fn numbered(alloc: Global, line: u32, what: &str) -> Result<Vec<u8>, AllocError>
    ensures { IfOk result (λ text. text.items ≡ codes "line " ++ decimal line ++ what.now) }
{
    let text = format!(in alloc; "line {line}{what}")?;
    Ok(text.into_bytes())
}

// The line with its line feed, where the chain of this name was asked about. Only one with a number or a name in it takes memory.
fn line_for(alloc: Global, chain: &[u8], status: &Status) -> Result<Line, AllocError>
    ensures line { IfOk result (λ l. text_of l ≡ line_of chain.now status.now) }
    ensures memory { OnErr result (IsBuilt status.now) }
{
    let fixed: &'static [u8] = match status {
        Status::Ok => b"",
        Status::Usage => {
            b"fffuu: usage: fffuu MODE [--chain NAME] [--family 4|6] [--side upper|lower] [ARGS]\n"
        }
        Status::ReadFault => b"fffuu: read failed\n",
        Status::WriteFault => b"fffuu: write failed\n",
        Status::InputTooLong => b"fffuu: input is longer than 16777216 bytes\n",
        Status::NoDivider => b"fffuu: no dividing line\n",
        Status::NoFilter => b"fffuu: no filter table\n",
        Status::Limit { kind } => limit_line(*kind),
        Status::Memory => OUT_OF_MEMORY,
        Status::Malformed { line } => {
            return built(alloc, &numbered(alloc, *line, ": malformed")?);
        }
        Status::UndefinedChain { line } => {
            return built(alloc, &numbered(alloc, *line, ": undefined chain")?);
        }
        Status::NoChain => return named(alloc, b"no chain ", chain),
        Status::Unsupported { line, name } => {
            let front = numbered(alloc, *line, ": unsupported target ")?;
            return named(alloc, &front, name.as_slice());
        }
        Status::CallLoop { name } => {
            return named(alloc, b"call loop through ", name.as_slice());
        }
    };
    Ok(Line::Fixed(fixed))
}

// Writes a line. A sink that refuses it changes nothing else.
fn tell<E: Sink>(line: &[u8], err: &mut E)
    ensures { (sent rest : List ℕ) × WritesLine
        (record { bytes = E.held err.old; faults = E.faults err.old })
        (record { bytes = E.held err.new; faults = E.faults err.new })
        line.now sent rest }
{
    let _ = write_all(err, line);
}

/// Writes the line of the status on `err`, where the chain of this name was asked about. Where the line finds no memory, that is the status.
pub fn report<E: Sink>(alloc: Global, chain: &[u8], status: Status, err: &mut E) -> Status
    ensures settled { IsReported status result }
    ensures told { (sent rest : List ℕ) × WritesLine
        (record { bytes = E.held err.old; faults = E.faults err.old })
        (record { bytes = E.held err.new; faults = E.faults err.new })
        (line_of chain.now result) sent rest }
{
    match line_for(alloc, chain, &status) {
        Ok(line) => {
            tell(line.as_bytes(), err);
            status
        }
        Err(_) => {
            tell(OUT_OF_MEMORY, err);
            Status::Memory
        }
    }
}
