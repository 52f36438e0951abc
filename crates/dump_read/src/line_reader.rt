ghost use Rattle.std.specs.Prelude.{◌≡◌, ◌≤◌, ◌<◌, ◌+◌, ◌∷◌, ◌++◌, [], ℕ, List as Seq, IfErr, OnOk, length};
ghost use Rattle.limits.specs.declared.TheConstants.{MOST_BYTES};
ghost use Rattle.interval_set.specs.Numbers.{IsWidth};
ghost use Rattle.dump_grammar.specs.Lines.{IsLine};
ghost use Rattle.dump_read.specs.Pieces.{HasTaken, IsEarlyFaultOf};
ghost use Rattle.dump_read.specs.inner.Parts.{StopsAt};
ghost use Rattle.dump_read.specs.inner.Positions.{Position, Step};
ghost use Rattle.dump_read.specs.inner.States.{Shows};

use crate::fault::{LineFault, ReadFault};
use crate::lines::ended_line;
use crate::state::State;
use crate::steps::take_line;
use addr_text::Family;
use std::alloc::Global;

/// Takes a text's lines as their bytes come.
#[derive(Drop)]
pub(crate) struct LineReader<const W: u32> {
    /// What was read of the lines that are ended.
    pub state: State<W>,
    /// How many lines are ended.
    pub count: u32,
    /// The bytes of the line that isn't ended yet.
    pub unfinished: Vec<u8>,
}

impl<const W: u32> LineReader<W> {
    ghost use Rattle.std.specs.Prelude.{◌≡◌, [], None};
    ghost use Rattle.dump_read.specs.inner.Positions.{Position};
    ghost use Rattle.dump_read.specs.inner.States.{Shows};

    /// The reader before the first byte.
    pub(crate) fn new(alloc: Global) -> LineReader<W>
        ensures state { Shows result.state (Position.Outside None) }
        ensures count { result.count ≡ 0 }
        ensures unfinished { result.unfinished.items ≡ [] }
    {
        LineReader {
            state: State::new(alloc),
            count: 0,
            unfinished: Vec::new(alloc),
        }
    }
}

/// Takes the next line, which has this number.
pub(crate) fn take_numbered<F: Family<W>, const W: u32>(
    alloc: Global,
    state: &mut State<W>,
    line: &[u8],
    number: u32,
) -> Result<(), ReadFault>
    requires width { IsWidth W }
    requires size { length line.now ≤ MOST_BYTES }
    requires line { IsLine line.now }
    requires few { length state.old.names < MOST_BYTES }
    requires stands { (p : Position W) × Shows state.old p }
    ensures moved { OnOk result ((p : Position W) → Shows state.old p →
        (q : Position W) × (Step W F.Reads p (record { number = number; bytes = line.now }) q × Shows state.new q)) }
    ensures stuck { IfErr result (StopsAt number ((p q : Position W) → Shows state.old p →
        Step W F.Reads p (record { number = number; bytes = line.now }) q → ⊥)) }
{
    match take_line::<F, W>(alloc, state, line, number) {
        Ok(()) => Ok(()),
        Err(LineFault::Malformed) => Err(ReadFault::Malformed { line: number }),
        Err(LineFault::Memory) => Err(ReadFault::Memory),
    }
}

// Takes as the next line what is unfinished and then these bytes, after which a line feed stands.
fn end_line<F: Family<W>, const W: u32>(
    alloc: Global,
    reader: &mut LineReader<W>,
    bytes: &[u8],
) -> Result<(), ReadFault>
    requires width { IsWidth W }
    requires line { IsLine bytes.now }
    requires stands { (text : Seq ℕ) × (HasTaken W F.Reads reader.old text × (length text + length bytes.now < MOST_BYTES)) }
    ensures taken { OnOk result ((text : Seq ℕ) → HasTaken W F.Reads reader.old text →
        HasTaken W F.Reads reader.new (text ++ (bytes.now ++ 10 ∷ []))) }
    ensures stuck { IfErr result (λ fault. (text more : Seq ℕ) → HasTaken W F.Reads reader.old text →
        IsEarlyFaultOf W F.Reads (text ++ (bytes.now ++ 10 ∷ more)) fault) }
{
    reader.count += 1;
    if reader.unfinished.is_empty() {
        return take_numbered::<F, W>(alloc, &mut reader.state, bytes, reader.count);
    }
    reader.unfinished.extend_from_slice(bytes)?;
    take_numbered::<F, W>(alloc, &mut reader.state, &reader.unfinished, reader.count)?;
    reader.unfinished.clear();
    Ok(())
}

/// Takes the lines that the piece ends, and keeps the bytes behind its last line feed.
pub(crate) fn take_piece<F: Family<W>, const W: u32>(
    alloc: Global,
    reader: &mut LineReader<W>,
    piece: &[u8],
) -> Result<(), ReadFault>
    requires width { IsWidth W }
    requires stands { (text : Seq ℕ) × (HasTaken W F.Reads reader.old text × (length text + length piece.now ≤ MOST_BYTES)) }
    ensures taken { OnOk result ((text : Seq ℕ) → HasTaken W F.Reads reader.old text →
        HasTaken W F.Reads reader.new (text ++ piece.now)) }
    ensures stuck { IfErr result (λ fault. (text : Seq ℕ) → HasTaken W F.Reads reader.old text →
        IsEarlyFaultOf W F.Reads (text ++ piece.now) fault) }
{
    let mut rest = piece;
    while let Some((line, after)) = ended_line(rest) {
        end_line::<F, W>(alloc, reader, line)?;
        rest = after;
    }
    reader.unfinished.extend_from_slice(rest)?;
    Ok(())
}
