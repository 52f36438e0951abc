ghost use Rattle.std.specs.Prelude.{◌≡◌, ◌<◌, ◌≤◌, ◌+◌, ◌++◌, List, [], ℕ, IfOk, IsErrOf, OnOk, length};
ghost use Rattle.fw_io.specs.Causes.{Rose};
ghost use Rattle.interval_set.specs.Numbers.{IsWidth};
ghost use Rattle.limits.specs.declared.TheConstants.{MOST_BYTES};
ghost use Rattle.fffuu_run.specs.Runs.{GivesTooMuch, GivesWhole, Intake, ReadsTooMuch, ReadsWhole};
ghost use Rattle.fffuu_run.specs.inner.Readings.{IsFed, IsReadOf};
ghost use Rattle.fffuu_run.specs.declared.reading.ReadError.TheVariants.{Memory};

use crate::dumps::DumpResult;
use addr_text::Family;
use dump_read::Reading;
use fw_io::Source;
use limits::MOST_BYTES;
use std::alloc::{AllocError, Global};

// How many bytes are asked for at a time.
const PIECE: usize = 65_536;

/// Why the source's text isn't there.
#[derive(Clone, Copy, Debug, PartialEq, Eq)]
pub enum ReadError {
    Failed,
    TooLong,
    Memory,
}

impl From<AllocError> for ReadError {
    ghost from_gives = { λ _ e. e ≡ Memory };

    fn from(_: AllocError) -> Self {
        ReadError::Memory
    }
}

/// What takes a text in pieces.
pub trait Taker: Drop {
    /// It has taken this text.
    ghost taken: { Self → List ℕ → Type 0 };

    /// Takes the next piece.
    fn take(&mut self, alloc: Global, piece: &[u8]) -> Result<(), AllocError>
        requires fits { (text : List ℕ) × (taken self.old text × (length text + length piece.now ≤ MOST_BYTES)) }
        ensures takes { OnOk result ((text : List ℕ) → taken self.old text → taken self.new (text ++ piece.now)) };
}

/// Keeps the bytes.
impl Taker for Vec<u8> {
    ghost use Rattle.std.specs.Prelude.{◌≡◌};

    ghost taken = { λ bytes text. bytes.items ≡ text };

    fn take(&mut self, alloc: Global, piece: &[u8]) -> Result<(), AllocError> {
        self.extend_from_slice(piece)
    }
}

/// Reads the dump that the text is. A reading that has failed answers its fault again, and drops the piece.
impl<F: Family<W>, const W: u32> Taker for Reading<F, W> {
    ghost use Rattle.interval_set.specs.Numbers.{IsWidth};
    ghost use Rattle.fffuu_run.specs.inner.Readings.{IsFed};

    ghost taken = { λ reading text. IsWidth W × IsFed W F.Reads reading text };

    fn take(&mut self, alloc: Global, piece: &[u8]) -> Result<(), AllocError> {
        let _ = self.feed(alloc, piece);
        Ok(())
    }
}

/// Reads all that there is, up to the most bytes and one past them, and gives what the text was read as. Its bytes aren't kept.
pub fn read_source<S: Source, F: Family<W>, const W: u32>(
    alloc: Global,
    source: &mut S,
) -> Result<DumpResult<W>, ReadError>
    requires { IsWidth W }
    ensures whole { IfOk result (λ read. (text : List ℕ) × (IsReadOf W F.Reads text read
        × (ReadsWhole (S.left source.old) (S.left source.new) text × GivesWhole
        (record { given = S.given source.old; ended = S.ended source.old })
        (record { given = S.given source.new; ended = S.ended source.new }) text))) }
    ensures failed { IsErrOf result ReadError.Failed → Rose (S.faults source.old) (S.faults source.new) }
    ensures too_long { IsErrOf result ReadError.TooLong
        → (text : List ℕ) × ReadsTooMuch (S.left source.old) (S.left source.new) text }
    ensures steady { S.faults source.old < S.faults source.new → IsErrOf result ReadError.Failed }
    ensures gives_too_much { IsErrOf result ReadError.TooLong → (text : List ℕ) × GivesTooMuch
        (record { given = S.given source.old; ended = S.ended source.old })
        (record { given = S.given source.new; ended = S.ended source.new }) text }
{
    let reading = read_all(alloc, source, Reading::<F, W>::new(alloc))?;
    Ok(finished::<F, W>(alloc, reading))
}

/// Reads all that there is, up to the most bytes and one past them, and gives its bytes.
pub fn read_bytes<S: Source>(alloc: Global, source: &mut S) -> Result<Vec<u8>, ReadError>
    ensures whole { IfOk result (λ bytes. ReadsWhole (S.left source.old) (S.left source.new) bytes.items × GivesWhole
        (record { given = S.given source.old; ended = S.ended source.old })
        (record { given = S.given source.new; ended = S.ended source.new }) bytes.items) }
    ensures failed { IsErrOf result ReadError.Failed → Rose (S.faults source.old) (S.faults source.new) }
    ensures too_long { IsErrOf result ReadError.TooLong
        → (text : List ℕ) × ReadsTooMuch (S.left source.old) (S.left source.new) text }
    ensures steady { S.faults source.old < S.faults source.new → IsErrOf result ReadError.Failed }
    ensures gives_too_much { IsErrOf result ReadError.TooLong → (text : List ℕ) × GivesTooMuch
        (record { given = S.given source.old; ended = S.ended source.old })
        (record { given = S.given source.new; ended = S.ended source.new }) text }
{
    read_all(alloc, source, Vec::new(alloc))
}

// Has all taken that there is.
fn read_all<S: Source, T: Taker>(alloc: Global, source: &mut S, taker: T) -> Result<T, ReadError>
    requires { T.taken taker [] }
    ensures whole { IfOk result (λ taker. (text : List ℕ) × (T.taken taker text
        × (ReadsWhole (S.left source.old) (S.left source.new) text × GivesWhole
        (record { given = S.given source.old; ended = S.ended source.old })
        (record { given = S.given source.new; ended = S.ended source.new }) text))) }
    ensures failed { IsErrOf result ReadError.Failed → Rose (S.faults source.old) (S.faults source.new) }
    ensures too_long { IsErrOf result ReadError.TooLong
        → (text : List ℕ) × ReadsTooMuch (S.left source.old) (S.left source.new) text }
    ensures steady { S.faults source.old < S.faults source.new → IsErrOf result ReadError.Failed }
    ensures gives_too_much { IsErrOf result ReadError.TooLong → (text : List ℕ) × GivesTooMuch
        (record { given = S.given source.old; ended = S.ended source.old })
        (record { given = S.given source.new; ended = S.ended source.new }) text }
{
    let mut buffer = vec![in alloc; 0u8; PIECE]?;
    read_through(alloc, source, taker, buffer.as_mut_slice())
}

// The same, by pieces that the buffer has room for.
fn read_through<S: Source, T: Taker>(
    alloc: Global,
    source: &mut S,
    mut taker: T,
    buffer: &mut [u8],
) -> Result<T, ReadError>
    requires empty { T.taken taker [] }
    requires room { 0 < length buffer.old }
    ensures whole { IfOk result (λ taker. (text : List ℕ) × (T.taken taker text
        × (ReadsWhole (S.left source.old) (S.left source.new) text × GivesWhole
        (record { given = S.given source.old; ended = S.ended source.old })
        (record { given = S.given source.new; ended = S.ended source.new }) text))) }
    ensures failed { IsErrOf result ReadError.Failed → Rose (S.faults source.old) (S.faults source.new) }
    ensures too_long { IsErrOf result ReadError.TooLong
        → (text : List ℕ) × ReadsTooMuch (S.left source.old) (S.left source.new) text }
    ensures steady { S.faults source.old < S.faults source.new → IsErrOf result ReadError.Failed }
    ensures gives_too_much { IsErrOf result ReadError.TooLong → (text : List ℕ) × GivesTooMuch
        (record { given = S.given source.old; ended = S.ended source.old })
        (record { given = S.given source.new; ended = S.ended source.new }) text }
{
    let mut size = 0;
    loop {
        let room = (MOST_BYTES + 1 - size).min(buffer.len());
        let Ok(count) = source.read(&mut buffer[..room]) else {
            return Err(ReadError::Failed);
        };
        if count == 0 {
            return Ok(taker);
        }
        if MOST_BYTES - size < count {
            return Err(ReadError::TooLong);
        }
        taker.take(alloc, &buffer[..count])?;
        size += count;
    }
}

// What the text was read as that the reading was fed.
fn finished<F: Family<W>, const W: u32>(alloc: Global, reading: Reading<F, W>) -> DumpResult<W>
    requires width { IsWidth W }
    requires fed { (text : List ℕ) × IsFed W F.Reads reading text }
    ensures { (text : List ℕ) → IsFed W F.Reads reading text → IsReadOf W F.Reads text result }
{
    reading.finish(alloc)
}
