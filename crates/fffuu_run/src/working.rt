ghost use Rattle.std.specs.Prelude.{◌≡◌, ◌<◌, ◌⊎◌, ℕ, List, IfErr, IfOk, IsErrOf};
ghost use Rattle.fw_io.specs.Causes.{Rose};
ghost use Rattle.interval_set.specs.Numbers.{IsWidth};
ghost use Rattle.request.specs.Requests.{HasBounds, width_of};
ghost use Rattle.fffuu_run.specs.Answers.{IsAnswer, IsRefusedAs};
ghost use Rattle.fffuu_run.specs.Runs.{AnswersTo, Device, Devices, GivesFor, GivesTooMuch, Intake, IsPassed, IsRead, IsRunOf, ReadsTooMuch, Streams, Writes};
ghost use Rattle.fffuu_run.specs.inner.Readings.{IsOver};

use crate::Status;
use crate::answering::{output, text_output};
use crate::reading::{ReadError, read_bytes, read_source};
use crate::writing::write_all;
use addr_text::{Family, V4, V6};
use fw_io::{Sink, Source};
use request::{Mode, Request};
use std::alloc::Global;

// What came of the text that the mode answers to: all that the source gives, and for a load, which reads nothing, an empty one.
fn outcome_for<S: Source, F: Family<W>, const W: u32>(
    alloc: Global,
    request: &Request,
    source: &mut S,
) -> Result<Result<Vec<u8>, Status>, ReadError>
    requires width { IsWidth W }
    requires family { width_of request.now.six ≡ W }
    requires over { IsOver request.now W F.Reads F.text_of }
    requires bounds { HasBounds request.now.six request.now.mode }
    ensures takes { IfOk result (λ outcome. (text : List ℕ) × ((IfOk outcome (λ written. IsAnswer request.now text written.items)
        × IfErr outcome (λ s. (s ≡ Status.Memory) ⊎ IsRefusedAs request.now text s)) × (AnswersTo request.now.mode
        (record { bytes = S.left source.old; faults = S.faults source.old })
        (record { bytes = S.left source.new; faults = S.faults source.new }) text × GivesFor request.now.mode
        (record { given = S.given source.old; ended = S.ended source.old })
        (record { given = S.given source.new; ended = S.ended source.new }) text))) }
    ensures unread { (IsRead request.now.mode → ⊥) → source.new ≡ source.old }
    ensures failed { IsErrOf result ReadError.Failed → IsRead request.now.mode × Rose (S.faults source.old) (S.faults source.new) }
    ensures too_long { IsErrOf result ReadError.TooLong
        → IsRead request.now.mode × ((text : List ℕ) × ReadsTooMuch (S.left source.old) (S.left source.new) text) }
    ensures steady { S.faults source.old < S.faults source.new → IsErrOf result ReadError.Failed }
    ensures gives_too_much { IsErrOf result ReadError.TooLong → (text : List ℕ) × GivesTooMuch
        (record { given = S.given source.old; ended = S.ended source.old })
        (record { given = S.given source.new; ended = S.ended source.new }) text }
{
    match &request.mode {
        Mode::Load(_) => Ok(text_output::<F, W>(alloc, request, b"")),
        Mode::Cover => {
            let text = read_bytes(alloc, source)?;
            Ok(text_output::<F, W>(alloc, request, &text))
        }
        _ => {
            let read = read_source::<S, F, W>(alloc, source)?;
            Ok(output::<F, W>(alloc, request, read))
        }
    }
}

/// Reads all there is where the mode reads, and writes the answer and nothing else.
pub fn work<S: Source, O: Sink>(
    alloc: Global,
    request: &Request,
    source: &mut S,
    out: &mut O,
) -> Status
    requires { HasBounds request.now.six request.now.mode }
    ensures used { result ≡ Status.Usage → ⊥ }
    ensures kept { (Writes result → ⊥) → out.new ≡ out.old }
    ensures unread { (IsRead request.now.mode → ⊥) → source.new ≡ source.old }
    ensures works { IsRunOf request.now
        (record {
          source = record { bytes = S.left source.old; faults = S.faults source.old };
          sink = record { bytes = O.held out.old; faults = O.faults out.old };
        })
        (record {
          source = record { bytes = S.left source.new; faults = S.faults source.new };
          sink = record { bytes = O.held out.new; faults = O.faults out.new };
        })
        result }

    // The same of what the reads gave and the writes acknowledged.
    ensures passed { IsPassed request.now
        (record { source = record { given = S.given source.old; ended = S.ended source.old }; acknowledged = O.acknowledged out.old })
        (record { source = record { given = S.given source.new; ended = S.ended source.new }; acknowledged = O.acknowledged out.new })
        result }

    // A call that failed ends the work.
    ensures rises { (S.faults source.old < S.faults source.new → result ≡ Status.ReadFault)
        × (O.faults out.old < O.faults out.new → result ≡ Status.WriteFault) }
{
    if request.six {
        work_in::<S, O, V6, 128>(alloc, request, source, out)
    } else {
        work_in::<S, O, V4, 32>(alloc, request, source, out)
    }
}

// The same, for a request that is over the addresses of this family.
fn work_in<S: Source, O: Sink, F: Family<W>, const W: u32>(
    alloc: Global,
    request: &Request,
    source: &mut S,
    out: &mut O,
) -> Status
    requires width { IsWidth W }
    requires family { width_of request.now.six ≡ W }
    requires over { IsOver request.now W F.Reads F.text_of }
    requires bounds { HasBounds request.now.six request.now.mode }
    ensures used { result ≡ Status.Usage → ⊥ }
    ensures kept { (Writes result → ⊥) → out.new ≡ out.old }
    ensures unread { (IsRead request.now.mode → ⊥) → source.new ≡ source.old }
    ensures works { IsRunOf request.now
        (record {
          source = record { bytes = S.left source.old; faults = S.faults source.old };
          sink = record { bytes = O.held out.old; faults = O.faults out.old };
        })
        (record {
          source = record { bytes = S.left source.new; faults = S.faults source.new };
          sink = record { bytes = O.held out.new; faults = O.faults out.new };
        })
        result }

    // The same of what the reads gave and the writes acknowledged.
    ensures passed { IsPassed request.now
        (record { source = record { given = S.given source.old; ended = S.ended source.old }; acknowledged = O.acknowledged out.old })
        (record { source = record { given = S.given source.new; ended = S.ended source.new }; acknowledged = O.acknowledged out.new })
        result }

    // A call that failed ends the work.
    ensures rises { (S.faults source.old < S.faults source.new → result ≡ Status.ReadFault)
        × (O.faults out.old < O.faults out.new → result ≡ Status.WriteFault) }
{
    let written = match outcome_for::<S, F, W>(alloc, request, source) {
        Ok(Ok(written)) => written,
        Ok(Err(status)) => return status,
        Err(ReadError::Failed) => return Status::ReadFault,
        Err(ReadError::TooLong) => return Status::InputTooLong,
        Err(ReadError::Memory) => return Status::Memory,
    };
    match write_all(out, &written) {
        Ok(()) => Status::Ok,
        Err(_) => Status::WriteFault,
    }
}
