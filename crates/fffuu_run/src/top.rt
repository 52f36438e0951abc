ghost use Rattle.std.specs.Prelude.{◌≡◌, ◌<◌, ◌⊎◌, ℕ, List, IfSome, map, string_bytes};
ghost use Rattle.fw_io.specs.Causes.{Rose};
ghost use Rattle.request.specs.Requests.{Spells, chain_in};
ghost use Rattle.request.specs.declared.types.Request.{Request as ARequest};
ghost use Rattle.fffuu_run.specs.Lines.{line_of};
ghost use Rattle.fffuu_run.specs.Runs.{Device, Devices, Intake, IsRead, IsRun, IsStatusOf, IsStreamed, Streams, WritesLine, Writes};

use crate::Status;
use crate::telling::report;
use crate::working::work;
use fw_io::{PureSink, PureSource, Sink, Source};
use match_expr::Bytes;
use request::{SpellFault, spell};
use std::alloc::Global;

// How the work ended, and the name of the chain that was asked about.
#[derive(Drop)]
struct Ending {
    status: Status,
    chain: Bytes,
}

// Reads the words, and does the work that they ask for.
fn answered<S: Source, O: Sink>(
    alloc: Global,
    words: &Vec<String>,
    source: &mut S,
    out: &mut O,
) -> Ending
    ensures unread { result.status ≡ Status.Usage → source.new ≡ source.old }
    ensures unused { (request : ARequest) → Spells (map string_bytes words.now.items) request → (IsRead request.mode → ⊥) → source.new ≡ source.old }
    ensures kept { (Writes result.status → ⊥) → out.new ≡ out.old }
    ensures named { result.status ≡ Status.NoChain → result.chain ≡ chain_in (map string_bytes words.now.items) }
    ensures ends { IsRun (map string_bytes words.now.items)
        (record {
          source = record { bytes = S.left source.old; faults = S.faults source.old };
          sink = record { bytes = O.held out.old; faults = O.faults out.old };
        })
        (record {
          source = record { bytes = S.left source.new; faults = S.faults source.new };
          sink = record { bytes = O.held out.new; faults = O.faults out.new };
        })
        result.status }
    ensures streamed { IsStreamed (map string_bytes words.now.items)
        (record { source = record { given = S.given source.old; ended = S.ended source.old }; acknowledged = O.acknowledged out.old })
        (record { source = record { given = S.given source.new; ended = S.ended source.new }; acknowledged = O.acknowledged out.new })
        result.status }
    ensures rises { (S.faults source.old < S.faults source.new → result.status ≡ Status.ReadFault)
        × (O.faults out.old < O.faults out.new → result.status ≡ Status.WriteFault) }
{
    match spell(alloc, words) {
        Ok(request) => {
            let status = work(alloc, &request, source, out);
            Ending {
                status,
                chain: request.chain,
            }
        }
        Err(SpellFault::Usage) => Ending {
            status: Status::Usage,
            chain: Bytes::of(Vec::new(alloc)),
        },
        Err(SpellFault::Memory) => Ending {
            status: Status::Memory,
            chain: Bytes::of(Vec::new(alloc)),
        },
    }
}

/// Reads the words, then the source to its end, and writes the answer to `out`. A refusal is told in one line on `err`.
///
/// The words are those after the program's name: a mode, `check`, `upper`, `lower`, `matrix`, `spoof`, `explain`, `load` or `cover`, its
/// arguments, and perhaps `--chain NAME`, `--family 4` or `--family 6`, and for a matrix `--side upper` or `--side lower`. The text has
/// at most 16,777,216 bytes. The answer to `check` is a line of counts of its filter table. To `upper` it is the text of a filter that
/// accepts exactly the valid packets that some truth of the unknown matches lets the asked chain accept, and to `lower` one that
/// accepts exactly those that every such truth does. To `matrix`, with a service, it is the coarsest partition of all addresses by
/// which of them may (or must) be let open the service to which, the tests of interface names counted as unknown. To `spoof`, with
/// interfaces and the addresses behind each, it is for each of them whether a packet of the state NEW from another source may pass, the
/// tests of output interfaces counted as unknown. To `explain`, with the fields of a packet, it is one way in which the packet is
/// accepted and one in which it is dropped. A load reads nothing: its answer is how large the filters of a generated dump are. To
/// `cover`, whose text is two dumps with a line that is `%%` between them, it is whether the second must accept every valid packet that
/// the first may accept, or such a packet that it needn't.
///
/// The refusals in their order; each comes only where none before it does:
/// - `Usage` exactly where the words spell no request. The source stays unread.
/// - `ReadFault` only in a mode that reads, and only where the source's count of faults rose.
/// - `InputTooLong` exactly where a mode reads and byte 16,777,217 came before the end. No more than that is taken.
/// - `NoDivider` exactly where two dumps are asked about and no line is `%%`. Else all refusals of the first come before those of the
///   second, whose lines count from the beginning of the text.
/// - `Malformed` exactly where that line is the first outside the grammar.
/// - `NoFilter` exactly where every line is well formed and no table filter is there.
/// - `UndefinedChain` exactly where that line is the first rule line of a chain that isn't declared, or whose goto leads to no declared user chain.
/// - `NoChain` exactly where the asked chain isn't declared with a policy.
/// - `Unsupported` exactly where that is the least line of a rule in reach whose target isn't supported.
/// - `CallLoop` exactly where that is the first declared chain in reach that leads to itself over some path of calls and gotos.
/// - `Limit` exactly where the number of that kind is past its limit, and no kind before it is: the chains on a call path for
///   all modes, then for a filter, a matrix and a verdict on sources the items of the rewritten tree, the literals of its flat list, the
///   longest list of cubes and the simple rules, then for a filter the printed lines, for a matrix the boundaries of address sets, for a
///   verdict the regions of its search, and for an explanation the visits of rules. For a load each is the greater number of both sides.
///   For two dumps the numbers of the first are those of side upper, those of the second of side lower, and the regions of the search
///   come after both.
/// - `WriteFault` only where the count of `out` rose. Less than the whole answer went out.
///
/// `Memory` may stand in place of each. After a refusal other than `WriteFault` nothing went out.
pub fn run<S: Source, O: Sink, E: Sink>(
    alloc: Global,
    words: &Vec<String>,
    source: &mut S,
    out: &mut O,
    err: &mut E,
) -> Status
    ensures ends { IsRun (map string_bytes words.now.items)
        (record {
          source = record { bytes = S.left source.old; faults = S.faults source.old };
          sink = record { bytes = O.held out.old; faults = O.faults out.old };
        })
        (record {
          source = record { bytes = S.left source.new; faults = S.faults source.new };
          sink = record { bytes = O.held out.new; faults = O.faults out.new };
        })
        result }

    // After Usage and in a load the source, and after each refusal but a failed write the sink, is the one that it was.
    ensures unread { result ≡ Status.Usage → source.new ≡ source.old }
    ensures unused { (request : ARequest) → Spells (map string_bytes words.now.items) request → (IsRead request.mode → ⊥) → source.new ≡ source.old }
    ensures kept { (Writes result → ⊥) → out.new ≡ out.old }

    // A front of the status's line stands on `err`, all of it where no write there failed.
    ensures told { (sent rest : List ℕ) × WritesLine
        (record { bytes = E.held err.old; faults = E.faults err.old })
        (record { bytes = E.held err.new; faults = E.faults err.new })
        (line_of (chain_in (map string_bytes words.now.items)) result) sent rest }

    // Exactly where the words spell no request, but for want of memory.
    ensures usage { result ≡ Status.Usage → (request : ARequest) → Spells (map string_bytes words.now.items) request → ⊥ }
    ensures no_request { ((request : ARequest) → Spells (map string_bytes words.now.items) request → ⊥)
        → (result ≡ Status.Usage) ⊎ (result ≡ Status.Memory) }

    // Where the words are right and the source tells what it has, the text decides the status.
    ensures exact { (request : ARequest) → Spells (map string_bytes words.now.items) request
        → IfSome (S.left source.old) (λ text. IsStatusOf request text result) }

    // A read or a write fails only where its count rises, so where none does the text alone decides, but for want of memory.
    ensures faults { (result ≡ Status.ReadFault → Rose (S.faults source.old) (S.faults source.new))
        × (result ≡ Status.WriteFault → Rose (O.faults out.old) (O.faults out.new)) }

    // The same of what the reads gave, up to one that gave none, and of what the writes acknowledged: so of each source and sink, also of
    // one that doesn't tell what is left or held.
    ensures streamed { IsStreamed (map string_bytes words.now.items)
        (record { source = record { given = S.given source.old; ended = S.ended source.old }; acknowledged = O.acknowledged out.old })
        (record { source = record { given = S.given source.new; ended = S.ended source.new }; acknowledged = O.acknowledged out.new })
        result }

    // A read or a write that failed ends the run: where a count rose, that is the status.
    ensures rises { (S.faults source.old < S.faults source.new → result ≡ Status.ReadFault)
        × (O.faults out.old < O.faults out.new → result ≡ Status.WriteFault) }
{
    let Ending { status, chain } = answered(alloc, words, source, out);
    report(alloc, chain.as_slice(), status, err)
}

/// The status of a run over bytes in memory, whose output and error line go nowhere. No read or write fails.
pub fn run_pure(alloc: Global, words: &Vec<String>, bytes: Bytes) -> Status
    ensures no_read_fault { result ≡ Status.ReadFault → ⊥ }
    ensures no_write_fault { result ≡ Status.WriteFault → ⊥ }
    ensures usage { result ≡ Status.Usage → (request : ARequest) → Spells (map string_bytes words.now.items) request → ⊥ }
    ensures no_request { ((request : ARequest) → Spells (map string_bytes words.now.items) request → ⊥)
        → (result ≡ Status.Usage) ⊎ (result ≡ Status.Memory) }
    ensures exact { (request : ARequest) → Spells (map string_bytes words.now.items) request → IsStatusOf request bytes result }
{
    let mut source = PureSource::new(bytes);
    let mut out = PureSink::new();
    let mut err = PureSink::new();
    run(alloc, words, &mut source, &mut out, &mut err)
}
