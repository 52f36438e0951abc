use fffuu_run::{run, run_pure};
use fw_io::{MemSink, MemSource};
use match_expr::{Bytes, List};
use std::alloc::{AllocError, Global};
use std::process::Abort;
use std::test::Fail;

/// A filter that is its own upper filter: 70 bytes, which are ten reads and ten writes of seven bytes.
const FILTER: &[u8] = b"*filter\n:FORWARD DROP [0:0]\n-A FORWARD -s 10.0.0.0/8 -j ACCEPT\nCOMMIT\n";

const READ_FAILED: &[u8] = b"fffuu: read failed\n";

const WRITE_FAILED: &[u8] = b"fffuu: write failed\n";

/// What stands after a run.
#[derive(Drop)]
struct Ending {
    code: u8,
    out: MemSink,
    err: MemSink,
}

fn upper(alloc: Global) -> Result<Vec<String>, AllocError> {
    let mut words = Vec::new(alloc);
    words.push(String::from_str(alloc, "upper")?)?;
    Ok(words)
}

/// The list of one call.
fn only(alloc: Global, call: u64) -> Result<List<u64>, AllocError> {
    Ok(List::of(Vec::from_slice(alloc, &[call])?))
}

/// A run of `upper` over the filter, seven bytes a call. The calls of these numbers fail; none has the number 0.
fn run_failing_at(
    alloc: Global,
    read: u64,
    write: u64,
    telling: u64,
) -> Result<Ending, AllocError> {
    let words = upper(alloc)?;
    let input = Bytes::of(Vec::from_slice(alloc, FILTER)?);
    let mut source = MemSource::new(input, 7, only(alloc, read)?);
    let mut out = MemSink::new(alloc, 70, 7, only(alloc, write)?)?;
    let mut err = MemSink::new(alloc, 100, 7, only(alloc, telling)?)?;
    let code = run(alloc, &words, &mut source, &mut out, &mut err).code();
    Ok(Ending { code, out, err })
}

/// A run ended with this status, wrote so many bytes of the filter and told this line.
fn ended(rt: &impl Abort, end: &Ending, code: u8, count: usize, line: &[u8]) {
    assert_eq!(rt; end.code, code);
    assert_eq!(rt; end.out.held().len(), count);
    assert!(rt; FILTER.starts_with(end.out.held()));
    assert_eq!(rt; end.err.held(), line);
}

/// The eleventh read finds the end of the input, and there is no twelfth one.
#[test]
fn each_read_that_fails_ends_the_run(rt: HostRuntime) -> Result<(), Fail> {
    for call in 1u64..12 {
        ended(
            &rt,
            &run_failing_at(rt.alloc(), call, 0, 0)?,
            2,
            0,
            READ_FAILED,
        );
    }
    ended(&rt, &run_failing_at(rt.alloc(), 12, 0, 0)?, 0, 70, b"");
    Ok(())
}

#[test]
fn each_write_that_fails_leaves_what_went_out_before(rt: HostRuntime) -> Result<(), Fail> {
    for done in 0u64..10 {
        let end = run_failing_at(rt.alloc(), 0, done + 1, 0)?;
        ended(&rt, &end, 3, 7 * done as usize, WRITE_FAILED);
    }
    ended(&rt, &run_failing_at(rt.alloc(), 0, 11, 0)?, 0, 70, b"");
    Ok(())
}

#[test]
fn a_line_that_cannot_be_told_changes_no_status(rt: HostRuntime) -> Result<(), Fail> {
    ended(&rt, &run_failing_at(rt.alloc(), 1, 0, 1)?, 2, 0, b"");
    ended(&rt, &run_failing_at(rt.alloc(), 0, 2, 2)?, 3, 7, b"fffuu: ");
    Ok(())
}

#[test]
fn a_run_over_bytes_has_the_same_status(rt: HostRuntime) -> Result<(), Fail> {
    let words = upper(rt.alloc())?;
    let input = Bytes::of(Vec::from_slice(rt.alloc(), FILTER)?);
    assert_eq!(rt; run_pure(rt.alloc(), &words, input).code(), 0);
    Ok(())
}
