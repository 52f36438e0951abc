use fw_io::{MemSink, MemSource, PureSink, PureSource, Sink, Source, StdSink, StdSource};
use match_expr::{Bytes, List};
use std::alloc::{AllocError, Global};
use std::io::{self, ErrorKind, Read, Write};
use std::test::Fail;

/// What stands for a call that fails, in the place of a count.
const FAILED: usize = 99;

/// What the next call gives of three bytes.
fn next<S: Source>(source: &mut S) -> usize {
    let mut buf = [0u8; 3];
    source.read(&mut buf).unwrap_or(FAILED)
}

/// What the next call takes of a piece.
fn put<S: Sink>(sink: &mut S, piece: &[u8]) -> usize {
    sink.write(piece).unwrap_or(FAILED)
}

fn text(alloc: Global) -> Result<Bytes, AllocError> {
    Ok(Bytes::of(b"abcde".to_vec(alloc)?))
}

#[test]
fn a_source_fails_at_the_listed_calls_and_takes_nothing_then(rt: HostRuntime) -> Result<(), Fail> {
    let alloc = rt.alloc();
    let mut source = MemSource::new(text(alloc)?, 2, List::of([1u64, 3].to_vec(alloc)?));
    let first = next(&mut source);
    assert_eq!(rt; source.left(), b"abcde".as_slice());
    let counts = [
        first,
        next(&mut source),
        next(&mut source),
        next(&mut source),
        next(&mut source),
        next(&mut source),
    ];
    assert_eq!(rt; counts, [FAILED, 2, FAILED, 2, 1, 0]);
    Ok(())
}

#[test]
fn a_sink_fails_at_the_listed_calls_and_where_it_is_full(rt: HostRuntime) -> Result<(), Fail> {
    let alloc = rt.alloc();
    let mut sink = MemSink::new(alloc, 7, 5, List::of([2u64].to_vec(alloc)?))?;
    let counts = [
        put(&mut sink, b"*filter\n"),
        put(&mut sink, b"er\n"),
        put(&mut sink, b""),
        put(&mut sink, b"er\n"),
        put(&mut sink, b"\n"),
    ];
    assert_eq!(rt; counts, [5, FAILED, 0, 2, FAILED]);
    assert_eq!(rt; sink.held(), b"*filter".as_slice());
    Ok(())
}

#[test]
fn pure_ones_and_adapters_pass_bytes_on(rt: HostRuntime) -> Result<(), Fail> {
    let mut buf = [0u8; 2];
    let mut pure = PureSource::new(text(rt.alloc())?);
    assert_eq!(rt; pure.read(&mut buf).unwrap_or(FAILED), 2);
    assert_eq!(rt; buf, *b"ab");
    let mut source = StdSource::new(b"abcd".as_slice());
    let mut sink = StdSink::new(Vec::<u8>::new(rt.alloc()));
    let counts = [
        next(&mut pure),
        next(&mut pure),
        next(&mut source),
        next(&mut source),
        next(&mut source),
        put(&mut PureSink::new(), b"abc"),
        put(&mut sink, b"abc"),
        put(&mut sink, b""),
    ];
    assert_eq!(rt; counts, [3, 0, 3, 1, 0, 3, 3, 0]);
    Ok(())
}

/// Its first call gives or takes one byte. Its second fails, or takes nothing. Behind that it takes a piece whole, and
/// then can't pass it on.
#[derive(Drop)]
struct Breaking {
    calls: u8,
}

impl Read for Breaking {
    fn read(&mut self, buf: &mut [u8]) -> io::Result<usize> {
        self.calls = self.calls.saturating_add(1);
        if self.calls == 1 {
            Ok(buf.len().min(1))
        } else {
            Err(ErrorKind::Other.into())
        }
    }
}

impl Write for Breaking {
    fn write(&mut self, buf: &[u8]) -> io::Result<usize> {
        self.calls = self.calls.saturating_add(1);
        Ok(match self.calls {
            1 => buf.len().min(1),
            2 => 0,
            _ => buf.len(),
        })
    }

    fn flush(&mut self) -> io::Result<()> {
        if self.calls > 2 {
            Err(ErrorKind::Other.into())
        } else {
            Ok(())
        }
    }
}

#[test]
fn adapters_make_one_call_and_fail_where_what_is_inside_fails(rt: HostRuntime) {
    let mut source = StdSource::new(Breaking { calls: 0 });
    let mut sink = StdSink::new(Breaking { calls: 0 });
    let counts = [
        next(&mut source),
        next(&mut source),
        put(&mut sink, b"abc"),
        put(&mut sink, b"abc"),
        put(&mut sink, b"abc"),
    ];
    assert_eq!(rt; counts, [1, FAILED, 1, FAILED, FAILED]);
}
