//! Reads standard input, writes standard output and standard error, and ends with the number of the run's status.
#![tactic(auto)]

use fffuu_run::run;
use fw_io::{StdSink, StdSource};
use std::env;
use std::io::ErrorKind;
use std::process::ExitCode;

// The end where memory for the words is wanting.
const NO_MEMORY: u8 = 12;

// The end where the words can't be had for another cause, such as a word that isn't UTF-8.
const NO_WORDS: u8 = 15;

// The words after the program's name, or the number to end with.
fn words(rt: &HostRuntime) -> Result<Vec<String>, u8> {
    let args = match env::args(rt) {
        Ok(args) => args,
        Err(error) if error.kind() == ErrorKind::OutOfMemory => return Err(NO_MEMORY),
        Err(_) => return Err(NO_WORDS),
    };
    args.skip(1).collect(rt.alloc()).map_err(|_| NO_MEMORY)
}

fn main(rt: HostRuntime) -> ExitCode {
    let words = match words(&rt) {
        Ok(words) => words,
        Err(code) => return ExitCode::from(code),
    };
    let mut source = StdSource::new(rt.stdin());
    let mut out = StdSink::new(rt.stdout());
    let mut err = StdSink::new(rt.stderr());
    let status = run(rt.alloc(), &words, &mut source, &mut out, &mut err);
    ExitCode::from(status.code())
}
