//! Reads small dumps, a line each, and writes a line for each: which packets may and must be accepted by its closed lists, and the numbers of items of both sides.
//!
//! `must` is a packet that both lists accept, `may` one that the upper list alone accepts, and `never` one that neither does. `wrong` is one on which the lists and walks under every meaning
//! differ. A dump whose lists are refused for their size has its numbers alone.
#![tactic(auto)]

mod asking;
mod dumps;
mod reading;
mod trial;

use crate::reading::dump;
use crate::trial::answer;
use closure::FlatFault;
use std::alloc::Global;
use std::io;
use std::process::ExitCode;

/// What is written for a line.
fn described(alloc: Global, line: &str) -> Result<String, FlatFault> {
    match dump(alloc, line)? {
        Some(dump) => answer(alloc, &dump),
        None => Ok(String::from_str(alloc, "no dump")?),
    }
}

/// Writes a line for each line that is read; false where memory ran out.
fn all_described(rt: &HostRuntime) -> io::Result<bool> {
    for line in rt.lines(rt.alloc()) {
        let Ok(text) = described(rt.alloc(), line?.as_str()) else {
            return Ok(false);
        };
        println!(rt; "{text}")?;
    }
    Ok(true)
}

fn main(rt: HostRuntime) -> ExitCode {
    match all_described(&rt) {
        Ok(true) => ExitCode::from(0),
        Ok(false) => ExitCode::from(12),
        Err(_) => ExitCode::from(3),
    }
}
