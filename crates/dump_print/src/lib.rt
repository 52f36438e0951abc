//! Prints a list of simple rules as a table in the form of iptables-save.
#![tactic(auto)]

mod addresses;
mod counting;
mod fault;
mod flags;
mod helpers;
mod laws;
mod lines;
mod names;
mod numbers;
mod ports;
mod printing;
mod sets;
mod writer;

pub use fault::PrintFault;
pub use flags::FlagCube;
pub use laws::{flags_are_kept, ports_are_kept, words_are_kept};
pub use names::pattern_text;
pub use numbers::Numbers;
pub use printing::{Printed, print};
