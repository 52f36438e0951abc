//! What every crate above rests on: the parts of a text at a byte, and small facts on lists and truth values.
#![tactic(auto)]

mod parting;

pub use parting::{last_parted, parted};
