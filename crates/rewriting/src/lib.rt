//! The table of the rewriting: what is made of a rule when a chain is closed.
#![tactic(auto)]

mod kinds;
mod rows;

pub use kinds::{ActionKind, kind_of};
pub use rows::{Mode, Row, row_of};
