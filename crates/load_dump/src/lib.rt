//! Generated dumps of a given size, for measuring.
#![tactic(auto)]

mod generating;

pub use generating::load_text;
