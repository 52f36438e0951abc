//! The groups of addresses that some sets can't tell apart.
#![tactic(auto)]

mod atoms;
mod boundaries;
mod classes;
mod fault;
mod grouping;

pub use fault::GroupFault;
pub use grouping::groups;
