//! The search of a region of packets for one that a list of rules accepts.
#![tactic(auto)]

mod apart;
mod fault;
mod hit;
mod search;

pub use apart::have_none_common;
pub use fault::RegionFault;
pub use search::{first_hit, left_without};
