//! The call graph of a dump: which chains a chain reaches, and whether its calls end. Calls are gotos too: each leads from a chain to another.
#![tactic(auto)]

mod checking;
mod conditions;
mod graph;
mod groups;
mod loops;
mod ranking;
mod reach;
mod targets;

pub use checking::check;
pub use conditions::{calls_name_chains, has_room};
pub use graph::{GraphFault, Ranked};
pub use loops::first_loop;
pub use ranking::ranked;
pub use reach::{reachable, reached_by_call, rules_of};
pub use targets::{Target, least_unsupported};
