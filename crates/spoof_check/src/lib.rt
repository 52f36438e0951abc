//! Whether packets with forged sources may pass an interface.
#![tactic(auto)]

mod answers;
mod checking;

pub use answers::Spoof;
pub use checking::{searched_rules, spoof, verdict};
