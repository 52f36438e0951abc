//! Why a packet is accepted or dropped: for each verdict that some meaning of the unknown literals leads to, one such
//! meaning.
#![tactic(auto)]

mod answer;
mod choosing;
mod explaining;
mod laws;
mod reach;
mod views;

pub use answer::{Explain, ExplainFault};
pub use explaining::explain;
pub use laws::one_explanation;
