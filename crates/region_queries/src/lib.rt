//! Questions on dumps that a search of regions answers.
#![tactic(auto)]

mod answers;
mod asking;
mod closing;
mod covering;
mod dying;
mod fault;
mod living;
mod probing;
mod searching;
mod visiting;

pub use answers::{Cover, Live, Visit};
pub use covering::cover;
pub use dying::dead;
pub use fault::CoverFault;
pub use visiting::MOST_LISTED_VISITS;
