//! A run of the program from its words and its input to its output, its error line and its status.
#![tactic(auto)]

mod answering;
mod checking;
mod counting;
mod covering;
mod dividing;
mod dumps;
mod explaining;
mod filtering;
mod loading;
mod matrices;
mod questions;
mod reading;
mod routing;
mod spaces;
mod spoofing;
mod status;
mod telling;
mod top;
mod working;
mod writing;
mod zoning;

pub use answering::answer;
pub use load_dump::load_text;
pub use request::{Claim, Hop, Mode, Request, SpellFault, one_request, spell};
pub use simple_filter::Kind;
pub use status::Status;
pub use telling::report;
pub use top::{run, run_pure};
