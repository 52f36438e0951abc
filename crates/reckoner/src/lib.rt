//! What may and what must be accepted, reckoned by one walk for each meaning over the places of a small dump. Tests compare other answers with these.
#![tactic(auto)]

mod places;
mod reckoning;

pub use reckoning::{Reckoned, reckon};
