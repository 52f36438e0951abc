//! Laws of the walk of a packet through a dump. Each is the contract of a function that does nothing.
#![tactic(auto)]

mod hidden;
mod known;
mod mapped;
mod packets;
mod places;
mod shape;
mod verdicts;

pub use hidden::{hiding_narrows_must, hiding_widens_may, nothing_hidden};
pub use known::known_is_decided;
pub use mapped::mapping_keeps_the_rest;
pub use packets::packets_alike;
pub use places::{no_place_twice, others_dont_matter};
pub use shape::same_rules_same_walk;
pub use verdicts::{dropped_or_accepted, exactly_one_verdict, must_is_may};
