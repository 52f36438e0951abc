//! Texts of what the program shows.
#![tactic(auto)]

mod names;
mod packets;
mod places;
mod ranges;

pub use names::shown;
pub use packets::packet_text;
pub use places::place_text;
pub use ranges::ranges_text;
