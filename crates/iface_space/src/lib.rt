//! Which sources live behind which interface, and where a table of routes sends a packet: what stands in a dump in place
//! of tests of interface names, for packets that keep to it.
#![tactic(auto)]

mod assigning;
mod hop;
mod routes;
mod routing;
mod tested;
mod unnamed;
mod zones;

pub use assigning::{assigned, assigned_is_exact};
pub use hop::Hop;
pub use routes::{RouteFault, Routes};
pub use routing::{routed, routed_is_exact};
pub use unnamed::{unnamed_in, unnamed_out};
pub use zones::{Zone, ZoneFault, Zones};
