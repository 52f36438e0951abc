//! The words of a command line, and the request that they spell.
#![tactic(auto)]

mod claims;
mod command;
mod fields;
mod laws;
mod line;
mod names;
mod packets;
mod routes;
mod services;
mod sides;
mod spaces;
mod spelling;
mod types;

pub use iface_space::Hop;
pub use laws::one_request;
pub use spaces::{routes_of, set_of, zones_of};
pub use spelling::spell;
pub use types::{Claim, Mode, Request, SpellFault};
