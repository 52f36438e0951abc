//! Which addresses may open a service to which, as a matrix over classes of addresses.
#![tactic(auto)]

mod building;
mod classes;
mod joining;
mod laws;
mod rows;
mod sets;
mod table;

pub use building::matrix;
pub use laws::{alike_packets, one_matrix};
pub use rows::{column, row};
pub use service_packet::Service;
pub use table::Matrix;
