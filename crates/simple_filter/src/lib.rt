//! Dumps of a filter table with the tests of interface names hidden, and chains closed into simple rules.
#![tactic(auto)]

mod closing;
mod collecting;
mod cubes;
mod hiding;
mod laws;
mod refusal;

pub use closing::closed;
pub use hiding::{Hide, abstracted};
pub use laws::{
    hiding_keeps_calls, hiding_keeps_settled, hiding_narrows_must, hiding_nothing,
    hiding_widens_may,
};
pub use refusal::{Kind, Refusal};
